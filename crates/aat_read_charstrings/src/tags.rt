//! The tag of the table that charstrings are read from.

use aat_bytes::Tag;

/// Compact font format: the outlines, as charstrings.
pub const CFF: Tag = Tag(0x4346_4620);
