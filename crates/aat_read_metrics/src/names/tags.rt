//! The tag of the table that names are read from.

use aat_bytes::Tag;

/// PostScript information: the names of glyphs.
pub const POST: Tag = Tag(0x706F_7374);
