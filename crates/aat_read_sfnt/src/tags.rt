//! The tags of the tables that are read, and of what stands before them in a file.

use aat_bytes::Tag;
pub use aat_bytes::tags::{CMAP, GDEF, GLYF, HEAD, HHEA, HMTX, LOCA, MAXP, NAME, SFNT, TTCF};

/// OpenType's metrics: how far a font reaches above and below the baseline.
pub const OS_2: Tag = Tag(0x4F53_2F32);

/// Vertical header: the number of long metrics of columns.
pub const VHEA: Tag = Tag(0x7668_6561);

/// Vertical metrics: how far down the pen moves in columns.
pub const VMTX: Tag = Tag(0x766D_7478);

/// Vertical origins: where glyphs stand in columns.
pub const VORG: Tag = Tag(0x564F_5247);
