//! The tags of the tables that are read, and of what stands before them in a file.

use crate::tag::Tag;

/// The directory of a font, as a table that has a fault.
pub const SFNT: Tag = Tag(0x7366_6E74);

/// The header of a collection of fonts.
pub const TTCF: Tag = Tag(0x7474_6366);

/// Anchor points: the points by which glyphs are attached.
pub const ANKR: Tag = Tag(0x616E_6B72);

/// Character map: the glyphs of characters.
pub const CMAP: Tag = Tag(0x636D_6170);

/// Feature names: the features and their settings.
pub const FEAT: Tag = Tag(0x6665_6174);

/// Glyph definition: the classes of glyphs.
pub const GDEF: Tag = Tag(0x4744_4546);

/// Glyph data: the outlines.
pub const GLYF: Tag = Tag(0x676C_7966);

/// Glyph positioning, which is another layer's.
pub const GPOS: Tag = Tag(0x4750_4F53);

/// Font header: the units of the em.
pub const HEAD: Tag = Tag(0x6865_6164);

/// Horizontal header: the number of long metrics.
pub const HHEA: Tag = Tag(0x6868_6561);

/// Horizontal metrics: the advances of glyphs.
pub const HMTX: Tag = Tag(0x686D_7478);

/// Kerning: the distances of pairs of glyphs.
pub const KERN: Tag = Tag(0x6B65_726E);

/// Extended kerning: the distances and attachments of glyphs.
pub const KERX: Tag = Tag(0x6B65_7278);

/// Index to location: where the data of each glyph begins.
pub const LOCA: Tag = Tag(0x6C6F_6361);

/// Maximum profile: the number of glyphs.
pub const MAXP: Tag = Tag(0x6D61_7870);

/// Extended glyph metamorphosis: the substitution of glyphs.
pub const MORX: Tag = Tag(0x6D6F_7278);

/// Names: the texts of features and settings.
pub const NAME: Tag = Tag(0x6E61_6D65);

/// Style attributes, of which only is told whether they are there.
pub const STAT: Tag = Tag(0x5354_4154);

/// Tracking: how much closer or wider letters stand at each size.
pub const TRAK: Tag = Tag(0x7472_616B);
