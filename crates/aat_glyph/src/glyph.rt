//! Glyph records, positions, and the plain words about them.
ghost use Rattle.std.specs.Prelude.{◌≡◌};
ghost use Rattle.aat_glyph.specs.Directions.{is_horizontal, is_vertical, is_forward, is_backward};

/// The bits of a glyph. The low three are those of `glyph_flag`.
pub type hb_mask_t = u32;

/// The bits of a mask that tell where a line may be cut.
pub mod glyph_flag {
    use super::hb_mask_t;

    /// A line that is cut at the start of this glyph's cluster has to be shaped again on both sides.
    pub const UNSAFE_TO_BREAK: hb_mask_t = 1;

    /// Parts that were shaped apart and meet at the start of this glyph's cluster may not be put together as
    /// they are.
    pub const UNSAFE_TO_CONCAT: hb_mask_t = 2;

    /// An elongation may go in at the start of this glyph's cluster.
    pub const SAFE_TO_INSERT_TATWEEL: hb_mask_t = 4;

    /// All bits that have a meaning here.
    pub const DEFINED: hb_mask_t = 7;
}

/// The glyph id of a glyph that shaping has deleted. (TrueType Reference Manual, The 'morx' table: the deleted
/// glyph index.)
pub const DELETED_GLYPH: u32 = 0xFFFF;

/// Merges apply, and a cluster is a grapheme.
pub const HB_BUFFER_CLUSTER_LEVEL_MONOTONE_GRAPHEMES: u8 = 0;

/// Merges apply, and a cluster is a character.
pub const HB_BUFFER_CLUSTER_LEVEL_MONOTONE_CHARACTERS: u8 = 1;

/// Clusters stay apart: a merge marks in place of joining.
pub const HB_BUFFER_CLUSTER_LEVEL_CHARACTERS: u8 = 2;

/// The direction of a text.
#[derive(Clone, Copy, PartialEq, Eq, Debug)]
pub enum Direction {
    /// Along a row, as its characters run.
    LeftToRight,
    /// Along a row, against its characters.
    RightToLeft,
    /// Along a column, as its characters run.
    TopToBottom,
    /// Along a column, against its characters.
    BottomToTop,
}

impl Direction {
    /// Whether the text runs along a row.
    pub fn is_horizontal(self) -> bool
        ensures { result ≡ is_horizontal self }
    {
        matches!(self, Direction::LeftToRight | Direction::RightToLeft)
    }

    /// Whether the text runs along a column.
    pub fn is_vertical(self) -> bool
        ensures { result ≡ is_vertical self }
    {
        matches!(self, Direction::TopToBottom | Direction::BottomToTop)
    }

    /// Whether the text runs as its characters do.
    pub fn is_forward(self) -> bool
        ensures { result ≡ is_forward self }
    {
        matches!(self, Direction::LeftToRight | Direction::TopToBottom)
    }

    /// Whether the text runs against its characters.
    pub fn is_backward(self) -> bool
        ensures { result ≡ is_backward self }
    {
        matches!(self, Direction::RightToLeft | Direction::BottomToTop)
    }
}

/// One glyph of a line. The default is all zero.
#[derive(Clone, Copy, PartialEq, Eq, Debug, Default)]
pub struct hb_glyph_info_t {
    /// The glyph's place in its font.
    pub glyph_id: u32,

    /// The character that the glyph came from, or the first of several.
    pub cluster: u32,

    /// The glyph's bits: those of `glyph_flag`, and above them what features are on there.
    pub mask: hb_mask_t,

    /// What the font says of the glyph.
    pub glyph_props: u16,

    /// What Unicode says of the glyph's character, as `UnicodeProps`.
    pub unicode_props: u16,
}

impl hb_glyph_info_t {
    /// A glyph that came from the character `cluster`. All else of it is zero.
    pub fn new(glyph_id: u32, cluster: u32) -> hb_glyph_info_t
        ensures { result ≡ record {
          glyph_id = glyph_id;
          mask = 0;
          cluster = cluster;
          glyph_props = 0;
          unicode_props = 0;
        } }
    {
        hb_glyph_info_t {
            glyph_id,
            cluster,
            ..hb_glyph_info_t::default()
        }
    }
}

/// Where a glyph is drawn, in units of the font. The default is all zero.
#[derive(Clone, Copy, PartialEq, Eq, Debug, Default)]
pub struct GlyphPosition {
    pub x_advance: i32,
    pub y_advance: i32,
    pub x_offset: i32,
    pub y_offset: i32,

    /// How the glyph is attached to another; 0 where it is not.
    pub attach_type: u8,

    /// How many places away that other glyph stands: 1 is the next glyph of the line, -1 the one before. The chain of
    /// an anchor is counted in the order in which the line is kerned. Backward text is kerned on the line put the
    /// other way round, which is then put back, so there the chain of an anchor points the other way. A glyph that is
    /// taken out changes no chain: behind a removal one may point at another glyph, or past the line.
    pub attach_chain: i16,
}
