//! The structs that cross to C.
ghost use Rattle.std.specs.Prelude.{◌≡◌};
ghost use Rattle.aat_records.specs.Places.{placed};
ghost use Rattle.aat_records.specs.Records.{fault_record, feature_of, feature_record, flag, flags_of, glyph_record, is_flagged, text_glyph_of};

use crate::places::Places;
use aat_bytes::Fault;
use aat_font::{Feature, hb_tag_t};
use aat_shaped_text::{CharacterKind, ShapedGlyph, TextGlyph};

/// A glyph that is drawn, `aat_glyph_t`.
#[repr(C)]
#[derive(Clone, Copy)]
pub struct GlyphRecord {
    /// The number of the glyph in the font.
    pub glyph_id: u32,
    /// The place in the text of the character that it came from, or of the first of several.
    pub cluster: u32,
    /// How far the pen moves to the right.
    pub x_advance: i32,
    /// How far the pen moves up.
    pub y_advance: i32,
    /// How far to the right of the pen it is drawn.
    pub x_offset: i32,
    /// How far above the pen it is drawn.
    pub y_offset: i32,
    /// 1 where the text may be broken before it, 2 where it is ignorable, and 4 where it is a mark, added up.
    pub flags: u32,
}

/// A glyph of a text, `aat_text_glyph_t`.
#[repr(C)]
#[derive(Clone, Copy)]
pub struct TextGlyphRecord {
    /// The number of the glyph in the font.
    pub glyph_id: u16,
    /// 1 where its character is ignorable, and 2 where it is a mark, added up.
    pub flags: u16,
    /// The place of its character in the text.
    pub cluster: u32,
}

/// A feature over a range of clusters, `aat_feature_t`.
#[repr(C)]
#[derive(Clone, Copy)]
pub struct FeatureRecord {
    /// The tag.
    pub tag: u32,
    /// The value.
    pub value: u32,
    /// The first cluster.
    pub start: u32,
    /// The cluster behind the last one. `u32::MAX` is no end.
    pub end: u32,
}

/// How a text is typeset, `aat_options_t`. All zeros are what a program wants that tells nothing.
#[repr(C)]
#[derive(Clone, Copy)]
pub struct OptionsRecord {
    /// The direction: 0 is that of the script, and 4 to 7 are those of HarfBuzz.
    pub direction: u32,
    /// The tag of the script: 0 is the first that a character of the text has.
    pub script: u32,
    /// The point size at which the text is tracked, 65536 a point: 0 is none that is told, and `u32::MAX` tracks nothing.
    pub point_size: u32,
    /// What has a cluster of its own: 0 is a grapheme, and 1 a character.
    pub cluster_level: u32,
}

/// A line of a text, `aat_line_t`. It begins where the one before it ends.
#[repr(C)]
#[derive(Clone, Copy)]
pub struct LineRecord {
    /// The place in the text at which it ends.
    pub text_end: usize,
    /// How many glyphs are drawn of it and of those before it.
    pub glyphs_end: usize,
}

/// A fault of a table, `aat_fault_t`.
#[repr(C)]
#[derive(Clone, Copy)]
pub struct FaultRecord {
    /// The tag of the table.
    pub table: u32,
    /// The number of the kind of the fault.
    pub kind: u32,
    /// Where, in bytes from the start of the table.
    pub place: usize,
}

/// The number of a flag that is set, or 0.
fn flag(number: u32, is_set: bool) -> u32
    ensures { result ≡ flag number is_set }
{
    if is_set { number } else { 0 }
}

/// The flags of a glyph.
fn flags_of(glyph: &ShapedGlyph) -> u32
    ensures { result ≡ flags_of glyph.now }
{
    flag(1, glyph.may_break_before) | flag(2, glyph.is_ignorable) | flag(4, glyph.is_mark)
}

impl GlyphRecord {
    /// A glyph that is drawn.
    pub fn of(glyph: &ShapedGlyph, places: &Places) -> GlyphRecord
        ensures { result ≡ glyph_record (placed places.now) glyph.now }
    {
        GlyphRecord {
            glyph_id: u32::from(glyph.glyph_id),
            cluster: places.of(glyph.cluster),
            x_advance: glyph.x_advance,
            y_advance: glyph.y_advance,
            x_offset: glyph.x_offset,
            y_offset: glyph.y_offset,
            flags: flags_of(glyph),
        }
    }
}

impl TextGlyphRecord {
    /// Whether a flag is set.
    fn is_flagged(&self, flag: u16) -> bool
        ensures { result ≡ is_flagged flag self.now.flags }
    {
        self.flags & flag != 0
    }

    /// The glyph of a text that it stands for.
    pub fn text_glyph(&self) -> TextGlyph
        ensures { result ≡ text_glyph_of self.now }
    {
        TextGlyph {
            glyph_id: self.glyph_id,
            cluster: self.cluster,
            is_ignorable: self.is_flagged(1),
            is_mark: self.is_flagged(2),
            kind: CharacterKind::Other,
        }
    }
}

impl FeatureRecord {
    /// A feature for C.
    pub fn of(feature: Feature) -> FeatureRecord
        ensures { result ≡ feature_record feature }
    {
        FeatureRecord {
            tag: feature.tag.0,
            value: feature.value,
            start: feature.start,
            end: feature.end,
        }
    }

    /// The feature that it stands for.
    pub fn feature(&self) -> Feature
        ensures { result ≡ feature_of self.now }
    {
        Feature {
            tag: hb_tag_t(self.tag),
            value: self.value,
            start: self.start,
            end: self.end,
        }
    }
}

impl FaultRecord {
    /// A fault for C.
    pub fn of(fault: Fault) -> FaultRecord
        ensures { result ≡ fault_record fault }
    {
        FaultRecord {
            table: fault.table.0,
            kind: u32::from(fault.kind.number()),
            place: fault.place,
        }
    }
}
