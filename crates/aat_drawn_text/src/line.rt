//! The line of a text.
ghost use Rattle.std.specs.Prelude.{◌≡◌, ◌≤◌, All, IfErr, IfOk, None, length, map, pos};
ghost use Rattle.std.specs.List.{list_any};
ghost use Rattle.aat_buffer.specs.Buffer.{Is16Bit};
ghost use Rattle.aat_buffer.specs.Clusters.{IsSmall};
ghost use Rattle.aat_font.specs.Face.{has_classes};
ghost use Rattle.aat_shaped_text.specs.Breaks.{is_rising};
ghost use Rattle.aat_shaped_text.specs.TextFeatures.{is_kern, is_kerned_at};
ghost use Rattle.aat_shaped_text.specs.ShapedText.{line_glyph, most_glyphs, most_operations, most_text, text_buffer, text_props, text_unicode_props};

use crate::kinds::number_of_kind;
use crate::text_line::TextLine;
use aat_layout::AatError;
use aat_layout::buffer::{Direction, hb_buffer_t, hb_glyph_info_t, hb_mask_t};
use aat_layout::font::{Feature, GlyphId, hb_font_t};
use aat_shaped_text::{TextGlyph, asks_kern, is_kerned_at};
use std::alloc::{AllocError, Allocator};

/// The longest text.
pub const LONGEST_TEXT: usize = 1 << 24;

/// HarfBuzz's `HB_BUFFER_MAX_LEN_FACTOR`, `HB_BUFFER_MAX_LEN_MIN` and `HB_BUFFER_MAX_LEN_DEFAULT`.
const LEN_FACTOR: usize = 64;

const LEN_MIN: usize = 16384;

const LEN_MOST: usize = 0x3FFF_FFFF;

/// HarfBuzz's `HB_BUFFER_MAX_OPS_FACTOR` and `HB_BUFFER_MAX_OPS_MIN`, and the greatest budget of 32 bits.
const OPS_FACTOR: usize = 1024;

const OPS_MIN: usize = 16384;

const OPS_MOST: usize = 0x7FFF_FFFF;

/// The bit of a glyph's mask by which it is kerned, above those of `glyph_flag`.
pub const KERNED: hb_mask_t = 8;

/// The property of marks, as HarfBuzz's `HB_OT_LAYOUT_GLYPH_PROPS_MARK`.
pub(crate) const MARK: u16 = 8;

/// What an ignorable character has: the layer's property `IGNORABLE`, 0x20, and 0x40, which the layer leaves as it is.
/// A component that a ligature deletes gets 0x20 alone, and may be given a glyph again.
const IGNORABLE_CHARACTER: u16 = 0x60;

/// What the number of the kind of a character is multiplied with, so that it stands above the layer's properties and
/// `IGNORABLE_CHARACTER`. The layer leaves it as it is.
pub(crate) const KIND: u16 = 0x80;

/// The most glyphs that the line of a text may have.
fn most_glyphs(len: usize) -> usize
    requires { len ≤ most_text }
    ensures value { result ≡ most_glyphs len }
    ensures small { result ≤ 0x3FFFFFFF }
    ensures enough { len ≤ result }
{
    (len * LEN_FACTOR).max(LEN_MIN).min(LEN_MOST)
}

/// The budget of operations of a text.
fn most_operations(len: usize) -> i32
    requires { len ≤ most_text }
    ensures { result ≡ pos (most_operations len) }
{
    (len * OPS_FACTOR).max(OPS_MIN).min(OPS_MOST) as i32
}

/// The properties of a glyph of a text, given whether the font has classes of glyphs.
fn text_props(face: &hb_font_t, is_classed: bool, glyph: &TextGlyph) -> u16
    requires { is_classed ≡ has_classes face.now }
    ensures { result ≡ text_props face.now glyph.now }
{
    if is_classed {
        face.glyph_props(GlyphId(glyph.glyph_id))
    } else if glyph.is_mark {
        MARK
    } else {
        0
    }
}

/// What a glyph of a text says of its character.
fn text_unicode_props(glyph: &TextGlyph) -> u16
    ensures { result ≡ text_unicode_props glyph.now }
{
    let ignorable = if glyph.is_ignorable {
        IGNORABLE_CHARACTER
    } else {
        0
    };
    number_of_kind(glyph.kind) * KIND + ignorable
}

/// Whether kerning is on at a cluster, given whether some feature is `kern`: without one it is on everywhere.
#[tactic(auto, using(crate::proofs::LineMade::kerned_unasked))]
fn is_kerned(asks_kern: bool, features: &[Feature], cluster: u32) -> bool
    requires { asks_kern ≡ list_any is_kern features.now }
    ensures { result ≡ is_kerned_at features.now cluster }
{
    if asks_kern {
        is_kerned_at(features, cluster)
    } else {
        true
    }
}

/// A glyph of a text as one of a line, given whether the font has classes of glyphs, and whether some feature is `kern`.
fn line_glyph(
    face: &hb_font_t,
    is_classed: bool,
    asks_kern: bool,
    features: &[Feature],
    glyph: &TextGlyph,
) -> hb_glyph_info_t
    requires classed { is_classed ≡ has_classes face.now }
    requires asked { asks_kern ≡ list_any is_kern features.now }
    ensures value { result ≡ line_glyph face.now features.now glyph.now }
    ensures small { result.glyph_id ≤ 0xFFFF }
{
    let is_kerned = is_kerned(asks_kern, features, glyph.cluster);
    hb_glyph_info_t {
        glyph_id: u32::from(glyph.glyph_id),
        mask: if is_kerned { KERNED } else { 0 },
        cluster: glyph.cluster,
        glyph_props: text_props(face, is_classed, glyph),
        unicode_props: text_unicode_props(glyph),
    }
}

/// The glyphs of a text as those of a line, which gets room for all of them at once.
fn line_of<H: Allocator>(
    alloc: H,
    face: &hb_font_t,
    features: &[Feature],
    text: &[TextGlyph],
) -> Result<Vec<hb_glyph_info_t, H>, AllocError>
    ensures made { IfOk result (λ line. line.items ≡ map (line_glyph face.now features.now) text.now) }
    ensures ids { IfOk result (λ line. All Is16Bit line.items) }
{
    let is_classed = face.has_glyph_classes();
    let asks_kern = asks_kern(features);
    let mut line = Vec::with_capacity(alloc, text.len())?;
    for glyph in text {
        line.push_reserved(line_glyph(face, is_classed, asks_kern, features, glyph));
    }
    Ok(line)
}

/// The line of a text, without positions.
pub(crate) fn buffer_of<'f, H: Allocator + Copy>(
    alloc: H,
    face: &'f hb_font_t,
    direction: Direction,
    features: &[Feature],
    text: &[TextGlyph],
) -> Result<TextLine<'f, H>, AatError>
    requires { length text.now ≤ most_text }
    ensures ok { IfOk result (λ buffer. buffer ≡ text_buffer face.now direction features.now text.now) }
    ensures ids { IfOk result IsSmall }
    ensures bare { IfOk result (λ buffer. buffer.positions ≡ None) }
    ensures memory { IfErr result (λ error. error ≡ AatError.OutOfMemory) }
{
    let most = most_glyphs(text.len());
    let line = line_of(alloc, face, features, text)?;
    let mut buffer = hb_buffer_t::with_line(alloc, line, most, most_operations(text.len()));
    buffer.set_direction(direction);
    Ok(TextLine::of(buffer))
}

/// Whether clusters never fall along a text.
pub(crate) fn is_rising(text: &[TextGlyph]) -> bool
    ensures { result ≡ is_rising text.now }
{
    for i in 1..text.len() {
        if text[i].cluster < text[i - 1].cluster {
            return false;
        }
    }
    true
}
