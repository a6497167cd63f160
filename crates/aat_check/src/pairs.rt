//! Pairs of glyphs that a font does not have, and pairs that have a mark.
ghost use Rattle.std.specs.Prelude.{◌≡◌, filter, IfOk};
ghost use Rattle.aat_check.specs.inside.Pairs.{has_mark, is_mark};

use crate::fact::Fact;
use crate::finding::{Finding, Place, push_fact};
use crate::glyphs::is_past;
use aat_findings::{PairKind, pairs_of};
use aat_font::hb_font_t;
use aat_kerning_tables::ClassPairs;
use aat_lookup::GlyphId;
use std::alloc::{AllocError, Global};

/// The property of marks.
const MARK: u16 = 8;

/// Whether a glyph is a mark by the classes of a font.
fn is_mark(font: &hb_font_t, glyph: u16) -> bool
    ensures { result ≡ is_mark font.now glyph }
{
    font.glyph_props(GlyphId(glyph)) & MARK != 0
}

/// Whether a pair has a value but 0, and one of its glyphs is a mark.
fn has_mark(font: &hb_font_t, pair: (u16, u16, i16)) -> bool
    ensures { result ≡ has_mark font.now pair }
{
    pair.2 != 0 && (is_mark(font, pair.0) || is_mark(font, pair.1))
}

/// The pairs, in their order, that have a mark.
fn pairs_with_marks(
    alloc: Global,
    font: &hb_font_t,
    pairs: &[(u16, u16, i16)],
) -> Result<Vec<(u16, u16, i16)>, AllocError>
    ensures { IfOk result (λ found. found.items ≡ filter (has_mark font.now) pairs.now) }
{
    pairs
        .iter()
        .filter(|pair| has_mark(font, **pair))
        .copied()
        .collect(alloc)
}

/// The glyph of a pair that a font of so many glyphs does not have, the left one first.
fn glyph_past(pair: (u16, u16, i16), glyph_count: u32) -> Option<u16> {
    if is_past(GlyphId(pair.0), glyph_count) {
        return Some(pair.0);
    }
    is_past(GlyphId(pair.1), glyph_count).then_some(pair.1)
}

/// Adds the first glyph of pairs that a font of so many glyphs does not have.
pub(crate) fn add_past(
    pairs: &[(u16, u16, i16)],
    glyph_count: u32,
    place: Place,
    found: &mut Vec<Finding>,
) -> Result<(), AllocError> {
    let mut glyphs = pairs
        .iter()
        .filter_map(|pair| glyph_past(*pair, glyph_count));
    let Some(glyph) = glyphs.next() else {
        return Ok(());
    };
    let count = glyphs.count().saturating_add(1);
    let place = Place {
        glyph: Some(glyph),
        ..place
    };
    push_fact(found, place, Fact::KeyPast { count })
}

/// Adds the first glyph that the classes of pairs list, the left ones first, and a font of so many glyphs lacks.
pub(crate) fn check_class_pairs(
    alloc: Global,
    pairs: &ClassPairs,
    glyph_count: u32,
    place: Place,
    found: &mut Vec<Finding>,
) -> Result<(), AllocError> {
    let kind = PairKind::GlyphPast;
    let mut past = pairs_of(alloc, pairs.left(), kind, glyph_count)?;
    let right = pairs_of(alloc, pairs.right(), kind, glyph_count)?;
    past.extend_from_slice(&right)?;
    let Some((glyph, _)) = past.first().copied() else {
        return Ok(());
    };
    let place = Place {
        glyph: Some(glyph),
        ..place
    };
    let count = past.len();
    push_fact(found, place, Fact::KeyPast { count })
}

/// Adds the first glyph of listed pairs that a font of so many glyphs does not have, and the first pair that has a mark.
pub(crate) fn check_pairs(
    alloc: Global,
    font: &hb_font_t,
    pairs: &[(u16, u16, i16)],
    glyph_count: u32,
    place: Place,
    found: &mut Vec<Finding>,
) -> Result<(), AllocError> {
    add_past(pairs, glyph_count, place, found)?;
    let with_marks = pairs_with_marks(alloc, font, pairs)?;
    let Some((left, right, _)) = with_marks.first().copied() else {
        return Ok(());
    };
    let count = with_marks.len();
    push_fact(found, place, Fact::MarkInPair { left, right, count })
}
