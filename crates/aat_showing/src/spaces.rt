//! The widths of spaces that a font lacks.
ghost use Rattle.std.specs.Prelude.{◌≡◌, ◌<◌, option_map, slice_get};
ghost use Rattle.std.specs.List.{filter_map};
ghost use Rattle.aat_showing.specs.FaceMetrics.{glyph_in, space_metrics};
ghost use Rattle.aat_showing.specs.Spaces.{as_wide_as, digits, part_of, space_width, stops, widen_spaces, widened};

use crate::columns::with_advance;
use crate::face_metrics::{advance_along, glyph_in};
use aat_face::Face;
use aat_glyph::Direction;
use aat_shaped_text::{CharacterKind, ShapedGlyph, SpaceWidth};

/// The digits.
const DIGITS: [char; 10] = ['0', '1', '2', '3', '4', '5', '6', '7', '8', '9'];

/// The full stop and the comma.
const STOPS: [char; 2] = ['.', ','];

/// One of some equal parts of the em, rounded.
fn part_of(em: u16, parts: u32) -> u32
    requires some { 0 < parts }
    requires few { parts < 17 }
    ensures { result ≡ part_of em parts }
{
    (em as u32 + parts / 2) / parts
}

/// The glyph of the first one of some characters that the font has.
fn first_glyph(face: &Face<'_>, characters: &[char]) -> Option<u16>
    ensures { result ≡ slice_get (filter_map (glyph_in face.now) characters.now) 0 }
{
    for character in characters {
        let glyph = glyph_in(face, *character);
        if glyph.is_some() {
            return glyph;
        }
    }
    None
}

/// As wide as the first one of some characters that the font has, else as its own glyph.
fn as_wide_as(face: &Face<'_>, direction: Direction, characters: &[char], glyph: u16) -> u32
    ensures { result ≡ as_wide_as (space_metrics face.now direction) characters.now glyph }
{
    let wide = first_glyph(face, characters).unwrap_or(glyph);
    advance_along(face, direction, wide)
}

/// How wide a space is, which is drawn by a glyph.
fn space_width(face: &Face<'_>, direction: Direction, width: SpaceWidth, glyph: u16) -> u32
    ensures { result ≡ space_width (space_metrics face.now direction) width glyph }
{
    let em = face.units_per_em();
    match width {
        SpaceWidth::Em => em as u32,
        SpaceWidth::HalfEm => part_of(em, 2),
        SpaceWidth::ThirdOfEm => part_of(em, 3),
        SpaceWidth::FourthOfEm => part_of(em, 4),
        SpaceWidth::FifthOfEm => part_of(em, 5),
        SpaceWidth::SixthOfEm => part_of(em, 6),
        SpaceWidth::SixteenthOfEm => part_of(em, 16),
        SpaceWidth::FourEighteenthsOfEm => em as u32 * 4 / 18,
        SpaceWidth::Figure => as_wide_as(face, direction, &DIGITS, glyph),
        SpaceWidth::Punctuation => as_wide_as(face, direction, &STOPS, glyph),
        SpaceWidth::Narrow => advance_along(face, direction, glyph) / 2,
    }
}

/// A glyph as wide as its kind has it.
fn widened(face: &Face<'_>, direction: Direction, glyph: ShapedGlyph) -> ShapedGlyph
    ensures { result ≡ widened (space_metrics face.now direction) glyph.kind glyph }
{
    match glyph.kind {
        CharacterKind::Space(width) => with_advance(
            direction.is_vertical(),
            advance_along(face, direction, glyph.glyph_id),
            space_width(face, direction, width, glyph.glyph_id),
            glyph,
        ),
        _ => glyph,
    }
}

/// Has spaces that a font lacks be as wide as they are to be. `glyphs` is what a `Shaper` of the face draws of a text
/// that runs in `direction`, and in columns what `set_in_columns` leaves of that.
///
/// The glyph of such a space (`kind`), that of U+0020, gets its own advance along the line taken off, and that of the
/// space put in its place: the part of the em, rounded; the advance of the first digit that the font has, or of the
/// full stop, or else the comma, where it has one, and else its own; half of its own advance. In columns these are
/// advances down. All is in units of the font, and lengths wrap at 32 bits. All else stays. So does HarfBuzz 12.3.2.
///
/// It takes no memory, and cannot be refused.
pub fn widen_spaces(glyphs: &mut [ShapedGlyph], face: &Face<'_>, direction: Direction)
    ensures { glyphs.new ≡ widen_spaces (space_metrics face.now direction) glyphs.old }
{
    for i in 0..glyphs.len() {
        glyphs[i] = widened(face, direction, glyphs[i]);
    }
}
