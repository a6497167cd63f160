//! What a face has for columns, for spaces and for marks that are placed by boxes.
ghost use Rattle.std.specs.Prelude.{◌≡◌};
ghost use Rattle.aat_showing.specs.FaceMetrics.{advance_along, box_in, column_advance, column_origin, glyph_in, row_advance};

use aat_face::{Face, GlyphBox, Origin};
use aat_glyph::Direction;
use aat_lookup::GlyphId;

/// How far the pen moves in a row for a glyph.
#[tactic(auto, unfolding(crate::specs::FaceMetrics::row_advance))]
pub(crate) fn row_advance(face: &Face<'_>, glyph: u16) -> u16
    ensures { result ≡ row_advance face.now glyph }
{
    face.font().glyph_advance(GlyphId(glyph))
}

/// How far it moves down in a column.
#[tactic(auto, unfolding(crate::specs::FaceMetrics::column_advance))]
pub(crate) fn column_advance(face: &Face<'_>, glyph: u16) -> u32
    ensures { result ≡ column_advance face.now glyph }
{
    face.vertical_advance(glyph)
}

/// Where the origin of a glyph lies in a column.
#[tactic(auto, unfolding(crate::specs::FaceMetrics::column_origin))]
pub(crate) fn column_origin(face: &Face<'_>, glyph: u16) -> Origin
    ensures { result ≡ column_origin face.now glyph }
{
    face.vertical_origin(glyph)
}

/// The box of a glyph, if it has one.
#[tactic(auto, unfolding(crate::specs::FaceMetrics::box_in))]
pub(crate) fn box_in(face: &Face<'_>, glyph: u16) -> Option<GlyphBox>
    ensures { result ≡ box_in face.now glyph }
{
    face.glyph_box(glyph)
}

/// The glyph of a character, if the font has one that is not 0.
#[tactic(auto, unfolding(crate::specs::FaceMetrics::glyph_in))]
pub(crate) fn glyph_in(face: &Face<'_>, character: char) -> Option<u16>
    ensures { result ≡ glyph_in face.now character }
{
    match face.glyph_of(character) {
        Some(glyph) => Some(glyph.0),
        None => None,
    }
}

/// How far the pen moves along a line for a glyph.
pub(crate) fn advance_along(face: &Face<'_>, direction: Direction, glyph: u16) -> u32
    ensures { result ≡ advance_along face.now direction glyph }
{
    if direction.is_vertical() {
        column_advance(face, glyph)
    } else {
        row_advance(face, glyph) as u32
    }
}
