//! What kerns a text, and which places of its line that leaves open.
ghost use Rattle.std.specs.Prelude.{◌≡◌};
ghost use Rattle.aat_drawn_text.specs.inside.Kerned.{is_told_by_glyphs, kerned_by, open_places};

use aat_layout::buffer::Direction;
use aat_layout::font::hb_font_t;
use aat_shaped_text::{is_unkerned, kerns_by_pairs, skips_of};

/// What kerns texts of a direction.
#[derive(Clone, Copy)]
pub(crate) enum KernedBy {
    /// Nothing does.
    Nothing,
    /// Pairs along the line alone.
    Pairs,
    /// Machines, or pairs across the line.
    Others,
}

/// What of a font kerns texts of a direction.
pub(crate) fn kerned_by(face: &hb_font_t, direction: Direction) -> KernedBy
    ensures { result ≡ kerned_by face.now direction }
{
    if is_unkerned(face, direction) {
        KernedBy::Nothing
    } else if kerns_by_pairs(face, direction) {
        KernedBy::Pairs
    } else {
        KernedBy::Others
    }
}

/// Whether the glyphs of a kerned line tell before which places it may be broken, so that none is told of besides.
pub(crate) fn is_told_by_glyphs(kerned: KernedBy) -> bool
    ensures { result ≡ is_told_by_glyphs kerned }
{
    match kerned {
        KernedBy::Nothing | KernedBy::Pairs => true,
        KernedBy::Others => false,
    }
}

/// Which places of a line kerning leaves open.
#[derive(Clone, Copy)]
pub(crate) enum OpenPlaces<'f> {
    /// Each, where nothing kerns the text: its glyphs decide.
    Each,
    /// Those whose glyph does not have these properties, where pairs along the line kern it: the glyphs decide too, with
    /// the marks of kerning.
    Solid(u16),
    /// Those that are told of, by the glyphs too.
    Told(&'f [bool]),
}

/// Which places of a line kerning leaves open: by its glyphs, or those that are told of.
pub(crate) fn open_places<'f>(
    face: &hb_font_t,
    kerned: KernedBy,
    places: &'f [bool],
) -> OpenPlaces<'f>
    ensures { result ≡ open_places face.now kerned places.entry }
{
    match kerned {
        KernedBy::Nothing => OpenPlaces::Each,
        KernedBy::Pairs => OpenPlaces::Solid(skips_of(face)),
        KernedBy::Others => OpenPlaces::Told(places),
    }
}
