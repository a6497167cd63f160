//! How far a font reaches above and below the baseline.
ghost use Rattle.std.specs.Prelude.{◌≡◌, ◌+◌, ◌≤◌, length};
ghost use Rattle.aat_read_metrics.specs.FontExtents.{extents_at, extents_of_em, font_extents, is_sound, is_typographic, os_2_size};

use aat_bytes::be16;
use aat_read_sfnt::long_metric_count;

/// How far above the baseline, and how far below it, in units of the font.
#[derive(Clone, Copy)]
pub struct FontExtents {
    pub above: u16,
    pub below: u16,
}

/// How many bytes the table `OS/2` has by its version.
fn os_2_size(version: u16) -> usize
    ensures { result ≡ os_2_size version }
{
    match version {
        0 => 78,
        1 => 86,
        2..=4 => 96,
        _ => 100,
    }
}

/// Whether the table `OS/2` is there as a whole, asks for its typographic metrics, and has a weight, a width, a first
/// or a last character.
fn is_typographic(os_2: &[u8]) -> bool
    ensures { result ≡ is_typographic os_2.now }
{
    if os_2.len() < 78 || os_2.len() < os_2_size(be16(os_2, 0)) {
        return false;
    }
    let is_empty = be16(os_2, 4) == 0
        && be16(os_2, 6) == 0
        && be16(os_2, 64) == 0
        && be16(os_2, 66) == 0;
    be16(os_2, 62) & 128 != 0 && !is_empty
}

/// An ascender and a descender at a place.
fn extents_at(bytes: &[u8], place: usize) -> FontExtents
    requires { place + 4 ≤ length bytes.now }
    ensures { result ≡ extents_at bytes.now place }
{
    FontExtents {
        above: be16(bytes, place).cast_signed().unsigned_abs(),
        below: be16(bytes, place + 2).cast_signed().unsigned_abs(),
    }
}

/// Those of a font that has none.
fn extents_of_em(units: u16) -> FontExtents
    ensures { result ≡ extents_of_em units }
{
    let above = (4 * units as u32 / 5) as u16;
    FontExtents {
        above,
        below: units - above,
    }
}

/// Those of `OS/2` where it asks for them, else of `hhea`, else of the em.
#[tactic(auto, unfolding(aat_read_sfnt::specs::Metrics::long_metric_count))]
pub fn font_extents(os_2: &[u8], hhea: &[u8], units: u16) -> FontExtents
    ensures { result ≡ font_extents os_2.now hhea.now units }
{
    if is_typographic(os_2) {
        return extents_at(os_2, 68);
    }
    if long_metric_count(hhea).is_ok() {
        return extents_at(hhea, 4);
    }
    extents_of_em(units)
}
