//! Glyphs that a font does not have, and the deleted glyph, in lookups and in the classes of glyphs.
ghost use Rattle.std.specs.Prelude.{◌≡◌, filter, IfOk};
ghost use Rattle.aat_findings.specs.Glyphs.{is_of, lists_deleted};

use aat_lookup::{GlyphId, Lookup};
use std::alloc::{AllocError, Global};

/// The deleted glyph: a machine deletes a glyph by putting this one in its place.
pub const DELETED_GLYPH: u16 = 0xFFFF;

/// For what a pair of a glyph and its value is told. The value is a glyph too, but in classes.
#[derive(Clone, Copy)]
pub enum PairKind {
    /// The font does not have the glyph, and it is not the deleted one, 0xFFFF.
    GlyphPast,
    /// The font does not have the value, and it is not the deleted glyph, which is how a lookup deletes one.
    ValuePast,
    /// Another glyph becomes the deleted one.
    Deletes,
    /// The deleted glyph becomes another one.
    Restores,
}

/// Whether a pair is of a kind, in a font of so many glyphs.
fn is_of(kind: PairKind, glyph_count: u32, pair: (u16, u16)) -> bool
    ensures { result ≡ is_of kind glyph_count pair }
{
    let (glyph, value) = pair;
    match kind {
        PairKind::GlyphPast => glyph as u32 >= glyph_count && glyph != DELETED_GLYPH,
        PairKind::ValuePast => value as u32 >= glyph_count && value != DELETED_GLYPH,
        PairKind::Deletes => value == DELETED_GLYPH && glyph != DELETED_GLYPH,
        PairKind::Restores => glyph == DELETED_GLYPH && value != DELETED_GLYPH,
    }
}

/// The pairs of a kind.
fn pairs_in(
    alloc: Global,
    pairs: &[(u16, u16)],
    kind: PairKind,
    glyph_count: u32,
) -> Result<Vec<(u16, u16)>, AllocError>
    ensures { IfOk result (λ found. found.items ≡ filter (is_of kind glyph_count) pairs.now) }
{
    pairs
        .iter()
        .filter(|pair| is_of(kind, glyph_count, **pair))
        .copied()
        .collect(alloc)
}

/// The pairs of a lookup, in their order, that are of a kind, in a font that has the glyphs below a number. Fails where
/// memory is wanting.
///
/// Apple's TrueType Reference Manual, "Font Tables", section on lookup tables.
pub fn pairs_of(
    alloc: Global,
    lookup: &Lookup,
    kind: PairKind,
    glyph_count: u32,
) -> Result<Vec<(u16, u16)>, AllocError>
    ensures { IfOk result (λ found. found.items ≡ filter (is_of kind glyph_count) lookup.now) }
{
    let pairs = lookup.to_pairs(alloc)?;
    let of_pairs = pairs.as_slice();
    let found = pairs_in(alloc, of_pairs, kind, glyph_count)?;
    Ok(found)
}

/// Whether a lookup has a value for the deleted glyph, 0xFFFF. The classes of a state table are not asked for it: it
/// has class 2 there whatever they list.
///
/// Apple's TrueType Reference Manual, "Font Tables", section on state tables.
pub fn lists_deleted(lookup: &Lookup) -> bool
    ensures { result ≡ lists_deleted lookup.now }
{
    lookup.value(GlyphId(DELETED_GLYPH)).is_some()
}
