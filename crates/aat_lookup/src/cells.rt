//! Cells that are filled with the values of glyphs.
ghost use Rattle.std.specs.Prelude.{◌≡◌, ◌+◌, ◌<◌, ◌≤◌, ℕ, None, IfOk, length, slice_index_or};
ghost use Rattle.aat_lookup.specs.Keys.{first, value_in, IsRising};
ghost use Rattle.aat_lookup.specs.inside.Dense.{KeepsCells};
ghost use Rattle.aat_lookup.specs.inside.Walks.{AreBelow, AreNotBelow};

use crate::walk::{row_here, walk_to};
use std::alloc::{AllocError, Allocator};

/// What stands in a cell, none behind the last one.
pub(crate) fn cell_at<E: Copy>(cells: &[Option<E>], place: usize) -> Option<E>
    ensures { result ≡ slice_index_or cells.now place None }
{
    if place < cells.len() {
        cells[place]
    } else {
        None
    }
}

/// Appends the values of so many glyphs from the lowest on among rising pairs, in one walk from a place before which
/// all pairs are of lower glyphs. Fails where the cells get no memory; what they then hold is not said.
pub(crate) fn append_values<A: Allocator>(
    cells: &mut Vec<Option<u16>, A>,
    pairs: &[(u16, u16)],
    from: usize,
    lowest: u16,
    count: usize,
) -> Result<(), AllocError>
    requires rising { IsRising first pairs.now }
    requires passed { AreBelow first pairs.now from lowest }
    requires small { lowest + count ≤ 65536 }
    ensures long { IfOk result (λ _. length cells.new.items ≡ length cells.old.items + count) }
    ensures kept { IfOk result (λ _. KeepsCells cells.old.items cells.new.items) }
    ensures values { IfOk result (λ _. (k : ℕ) → k < count
        → slice_index_or cells.new.items (length cells.old.items + k) None ≡ value_in pairs.now (lowest + k)) }
{
    let mut at = from;
    for place in 0..count {
        let glyph = lowest + place as u16;
        at = walk_to(pairs, at, glyph as u32);
        cells.push(value_here(pairs, at, glyph))?;
    }
    Ok(())
}

/// The value of a glyph among rising pairs, if it has one, at the place to which a walk to the glyph has come.
pub(crate) fn value_here(pairs: &[(u16, u16)], place: usize, glyph: u16) -> Option<u16>
    requires rising { IsRising first pairs.now }
    requires below { AreBelow first pairs.now place glyph }
    requires above { AreNotBelow first pairs.now place glyph }
    ensures { result ≡ value_in pairs.now glyph }
{
    row_here(pairs, place, glyph as u32).map(|pair| pair.1)
}
