//! The classes of glyphs in arrays, for who asks for those of many glyphs.
ghost use Rattle.std.specs.Prelude.{◌≡◌, ◌+◌, ◌<◌, ◌≤◌, ℕ, IfOk, length, slice_index_or, unwrap_or};
ghost use Rattle.aat_lookup.specs.Listings.{pairs_from};
ghost use Rattle.aat_lookup.specs.Keys.{first, value_in, IsRising};
ghost use Rattle.aat_lookup.specs.Moves.{place_over};
ghost use Rattle.aat_lookup.specs.inside.Dense.{AnswersAsClasses, PairsWithin};

use crate::listing::value_from;
use crate::moves::values_of;
use std::alloc::{AllocError, Allocator};

/// The classes that pairs have for the glyphs of their span. A glyph without a class has one that says so.
#[derive(Drop)]
pub(crate) struct ClassArray<A: Allocator> {
    /// The glyph of the first cell.
    pub(crate) lowest: u16,
    /// The class of a glyph without one.
    pub(crate) missing: u16,
    /// The class of each glyph from the lowest on.
    pub(crate) cells: Vec<u16, A>,
}

impl<A: Allocator> ClassArray<A> {
    /// The classes that rising pairs have for the glyphs of their span, so many from the lowest on, with `missing` for a
    /// glyph without one. Fails where the cells get no memory.
    #[tactic(auto, using(crate::proofs::ClassAnswers::classes_answer))]
    pub(crate) fn over(
        alloc: A,
        pairs: &[(u16, u16)],
        lowest: u16,
        count: usize,
        missing: u16,
    ) -> Result<ClassArray<A>, AllocError>
        requires rising { IsRising first pairs.now }
        requires small { lowest + count ≤ 65536 }
        requires within { PairsWithin lowest count pairs.now }
        ensures { IfOk result (λ c. AnswersAsClasses c.missing c.lowest c.cells.items pairs.now) }
    {
        let cells = class_cells(alloc, pairs, lowest, count, missing)?;
        Ok(ClassArray {
            lowest,
            missing,
            cells,
        })
    }

    /// The classes of glyphs that follow one another, from the lowest on, with `missing` for a glyph without one.
    #[tactic(auto, using(crate::proofs::CellAnswers::classes_in_cells))]
    pub(crate) fn of_cells(lowest: u16, missing: u16, cells: Vec<u16, A>) -> ClassArray<A>
        requires { lowest + length cells.items ≤ 65536 }
        ensures lowest { result.lowest ≡ lowest }
        ensures cells { result.cells.items ≡ cells.items }
        ensures answers { AnswersAsClasses result.missing result.lowest result.cells.items
            (pairs_from lowest cells.items) }
    {
        ClassArray {
            lowest,
            missing,
            cells,
        }
    }

    /// What stands in the cell of a glyph, if it has one.
    pub(crate) fn cell(&self, glyph: u16) -> Option<u16>
        requires { self.now.lowest + length self.now.cells.items ≤ 65536 }
        ensures { result ≡ value_in (pairs_from self.now.lowest self.now.cells.items) glyph }
    {
        value_from(self.lowest, &self.cells, glyph)
    }

    /// The class of a glyph, and the one that is given outside the array.
    pub(crate) fn class(&self, glyph: u16, missing: u16) -> u16
        ensures { result ≡ slice_index_or self.now.cells.items (place_over self.now.lowest glyph) missing }
    {
        let place = glyph.wrapping_sub(self.lowest) as usize;
        match self.cells.get(place) {
            Some(class) => *class,
            None => missing,
        }
    }
}

/// The class of each of so many glyphs from the lowest on by rising pairs, whose glyphs are among them, or the one that
/// stands for a missing one. Fails where the cells get no memory.
fn class_cells<A: Allocator>(
    alloc: A,
    pairs: &[(u16, u16)],
    lowest: u16,
    count: usize,
    missing: u16,
) -> Result<Vec<u16, A>, AllocError>
    requires rising { IsRising first pairs.now }
    requires small { lowest + count ≤ 65536 }
    requires within { PairsWithin lowest count pairs.now }
    ensures long { IfOk result (λ cells. length cells.items ≡ count) }
    ensures classes { IfOk result (λ cells. (k : ℕ) → k < count
        → slice_index_or cells.items k 0 ≡ unwrap_or (value_in pairs.now (lowest + k)) missing) }
{
    if count == pairs.len() {
        let values = values_of(alloc, pairs)?;
        return Ok(values);
    }
    let mut cells = vec![in alloc; missing; count]?;
    for i in 0..pairs.len() {
        let pair = pairs[i];
        cells[(pair.0 - lowest) as usize] = pair.1;
    }
    Ok(cells)
}
