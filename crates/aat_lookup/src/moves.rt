//! What glyphs become, in arrays that have each glyph without a value as itself.
ghost use Rattle.std.specs.Prelude.{◌≡◌, ◌+◌, ◌<◌, ◌≤◌, ◌==◌, ℕ, false, IfOk, drop, length, slice_index_or, unwrap_or};
ghost use Rattle.aat_lookup.specs.Keys.{first, value_in, IsRising};
ghost use Rattle.aat_lookup.specs.Listings.{pairs_from};
ghost use Rattle.aat_lookup.specs.Moves.{kept_over, moved_by, value_by, value_of_move, AreMoved, HasCells};
ghost use Rattle.aat_lookup.specs.inside.Dense.{is_own, keeps_one, AnswersAsClasses, PairsWithin};

use crate::class_array::ClassArray;
use std::alloc::{AllocError, Allocator};

/// What glyphs become: the value that a lookup has for each, or the glyph itself where it has none. Which of the two it
/// is does not matter to who wants the glyph alone.
#[derive(Clone, Copy)]
pub struct GlyphMoves<'a> {
    /// The glyph of the first cell.
    pub lowest: u16,
    /// What each glyph from the lowest on becomes. Those outside stay.
    pub cells: &'a [u16],
    /// Which of these glyphs have themselves as value. No glyph behind the last mark has. One that has another value may
    /// be marked too.
    pub kept: &'a [bool],
}

impl<'a> GlyphMoves<'a> {
    /// What a glyph becomes.
    pub fn moved(self, glyph: u16) -> u16
        requires { HasCells self }
        ensures { result ≡ moved_by self.entry glyph }
    {
        let place = glyph.wrapping_sub(self.lowest) as usize;
        let last = self.cells.len() - 1;
        let cell = self.cells[place.min(last)];
        if place <= last { cell } else { glyph }
    }

    /// The value of a glyph, if it has one: what it becomes where that is another one, and else itself where it is
    /// marked.
    pub fn value(self, glyph: u16) -> Option<u16>
        requires { HasCells self }
        ensures { result ≡ value_of_move self.entry glyph }
    {
        let moved = self.moved(glyph);
        if moved != glyph || is_kept(self.kept, self.lowest, glyph) {
            Some(moved)
        } else {
            None
        }
    }
}

/// Whether marks over the glyphs from the lowest on have one for a glyph.
fn is_kept(kept: &[bool], lowest: u16, glyph: u16) -> bool
    ensures { result ≡ kept_over lowest kept.now glyph }
{
    let place = glyph.wrapping_sub(lowest) as usize;
    place < kept.len() && kept[place]
}

/// An array of what glyphs become, and which have themselves as value.
#[derive(Drop)]
pub(crate) struct MoveArray<A: Allocator> {
    /// The glyph of the first cell.
    pub(crate) lowest: u16,
    /// What each glyph from the lowest to the highest becomes.
    pub(crate) cells: Vec<u16, A>,
    /// Whether it has itself as value, up to the last glyph that has. There are no marks where none has. Where all glyphs
    /// have a value all are marked.
    kept: Vec<bool, A>,
}

impl<A: Allocator + Copy> MoveArray<A> {
    /// The array of so many glyphs from the lowest on, among which are those of rising pairs. Fails where the cells or
    /// the marks get no memory.
    pub(crate) fn over(
        alloc: A,
        pairs: &[(u16, u16)],
        lowest: u16,
        count: usize,
    ) -> Result<MoveArray<A>, AllocError>
        requires rising { IsRising first pairs.now }
        requires some { 0 < count }
        requires small { lowest + count ≤ 65536 }
        requires within { PairsWithin lowest count pairs.now }
        ensures moved { IfOk result (λ array.
            AreMoved array.lowest array.cells.items array.kept.items pairs.now) }
    {
        let cells = moved_cells(alloc, pairs, lowest, count)?;
        let kept = kept_marks(alloc, pairs, lowest, count)?;
        Ok(MoveArray {
            lowest,
            cells,
            kept,
        })
    }
}

impl<A: Allocator + Copy> MoveArray<A> {
    /// The array of the values of glyphs that follow one another, from the lowest on. Fails where the marks get no memory.
    pub(crate) fn of_cells(
        alloc: A,
        lowest: u16,
        cells: Vec<u16, A>,
    ) -> Result<MoveArray<A>, AllocError>
        requires some { 0 < length cells.items }
        requires small { lowest + length cells.items ≤ 65536 }
        ensures lowest { IfOk result (λ array. array.lowest ≡ lowest) }
        ensures cells { IfOk result (λ array. array.cells.items ≡ cells.items) }
        ensures moved { IfOk result (λ array.
            AreMoved array.lowest array.cells.items array.kept.items (pairs_from lowest cells.items)) }
    {
        let kept = vec![in alloc; true; cells.len()]?;
        Ok(MoveArray {
            lowest,
            cells,
            kept,
        })
    }
}

impl<A: Allocator> MoveArray<A> {
    /// The same cells as those of classes, with `missing` for glyphs without one, where each has a value.
    pub(crate) fn into_classes(self, missing: u16) -> ClassArray<A>
        requires { self.lowest + length self.cells.items ≤ 65536 }
        ensures lowest { result.lowest ≡ self.lowest }
        ensures cells { result.cells.items ≡ self.cells.items }
        ensures answers { AnswersAsClasses result.missing result.lowest result.cells.items
            (pairs_from self.lowest self.cells.items) }
    {
        ClassArray::of_cells(self.lowest, missing, self.cells)
    }

    /// What each glyph becomes.
    pub(crate) fn moves(&self) -> GlyphMoves<'_>
        ensures lowest { result.lowest ≡ self.now.lowest }
        ensures cells { result.cells.now ≡ self.now.cells.items }
        ensures kept { result.kept.now ≡ self.now.kept.items }
    {
        GlyphMoves {
            lowest: self.lowest,
            cells: &self.cells,
            kept: &self.kept,
        }
    }

    /// The value of a glyph, if it has one.
    pub(crate) fn value(&self, glyph: u16) -> Option<u16>
        requires { 0 < length self.now.cells.items }
        ensures { result ≡ value_by self.now.lowest self.now.cells.items self.now.kept.items glyph }
    {
        self.moves().value(glyph)
    }
}

/// What each of so many glyphs from the lowest on becomes by rising pairs, whose glyphs are among them. Fails where the
/// cells get no memory.
fn moved_cells<A: Allocator>(
    alloc: A,
    pairs: &[(u16, u16)],
    lowest: u16,
    count: usize,
) -> Result<Vec<u16, A>, AllocError>
    requires rising { IsRising first pairs.now }
    requires small { lowest + count ≤ 65536 }
    requires within { PairsWithin lowest count pairs.now }
    ensures long { IfOk result (λ cells. length cells.items ≡ count) }
    ensures values { IfOk result (λ cells. (k : ℕ) → k < count
        → slice_index_or cells.items k 0 ≡ unwrap_or (value_in pairs.now (lowest + k)) (lowest + k)) }
{
    if count == pairs.len() {
        let values = values_of(alloc, pairs)?;
        return Ok(values);
    }
    let mut cells = glyphs_from(alloc, lowest, count)?;
    for i in 0..pairs.len() {
        let pair = pairs[i];
        cells[(pair.0 - lowest) as usize] = pair.1;
    }
    Ok(cells)
}

/// The values of pairs: where their glyphs follow one another, those of the glyphs of an array. Fails where they get no
/// memory.
pub(crate) fn values_of<A: Allocator>(
    alloc: A,
    pairs: &[(u16, u16)],
) -> Result<Vec<u16, A>, AllocError>
    ensures long { IfOk result (λ values. length values.items ≡ length pairs.now) }
    ensures each { IfOk result (λ values. (k : ℕ) → k < length pairs.now
        → slice_index_or values.items k 0 ≡ (slice_index_or pairs.now k (0, 0)).1) }
{
    let mut values = vec![in alloc; 0; pairs.len()]?;
    for place in 0..pairs.len() {
        values[place] = pairs[place].1;
    }
    Ok(values)
}

/// Which pairs have their glyph as value. Fails where the marks get no memory.
fn own_marks<A: Allocator>(alloc: A, pairs: &[(u16, u16)]) -> Result<Vec<bool, A>, AllocError>
    ensures long { IfOk result (λ marks. length marks.items ≡ length pairs.now) }
    ensures each { IfOk result (λ marks. (k : ℕ) → k < length pairs.now → slice_index_or marks.items k false
        ≡ ((slice_index_or pairs.now k (0, 0)).1 == (slice_index_or pairs.now k (0, 0)).0)) }
{
    let mut marks = vec![in alloc; false; pairs.len()]?;
    for place in 0..pairs.len() {
        let pair = pairs[place];
        marks[place] = pair.1 == pair.0;
    }
    Ok(marks)
}

/// So many glyphs from the lowest on. Fails where they get no memory.
fn glyphs_from<A: Allocator>(alloc: A, lowest: u16, count: usize) -> Result<Vec<u16, A>, AllocError>
    requires small { lowest + count ≤ 65536 }
    ensures long { IfOk result (λ glyphs. length glyphs.items ≡ count) }
    ensures each { IfOk result (λ glyphs. (k : ℕ) → k < count → slice_index_or glyphs.items k 0 ≡ lowest + k) }
{
    let mut glyphs = vec![in alloc; 0; count]?;
    for place in 0..count {
        glyphs[place] = lowest + place as u16;
    }
    Ok(glyphs)
}

/// Which of so many glyphs from the lowest on have themselves as value by rising pairs, up to the last one that has: no
/// marks where none has. Fails where the marks get no memory.
fn kept_marks<A: Allocator>(
    alloc: A,
    pairs: &[(u16, u16)],
    lowest: u16,
    count: usize,
) -> Result<Vec<bool, A>, AllocError>
    requires rising { IsRising first pairs.now }
    requires small { lowest + count ≤ 65536 }
    requires within { PairsWithin lowest count pairs.now }
    ensures few { IfOk result (λ kept. length kept.items ≤ count) }
    ensures marks { IfOk result (λ kept. (k : ℕ) → k < count
        → slice_index_or kept.items k false ≡ is_own (value_in pairs.now (lowest + k)) (lowest + k)) }
{
    let own = own_end(pairs);
    if own == 0 {
        return Ok(Vec::new(alloc));
    }
    let marks = (pairs[own - 1].0 - lowest) as usize + 1;
    if marks == own {
        let kept = own_marks(alloc, &pairs[..own])?;
        return Ok(kept);
    }
    let mut kept = vec![in alloc; false; marks]?;
    for i in 0..own {
        let pair = pairs[i];
        kept[(pair.0 - lowest) as usize] = pair.1 == pair.0;
    }
    Ok(kept)
}

/// The number of pairs up to the last one that has its glyph as value.
fn own_end(pairs: &[(u16, u16)]) -> usize
    ensures within { result ≤ length pairs.now }
    ensures others { keeps_one (drop result pairs.now) ≡ false }
{
    let mut count = pairs.len();
    while count > 0 {
        let pair = pairs[count - 1];
        if pair.1 == pair.0 {
            return count;
        }
        count -= 1;
    }
    count
}
