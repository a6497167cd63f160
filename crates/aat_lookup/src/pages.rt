//! Values of glyphs on pages of 256 glyphs, of which only those are kept that hold a glyph with a value.
ghost use Rattle.std.specs.Prelude.{◌≡◌, ◌+◌, ◌<◌, ◌≤◌, ℕ, None, Some, IfOk, length, slice_index_or};
ghost use Rattle.aat_lookup.specs.Keys.{first, value_in, IsRising};
ghost use Rattle.aat_lookup.specs.inside.Dense.{on_page, page_holds, value_on_pages, AnswersOnPages, KeepsCells};
ghost use Rattle.aat_lookup.specs.inside.Walks.{AreBelow, AreNotBelow};

use crate::cells::{append_values, cell_at};
use crate::walk::walk_to;
use std::alloc::{AllocError, Allocator};

/// The number of pages, and of glyphs on each of them.
const PAGE: usize = 256;

/// The values of glyphs on those pages that hold one.
#[derive(Drop)]
pub(crate) struct GlyphPages<A: Allocator> {
    /// Where the cells of each page begin, if it is kept.
    starts: Vec<Option<u16>, A>,
    /// The cells of one page after the other.
    cells: Vec<Option<u16>, A>,
}

impl<A: Allocator + Copy> GlyphPages<A> {
    /// The pages of pairs of a glyph and its value, which rise strictly by glyph, where so many pages hold a glyph.
    pub(crate) fn over(
        alloc: A,
        pairs: &[(u16, u16)],
        count: usize,
    ) -> Result<GlyphPages<A>, AllocError>
        requires rising { IsRising first pairs.now }
        requires few { count ≤ 256 }
        ensures answers { IfOk result (λ pages. AnswersOnPages pages.starts.items pages.cells.items pairs.now) }
    {
        let mut starts = Vec::with_capacity(alloc, PAGE)?;
        let mut cells = Vec::with_capacity(alloc, count * PAGE)?;
        let mut at = 0;
        for page in 0..PAGE {
            let lowest = (page * PAGE) as u16;
            at = walk_to(pairs, at, lowest as u32);
            starts.push(append_page(&mut cells, pairs, at, lowest)?)?;
        }
        Ok(GlyphPages { starts, cells })
    }
}

impl<A: Allocator> GlyphPages<A> {
    /// The value of a glyph, if it has one.
    pub(crate) fn value(&self, glyph: u16) -> Option<u16>
        ensures { result ≡ value_on_pages self.now.starts.items self.now.cells.items glyph }
    {
        let glyph = glyph as usize;
        match cell_at(&self.starts, glyph / PAGE) {
            Some(start) => cell_at(&self.cells, start as usize + glyph % PAGE),
            None => None,
        }
    }
}

/// The number of pages that hold a glyph of rising pairs.
pub(crate) fn page_count(pairs: &[(u16, u16)]) -> usize
    requires { IsRising first pairs.now }
    ensures few { result ≤ 256 }
{
    let mut count = 0;
    let mut at = 0;
    for page in 0..PAGE {
        let lowest = (page * PAGE) as u16;
        at = walk_to(pairs, at, lowest as u32);
        if holds_glyph(pairs, at, lowest) {
            count += 1;
        }
    }
    count
}

/// Whether the page from the lowest glyph on holds a glyph of rising pairs: that at the place to which a walk to the
/// lowest glyph has come.
fn holds_glyph(pairs: &[(u16, u16)], place: usize, lowest: u16) -> bool
    requires rising { IsRising first pairs.now }
    requires below { AreBelow first pairs.now place lowest }
    requires above { AreNotBelow first pairs.now place lowest }
    ensures { result ≡ page_holds pairs.now lowest }
{
    if place >= pairs.len() {
        return false;
    }
    let above_lowest = pairs[place].0 - lowest;
    (above_lowest as usize) < PAGE
}

/// Appends the page from the lowest glyph on to the cells, if it holds a glyph of the pairs, and answers where its
/// cells begin. A walk to the lowest glyph has come to the place.
fn append_page<A: Allocator>(
    cells: &mut Vec<Option<u16>, A>,
    pairs: &[(u16, u16)],
    place: usize,
    lowest: u16,
) -> Result<Option<u16>, AllocError>
    requires rising { IsRising first pairs.now }
    requires below { AreBelow first pairs.now place lowest }
    requires above { AreNotBelow first pairs.now place lowest }
    requires small { lowest + 256 ≤ 65536 }
    requires room { length cells.now.items ≤ lowest }
    ensures long { IfOk result (λ _. length cells.new.items ≤ length cells.old.items + 256) }
    ensures longer { IfOk result (λ _. length cells.old.items ≤ length cells.new.items) }
    ensures kept { IfOk result (λ _. KeepsCells cells.old.items cells.new.items) }
    ensures within { IfOk result (λ page. (start : ℕ) → page ≡ Some start
        → start + 256 ≤ length cells.new.items) }
    ensures values { IfOk result (λ page. (k : ℕ) → k < 256
        → on_page cells.new.items page k ≡ value_in pairs.now (lowest + k)) }
{
    if !holds_glyph(pairs, place, lowest) {
        return Ok(None);
    }
    let start = cells.len() as u16;
    append_values(cells, pairs, place, lowest, PAGE)?;
    Ok(Some(start))
}
