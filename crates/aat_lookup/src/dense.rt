//! Values of glyphs that are found without a search, beside the pairs that a contract sees.
ghost use Rattle.std.specs.Prelude.{◌≡◌, ◌+◌, ◌<◌, ◌≤◌, ℕ, List, IfOk, IfSome, length};
ghost use Rattle.aat_lookup.specs.Keys.{first, value_in, IsRising};
ghost use Rattle.aat_lookup.specs.Moves.{AreMovesOf};
ghost use Rattle.aat_lookup.specs.GlyphSpans.{span_count};
ghost use Rattle.aat_lookup.specs.Listings.{pairs_from, pairs_of_listing, AreSmall};
ghost use Rattle.aat_lookup.specs.inside.Dense.{pairs_in_cells, AnswersAsPairs, HasSmallGlyphs, PairsWithin};

use crate::class_array::ClassArray;
use crate::keys::row_at;
use crate::listing::{Listing, pairs_from};
use crate::moves::{GlyphMoves, MoveArray};
use crate::pages::{GlyphPages, page_count};
use std::alloc::{AllocError, Allocator};

/// The largest number of cells that an array or pages have for each pair, the quotient rounded down. Where the glyphs
/// lie further apart, their memory would be many times that of the pairs, and these are searched instead.
const CELLS_A_PAIR: usize = 32;

/// The smallest number of pairs for each page of 256 cells.
const PAIRS_A_PAGE: usize = 256 / CELLS_A_PAIR;

/// How the value of a glyph is found among pairs of a glyph and its value.
#[derive(Drop)]
pub(crate) enum Dense<A: Allocator> {
    /// The glyphs lie close: in an array of what each glyph of their span becomes.
    Moves(MoveArray<A>),
    /// They lie close, and have classes: these in an array over their span, for `Lookup::class`. `value` searches.
    Classes(ClassArray<A>),
    /// They lie close on pages of 256 glyphs: on those that hold one.
    Pages(GlyphPages<A>),
    /// They lie apart: by bisection.
    Search,
}

impl<A: Allocator + Copy> Dense<A> {
    /// How the values of pairs are found, which rise strictly by glyph: in an array where its cells, by
    /// `CELLS_A_PAIR` and rounded down, are no more than the pairs, else on pages where theirs are at most
    /// `CELLS_A_PAIR` for each pair, and else by bisection. Fails where cells get no
    /// memory.
    pub(crate) fn over(alloc: A, pairs: &[(u16, u16)]) -> Result<Dense<A>, AllocError>
        requires { IsRising first pairs.now }
        ensures answers { IfOk result (λ dense. AnswersAsPairs dense pairs.now) }
    {
        let (lowest, count) = span_of(pairs);
        if count > 0 {
            return Ok(Dense::Moves(MoveArray::over(alloc, pairs, lowest, count)?));
        }
        if pairs.len() < PAIRS_A_PAGE {
            return Ok(Dense::Search);
        }
        let pages = page_count(pairs);
        if pages <= pairs.len() / PAIRS_A_PAGE {
            return Ok(Dense::Pages(GlyphPages::over(alloc, pairs, pages)?));
        }
        Ok(Dense::Search)
    }

    /// An array of the values of glyphs that follow one another, from the lowest on. Fails where the marks beside it get
    /// no memory.
    pub(crate) fn of_cells(
        alloc: A,
        lowest: u16,
        values: Vec<u16, A>,
    ) -> Result<Dense<A>, AllocError>
        requires { lowest + length values.items ≤ 65536 }
        ensures pairs { IfOk result (λ dense. pairs_in_cells dense ≡ pairs_from lowest values.items) }
        ensures small { IfOk result HasSmallGlyphs }
        ensures answers { IfOk result (λ dense. AnswersAsPairs dense (pairs_in_cells dense)) }
    {
        if values.is_empty() {
            return Ok(Dense::Search);
        }
        Ok(Dense::Moves(MoveArray::of_cells(alloc, lowest, values)?))
    }

    /// The same with `missing` for glyphs without a value: where the values of pairs are in an array, in one of classes.
    /// Fails where its cells get no memory.
    pub(crate) fn with_classes(
        self,
        alloc: A,
        pairs: &[(u16, u16)],
        missing: u16,
    ) -> Result<Dense<A>, AllocError>
        requires rising { IsRising first pairs.now }
        requires answers { AnswersAsPairs self pairs.now }
        ensures answers { IfOk result (λ dense. AnswersAsPairs dense pairs.now) }
    {
        let (lowest, count) = span_of(pairs);
        match self {
            Dense::Moves(_) if count > 0 => {
                let array = ClassArray::over(alloc, pairs, lowest, count, missing)?;
                Ok(Dense::Classes(array))
            }
            dense => Ok(dense),
        }
    }
}

impl<A: Allocator> Dense<A> {
    /// The same cells as those of classes, with `missing` for glyphs without one.
    pub(crate) fn as_classes(self, missing: u16) -> Dense<A>
        requires small { HasSmallGlyphs self }
        requires answers { AnswersAsPairs self (pairs_in_cells self) }
        ensures pairs { pairs_in_cells result ≡ pairs_in_cells self }
        ensures small { HasSmallGlyphs result }
        ensures answers { AnswersAsPairs result (pairs_in_cells result) }
    {
        match self {
            Dense::Moves(array) => Dense::Classes(array.into_classes(missing)),
            dense => dense,
        }
    }

    /// The glyphs that have a value in a cell.
    pub(crate) fn cells(&self) -> Listing<'_>
        requires { HasSmallGlyphs self.now }
        ensures pairs { pairs_of_listing result ≡ pairs_in_cells self.now }
        ensures small { AreSmall result }
    {
        match self {
            Dense::Moves(array) => Listing::Values(array.lowest, &array.cells),
            Dense::Classes(array) => Listing::Values(array.lowest, &array.cells),
            Dense::Pages(_) | Dense::Search => Listing::Pairs(&[]),
        }
    }

    /// The pairs of the glyphs that have a value in a cell. Fails where they get no memory.
    pub(crate) fn to_pairs<B: Allocator>(&self, alloc: B) -> Result<Vec<(u16, u16), B>, AllocError>
        requires { HasSmallGlyphs self.now }
        ensures { IfOk result (λ pairs. pairs.items ≡ pairs_in_cells self.now) }
    {
        match self {
            Dense::Moves(array) => pairs_from(alloc, array.lowest, &array.cells),
            Dense::Classes(array) => pairs_from(alloc, array.lowest, &array.cells),
            Dense::Pages(_) | Dense::Search => Ok(Vec::new(alloc)),
        }
    }

    /// The value of a glyph in a cell, if it has one.
    pub(crate) fn cell(&self, glyph: u16) -> Option<u16>
        requires small { HasSmallGlyphs self.now }
        requires answers { AnswersAsPairs self.now (pairs_in_cells self.now) }
        ensures { result ≡ value_in (pairs_in_cells self.now) glyph }
    {
        match self {
            Dense::Moves(array) => array.value(glyph),
            Dense::Classes(array) => array.cell(glyph),
            Dense::Pages(_) | Dense::Search => None,
        }
    }

    /// The value that pairs list for a glyph, if it has one.
    pub(crate) fn value(&self, pairs: &[(u16, u16)], glyph: u16) -> Option<u16>
        requires rising { IsRising first pairs.now }
        requires answers { AnswersAsPairs self.now pairs.now }
        ensures { result ≡ value_in pairs.now glyph }
    {
        match self {
            Dense::Moves(array) => array.value(glyph),
            Dense::Pages(pages) => pages.value(glyph),
            Dense::Classes(_) | Dense::Search => searched(pairs, glyph),
        }
    }

    /// What each glyph becomes, where that stands in an array. It has the values of all pairs that are found by this.
    pub(crate) fn moves(&self) -> Option<GlyphMoves<'_>>
        ensures { (pairs : List (ℕ × ℕ)) → AnswersAsPairs self.now pairs
            → IfSome result (λ moves. AreMovesOf moves pairs) }
    {
        match self {
            Dense::Moves(array) => Some(array.moves()),
            Dense::Classes(_) | Dense::Pages(_) | Dense::Search => None,
        }
    }
}

/// The value of a glyph among rising pairs, if it has one, found by bisection. It stands apart, so that what is found
/// without a search stays short.
#[inline(never)]
fn searched(pairs: &[(u16, u16)], glyph: u16) -> Option<u16>
    requires { IsRising first pairs.now }
    ensures { result ≡ value_in pairs.now glyph }
{
    row_at(pairs, glyph as u32).map(|pair| pair.1)
}

/// The lowest glyph of rising pairs and the number of glyphs from there to the highest, or no glyphs where these, by
/// `CELLS_A_PAIR` and rounded down, are more than the pairs.
fn span_of(pairs: &[(u16, u16)]) -> (u16, usize)
    requires { IsRising first pairs.now }
    ensures count { result.1 ≡ span_count pairs.now }
    ensures small { result.0 + result.1 ≤ 65536 }
    ensures within { 0 < result.1 → PairsWithin result.0 result.1 pairs.now }
{
    if pairs.is_empty() {
        return (0, 0);
    }
    let lowest = pairs[0].0;
    let highest = pairs[pairs.len() - 1].0;
    let count = (highest - lowest) as usize + 1;
    if count / CELLS_A_PAIR > pairs.len() {
        return (lowest, 0);
    }
    (lowest, count)
}
