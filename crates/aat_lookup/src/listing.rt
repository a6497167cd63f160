//! The values of a lookup as they are kept, and those of glyphs that follow one another.
ghost use Rattle.std.specs.Prelude.{◌≡◌, ◌+◌, ◌≤◌, IfOk, length};
ghost use Rattle.aat_lookup.specs.Keys.{value_in};
ghost use Rattle.aat_lookup.specs.Listings.{pairs_from};

use crate::segments::LookupSegment;
use std::alloc::{AllocError, Allocator};

/// The values of all glyphs of a lookup, in the form in which it keeps them.
#[derive(Clone, Copy)]
pub enum Listing<'a> {
    /// Pairs of a glyph and its value. Those of a lookup rise strictly by glyph; the type does not say so.
    Pairs(&'a [(u16, u16)]),
    /// Segments. Those of a lookup each begin behind the end of the one before; the type does not say so.
    Segments(&'a [LookupSegment]),
    /// The lowest glyph, and the values of it and of the glyphs that follow it.
    Values(u16, &'a [u16]),
}

/// The value of a glyph among those of glyphs that follow one another, from the lowest on, if it has one.
pub(crate) fn value_from(lowest: u16, values: &[u16], glyph: u16) -> Option<u16>
    requires { lowest + length values.now ≤ 65536 }
    ensures { result ≡ value_in (pairs_from lowest values.now) glyph }
{
    let place = glyph.wrapping_sub(lowest) as usize;
    if place < values.len() {
        Some(values[place])
    } else {
        None
    }
}

/// The pairs of glyphs that follow one another, from the lowest on, and their values. Fails where they get no memory.
pub(crate) fn pairs_from<A: Allocator>(
    alloc: A,
    lowest: u16,
    values: &[u16],
) -> Result<Vec<(u16, u16), A>, AllocError>
    requires { lowest + length values.now ≤ 65536 }
    ensures { IfOk result (λ pairs. pairs.items ≡ pairs_from lowest values.now) }
{
    let mut pairs = Vec::with_capacity(alloc, values.len())?;
    for k in 0..values.len() {
        pairs.push((lowest + k as u16, values[k]))?;
    }
    Ok(pairs)
}
