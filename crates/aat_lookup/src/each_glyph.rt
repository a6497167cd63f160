//! Values of the glyphs from 0 on, one for each.
ghost use Rattle.std.specs.Prelude.{◌≡◌, ◌≤◌, IfOk, length};
ghost use Rattle.aat_lookup.specs.EachGlyph.{pairs_of_each};
ghost use Rattle.aat_lookup.specs.Keys.{value_in};

use std::alloc::{AllocError, Allocator};

/// The value of a glyph among those of the glyphs from 0 on, if it has one.
#[tactic(auto, using(crate::proofs::EachValues::each_found, crate::proofs::EachValues::each_behind))]
pub(crate) fn value_of_each(values: &[u16], glyph: u16) -> Option<u16>
    ensures { result ≡ value_in (pairs_of_each values.now) glyph }
{
    let place = glyph as usize;
    if place < values.len() {
        Some(values[place])
    } else {
        None
    }
}

/// The pairs of the glyphs from 0 on and their values. Fails where they get no memory.
pub(crate) fn pairs_of_each<A: Allocator>(
    alloc: A,
    values: &[u16],
) -> Result<Vec<(u16, u16), A>, AllocError>
    requires { length values.now ≤ 65536 }
    ensures { IfOk result (λ pairs. pairs.items ≡ pairs_of_each values.now) }
{
    let mut pairs = vec![in alloc; (0, 0); values.len()]?;
    for place in 0..values.len() {
        pairs[place] = (place as u16, values[place]);
    }
    Ok(pairs)
}
