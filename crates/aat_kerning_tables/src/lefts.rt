//! Where the pairs of each left glyph begin, beside the pairs that a contract sees.
ghost use Rattle.std.specs.Prelude.{◌≡◌, ◌+◌, ◌*◌, ◌<◌, ◌≤◌, ℕ, IfOk, length, slice_range};
ghost use Rattle.aat_lookup.specs.Keys.{IsRising};
ghost use Rattle.aat_kerning_tables.specs.Pairs.{key_of_pair};
ghost use Rattle.aat_kerning_tables.specs.LeftGlyphs.{left_count};
ghost use Rattle.aat_kerning_tables.specs.inside.Lefts.{AreLeftStarts, BeginAt, KernsAlike, LeftsWithin};
ghost use Rattle.aat_kerning_tables.specs.inside.Rights.{may_have, TellRights};

use crate::rights::{may_have, rights_from};
use aat_lookup::keys::Keyed;
use aat_lookup::walk::walk_to;
use std::alloc::{AllocError, Allocator};

/// The largest number of starts for each pair, the quotient rounded down. Where the left glyphs lie further apart, all
/// pairs are searched.
const STARTS_A_PAIR: usize = 8;

/// The number of right glyphs, and of keys of one left glyph.
const RIGHT_GLYPHS: u32 = 65536;

/// Where the pairs of each left glyph begin, and which right glyphs it may have.
#[derive(Drop)]
pub(crate) struct Lefts<A: Allocator> {
    /// The left glyph of the first start.
    lowest: u16,
    /// The place of the first pair of each left glyph from the lowest to the highest, or where it would stand. Empty
    /// where the left glyphs do not lie close.
    starts: Vec<usize, A>,
    /// For each left glyph that has a start, 64 bits: that of a right glyph is clear only where the two are no pair.
    rights: Vec<u64, A>,
}

impl<A: Allocator + Copy> Lefts<A> {
    /// Where the pairs of each left glyph begin among rising pairs, and which right glyphs it may have. Fails where these
    /// get no memory.
    pub(crate) fn over(alloc: A, pairs: &[(u16, u16, i16)]) -> Result<Lefts<A>, AllocError>
        requires { IsRising key_of_pair pairs.now }
        ensures starts { IfOk result (λ lefts. AreLeftStarts lefts.lowest lefts.starts.items pairs.now) }
        ensures rights { IfOk result (λ lefts. TellRights lefts.lowest lefts.rights.items pairs.now) }
    {
        let (lowest, count) = lefts_of(pairs);
        let starts = starts_from(alloc, pairs, lowest, count)?;
        let rights = rights_from(alloc, &starts, lowest, pairs)?;
        Ok(Lefts {
            lowest,
            starts,
            rights,
        })
    }
}

impl<A: Allocator> Lefts<A> {
    /// Whether a left glyph may have a pair with a right one.
    pub(crate) fn may_have(&self, left: u16, right: u16) -> bool
        ensures { result ≡ may_have self.now.lowest self.now.rights.items left right }
    {
        may_have(&self.rights, self.lowest, left, right)
    }

    /// The pairs of a left glyph among the pairs of which these are the starts, or all pairs where the left glyphs do
    /// not lie close.
    pub(crate) fn pairs_of<'a>(
        &self,
        pairs: &'a [(u16, u16, i16)],
        left: u16,
    ) -> &'a [(u16, u16, i16)]
        requires rising { IsRising key_of_pair pairs.now }
        requires starts { AreLeftStarts self.now.lowest self.now.starts.items pairs.now }
        ensures rising { IsRising key_of_pair result.now }
        ensures same { KernsAlike left result.now pairs.now }
    {
        pairs_from(&self.starts, self.lowest, pairs, left)
    }
}

/// The pairs of a left glyph, where those of each glyph from the lowest on begin at its start, or all pairs where there
/// are no starts.
pub(crate) fn pairs_from<'a>(
    starts: &[usize],
    lowest: u16,
    pairs: &'a [(u16, u16, i16)],
    left: u16,
) -> &'a [(u16, u16, i16)]
    requires rising { IsRising key_of_pair pairs.now }
    requires starts { AreLeftStarts lowest starts.now pairs.now }
    ensures rising { IsRising key_of_pair result.now }
    ensures same { KernsAlike left result.now pairs.now }
{
    if starts.is_empty() {
        return pairs;
    }
    if left < lowest {
        return &[];
    }
    let place = (left - lowest) as usize;
    if place >= starts.len() {
        return &[];
    }
    let start = starts[place];
    if place + 1 >= starts.len() {
        return part_of(pairs, start, pairs.len());
    }
    part_of(pairs, start, starts[place + 1])
}

/// The pairs from one place on and before another.
fn part_of(pairs: &[(u16, u16, i16)], start: usize, end: usize) -> &[(u16, u16, i16)]
    requires order { start ≤ end }
    requires within { end ≤ length pairs.now }
    ensures { result.now ≡ slice_range pairs.now start end }
{
    &pairs[start..end]
}

/// The lowest left glyph of rising pairs and the number of glyphs from there to the highest, or no glyphs where these,
/// by `STARTS_A_PAIR` and rounded down, are more than the pairs.
fn lefts_of(pairs: &[(u16, u16, i16)]) -> (u16, usize)
    requires { IsRising key_of_pair pairs.now }
    ensures count { result.1 ≡ left_count pairs.now }
    ensures small { result.0 + result.1 ≤ 65536 }
    ensures within { 0 < result.1 → LeftsWithin result.0 result.1 pairs.now }
{
    if pairs.is_empty() {
        return (0, 0);
    }
    let lowest = pairs[0].key() / RIGHT_GLYPHS;
    let highest = pairs[pairs.len() - 1].key() / RIGHT_GLYPHS;
    let count = (highest - lowest) as usize + 1;
    if count / STARTS_A_PAIR > pairs.len() {
        return (lowest as u16, 0);
    }
    (lowest as u16, count)
}

/// Where the pairs of so many left glyphs from the lowest on begin among rising pairs, in one walk over these.
fn starts_from<A: Allocator>(
    alloc: A,
    pairs: &[(u16, u16, i16)],
    lowest: u16,
    count: usize,
) -> Result<Vec<usize, A>, AllocError>
    requires rising { IsRising key_of_pair pairs.now }
    requires small { lowest + count ≤ 65536 }
    ensures long { IfOk result (λ starts. length starts.items ≡ count) }
    ensures begin { IfOk result (λ starts. BeginAt lowest starts.items count pairs.now) }
{
    let mut starts = Vec::with_capacity(alloc, count)?;
    let mut at = 0;
    for place in 0..count {
        at = walk_to(pairs, at, (lowest + place as u16) as u32 * RIGHT_GLYPHS);
        starts.push(at)?;
    }
    Ok(starts)
}
