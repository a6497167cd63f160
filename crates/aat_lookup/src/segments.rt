//! Segments of glyphs that have one value, and how the value of a glyph is found among them.
ghost use Rattle.std.specs.Prelude.{◌≡◌, ◌≤◌, ◌++◌, OnOk};
ghost use Rattle.aat_lookup.specs.Keys.{value_in};
ghost use Rattle.aat_lookup.specs.Segments.{first_segment_fall, last_of, pairs_of_segment, pairs_of_segments};
ghost use Rattle.aat_lookup.specs.inside.Ordered.{AreInOrder};

use crate::keys::Keyed;
use std::alloc::{AllocError, Allocator};

/// Glyphs next to one another that have one value.
///
/// Apple's TrueType Reference Manual, "Font Tables", section on lookup tables, segment single format.
#[derive(Clone, Copy, PartialEq, Eq, Debug)]
pub struct LookupSegment {
    /// The first glyph.
    pub first_glyph: u16,
    /// The last glyph.
    pub last_glyph: u16,
    /// The value of each of them.
    pub value: u16,
}

impl LookupSegment {
    /// The segment of the glyphs from a first to a last one, with their value.
    pub fn new(first_glyph: u16, last_glyph: u16, value: u16) -> LookupSegment
        ensures { result ≡ record { first_glyph = first_glyph; last_glyph = last_glyph; value = value } }
    {
        LookupSegment {
            first_glyph,
            last_glyph,
            value,
        }
    }
}

impl Keyed for LookupSegment {
    ghost use Rattle.aat_lookup.specs.Segments.{last_of};

    ghost key_of = { last_of };

    fn key(&self) -> u32 {
        self.last_glyph as u32
    }
}

/// The place of the first segment that has no glyph, or begins no higher than the one before it ends.
pub(crate) fn first_segment_fall(segments: &[LookupSegment]) -> Option<usize>
    ensures { result ≡ first_segment_fall segments.now }
{
    let mut lowest = 0;
    for i in 0..segments.len() {
        let segment = segments[i];
        if (segment.first_glyph as u32) < lowest || segment.last_glyph < segment.first_glyph {
            return Some(i);
        }
        lowest = segment.last_glyph as u32 + 1;
    }
    None
}

/// The value that segments have for a glyph, found by bisection. It stands apart, so that what is found without a
/// search stays short.
#[inline(never)]
pub(crate) fn value_in_segments(segments: &[LookupSegment], glyph: u16) -> Option<u16>
    requires { AreInOrder segments.now }
    ensures { result ≡ value_in (pairs_of_segments segments.now) glyph }
{
    match segments.binary_search_by_key(&(glyph as u32), |segment| segment.key()) {
        Ok(place) => Some(segments[place].value),
        Err(place) => {
            let Some(segment) = segments.get(place) else {
                return None;
            };
            if glyph < segment.first_glyph {
                return None;
            }
            Some(segment.value)
        }
    }
}

/// Appends the pairs of a segment.
fn append_segment<A: Allocator>(
    segment: LookupSegment,
    pairs: &mut Vec<(u16, u16), A>,
) -> Result<(), AllocError>
    requires { segment.first_glyph ≤ segment.last_glyph }
    ensures { OnOk result (pairs.new.items ≡ pairs.old.items ++ pairs_of_segment segment) }
{
    let count = segment.last_glyph as usize + 1 - segment.first_glyph as usize;
    for k in 0..count {
        pairs.push((segment.first_glyph + k as u16, segment.value))?;
    }
    Ok(())
}

/// Appends the pairs of segments.
pub(crate) fn append_segments<A: Allocator>(
    segments: &[LookupSegment],
    pairs: &mut Vec<(u16, u16), A>,
) -> Result<(), AllocError>
    requires { AreInOrder segments.now }
    ensures { OnOk result (pairs.new.items ≡ pairs.old.items ++ pairs_of_segments segments.now) }
{
    for i in 0..segments.len() {
        append_segment(segments[i], pairs)?;
    }
    Ok(())
}
