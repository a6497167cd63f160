//! Pairs by classes of what was read.
ghost use Rattle.std.specs.Prelude.{◌≡◌, IfOk};

use aat_kerning_tables::ClassPairs;
use aat_lookup::Lookup;
use std::alloc::{AllocError, Allocator};

/// The pairs of classes of left and right glyphs. Fails where they get no memory.
pub(crate) fn class_pairs<A: Allocator + Copy>(
    alloc: A,
    left: &[(u16, u16)],
    right: &[(u16, u16)],
    right_count: u16,
    values: Vec<i16, A>,
) -> Result<ClassPairs<A>, AllocError>
    ensures { IfOk result (λ pairs. pairs ≡ record {
      left = left.now;
      right = right.now;
      right_count = right_count;
      values = values.items;
    }) }
{
    let Ok(left) = Lookup::new(alloc, left) else {
        return Err(AllocError);
    };
    let Ok(right) = Lookup::new(alloc, right) else {
        return Err(AllocError);
    };
    ClassPairs::from_lookups(alloc, left, right, right_count, values)
}
