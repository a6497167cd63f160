//! What values that are read weigh: the bytes of memory that they take.

use crate::left_out::LeftOutSubtable;

/// The bytes of a pair that is listed.
pub const PAIR_SIZE: usize = size_of::<(u16, u16, i16)>();

/// The bytes of the start of the pairs of a left glyph, and of the word with their bits.
pub const START_SIZE: usize = size_of::<usize>() + size_of::<u64>();

/// The bytes of a subtable that is left out.
pub const LEFT_OUT_SIZE: usize = size_of::<LeftOutSubtable>();
