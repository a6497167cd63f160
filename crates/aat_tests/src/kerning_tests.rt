//! Kerning of long lines, and at the ends of glyphs, states, classes, indexes and sums.

use crate::kerning::{Line, Rule, Seen, Values, Way, is_kerned};
use aat_layout::buffer::Direction;
use std::alloc::Global;
use std::process::Abort;
use std::test::Fail;

/// No value, and no pair of points.
const NONE: u16 = 0xFFFF;

/// Puts the place on the stack, or marks it; and does not go on.
const PUSH: u16 = 0x8000;

const STAYS: u16 = 0x4000;

/// Ten thousand glyphs, each two of which are a pair.
const PAIRS: Line = Line {
    name: "pairs of kern",
    way: Way::KernPairs(&[(1, 2, -25)]),
    direction: Direction::LeftToRight,
    ids: &[1, 2],
    count: 10_000,
    are_skipped: false,
    start: (500, 0),
    budget: 16384,
    turns: 0,
    left: 16384,
    seen: &[
        (0, 0, 487, 0, 0),
        (1, 3, 488, -12, 0),
        (5_000, 0, 487, 0, 0),
        (9_999, 3, 488, -12, 0),
    ],
};

const BACKWARD_PAIRS: Line = Line {
    name: "backward pairs of kern",
    way: Way::KernPairs(&[(2, 1, -25)]),
    direction: Direction::RightToLeft,
    seen: &[
        (0, 0, 488, -12, 0),
        (1, 3, 487, 0, 0),
        (5_000, 0, 488, -12, 0),
        (9_999, 3, 487, 0, 0),
    ],
    ..PAIRS
};

/// A pair with 9,998 skipped glyphs in between.
const SKIPPED: Line = Line {
    name: "a pair of kern over skipped glyphs",
    are_skipped: true,
    seen: &[
        (0, 0, 487, 0, 0),
        (1, 3, 500, 0, 0),
        (9_998, 3, 500, 0, 0),
        (9_999, 3, 488, -12, 0),
    ],
    ..PAIRS
};

/// At each glyph two entries stay, and the third goes on. The first puts it on the stack or marks it, and the third takes
/// the value or the pair 3.
const THREE_TURNS_EACH: &[Rule] = &[
    (0, 0, 0, 0, NONE),
    (0, 4, 1, PUSH | STAYS, NONE),
    (1, 0, 0, 0, NONE),
    (1, 4, 2, STAYS, NONE),
    (2, 0, 0, 0, NONE),
    (2, 4, 0, 0, 3),
];

/// The values, of which the last one is 20, and ends its list.
const VALUES: Values = Values::Listed(&[2, 2, 2, 21]);

/// With 16,384 operations 5,461 glyphs take three turns each. One operation is left then, which `kern` takes first. From
/// there on each turn goes on, as all do with the least budget. The end takes one turn more.
const TURNS: Line = Line {
    name: "turns of kern",
    way: Way::KernStack(THREE_TURNS_EACH, VALUES),
    ids: &[1],
    turns: 20_923,
    left: -4_538,
    seen: &[(2, 3, 520, 20, 0)],
    ..PAIRS
};

const LEAST_BUDGET: Line = Line {
    name: "the least budget of kern",
    budget: i32::MIN,
    turns: 10_001,
    left: i32::MIN,
    seen: &[(2, 3, 500, 0, 0)],
    ..TURNS
};

/// Long lines by each way, which a quadratic walk would not end.
static LONG: [Line; 10] = [
    PAIRS,
    BACKWARD_PAIRS,
    SKIPPED,
    Line {
        name: "pairs of kerx",
        way: Way::KerxPairs(&[(1, 2, -25)]),
        ..PAIRS
    },
    Line {
        name: "backward pairs of kerx",
        way: Way::KerxPairs(&[(2, 1, -25)]),
        ..BACKWARD_PAIRS
    },
    Line {
        name: "a pair of kerx over skipped glyphs",
        way: Way::KerxPairs(&[(1, 2, -25)]),
        ..SKIPPED
    },
    TURNS,
    LEAST_BUDGET,
    Line {
        name: "turns of kerx",
        way: Way::KerxStack(THREE_TURNS_EACH, VALUES, 0),
        turns: 20_924,
        left: -4_539,
        ..TURNS
    },
    Line {
        name: "the least budget of kerx",
        way: Way::KerxStack(THREE_TURNS_EACH, VALUES, 0),
        ..LEAST_BUDGET
    },
];

/// The glyphs 0, 65535 and 3, the state 65535, and the class 65535, which is taken as class 1.
const AT_THEIR_ENDS: &[Rule] = &[
    (0, 0, 0, 0, NONE),
    (0, 4, 65535, PUSH, NONE),
    (65535, 0, 0, 0, NONE),
    (65535, 1, 0, PUSH, 0),
    (65535, 2, 65535, PUSH, 0),
];

const KERN_AT_ENDS: Line = Line {
    name: "kern at its ends",
    way: Way::KernStack(AT_THEIR_ENDS, Values::Listed(&[20, 11])),
    ids: &[0, 65535, 3],
    count: 3,
    turns: 4,
    left: 16_381,
    seen: &[(0, 0, 510, 10, 0), (1, 3, 520, 20, 0), (2, 3, 520, 20, 0)],
    ..PAIRS
};

/// The least number of 32 bits, and the greatest one.
const LEAST: i32 = i32::MIN;

const MOST: i32 = i32::MAX;

/// A pair whose value and sums are at their ends: what its advances and offsets begin with, its value, and the advances
/// and the offset that are left. An odd value of -1 has the half -1.
macro_rules! sums {
    ($start:expr, $value:expr, $left:expr, $right:expr, $offset:expr) => {
        Line {
            name: "sums",
            way: Way::KernPairs(&[(1, 2, $value)]),
            count: 2,
            start: ($start, $start),
            seen: &[
                (0, 0, $left, $start, $start),
                (1, 3, $right, $offset, $start),
            ],
            ..PAIRS
        }
    };
}

/// The glyphs 1, 1 and 2, of which the last one takes values for all three, and the widths that are left.
macro_rules! widths {
    ($way:expr, $first:literal, $second:literal, $third:literal) => {
        Line {
            name: "indexes",
            way: $way,
            ids: &[1, 1, 2],
            count: 3,
            turns: 4,
            left: 16_381,
            seen: &[
                (0, 0, $first, $first - 500, 0),
                (1, 0, $second, $second - 500, 0),
                (2, 0, $third, $third - 500, 0),
            ],
            ..PAIRS
        }
    };
}

/// Entries that take values from an index on.
macro_rules! taking {
    ($index:expr) => {
        &[
            (0, 0, 0, 0, NONE),
            (0, 4, 0, PUSH, NONE),
            (0, 5, 0, PUSH, $index),
        ]
    };
}

/// A machine of `kern` with these, and one of `kerx` with a tuple count.
macro_rules! by_kern {
    ($index:expr) => {
        Way::KernStack(taking!($index), Values::Many)
    };
}

macro_rules! by_kerx {
    ($index:expr, $tuples:expr) => {
        Way::KerxStack(taking!($index), Values::Many, $tuples)
    };
}

/// Kerning at its ends, by machines and by pairs.
static AT_ENDS: [Line; 9] = [
    KERN_AT_ENDS,
    Line {
        name: "kerx at its ends",
        way: Way::KerxStack(AT_THEIR_ENDS, Values::Listed(&[20, 11]), 0),
        ..KERN_AT_ENDS
    },
    Line {
        name: "anchors at their ends",
        way: Way::Anchors(AT_THEIR_ENDS),
        seen: &[
            (0, 0, 500, 0, 0),
            (1, 3, 500, 32_868, -32_567),
            (2, 3, 500, -32_768, 32_767),
        ],
        ..KERN_AT_ENDS
    },
    sums!(0, i16::MIN, -16_384, -16_384, -16_384),
    sums!(0, i16::MAX, 16_383, 16_384, 16_384),
    sums!(LEAST, -1, MOST, LEAST, LEAST),
    sums!(MOST, 1, MOST, LEAST, LEAST),
    // the start and -16,384, and the start and 16,383 or 16,384, modulo 2^32
    sums!(LEAST, i16::MIN, 2147467264, 2147467264, 2147467264),
    sums!(MOST, i16::MAX, -2147467266, -2147467265, -2147467265),
];

/// Values at the ends of their lists. `kerx` takes none whose next index is above 65535, and `kern` takes 0 for a
/// missing one.
static VALUES_AT_ENDS: [Line; 9] = [
    widths!(by_kern!(65534), 500, 508, 504),
    widths!(by_kern!(NONE), 500, 500, 500),
    widths!(by_kerx!(65534, 0), 500, 500, 504),
    widths!(by_kerx!(NONE, 0), 500, 500, 500),
    widths!(by_kerx!(65533, 2), 500, 500, 504),
    widths!(by_kerx!(65534, 2), 500, 500, 500),
    widths!(by_kerx!(0, 65535), 500, 500, 504),
    widths!(by_kerx!(0, 65536), 500, 500, 500),
    widths!(by_kerx!(0, u32::MAX), 500, 500, 500),
];

/// The long lines. What names a table is proved with all that it holds, and takes less with one at a time.
fn long_lines() -> &'static [Line] {
    &LONG
}

/// The lines by machines and by pairs.
fn lines_at_ends() -> &'static [Line] {
    &AT_ENDS
}

/// The lines by values.
fn values_at_ends() -> &'static [Line] {
    &VALUES_AT_ENDS
}

/// Ends the test where one of these lines is kerned otherwise.
fn check_all(rt: &impl Abort, alloc: Global, lines: &[Line]) -> Result<(), Fail> {
    for (number, line) in lines.iter().enumerate() {
        let is_kerned = is_kerned(alloc, line)?;
        assert!(rt; is_kerned, "{} {number}", line.name);
    }
    Ok(())
}

#[test]
fn long_lines_and_ends(rt: HostRuntime) -> Result<(), Fail> {
    for lines in [long_lines(), lines_at_ends(), values_at_ends()] {
        check_all(&rt, rt.alloc(), lines)?;
    }
    Ok(())
}
