//! The rows of kerning by pairs.

use super::{FontData, KernData, Kerning, KerxData, MAX_OPS, NO_TABLES, Part, Placed, Row, Shown};
use aat_layout::buffer::Direction;

/// A kerning table of these pairs.
macro_rules! pairs {
    ($pairs:expr) => {
        FontData {
            kern: Some(KernData::Pairs($pairs)),
            ..NO_TABLES
        }
    };
}

/// An extended kerning table of these pairs, across the line.
macro_rules! pairs_across {
    ($pairs:expr) => {
        FontData {
            kerx: Some(KerxData::PairsAcross($pairs)),
            ..NO_TABLES
        }
    };
}

/// A pair whose value is odd, side by side and with a mark in between, which is skipped.
pub(super) const ROW_15: Row = Row {
    number: "15",
    parts: &[
        kerned!(
            "15a",
            pairs!(&[(1, 2, -25)]),
            &[placed!(1, 0), placed!(2, 1)]
        ),
        kerned!(
            "15b",
            pairs!(&[(1, 2, -25)]),
            &[placed!(1, 0), placed!(3, 1, 8, 0), placed!(2, 2)]
        ),
    ],
};

/// Three pairs, of which the one in the middle has the value 0.
pub(super) const ROW_16: Row = Row {
    number: "16",
    parts: &[kerned!(
        "16",
        pairs!(&[(1, 2, -20), (2, 3, 0), (3, 4, 10)]),
        &[placed!(1, 0), placed!(2, 1), placed!(3, 2), placed!(4, 3)]
    )],
};

/// A backward line, without a request and with one.
pub(super) const ROW_17: Row = Row {
    number: "17",
    parts: &[
        kerned!(
            "17a",
            pairs!(&[(2, 1, -25)]),
            &[placed!(1, 0), placed!(2, 1)],
            RightToLeft,
            false
        ),
        kerned!(
            "17b",
            pairs!(&[(2, 1, -25)]),
            &[placed!(1, 0), placed!(2, 1)],
            RightToLeft,
            true
        ),
    ],
};

/// An advance that passes the greatest number and goes on at the least.
pub(super) const ROW_20: Row = Row {
    number: "20",
    parts: &[kerned!(
        "20",
        pairs!(&[(1, 2, 3)]),
        &[placed!(1, 0, 0, 2147483647), placed!(2, 1)]
    )],
};

/// A pair across the line, with a request and without one.
pub(super) const ROW_28: Row = Row {
    number: "28",
    parts: &[
        kerned!(
            "28a",
            pairs_across!(&[(1, 2, -25)]),
            &[placed!(1, 0), placed!(2, 1)]
        ),
        kerned!(
            "28b",
            pairs_across!(&[(1, 2, -25)]),
            &[placed!(1, 0), placed!(2, 1)],
            LeftToRight,
            false
        ),
    ],
};
