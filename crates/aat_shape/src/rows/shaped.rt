//! The row of shaping.

use super::ligature::PAIR;
use super::{
    ChainData, FontData, KernData, LIGATURES, NO_TABLES, Part, Placed, Row, Shaping, Shown,
};
use aat_layout::buffer::Direction;

/// A part that shows a line that is shaped by a font that joins 10 and 11 and moves 20 and 12 together: its name,
/// whether the plan applies substitution, the line and its direction.
macro_rules! shaped {
    ($name:literal, $apply_morx:literal, $line:expr, $direction:ident) => {
        Part {
            name: $name,
            shown: Shown::Shaping(Shaping {
                font: FontData {
                    chains: Some(&[ChainData {
                        default_flags: 1,
                        features: &[],
                        subtables: PAIR,
                    }]),
                    names: Some(LIGATURES),
                    kern: Some(KernData::Pairs(&[(20, 12, -50)])),
                    advances: Some(&[(12, 400), (20, 600), (65535, 300)]),
                    ..NO_TABLES
                },
                apply_morx: $apply_morx,
                line: $line,
                direction: Direction::$direction,
            }),
        }
    };
}

/// A ligature whose component is deleted, with a glyph behind it, and a column that is not substituted.
pub(super) const ROW_38: Row = Row {
    number: "38",
    parts: &[
        shaped!(
            "38a",
            true,
            &[
                placed!(10, 0, 0, 0),
                placed!(11, 1, 0, 0),
                placed!(12, 2, 0, 0)
            ],
            LeftToRight
        ),
        shaped!("38b", false, &[placed!(20, 0, 0, 0)], TopToBottom),
    ],
};
