//! The row of deleted glyphs.

use super::{Part, Row, Run, Shown, Zeroing};

/// A deleted glyph that takes no room, and one that goes: at the front, and behind a glyph with a higher and with a
/// lower cluster.
pub(super) const ROW_19: Row = Row {
    number: "19",
    parts: &[
        Part {
            name: "19a",
            shown: Shown::Zeroing(Zeroing {
                line: &[run!(5, 0), run!(65535, 1)],
                x_advance: 300,
            }),
        },
        Part {
            name: "19b",
            shown: Shown::Removal(&[run!(65535, 0), run!(5, 1)]),
        },
        Part {
            name: "19c",
            shown: Shown::Removal(&[run!(5, 1), run!(65535, 0)]),
        },
        Part {
            name: "19d",
            shown: Shown::Removal(&[run!(5, 0), run!(65535, 1)]),
        },
    ],
};
