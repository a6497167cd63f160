//! The rows of rearrangement.

use super::{
    ALL_DIRECTIONS, After, ChainData, FEATURE_FLAGS, FontData, HORIZONTAL, KindData, LIGATURES,
    LOGICAL, MAX_LEN, MAX_OPS, MachineData, NO_TABLES, Part, Row, Run, Shown, Sizes, Substitution,
    SubtableData,
};
use aat_layout::buffer::Direction;
use aat_layout::font::GenericStateEntry;

/// The bits of the entry of the first glyph, which marks the start of a span.
const MARK_FIRST: u16 = 0x8000;

/// The bits of the entry of the last glyph, which marks the end of a span.
const MARK_LAST: u16 = 0x2000;

/// A table in which a first glyph marks the start of a span, and a last one marks its end and has a verb.
macro_rules! moving {
    ($first:literal, $last:literal, $verb:literal) => {
        KindData::Rearrangement(MachineData { class_count: 6, classes: &[($first, 4), ($last, 5)], rules: &[
                rule!(0, 4, 0, MARK_FIRST, ()),
                rule!(0, 5, 0, MARK_LAST | $verb, ()),
            ], idle: Some((2, ())), })
    };
}

/// Verbs over spans of one glyph to five: A B x C D are the glyphs 1 to 5.
pub(super) const ROW_8: Row = Row {
    number: "8",
    parts: &[
        substituted!("8a", moving!(1, 3, 1), &[run!(1, 0), run!(3, 1)]),
        substituted!(
            "8b",
            moving!(1, 3, 5),
            &[run!(1, 0), run!(2, 1), run!(3, 2)]
        ),
        substituted!(
            "8c",
            moving!(3, 5, 7),
            &[run!(3, 0), run!(4, 1), run!(5, 2)]
        ),
        substituted!(
            "8d",
            moving!(1, 5, 11),
            &[run!(1, 0), run!(2, 1), run!(3, 2), run!(5, 3)]
        ),
        substituted!("8e", moving!(1, 5, 12), ONE_TO_FIVE),
        substituted!("8f", moving!(1, 5, 15), ONE_TO_FIVE),
    ],
};

/// The glyphs 1 to 5.
const ONE_TO_FIVE: &[Run] = &[run!(1, 0), run!(2, 1), run!(3, 2), run!(4, 3), run!(5, 4)];

/// The longest span that is put in another order, and one that is longer.
pub(super) const ROW_9: Row = Row {
    number: "9",
    parts: &[
        substituted!(
            "9a",
            moving!(10, 12, 1),
            &[run!(10, 0), run!(11, 1, 62), run!(12, 63)]
        ),
        substituted!(
            "9b",
            moving!(10, 12, 1),
            &[run!(10, 0), run!(11, 1, 63), run!(12, 64)]
        ),
    ],
};

/// A state table without rules.
pub(super) const ROW_22: Row = Row {
    number: "22",
    parts: &[substituted!(
        "22",
        KindData::Rearrangement(MachineData {
            class_count: 6,
            classes: &[],
            rules: &[],
            idle: Some((0, ())),
        }),
        &[run!(5, 0)]
    )],
};

/// A verb behind the span: the first merge reaches past it, and the mark before the last glyph goes with its cluster.
pub(super) const ROW_23: Row = Row {
    number: "23",
    parts: &[substituted!(
        "23",
        KindData::Rearrangement(MachineData {
            class_count: 7,
            classes: &[(1, 4), (2, 5), (3, 6)],
            rules: &[
                rule!(0, 4, 0, MARK_FIRST, ()),
                rule!(0, 5, 0, MARK_LAST, ()),
                rule!(0, 6, 0, 1, ()),
            ],
            idle: Some((2, ())),
        }),
        &[run!(1, 0), run!(2, 1), run!(3, 2)]
    )],
};

/// A text that runs backward, a subtable in the order of the characters, and one that is not for vertical text.
pub(super) const ROW_26: Row = Row {
    number: "26",
    parts: &[
        substituted!(
            "26a",
            moving!(1, 3, 1),
            &[run!(1, 0), run!(3, 1)],
            ALL_DIRECTIONS,
            RightToLeft
        ),
        substituted!(
            "26b",
            moving!(1, 3, 1),
            &[run!(1, 0), run!(3, 1)],
            LOGICAL,
            RightToLeft
        ),
        substituted!(
            "26c",
            moving!(1, 3, 1),
            &[run!(1, 0), run!(3, 1)],
            HORIZONTAL,
            TopToBottom
        ),
    ],
};

/// Spans of three glyphs, with which one of three is put in another order, and spans of two, with which it stays.
pub(super) const ROW_36: Row = Row {
    number: "36",
    parts: &[
        substituted!(
            "36a",
            moving!(10, 12, 1),
            &[run!(10, 0), run!(11, 1), run!(12, 2)],
            SpansOfThree
        ),
        substituted!(
            "36b",
            moving!(10, 12, 1),
            &[run!(10, 0), run!(11, 1), run!(12, 2)],
            SpansOfTwo
        ),
    ],
};
