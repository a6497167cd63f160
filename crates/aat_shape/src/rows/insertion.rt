//! The rows of insertion.

use super::{
    ALL_DIRECTIONS, After, ChainData, FEATURE_FLAGS, FontData, KindData, LIGATURES, MAX_LEN,
    MAX_OPS, MachineData, NO_TABLES, Part, Row, Run, Shown, Sizes, Substitution, SubtableData,
};
use aat_layout::buffer::Direction;
use aat_layout::font::{GenericStateEntry, GlyphId, InsertionEntryData};

/// No place.
const NONE: u16 = 0xFFFF;

/// The bits of an entry that inserts two glyphs before the cursor.
const TWO_BEFORE: u16 = 0x0840;

/// The bits of an entry that inserts a glyph behind the cursor and stays.
const ONE_BEHIND: u16 = 0x4820;

/// What an entry names: the first glyph for the cursor and that for the mark.
macro_rules! places {
    ($current:expr, $marked:expr) => {
        InsertionEntryData {
            current_insert_index: $current,
            marked_insert_index: $marked,
        }
    };
}

/// A table of some glyphs, with the classes and the entries of its machine.
macro_rules! inserting {
    ($glyphs:expr, $classes:expr, $listed:expr) => {
        KindData::Insertion(
            MachineData { class_count: 6, classes: $classes, rules: $listed, idle: Some((2, places!(NONE, NONE))), },
            $glyphs,
        )
    };
}

/// A table that inserts two glyphs, from a place on, in state 0 at a class, that of glyph 5 or of the end.
macro_rules! two_before {
    ($class:literal, $place:literal) => {
        inserting!(
            &[GlyphId(7), GlyphId(8)],
            &[(5, 4)],
            &[rule!(0, $class, 0, TWO_BEFORE, places!($place, NONE))]
        )
    };
}

/// Budgets that pay two glyphs and do not, an empty line, and a glyph that is missing.
pub(super) const ROW_13: Row = Row {
    number: "13",
    parts: &[
        substituted!("13a", two_before!(4, 0), &[run!(5, 3)], 2),
        substituted!("13b", two_before!(4, 0), &[run!(5, 3)], 1),
        substituted!("13c", two_before!(0, 0), &[]),
        substituted!("13d", two_before!(4, 1), &[run!(5, 3)]),
    ],
};

/// A glyph that inserts itself until the budget is used up.
pub(super) const ROW_14: Row = Row {
    number: "14",
    parts: &[substituted!(
        "14",
        inserting!(
            &[GlyphId(5)],
            &[(5, 4)],
            &[rule!(0, 4, 0, ONE_BEHIND, places!(0, NONE))]
        ),
        &[run!(5, 0)],
        3
    )],
};

/// A table that marks a glyph 5, and inserts two glyphs behind it at a 6.
macro_rules! two_at_mark {
    () => {
        inserting!(
            &[GlyphId(7), GlyphId(8)],
            &[(5, 4), (6, 5)],
            &[
                rule!(0, 4, 0, 0x8000, places!(NONE, NONE)),
                rule!(0, 5, 0, 0x0002, places!(NONE, 0)),
            ]
        )
    };
}

/// A budget of more than the glyphs at the mark, and one that they use up.
pub(super) const ROW_25: Row = Row {
    number: "25",
    parts: &[
        substituted!("25a", two_at_mark!(), &[run!(5, 0), run!(6, 1)], 3),
        substituted!("25b", two_at_mark!(), &[run!(5, 0), run!(6, 1)], 2),
    ],
};

/// The same subtable twice, which share the budget.
const TWICE: &[SubtableData<'static>] = &[
    SubtableData {
        kind: two_before!(4, 0),
        coverage: ALL_DIRECTIONS,
        feature_flags: FEATURE_FLAGS,
    },
    SubtableData {
        kind: two_before!(4, 0),
        coverage: ALL_DIRECTIONS,
        feature_flags: FEATURE_FLAGS,
    },
];

/// One budget for all subtables.
pub(super) const ROW_27: Row = Row {
    number: "27",
    parts: &[Part {
        name: "27",
        shown: Shown::Substitution(Substitution {
            font: FontData {
                chains: Some(&[ChainData {
                    default_flags: 1,
                    features: &[],
                    subtables: TWICE,
                }]),
                names: Some(LIGATURES),
                ..NO_TABLES
            },
            requests: &[],
            line: &[run!(5, 3)],
            direction: Direction::LeftToRight,
            max_len: MAX_LEN,
            max_ops: 3,
            sizes: Sizes::Usual,
            after: After::Nothing,
        }),
    }],
};

/// The line of row 13a with a greatest length and its budget.
macro_rules! two_within {
    ($max_len:literal) => {
        Substitution {
            font: FontData { chains: Some(&[ChainData { default_flags: 1, features: &[], subtables: &[SubtableData {
                    kind: two_before!(4, 0),
                    coverage: ALL_DIRECTIONS, feature_flags: FEATURE_FLAGS,
                }], }]), names: Some(LIGATURES), ..NO_TABLES },
            requests: &[],
            line: &[run!(5, 3)],
            direction: Direction::LeftToRight,
            max_len: $max_len,
            max_ops: 2,
            sizes: Sizes::Usual,
            after: After::Nothing,
        }
    };
}

/// A line that would become too long, and is refused from then on, and one that just fits.
pub(super) const ROW_30: Row = Row {
    number: "30",
    parts: &[
        Part {
            name: "30a",
            shown: Shown::Refusals(two_within!(2)),
        },
        Part {
            name: "30b",
            shown: Shown::Substitution(two_within!(3)),
        },
    ],
};

/// Insertion at the end of the line.
pub(super) const ROW_33: Row = Row {
    number: "33",
    parts: &[substituted!(
        "33",
        inserting!(
            &[GlyphId(5)],
            &[],
            &[rule!(0, 0, 0, ONE_BEHIND, places!(0, NONE))]
        ),
        &[run!(6, 0)],
        2
    )],
};
