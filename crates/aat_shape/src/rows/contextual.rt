//! The rows of contextual substitution.

use super::{
    ALL_DIRECTIONS, After, ChainData, FEATURE_FLAGS, FontData, KindData, LIGATURES, MAX_LEN,
    MAX_OPS, MachineData, NO_TABLES, Part, Row, Run, Shown, Sizes, Substitution, SubtableData,
};
use aat_layout::buffer::Direction;
use aat_layout::font::{ContextualEntryData, GenericStateEntry};

/// No lookup.
const NONE: u16 = 0xFFFF;

/// What an entry names: the lookup for the marked glyph and that for the current one.
macro_rules! lookups {
    ($mark:expr, $current:expr) => {
        ContextualEntryData {
            mark_index: $mark,
            current_index: $current,
        }
    };
}

/// A table of one lookup, 1 to 2, that the end asks for the marked glyph, with the entry of glyph 1 in state 0: its
/// flags and what it names.
macro_rules! at_end {
    ($flags:literal, $named:expr) => {
        KindData::Contextual(
            MachineData { class_count: 6, classes: &[(1, 4)], rules: &[
                    rule!(0, 0, 0, 0, lookups!(0, NONE)),
                    rule!(0, 4, 0, $flags, $named),
                ], idle: Some((2, lookups!(NONE, NONE))), },
            &[&[(1, 2)]],
        )
    };
}

/// The end with no mark and with one, and a missing lookup.
pub(super) const ROW_10: Row = Row {
    number: "10",
    parts: &[
        substituted!("10a", at_end!(0, lookups!(NONE, NONE)), &[run!(1, 0)]),
        substituted!(
            "10b",
            at_end!(0x8000, lookups!(NONE, NONE)),
            &[run!(1, 0), run!(7, 1)]
        ),
        substituted!(
            "10c",
            at_end!(0x8000, lookups!(5, 0)),
            &[run!(1, 0), run!(7, 1)]
        ),
    ],
};

/// A deleted glyph, whose class the list of classes does not give.
pub(super) const ROW_35: Row = Row {
    number: "35",
    parts: &[substituted!(
        "35",
        KindData::Contextual(
            MachineData {
                class_count: 6,
                classes: &[(0xFFFF, 4)],
                rules: &[rule!(0, 4, 0, 0, lookups!(NONE, 0))],
                idle: Some((2, lookups!(NONE, NONE))),
            },
            &[&[(0xFFFF, 9)]],
        ),
        &[run!(0xFFFF, 0)]
    )],
};
