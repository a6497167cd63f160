//! The rows of ligatures.

use super::{
    ALL_DIRECTIONS, After, ChainData, FEATURE_FLAGS, FontData, KindData, LIGATURES, LigatureData,
    MAX_LEN, MAX_OPS, MachineData, NO_TABLES, Part, Request, Row, Run, Shown, Sizes, Substitution,
    SubtableData,
};
use aat_layout::buffer::Direction;
use aat_layout::font::{ChainFeature, GenericStateEntry, GlyphId};

/// No action.
const NONE: u16 = 0xFFFF;

/// The bit of an entry that holds the glyph.
const HOLD: u16 = 0x8000;

/// The bits of an entry that holds the glyph and then takes the actions.
const JOIN: u16 = 0xA000;

/// An action that takes a glyph, whose component is ten places before its glyph.
const TAKE: u32 = 0x3FFF_FFF6;

/// Such an action that stores a ligature.
const STORE: u32 = 0x7FFF_FFF6;

/// Such an action that is the last, and stores a ligature.
const LAST: u32 = 0xBFFF_FFF6;

/// A table that holds the glyph 10 and joins it with an 11 that follows, by its entries.
macro_rules! pair {
    ($listed:expr) => {
        KindData::Ligature(LigatureData {
            machine: MachineData { class_count: 6, classes: &[(10, 4), (11, 5)], rules: $listed, idle: Some((2, NONE)), },
            actions: &[(TAKE, 1), (LAST, 1)],
            components: &[0, 0],
            ligatures: &[GlyphId(20)],
        })
    };
}

/// The two glyphs are joined in state 1 alone.
pub(super) const PAIR: &[SubtableData<'static>] = &[SubtableData {
    kind: pair!(&[rule!(0, 4, 1, HOLD, NONE), rule!(1, 5, 0, JOIN, 0)]),
    coverage: ALL_DIRECTIONS,
    feature_flags: FEATURE_FLAGS,
}];

/// The two glyphs are joined in both states.
const PAIR_IN_BOTH: &[SubtableData<'static>] = &[SubtableData {
    kind: pair!(&[
        rule!(0, 4, 1, HOLD, NONE),
        rule!(0, 5, 0, JOIN, 0),
        rule!(1, 5, 0, JOIN, 0),
    ]),
    coverage: ALL_DIRECTIONS,
    feature_flags: FEATURE_FLAGS,
}];

/// The pair of 10 and 11, with which sizes they are joined if not the usual ones, and what is done then.
macro_rules! joined {
    ($name:literal, $after:ident) => {
        joined!($name, Usual, $after)
    };
    ($name:literal, $sizes:ident, $after:ident) => {
        Part {
            name: $name,
            shown: Shown::Substitution(Substitution {
                font: FontData { chains: Some(&[ChainData { default_flags: 1, features: &[], subtables: PAIR, }]), names: Some(LIGATURES), ..NO_TABLES },
                requests: &[],
                line: &[run!(10, 0), run!(11, 1)],
                direction: Direction::LeftToRight,
                max_len: MAX_LEN,
                max_ops: MAX_OPS,
                sizes: Sizes::$sizes,
                after: After::$after,
            }),
        }
    };
}

/// A ligature of two glyphs, and the removal of the deleted one.
pub(super) const ROW_11: Row = Row {
    number: "11",
    parts: &[joined!("11a", Nothing), joined!("11b", Removal)],
};

/// A request that switches ligatures off for a glyph between two that are joined.
pub(super) const ROW_12: Row = Row {
    number: "12",
    parts: &[Part {
        name: "12",
        shown: Shown::Substitution(Substitution {
            font: FontData {
                chains: Some(&[ChainData {
                    default_flags: 1,
                    features: &[ChainFeature {
                        kind: 1,
                        setting: 3,
                        enable_flags: 0,
                        disable_flags: 0,
                    }],
                    subtables: PAIR_IN_BOTH,
                }]),
                names: Some(LIGATURES),
                ..NO_TABLES
            },
            requests: &[request!(b"liga", 0, 1, 2)],
            line: &[run!(10, 0), run!(50, 1), run!(11, 2)],
            direction: Direction::LeftToRight,
            max_len: MAX_LEN,
            max_ops: MAX_OPS,
            sizes: Sizes::Usual,
            after: After::Nothing,
        }),
    }],
};

/// A ligature that is stored on the way, and taken by the last one.
pub(super) const ROW_24: Row = Row {
    number: "24",
    parts: &[substituted!(
        "24",
        KindData::Ligature(LigatureData {
            machine: MachineData {
                class_count: 7,
                classes: &[(10, 4), (11, 5), (12, 6)],
                rules: &[
                    rule!(0, 4, 1, HOLD, NONE),
                    rule!(1, 5, 1, HOLD, NONE),
                    rule!(1, 6, 0, JOIN, 0),
                ],
                idle: Some((2, NONE)),
            },
            actions: &[(TAKE, 1), (STORE, 1), (LAST, 1)],
            components: &[1, 1, 0],
            ligatures: &[GlyphId(20), GlyphId(21), GlyphId(22)],
        }),
        &[run!(10, 0), run!(11, 1), run!(12, 2)]
    )],
};

/// A table that holds each glyph 10, and takes actions at an 11.
macro_rules! many {
    ($actions:expr) => {
        KindData::Ligature(LigatureData {
            machine: MachineData { class_count: 6, classes: &[(10, 4), (11, 5)], rules: &[rule!(0, 4, 0, HOLD, NONE), rule!(0, 5, 0, JOIN, 0)], idle: Some((2, NONE)), },
            actions: $actions,
            components: &[0, 0],
            ligatures: &[GlyphId(20)],
        })
    };
}

/// More glyphs than are held: the two newest stand in the slots of the two oldest.
pub(super) const ROW_31: Row = Row {
    number: "31",
    parts: &[substituted!(
        "31",
        many!(&[(TAKE, 65), (LAST, 1)]),
        &[run!(10, 0, 64), run!(11, 65)]
    )],
};

/// A ligature that lies behind its components.
pub(super) const ROW_32: Row = Row {
    number: "32",
    parts: &[substituted!(
        "32",
        many!(&[(TAKE, 2), (STORE, 1), (TAKE, 61), (0xBFFF_0001, 1)]),
        &[run!(10, 0, 64), run!(11, 65)]
    )],
};

/// One slot, in which the second of two glyphs is held in place of the first, and two slots.
pub(super) const ROW_37: Row = Row {
    number: "37",
    parts: &[
        joined!("37a", OneSlot, Nothing),
        joined!("37b", TwoSlots, Nothing),
    ],
};
