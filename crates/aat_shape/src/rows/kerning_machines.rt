//! The rows of machines that kern.

use super::{
    FontData, KernData, Kerning, KerxData, MAX_OPS, MachineData, NO_TABLES, Part, Placed, Row,
    Shown,
};
use aat_layout::buffer::Direction;
use aat_layout::font::{EntryData, GenericStateEntry, KernEntryData, Point};

/// The bit of an entry that puts its glyph on the stack.
const PUSH: u16 = 0x8000;

/// The bit of an entry that marks its glyph.
const MARK: u16 = 0x8000;

/// No value, and no pair of indexes of points.
const NONE: u16 = 0xFFFF;

/// A table in which the glyphs 1 and 2 have an entry each: its flags and what it names.
macro_rules! taking {
    ($flags_1:expr, $named_1:expr, $flags_2:expr, $named_2:expr, $idle:expr) => {
        MachineData { class_count: 6, classes: &[(1, 4), (2, 5)], rules: &[
                rule!(0, 4, 0, $flags_1, $named_1),
                rule!(0, 5, 0, $flags_2, $named_2),
            ], idle: Some((2, $idle)), }
    };
}

/// What an entry of a `kern` machine names.
macro_rules! value {
    ($index:expr) => {
        KernEntryData {
            value_index: $index,
        }
    };
}

/// What an entry of a `kerx` machine names.
macro_rules! action {
    ($index:expr) => {
        EntryData {
            action_index: $index,
        }
    };
}

/// A `kern` machine in which the glyphs 1 and 2 are put on the stack, and 2 takes the values.
const KERN_MACHINE: FontData<'static> = FontData {
    kern: Some(KernData::Machine(
        taking!(PUSH, value!(NONE), PUSH, value!(0), value!(NONE)),
        &[20, 11],
    )),
    ..NO_TABLES
};

/// A `kerx` machine with a tuple count in which the glyphs 1 and 2 are put on the stack, and 2 takes the values.
macro_rules! stack {
    ($tuple_count:literal) => {
        FontData {
            kerx: Some(KerxData::Stack(
                taking!(PUSH, action!(NONE), PUSH, action!(0), action!(NONE)),
                &[20, 0, 11],
                $tuple_count,
            )),
            ..NO_TABLES
        }
    };
}

/// The glyphs 1 and 2.
const ONE_AND_TWO: &[Placed] = &[placed!(1, 0), placed!(2, 1)];

/// Two glyphs on the stack, and a ninth, which clears it.
pub(super) const ROW_18: Row = Row {
    number: "18",
    parts: &[
        kerned!("18a", KERN_MACHINE, ONE_AND_TWO),
        kerned!(
            "18b",
            KERN_MACHINE,
            &[
                placed!(1, 0),
                placed!(1, 1),
                placed!(1, 2),
                placed!(1, 3),
                placed!(1, 4),
                placed!(1, 5),
                placed!(1, 6),
                placed!(1, 7),
                placed!(2, 8),
            ]
        ),
    ],
};

/// A glyph that is attached to a marked one.
pub(super) const ROW_21: Row = Row {
    number: "21",
    parts: &[kerned!(
        "21",
        FontData {
            kerx: Some(KerxData::Anchors(
                taking!(MARK, action!(NONE), 0, action!(0), action!(NONE)),
                &[(0, 0)],
            )),
            points: Some(&[
                (1, &[Point { x: 100, y: 200 }]),
                (2, &[Point { x: 30, y: -50 }])
            ]),
            ..NO_TABLES
        },
        ONE_AND_TWO
    )],
};

/// A step of two values, and one that passes the greatest index.
pub(super) const ROW_29: Row = Row {
    number: "29",
    parts: &[
        kerned!("29a", stack!(2), ONE_AND_TWO),
        kerned!("29b", stack!(65536), ONE_AND_TWO),
    ],
};

/// The least budget.
pub(super) const ROW_34: Row = Row {
    number: "34",
    parts: &[kerned!("34", KERN_MACHINE, ONE_AND_TWO, -2147483648)],
};
