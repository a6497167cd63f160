//! Lines that one subtable substitutes, by what is left of them.

use crate::machines::{Kind, Rule, rule};
use aat_layout::font::{ContextualEntryData, GenericStateEntry, InsertionEntryData};

/// A glyph that is left: its id; its cluster, counted from the first glyph of its turn, or of the line at its end; and
/// its mask, if it is not `ANY`.
pub(crate) type Left = (u32, u32, u32);

/// A mask that is not asked.
pub(crate) const ANY: u32 = u32::MAX;

/// No lookup, and no run.
const NONE: u16 = 0xFFFF;

/// Marks the cursor, or holds the glyph there; and ends a span, or takes in what is held.
const MARK: u16 = 0x8000;

const END: u16 = 0x2000;

/// Two glyphs of a run behind the cursor, three, and three before it.
const TWO: u16 = 2 << 5;

const THREE: u16 = 3 << 5;

const THREE_BEFORE: u16 = 3 << 5 | 0x0800;

/// A line that a subtable substitutes. Its glyphs are these ids again and again, so many in all, and others behind them.
#[derive(Clone, Copy)]
pub(crate) struct Case {
    pub(crate) name: &'static str,
    pub(crate) kind: Kind,
    pub(crate) ids: &'static [u32],
    pub(crate) count: usize,
    pub(crate) others: &'static [u32],
    /// The cluster levels at which it is substituted.
    pub(crate) levels: &'static [u8],
    pub(crate) turns: u64,
    pub(crate) paid: i32,
    /// What is left of each turn of the ids, and of the others.
    pub(crate) left: &'static [Left],
    pub(crate) ends: &'static [Left],
}

/// The lookups that a contextual entry names, for the mark and for the cursor.
macro_rules! lookups {
    ($mark:expr, $current:expr) => {
        ContextualEntryData {
            mark_index: $mark,
            current_index: $current,
        }
    };
}

/// The run that an insertion entry names for the cursor.
macro_rules! run {
    ($current:expr) => {
        InsertionEntryData {
            current_insert_index: $current,
            marked_insert_index: NONE,
        }
    };
}

/// The glyph behind the next one goes before it.
const EXCHANGING: &[Rule<()>] = &[
    rule!(0, 0, 0, 0, ()),
    rule!(0, 1, 0, 0, ()),
    rule!(0, 4, 0, MARK, ()),
    rule!(0, 5, 0, END | 1, ()),
];

/// The same, for the ends of a span, in the last state.
const IN_LAST_STATE: &[Rule<()>] = &[
    rule!(0, 0, 0, 0, ()),
    rule!(0, 1, 0, 0, ()),
    rule!(0, 4, 65535, MARK, ()),
    rule!(65535, 0, 0, 0, ()),
    rule!(65535, 5, 65535, END | 3, ()),
];

/// A glyph of class 4 is marked, and replaced at one of class 5, which is replaced too.
const REPLACING: &[Rule<ContextualEntryData>] = &[
    rule!(0, 0, 0, 0, lookups!(NONE, NONE)),
    rule!(0, 1, 0, 0, lookups!(NONE, NONE)),
    rule!(0, 4, 0, MARK, lookups!(NONE, NONE)),
    rule!(0, 5, 0, 0, lookups!(0, 0)),
];

/// The same in the last state.
const REPLACING_IN_LAST_STATE: &[Rule<ContextualEntryData>] = &[
    rule!(0, 0, 0, 0, lookups!(NONE, NONE)),
    rule!(0, 1, 0, 0, lookups!(NONE, NONE)),
    rule!(0, 4, 65535, MARK, lookups!(NONE, NONE)),
    rule!(65535, 0, 0, 0, lookups!(NONE, NONE)),
    rule!(65535, 5, 65535, 0, lookups!(0, 0)),
];

/// A glyph of class 4 is held, and joined with one of class 5.
const JOINING: &[Rule<u16>] = &[
    rule!(0, 0, 0, 0, 0),
    rule!(0, 1, 0, 0, 0),
    rule!(0, 4, 0, MARK, 0),
    rule!(0, 5, 0, MARK | END, 0),
];

/// A glyph of class 5 is taken in by the last action that can be numbered.
const BY_LAST_ACTION: &[Rule<u16>] = &[
    rule!(0, 0, 0, 0, 0),
    rule!(0, 1, 0, 0, 0),
    rule!(0, 5, 0, MARK | END, 65535),
];

/// A run goes in at each glyph of class 4, from a glyph of the list on.
macro_rules! inserting {
    ($flags:expr, $index:literal) => {
        &[
            rule!(0, 0, 0, 0, run!(NONE)),
            rule!(0, 1, 0, 0, run!(NONE)),
            rule!(0, 4, 0, $flags, run!($index)),
        ]
    };
}

/// Ten thousand glyphs that are exchanged by twos.
const EXCHANGED: Case = Case {
    name: "exchanged",
    kind: Kind::Rearrangement(EXCHANGING),
    ids: &[5, 6],
    count: 10_000,
    others: &[],
    levels: &[0, 1],
    turns: 10_001,
    paid: 0,
    left: &[(6, 0, 0), (5, 0, 0)],
    ends: &[],
};

/// Ten thousand glyphs that are replaced by twos.
const REPLACED: Case = Case {
    name: "replaced",
    kind: Kind::Contextual(REPLACING, 1),
    levels: &[0, 1, 2],
    left: &[(9, 0, 0), (8, 1, 3)],
    ..EXCHANGED
};

/// Ten thousand glyphs, and a run of three behind each fifth.
const RUNS_BEHIND: Case = Case {
    name: "three glyphs behind",
    kind: Kind::Insertion(inserting!(THREE, 0), 3),
    ids: &[20, 9, 9, 9, 9],
    paid: 6_000,
    left: &[
        (20, 0, ANY),
        (30, 0, ANY),
        (30, 0, ANY),
        (31, 0, ANY),
        (9, 1, 0),
        (9, 2, 0),
        (9, 3, 0),
        (9, 4, 0),
    ],
    ..EXCHANGED
};

/// Long lines by machines of each kind, which a quadratic run would not end.
static LONG: [Case; 6] = [
    EXCHANGED,
    // clusters stay apart, and the greater one is marked
    Case {
        name: "exchanged at level 2",
        levels: &[2],
        left: &[(6, 1, 3), (5, 0, 0)],
        ..EXCHANGED
    },
    REPLACED,
    Case {
        name: "joined",
        kind: Kind::Ligature(JOINING, 2, 2, 0x3FFF_FFF6),
        ids: &[10, 11],
        left: &[(202, 0, ANY), (65535, 0, ANY)],
        ..EXCHANGED
    },
    RUNS_BEHIND,
    Case {
        name: "three glyphs before",
        kind: Kind::Insertion(inserting!(THREE_BEFORE, 0), 3),
        left: &[
            (30, 0, ANY),
            (30, 0, ANY),
            (31, 0, ANY),
            (20, 0, ANY),
            (9, 1, 0),
            (9, 2, 0),
            (9, 3, 0),
            (9, 4, 0),
        ],
        ..RUNS_BEHIND
    },
];

/// The last two of 65,537 glyphs are exchanged, in the last state.
const PAST_16_BITS: Case = Case {
    name: "a span at the place 65535",
    kind: Kind::Rearrangement(IN_LAST_STATE),
    ids: &[1],
    count: 65_535,
    others: &[7, 8],
    turns: 65_538,
    left: &[(1, 0, 0)],
    ends: &[(8, 65_535, 0), (7, 65_535, 0)],
    ..EXCHANGED
};

/// The glyph 14 alone, which the action 65,535 turns into the last glyph by the component 65,535.
const LAST_ACTION: Case = Case {
    name: "the last action and the last component",
    kind: Kind::Ligature(BY_LAST_ACTION, 65536, 65536, 65535 - 14),
    ids: &[],
    count: 0,
    others: &[14],
    turns: 2,
    left: &[],
    ends: &[(65535, 0, ANY)],
    ..EXCHANGED
};

/// Two glyphs, with the last two of 65,536 glyphs behind the first one.
const LAST_RUN: Case = Case {
    name: "a run at 65534",
    kind: Kind::Insertion(inserting!(TWO, 65534), 65536),
    ids: &[],
    count: 0,
    others: &[20, 9],
    turns: 3,
    paid: 2,
    left: &[],
    ends: &[(20, 0, ANY), (30, 0, ANY), (31, 0, ANY), (9, 1, ANY)],
    ..EXCHANGED
};

/// Two glyphs 5, of which an entry at each marks it and names a lookup, for the mark and for the cursor, of so many.
macro_rules! lookup_case {
    ($name:literal, $mark:expr, $current:expr, $count:literal, $ends:expr) => {
        Case {
            name: $name,
            kind: Kind::Contextual(
                &[
                    rule!(0, 0, 0, 0, lookups!(NONE, NONE)),
                    rule!(0, 1, 0, 0, lookups!(NONE, NONE)),
                    rule!(0, 4, 0, MARK, lookups!($mark, $current)),
                ],
                $count,
            ),
            ids: &[],
            count: 0,
            others: &[5, 5],
            turns: 3,
            left: &[],
            ends: $ends,
            ..EXCHANGED
        }
    };
}

/// Neither of two glyphs 5 is replaced, the first one is, and both are.
const NEITHER: &[Left] = &[(5, 0, ANY), (5, 1, ANY)];

const FIRST: &[Left] = &[(9, 0, ANY), (5, 1, ANY)];

const BOTH: &[Left] = &[(9, 0, ANY), (9, 1, ANY)];

/// Places, states, actions and runs at their ends.
static AT_ENDS: [Case; 7] = [
    PAST_16_BITS,
    Case {
        name: "a mark at the place 65535",
        kind: Kind::Contextual(REPLACING_IN_LAST_STATE, 1),
        ends: &[(9, 65_535, 0), (65535, 65_536, 3)],
        ..PAST_16_BITS
    },
    LAST_ACTION,
    Case {
        name: "one action fewer",
        kind: Kind::Ligature(BY_LAST_ACTION, 65535, 65536, 65535 - 14),
        ends: &[(14, 0, ANY)],
        ..LAST_ACTION
    },
    Case {
        name: "one component fewer",
        kind: Kind::Ligature(BY_LAST_ACTION, 65536, 65535, 65535 - 14),
        ends: &[(14, 0, ANY)],
        ..LAST_ACTION
    },
    LAST_RUN,
    Case {
        name: "no run at 65535",
        kind: Kind::Insertion(inserting!(TWO, 65535), 65536),
        paid: 0,
        ends: &[(20, 0, ANY), (9, 1, ANY)],
        ..LAST_RUN
    },
];

/// Lookups at the ends of their lists.
static LOOKUPS_AT_ENDS: [Case; 10] = [
    lookup_case!("the only lookup, marked", 0, NONE, 1, FIRST),
    lookup_case!("the only lookup, current", NONE, 0, 1, BOTH),
    lookup_case!("a lookup past the list, marked", 1, NONE, 1, NEITHER),
    lookup_case!("a lookup past the list, current", NONE, 1, 1, NEITHER),
    lookup_case!(
        "a lookup far past the list, marked",
        65534,
        NONE,
        1,
        NEITHER
    ),
    lookup_case!(
        "a lookup far past the list, current",
        NONE,
        65534,
        1,
        NEITHER
    ),
    lookup_case!("the lookup 65534, marked", 65534, NONE, 65535, FIRST),
    lookup_case!("the lookup 65534, current", NONE, 65534, 65535, BOTH),
    lookup_case!("no lookup at 65535, marked", 65535, NONE, 65536, NEITHER),
    lookup_case!("no lookup at 65535, current", NONE, 65535, 65536, NEITHER),
];

/// All cases, in groups.
pub(crate) fn all_cases() -> [&'static [Case]; 3] {
    [long_cases(), cases_at_ends(), lookup_cases()]
}

/// The long lines. What names a table is proved with all that it holds, and takes less with one at a time.
fn long_cases() -> &'static [Case] {
    &LONG
}

/// The cases of places, states, actions and runs.
fn cases_at_ends() -> &'static [Case] {
    &AT_ENDS
}

/// The cases of lookups.
fn lookup_cases() -> &'static [Case] {
    &LOOKUPS_AT_ENDS
}
