//! The rows of noncontextual substitution and of requests.

use super::{
    ALL_DIRECTIONS, Addition, After, ChainData, Compilation, FEATURE_FLAGS, FontData, KindData,
    LIGATURES, MAX_LEN, MAX_OPS, NO_TABLES, Part, Request, Row, Run, Shown, Sizes, Substitution,
    SubtableData,
};
use aat_layout::buffer::Direction;
use aat_layout::font::{ChainFeature, FeatureName};

/// The name of character alternatives.
const ALTERNATIVES: &[FeatureName] = &[FeatureName {
    kind: 17,
    settings: 1,
    exclusive: false,
}];

/// The chain feature that common ligatures switch on.
const LIGATURES_ON: ChainFeature = ChainFeature {
    kind: 1,
    setting: 2,
    enable_flags: 2,
    disable_flags: u32::MAX,
};

/// The chain feature that common ligatures switch off.
const LIGATURES_OFF: ChainFeature = ChainFeature {
    kind: 1,
    setting: 3,
    enable_flags: 4,
    disable_flags: u32::MAX,
};

/// A font whose only chain feature is that of common ligatures on.
const LIGATURES_FONT: FontData<'static> = FontData {
    chains: Some(&[ChainData {
        default_flags: 1,
        features: &[LIGATURES_ON],
        subtables: &[],
    }]),
    names: Some(LIGATURES),
    ..NO_TABLES
};

/// A font whose chain has no feature, with some feature names.
macro_rules! font_with_names {
    ($names:expr) => {
        FontData { chains: Some(&[ChainData { default_flags: 1, features: &[], subtables: &[], }]), names: $names, ..NO_TABLES }
    };
}

/// One subtable that turns 5 into 9.
const FIVE_TO_NINE: &[SubtableData<'static>] = &[SubtableData {
    kind: KindData::NonContextual(&[(5, 9)]),
    coverage: ALL_DIRECTIONS,
    feature_flags: FEATURE_FLAGS,
}];

/// A noncontextual substitution.
pub(super) const ROW_1: Row = Row {
    number: "1",
    parts: &[substituted!(
        "1",
        KindData::NonContextual(&[(5, 9)]),
        &[run!(5, 0), run!(6, 1), run!(5, 2)]
    )],
};

/// A substitution that a request switches off for one glyph.
pub(super) const ROW_2: Row = Row {
    number: "2",
    parts: &[Part {
        name: "2",
        shown: Shown::Substitution(Substitution {
            font: FontData {
                chains: Some(&[ChainData {
                    default_flags: 1,
                    features: &[ChainFeature {
                        kind: 1,
                        setting: 3,
                        enable_flags: 0,
                        disable_flags: 0,
                    }],
                    subtables: FIVE_TO_NINE,
                }]),
                names: Some(LIGATURES),
                ..NO_TABLES
            },
            requests: &[request!(b"liga", 0, 1, 2)],
            line: &[run!(5, 0), run!(5, 1), run!(5, 2)],
            direction: Direction::LeftToRight,
            max_len: MAX_LEN,
            max_ops: MAX_OPS,
            sizes: Sizes::Usual,
            after: After::Nothing,
        }),
    }],
};

/// The ranges of no request and of one.
pub(super) const ROW_3: Row = Row {
    number: "3",
    parts: &[
        Part {
            name: "3a",
            shown: Shown::Compilation(Compilation {
                font: LIGATURES_FONT,
                requests: &[],
            }),
        },
        Part {
            name: "3b",
            shown: Shown::Compilation(Compilation {
                font: LIGATURES_FONT,
                requests: &[request!(b"liga", 1, 3, 5)],
            }),
        },
    ],
};

/// Requests whose start is not below their end.
pub(super) const ROW_4: Row = Row {
    number: "4",
    parts: &[Part {
        name: "4",
        shown: Shown::Compilation(Compilation {
            font: LIGATURES_FONT,
            requests: &[request!(b"liga", 1, 4, 4), request!(b"liga", 1, 7, 3)],
        }),
    }],
};

/// Requests that overlap.
pub(super) const ROW_5: Row = Row {
    number: "5",
    parts: &[Part {
        name: "5",
        shown: Shown::Compilation(Compilation {
            font: FontData {
                chains: Some(&[ChainData {
                    default_flags: 1,
                    features: &[LIGATURES_ON, LIGATURES_OFF],
                    subtables: &[],
                }]),
                names: Some(LIGATURES),
                ..NO_TABLES
            },
            requests: &[
                request!(b"liga", 1, 0, 10),
                request!(b"liga", 0, 1, 10),
                request!(b"liga", 1, 2, 5),
            ],
        }),
    }],
};

/// A request up to the last cluster, with a glyph there.
pub(super) const ROW_6: Row = Row {
    number: "6",
    parts: &[Part {
        name: "6",
        shown: Shown::Substitution(Substitution {
            font: FontData {
                chains: Some(&[ChainData {
                    default_flags: 0,
                    features: &[ChainFeature {
                        kind: 1,
                        setting: 2,
                        enable_flags: 1,
                        disable_flags: u32::MAX,
                    }],
                    subtables: FIVE_TO_NINE,
                }]),
                names: Some(LIGATURES),
                ..NO_TABLES
            },
            requests: &[request!(b"liga", 1, 0, u32::MAX)],
            line: &[run!(5, u32::MAX)],
            direction: Direction::LeftToRight,
            max_len: MAX_LEN,
            max_ops: MAX_OPS,
            sizes: Sizes::Usual,
            after: After::Nothing,
        }),
    }],
};

/// Requests for character alternatives.
pub(super) const ROW_7: Row = Row {
    number: "7",
    parts: &[
        Part {
            name: "7a",
            shown: Shown::Addition(Addition {
                font: font_with_names!(Some(ALTERNATIVES)),
                request: request!(b"aalt", 65536, 0, u32::MAX),
            }),
        },
        Part {
            name: "7b",
            shown: Shown::Addition(Addition {
                font: font_with_names!(Some(ALTERNATIVES)),
                request: request!(b"aalt", 65535, 0, u32::MAX),
            }),
        },
        Part {
            name: "7c",
            shown: Shown::Addition(Addition {
                font: font_with_names!(Some(LIGATURES)),
                request: request!(b"aalt", 65536, 0, u32::MAX),
            }),
        },
        Part {
            name: "7d",
            shown: Shown::Addition(Addition {
                font: font_with_names!(None),
                request: request!(b"aalt", 65536, 0, u32::MAX),
            }),
        },
    ],
};
