//! The worked rows, as descriptions of what is shaped.

use crate::described::{
    ChainData, FontData, KernData, KerxData, KindData, LigatureData, MachineData, NO_TABLES,
    SubtableData,
};
use aat_layout::buffer::Direction;
use aat_layout::font::{Coverage, FeatureName};

/// The flags that a subtable is on at.
const FEATURE_FLAGS: u32 = 1;

/// Subtables for all directions.
const ALL_DIRECTIONS: &[Coverage] = &[Coverage::ALL_DIRECTIONS];

/// Subtables for all directions, in the order of the characters.
const LOGICAL: &[Coverage] = &[Coverage::ALL_DIRECTIONS, Coverage::LOGICAL];

/// Subtables for horizontal text alone.
const HORIZONTAL: &[Coverage] = &[];

/// A part that shows a line that is substituted by the one subtable of a font, without requests: its name, the kind
/// of the subtable and the line, and if not the usual budget, the budget, or if not the usual sizes, the sizes, or if
/// not for all directions and left to right, the coverage and the direction.
macro_rules! substituted {
    ($name:literal, $kind:expr, $line:expr) => {
        substituted!($name, $kind, $line, ALL_DIRECTIONS, LeftToRight, MAX_OPS, Usual)
    };
    ($name:literal, $kind:expr, $line:expr, $max_ops:literal) => {
        substituted!($name, $kind, $line, ALL_DIRECTIONS, LeftToRight, $max_ops, Usual)
    };
    ($name:literal, $kind:expr, $line:expr, $sizes:ident) => {
        substituted!($name, $kind, $line, ALL_DIRECTIONS, LeftToRight, MAX_OPS, $sizes)
    };
    ($name:literal, $kind:expr, $line:expr, $coverage:ident, $direction:ident) => {
        substituted!($name, $kind, $line, $coverage, $direction, MAX_OPS, Usual)
    };
    ($name:literal, $kind:expr, $line:expr, $coverage:ident, $direction:ident, $max_ops:expr, $sizes:ident) => {
        Part {
            name: $name,
            shown: Shown::Substitution(Substitution {
                font: FontData {
                    chains: Some(&[ChainData {
                        default_flags: 1,
                        features: &[],
                        subtables: &[SubtableData {
                            kind: $kind,
                            coverage: $coverage,
                            feature_flags: FEATURE_FLAGS,
                        }],
                    }]),
                    names: Some(LIGATURES),
                    ..NO_TABLES
                },
                requests: &[],
                line: $line,
                direction: Direction::$direction,
                max_len: MAX_LEN,
                max_ops: $max_ops,
                sizes: Sizes::$sizes,
                after: After::Nothing,
            }),
        }
    };
}

/// A glyph at a cluster, or at each cluster from one to another.
macro_rules! run {
    ($glyph:literal, $cluster:expr) => {
        Run {
            glyph: $glyph,
            first: $cluster,
            last: $cluster,
        }
    };
    ($glyph:literal, $first:literal, $last:literal) => {
        Run {
            glyph: $glyph,
            first: $first,
            last: $last,
        }
    };
}

/// The rule of a state and a class: the state that follows, flags, and what the kind adds.
macro_rules! rule {
    ($state:literal, $class:literal, $new_state:literal, $flags:expr, $extra:expr) => {
        (
            $state,
            $class,
            GenericStateEntry {
                new_state: $new_state,
                flags: $flags,
                extra: $extra,
            },
        )
    };
}

/// A part that shows a line that is kerned: its name, the table of the font and the line, and if not the usual budget,
/// the budget, or if not left to right with kerning requested, the direction and whether kerning is requested.
macro_rules! kerned {
    ($name:literal, $table:expr, $line:expr) => {
        kerned!($name, $table, $line, LeftToRight, true, MAX_OPS)
    };
    ($name:literal, $table:expr, $line:expr, $max_ops:literal) => {
        kerned!($name, $table, $line, LeftToRight, true, $max_ops)
    };
    ($name:literal, $table:expr, $line:expr, $direction:ident, $requested:literal) => {
        kerned!($name, $table, $line, $direction, $requested, MAX_OPS)
    };
    ($name:literal, $table:expr, $line:expr, $direction:ident, $requested:literal, $max_ops:expr) => {
        Part {
            name: $name,
            shown: Shown::Kerning(Kerning {
                font: $table,
                line: $line,
                direction: Direction::$direction,
                requested_kerning: $requested,
                max_ops: $max_ops,
            }),
        }
    };
}

/// A glyph at a cluster, without properties and 500 units wide, and if not, with its properties and its width.
macro_rules! placed {
    ($glyph:literal, $cluster:literal) => {
        placed!($glyph, $cluster, 0, 500)
    };
    ($glyph:literal, $cluster:literal, $glyph_props:literal, $x_advance:literal) => {
        Placed {
            glyph: $glyph,
            cluster: $cluster,
            glyph_props: $glyph_props,
            x_advance: $x_advance,
        }
    };
}

/// The request for a value of a tag, from a cluster to the one before another.
macro_rules! request {
    ($tag:literal, $value:literal, $start:literal, $end:expr) => {
        Request {
            tag: $tag,
            value: $value,
            start: $start,
            end: $end,
        }
    };
}

mod contextual;
mod deleted;
mod insertion;
mod kerning_machines;
mod ligature;
mod pairs;
mod rearrangement;
mod requests;
mod shaped;

use contextual::{ROW_10, ROW_35};
use deleted::ROW_19;
use insertion::{ROW_13, ROW_14, ROW_25, ROW_27, ROW_30, ROW_33};
use kerning_machines::{ROW_18, ROW_21, ROW_29, ROW_34};
use ligature::{ROW_11, ROW_12, ROW_24, ROW_31, ROW_32, ROW_37};
use pairs::{ROW_15, ROW_16, ROW_17, ROW_20, ROW_28};
use rearrangement::{ROW_8, ROW_9, ROW_22, ROW_23, ROW_26, ROW_36};
use requests::{ROW_1, ROW_2, ROW_3, ROW_4, ROW_5, ROW_6, ROW_7};
use shaped::ROW_38;

/// A worked row: its number, and its parts in their order.
pub(crate) struct Row {
    pub(crate) number: &'static str,
    pub(crate) parts: &'static [Part],
}

/// A part of a worked row: its name, and what it shows.
pub(crate) struct Part {
    pub(crate) name: &'static str,
    pub(crate) shown: Shown,
}

/// What a part shows.
pub(crate) enum Shown {
    /// A line that is substituted.
    Substitution(Substitution),
    /// A line whose substitution is refused, and then refused again.
    Refusals(Substitution),
    /// Requests that are compiled.
    Compilation(Compilation),
    /// A request that is added to a new builder.
    Addition(Addition),
    /// A line that is kerned.
    Kerning(Kerning),
    /// A line whose deleted glyphs take no room.
    Zeroing(Zeroing),
    /// A line whose deleted glyphs are removed, run by run.
    Removal(&'static [Run]),
    /// A line that is shaped.
    Shaping(Shaping),
}

/// A line that is substituted under requests.
pub(crate) struct Substitution {
    pub(crate) font: FontData<'static>,
    /// The requests, in their order.
    pub(crate) requests: &'static [Request],
    /// The line, run by run.
    pub(crate) line: &'static [Run],
    /// The direction of the line.
    pub(crate) direction: Direction,
    /// The greatest length of the line, in glyphs.
    pub(crate) max_len: u16,
    /// The budget of the buffer.
    pub(crate) max_ops: i32,
    pub(crate) sizes: Sizes,
    pub(crate) after: After,
}

/// With how many slots for a ligature's components, and with spans of at most how many glyphs, a line is substituted.
pub(crate) enum Sizes {
    /// With 64 slots, and spans of at most 64 glyphs.
    Usual,
    /// With spans of at most three glyphs.
    SpansOfThree,
    /// With spans of at most two glyphs.
    SpansOfTwo,
    /// With one slot.
    OneSlot,
    /// With two slots.
    TwoSlots,
}

/// What is done with the line after it is substituted.
pub(crate) enum After {
    /// Nothing.
    Nothing,
    /// Its deleted glyphs are removed.
    Removal,
}

/// One glyph at each cluster from a first one to a last one.
pub(crate) struct Run {
    pub(crate) glyph: u16,
    pub(crate) first: u32,
    pub(crate) last: u32,
}

/// Requests that are compiled into the flags of each chain.
pub(crate) struct Compilation {
    pub(crate) font: FontData<'static>,
    /// The requests, in their order.
    pub(crate) requests: &'static [Request],
}

/// A request that is added to a new builder.
pub(crate) struct Addition {
    pub(crate) font: FontData<'static>,
    pub(crate) request: Request,
}

/// A line that is kerned by the table of a font: the kerning table, or the extended one.
pub(crate) struct Kerning {
    pub(crate) font: FontData<'static>,
    /// The line, glyph by glyph.
    pub(crate) line: &'static [Placed],
    /// The direction of the line.
    pub(crate) direction: Direction,
    /// Whether kerning is requested.
    pub(crate) requested_kerning: bool,
    /// The budget of the buffer.
    pub(crate) max_ops: i32,
}

/// A glyph with a position, which asks for kerning.
pub(crate) struct Placed {
    pub(crate) glyph: u16,
    pub(crate) cluster: u32,
    /// The properties that its class gives it.
    pub(crate) glyph_props: u16,
    /// Its horizontal advance, in font units.
    pub(crate) x_advance: i32,
}

/// A line with positions whose deleted glyphs take no room.
pub(crate) struct Zeroing {
    /// The line, run by run.
    pub(crate) line: &'static [Run],
    /// The horizontal advance of each glyph, in font units.
    pub(crate) x_advance: i32,
}

/// A line that is shaped, where kerning is requested.
pub(crate) struct Shaping {
    pub(crate) font: FontData<'static>,
    /// Whether the plan applies the font's substitution.
    pub(crate) apply_morx: bool,
    /// The line, glyph by glyph. Its glyphs have the advances of the font.
    pub(crate) line: &'static [Placed],
    /// The direction of the line.
    pub(crate) direction: Direction,
}

/// What the user asks of a feature: a value over the clusters `start` to `end - 1`.
pub(crate) struct Request {
    /// The bytes of the feature's tag.
    pub(crate) tag: &'static [u8; 4],
    pub(crate) value: u32,
    pub(crate) start: u32,
    pub(crate) end: u32,
}

/// The usual greatest length of the line of a row, in glyphs.
pub(crate) const MAX_LEN: u16 = 16384;

/// The usual budget of a row.
pub(crate) const MAX_OPS: i32 = 16384;

/// The name of ligatures, whose settings do not exclude one another.
const LIGATURES: &[FeatureName] = &[FeatureName {
    kind: 1,
    settings: 1,
    exclusive: false,
}];

/// The rows up to 4, in the order in which they are printed.
static TO_4: [Row; 4] = [ROW_1, ROW_2, ROW_3, ROW_4];

/// The rows from 5 to 7.
static FROM_5: [Row; 3] = [ROW_5, ROW_6, ROW_7];

/// Row 8.
static FROM_8: [Row; 1] = [ROW_8];

/// The rows from 9 to 10.
static FROM_9: [Row; 2] = [ROW_9, ROW_10];

/// The rows from 11 to 14.
static FROM_11: [Row; 4] = [ROW_11, ROW_12, ROW_13, ROW_14];

/// The rows from 15 to 18.
static FROM_15: [Row; 4] = [ROW_15, ROW_16, ROW_17, ROW_18];

/// The rows from 19 to 20.
static FROM_19: [Row; 2] = [ROW_19, ROW_20];

/// The rows from 21 to 24.
static FROM_21: [Row; 4] = [ROW_21, ROW_22, ROW_23, ROW_24];

/// The rows from 25 to 27.
static FROM_25: [Row; 3] = [ROW_25, ROW_26, ROW_27];

/// The rows from 28 to 30.
static FROM_28: [Row; 3] = [ROW_28, ROW_29, ROW_30];

/// The rows from 31 to 34.
static FROM_31: [Row; 4] = [ROW_31, ROW_32, ROW_33, ROW_34];

/// The rows from 35 on.
static FROM_35: [Row; 4] = [ROW_35, ROW_36, ROW_37, ROW_38];

/// The rows up to 4.
fn to_4() -> &'static [Row] {
    &TO_4
}

/// The rows from 5 to 7.
fn from_5() -> &'static [Row] {
    &FROM_5
}

/// Row 8.
fn from_8() -> &'static [Row] {
    &FROM_8
}

/// The rows from 9 to 10.
fn from_9() -> &'static [Row] {
    &FROM_9
}

/// The rows from 11 to 14.
fn from_11() -> &'static [Row] {
    &FROM_11
}

/// The rows from 15 to 18.
fn from_15() -> &'static [Row] {
    &FROM_15
}

/// The rows from 19 to 20.
fn from_19() -> &'static [Row] {
    &FROM_19
}

/// The rows from 21 to 24.
fn from_21() -> &'static [Row] {
    &FROM_21
}

/// The rows from 25 to 27.
fn from_25() -> &'static [Row] {
    &FROM_25
}

/// The rows from 28 to 30.
fn from_28() -> &'static [Row] {
    &FROM_28
}

/// The rows from 31 to 34.
fn from_31() -> &'static [Row] {
    &FROM_31
}

/// The rows from 35 on.
fn from_35() -> &'static [Row] {
    &FROM_35
}

/// All rows, in groups, in their order. What names a table is proved with all that it holds, in a time that grows faster
/// than the table: so each group has a function.
pub(crate) fn all_rows() -> [&'static [Row]; 12] {
    [
        to_4(),
        from_5(),
        from_8(),
        from_9(),
        from_11(),
        from_15(),
        from_19(),
        from_21(),
        from_25(),
        from_28(),
        from_31(),
        from_35(),
    ]
}
