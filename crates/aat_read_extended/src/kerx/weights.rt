//! What values that are read weigh: the bytes of memory that they take.

use aat_kerning_tables::{KerxSubtable, Point};
use aat_machine_tables::{EntryData, GenericStateEntry, JudgedEntry};
pub use aat_read_pairs::weights::{LEFT_OUT_SIZE, PAIR_SIZE, START_SIZE};

/// The bytes of a glyph with anchor points, besides these.
pub const ANCHOR_ROW_SIZE: usize = size_of::<(u16, Vec<Point>)>();

/// The bytes of an anchor point.
pub const POINT_SIZE: usize = size_of::<Point>();

/// The bytes of a rule of a machine, and of its cell in the grid beside the rules.
pub const KERX_RULE_SIZE: usize = size_of::<(u16, u16, GenericStateEntry<EntryData>)>()
    + size_of::<JudgedEntry<EntryData>>();

/// The bytes of a subtable that kerns, besides what it has in lists.
pub const KERX_SUBTABLE_SIZE: usize = size_of::<KerxSubtable>();
