//! What values that are read weigh: the bytes of memory that they take.

use aat_kerning_tables::KernSubtable;
use aat_machine_tables::{GenericStateEntry, JudgedEntry, KernEntryData};
pub use aat_read_pairs::weights::{LEFT_OUT_SIZE, PAIR_SIZE, START_SIZE};

/// The bytes of a rule of a machine, and of its cell in the grid beside the rules.
pub const KERN_RULE_SIZE: usize = size_of::<(u16, u16, GenericStateEntry<KernEntryData>)>()
    + size_of::<JudgedEntry<KernEntryData>>();

/// The bytes of a subtable that kerns, besides what it has in lists.
pub const KERN_SUBTABLE_SIZE: usize = size_of::<KernSubtable>();
