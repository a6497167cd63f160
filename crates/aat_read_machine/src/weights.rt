//! What values that are read weigh: the bytes of memory that they take, at most. A machine that keeps its rows as they
//! stand takes two bytes for each cell and its entries, of which it has no more than cells: less than a rule and a cell.

use aat_lookup::Lookup;
use aat_machine_tables::{ContextualEntryData, GenericStateEntry, InsertionEntryData, JudgedEntry};

/// The bytes of a rule of a machine of rearrangement, and of its cell in the grid beside the rules.
pub const PLAIN_RULE_SIZE: usize = size_of::<(u16, u16, GenericStateEntry<()>)>()
    + size_of::<JudgedEntry<()>>();

/// The bytes of a rule of a ligature machine, and of its cell.
pub const LIGATURE_RULE_SIZE: usize = size_of::<(u16, u16, GenericStateEntry<u16>)>()
    + size_of::<JudgedEntry<u16>>();

/// The bytes of a rule of a contextual machine, and of its cell.
pub const CONTEXTUAL_RULE_SIZE: usize = size_of::<
    (u16, u16, GenericStateEntry<ContextualEntryData>),
>() + size_of::<JudgedEntry<ContextualEntryData>>();

/// The bytes of a rule of a machine that inserts glyphs, and of its cell.
pub const INSERTION_RULE_SIZE: usize = size_of::<
    (u16, u16, GenericStateEntry<InsertionEntryData>),
>() + size_of::<JudgedEntry<InsertionEntryData>>();

/// The bytes of a lookup, besides its values.
pub const LOOKUP_SIZE: usize = size_of::<Lookup>();
