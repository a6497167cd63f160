//! State tables, and the chains of subtables that have them.
//!
//! By which way an entry is found, and in how many steps, is told in comments and not proved.
//!
//! ```
//! let machine = ExtendedStateTable::new(alloc, class_count, &classes, &rules)?;
//! ```
#![tactic(auto)]

mod actions;
mod entries;
pub mod entry_bits;
mod judged;
mod morx;
mod rows;
mod safe_turn;
mod state_table;
mod subtables;
#[doc(hidden)]
pub mod worked;

pub use actions::component_value;
pub use entries::{ContextualEntryData, EntryData, InsertionEntryData, KernEntryData};
pub use judged::{Acting, JudgedEntry};
pub use morx::{Chain, ChainFeature, Coverage, Subtable, SubtableKind, hb_mask_t};
pub use safe_turn::{Turns, is_safe_turn};
pub use state_table::{ExtendedStateTable, GenericStateEntry};
pub use subtables::{ContextualSubtable, InsertionSubtable, LigatureSubtable, MAX_SUBTABLES};
