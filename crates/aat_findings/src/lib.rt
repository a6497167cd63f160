//! What is found in the state machines, chains and lookups of a font that is of no use, or does harm: for who makes
//! fonts.
//!
//! ```
//! let unreached = unreached_states(alloc, &machine)?;
//! ```
#![tactic(auto)]

mod chains;
mod classes;
mod exclusive;
mod glyphs;
mod growth;
mod ligatures;
mod lines;
mod missing;
mod named;
mod reached;
mod same;
mod states;
mod turns;
mod unused;
#[doc(hidden)]
pub mod worked;

pub use chains::{features_without_name, names_without_chain, unset_subtables};
pub use classes::classes_alike;
pub use exclusive::exclusive_settings;
pub use glyphs::{DELETED_GLYPH, PairKind, lists_deleted, pairs_of};
pub use growth::{InsertionKind, current_run, inserting_entries, marked_run, taken_as};
pub use ligatures::made_ligatures;
pub use lines::state_after;
pub use missing::missing_reached;
pub use named::unnamed_lookups;
pub use same::Same;
pub use states::unreached_states;
pub use turns::stays;
pub use unused::unused_entries;
