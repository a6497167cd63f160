//! State tables and the kinds of subtables of `morx`, read from bytes.
//!
//! ```
//! let kind: SubtableKind = read_subtable_kind(alloc, &bytes, place, kind, glyph_count)?;
//! ```
#![tactic(auto)]

mod contextual;
mod entry_read;
mod kinds;
#[doc(hidden)]
pub mod laws;
mod lists;
mod machine;
mod room;
mod stack_machine;
mod state_array;
mod subtable_kind;
pub mod weights;
#[doc(hidden)]
pub mod worked;

pub use aat_bytes::tags::MORX;
pub use contextual::read_contextual;
pub use entry_read::EntryRead;
pub use kinds::{read_insertion, read_ligature};
pub use machine::read_machine;
pub use stack_machine::read_stack_machine;
pub use subtable_kind::read_subtable_kind;
