//! Writers of lookups, of the table of features, of state tables, of the kinds of subtables of `morx` and of the table
//! itself, which the readers read again, and of words.
//!
//! ```
//! let lookup = write_lookup(alloc, &[(4, 1), (7, 2)])?;
//! let bytes = write_subtable_kind(alloc, &subtable.kind)?;
//! let table = write_morx(alloc, &morx)?;
//! ```
#![tactic(auto)]

mod chain;
mod chain_error;
mod contextual;
mod entry_write;
mod error;
mod feat;
#[doc(hidden)]
pub mod laws;
mod lists;
mod lookup;
mod lookup_bytes;
mod machine;
mod morx;
mod numbers;
mod refusals;
mod sizes;
mod subtable;
mod subtable_kind;
mod tables;
mod words;
#[doc(hidden)]
pub mod worked;
mod write;
mod write_error;

pub use chain::ChainBytes;
pub use chain_error::ChainWriteError;
pub use contextual::write_contextual;
pub use entry_write::EntryWrite;
pub use error::MorxWriteError;
pub use feat::{feature_flags, write_feat};
pub use lists::{write_insertion, write_ligature};
pub use lookup::{append_lookup, write_lookup};
pub use machine::write_machine;
pub use morx::write_morx;
pub use subtable::SubtableBytes;
pub use subtable_kind::{kind_number, write_noncontextual, write_subtable_kind};
pub use words::{append_longs, append_words};
pub use write::write_chains;
pub use write_error::WriteError;
