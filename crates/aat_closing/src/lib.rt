//! Where lines of subtables and of chains of `morx` can be cut, whatever the tables: a run that marks, besides, what its
//! acts look at leaves there what the runs over its two parts leave.
//!
//! ```
//! laws::open_rise_leaves_parts(); // Its clause, the theorem, is known from here on. The call does nothing.
//! ```
#![tactic(auto)]

mod chains;
mod closes;
mod context;
mod kinds;
#[doc(hidden)]
pub mod laws;
mod ligature;
mod machines;
mod runs;
mod subtable;
mod table;
#[doc(hidden)]
pub mod worked;

pub use closes::Closes;
pub use context::Closing;
pub use runs::close_kind;
pub use table::close_table;
