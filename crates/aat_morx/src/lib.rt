//! Substitution: the subtables of all chains in their order, under a map of what is asked for.
//!
//! ```
//! apply(&mut context, &map)?;
//! ```
#![tactic(auto)]

mod applying;
mod chains;
#[doc(hidden)]
pub mod laws;
mod subtable;
mod waking;

pub use applying::{apply, apply_with, prepare, run_table};
pub use subtable::{is_for, is_reversed, is_skipped};
pub use waking::{LineWord, wakers_at};

#[doc(hidden)]
pub mod worked;
