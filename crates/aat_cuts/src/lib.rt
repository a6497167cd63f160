//! Whether the machines of `morx` are settled: a property of their tables alone, of which entries a run from state 0
//! may come to and what these use, that a caller can ask once for a subtable or for a font.
//!
//! ```
//! let reason: Option<Unsettled> = find_unsettled(alloc, &subtable.kind)?;
//! ```
#![tactic(auto)]

mod cells;
mod classes;
mod find;
mod font;
mod held;
mod labels;
mod least;
mod links;
mod reached;
mod register;
mod settled;
mod steps;
mod unsettled;

pub use find::find_unsettled;
pub use font::{UnsettledSubtable, find_unsettled_in_font};
pub use unsettled::{Unsettled, UsedRegister};
