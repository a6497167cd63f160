//! The kerning table read from bytes, with either header, and its machines, whose classes and indexes are bytes.
//!
//! ```
//! let KernRead { kern, left_out } = read_kern(alloc, &bytes)?;
//! ```
#![tactic(auto)]

mod byte_classes;
mod byte_machine;
mod header;
mod kern;
mod kern_machine;
#[doc(hidden)]
pub mod laws;
mod rows;
mod rules;
mod subtables;
pub mod weights;
#[doc(hidden)]
pub mod worked;

pub use aat_read_pairs::LeftOutSubtable;
pub use kern::{KernRead, read_kern};
pub use kern_machine::read_kern_machine;
