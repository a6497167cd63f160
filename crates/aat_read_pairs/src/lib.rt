//! Readers of kerning values of pairs of glyphs: the subtables of `kern` and `kerx` that have no machine.
//!
//! ```
//! let pairs = read_kern_pairs(alloc, &bytes, place)?;
//! ```
#![tactic(auto)]

mod class_table;
mod kern_classes;
mod kern_indexes;
mod kerx_classes;
#[doc(hidden)]
pub mod laws;
mod left_out;
mod listed;
mod long_arrays;
mod made;
mod values;
pub mod weights;
#[doc(hidden)]
pub mod worked;

pub use aat_bytes::tags::{KERN, KERX};
pub use kern_classes::read_kern_classes;
pub use kern_indexes::read_kern_indexes;
pub use kerx_classes::{read_kerx_arrays, read_kerx_classes};
pub use left_out::LeftOutSubtable;
pub use listed::{read_kern_pairs, read_kerx_pairs};
pub use long_arrays::{kerx_wide_value, read_kerx_long_arrays};
