//! The bytes of a font: numbers at places, slices by offset and length, and why a table cannot be read. All numbers are
//! big-endian. No call takes memory.
//!
//! ```
//! let units_per_em: Option<u16> = u16_at(head, 18);
//! ```
#![tactic(auto)]

mod error;
mod numbers;
mod slices;
mod tag;
pub mod tags;
#[doc(hidden)]
pub mod worked;

pub use error::{Fault, FaultKind, ReadError};
pub use numbers::{be16, be32, i16_at, tag_at, u8_at, u16_at, u32_at};
pub use slices::{slice, slice_from};
pub use tag::Tag;
