//! The chains of the extended glyph metamorphosis table, `morx`, read from bytes.
//!
//! ```
//! let morx = read_morx(alloc, &bytes, glyph_count)?;
//! ```
mod chain_features;
mod chain_subtables;
mod in_turn;
#[doc(hidden)]
pub mod laws;
mod reach;
mod table;
pub mod weights;
#[doc(hidden)]
pub mod worked;

pub use table::read_morx;
