//! Readers of lookups and of the feature name table. A lookup is checked before any memory is asked for: it has at most
//! 65,536 glyphs, and takes at most 7 bytes of memory for each byte that it is read from. Values have 16 bits, or 32 in
//! the calls whose names say `long`.
//!
//! ```
//! let lookup = read_lookup(alloc, table, &bytes, place, glyph_count)?;
//! ```
#![tactic(auto)]

mod feat;
mod glyphs;
mod kept;
#[doc(hidden)]
pub mod laws;
mod layout;
mod lookup;
mod rows;
mod segment;
mod size;
mod units;
#[doc(hidden)]
pub mod worked;

pub use aat_bytes::tags::FEAT;
pub use feat::{feature_name_id, read_feat, setting_name_id};
pub use lookup::{read_lookup, read_pairs};
pub use rows::{read_long_rows, read_rows};
pub use size::{long_lookup_bytes, lookup_bytes, lookup_size};
