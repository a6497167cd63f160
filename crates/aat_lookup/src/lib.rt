//! Lookups, which give glyphs a value, and rows that rise by a key: what all tables of an Apple font stand on.
//!
//! By which way a value is found, and in how many steps, is told in comments and not proved.
//!
//! ```
//! let value = Lookup::new(alloc, &[(4, 1), (7, 2)])?.value(GlyphId(7));
//! ```
#![tactic(auto)]

mod cells;
mod class_array;
mod dense;
mod each_glyph;
mod error;
mod feat;
mod glyph_id;
pub mod keys;
mod listing;
mod lookup;
mod moves;
mod pages;
mod segments;
pub mod walk;
#[doc(hidden)]
pub mod worked;

pub use error::TableError;
pub use feat::{Feat, FeatureName};
pub use glyph_id::GlyphId;
pub use listing::Listing;
pub use lookup::Lookup;
pub use moves::GlyphMoves;
pub use segments::LookupSegment;
