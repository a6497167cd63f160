//! Outlines of glyphs, from the tables `glyf` and `loca`, also of a composite glyph, and their curves.
//!
//! ```
//! let outline = Outlines::new(glyf, loca, is_long, glyph_count).outline(alloc, glyph)?;
//! ```
#![tactic(auto)]

mod components;
mod composites;
mod curves;
mod flags;
mod glyph;
mod offsets;
mod outline;
mod points;
mod simple;
pub mod tags;
#[doc(hidden)]
pub mod worked;

pub use curves::{HalfPoint, Segment, segments};
pub use offsets::{Outlines, long_offsets};
pub use outline::{Outline, OutlinePoint};
