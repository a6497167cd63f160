//! A shaper, which is what a program takes for texts: glyphs with clusters and features go in, and the glyphs to be drawn
//! come out, with their positions, and with where the text may be broken. A program that makes the calls one by one
//! takes `aat_layout`.
//!
//! ```
//! shaper.shape(Direction::LeftToRight, &text, &features)?;
//! let glyphs = shaper.glyphs();
//! ```
//!
//! [`Shaper::shape_lines`] breaks a text into lines of a width.
#![tactic(auto)]

mod lines;
mod memory;
mod names;
mod shaper;
mod workspace;
/// Worked examples of whether a font has a feature, as a theorem.
#[doc(hidden)]
pub mod worked;

pub use aat_glyph::{Track, TrackData, Tracking, TrackingError};
pub use aat_shaped_text::{CharacterKind, ShapedGlyph, SpaceWidth, TextGlyph};
pub use lines::{LineStop, TextLine, TextLines};
pub use memory::ShaperMemory;
pub use shaper::Shaper;
