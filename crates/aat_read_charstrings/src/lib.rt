//! Outlines of glyphs, from the table `CFF `.
//!
//! ```
//! let segments = CharStrings::new(cff)?.outline(alloc, glyph)?;
//! ```
#![tactic(auto)]

mod dict;
mod file;
mod font;
mod font_dict;
mod index;
mod integers;
mod machine;
mod operators;
mod path;
mod steps;
pub mod tags;
mod tokens;
#[doc(hidden)]
pub mod worked;

pub use font::CharStrings;
pub use path::{CubicSegment, FixedPoint};
