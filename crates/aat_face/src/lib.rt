//! A font from the bytes of its file, with the list of its faults. Its `font()` is what `Shaper::new` of `aat_shaper`
//! takes.
//!
//! ```
//! let face = Face::read(alloc, &file, 0)?;
//! ```
#![tactic(auto)]

mod chains;
mod characters;
mod encoding;
mod face;
mod features;
mod kerning;
#[doc(hidden)]
pub mod laws;
mod lists;
mod tables;
mod text;
mod tracking;
pub mod weights;
#[doc(hidden)]
pub mod worked;

pub use aat_read_metrics::{GlyphBox, Origin};
pub use encoding::NameEncoding;
pub use face::Face;
pub use text::NameText;
