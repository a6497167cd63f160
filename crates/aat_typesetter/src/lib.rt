//! A typesetter: a font that is read of a file and a `&str` go in, and the glyphs that are drawn come out, in one line
//! or in lines of a width.
//!
//! ```
//! use aat_typesetter::{Face, TextOptions, Typesetter};
//! use anyhow::Result;
//! use std::fs;
//!
//! fn main(rt: HostRuntime) -> Result<()> {
//!     let bytes = fs::read(&rt, "sample.ttf")?;
//!     let face = Face::read(rt.alloc(), &bytes, 0)?;
//!     let mut typesetter = Typesetter::new(rt.alloc(), &face);
//!     typesetter.line("fila fa-la", &TextOptions::new())?;
//!     for glyph in typesetter.glyphs() {
//!         println!(rt; "{} {}", glyph.glyph_id, glyph.x_advance)?;
//!     }
//!     Ok(())
//! }
//! ```
//!
//! [`Typesetter::lines`] breaks a text into lines of a width. A program that makes the text of a shaper itself takes
//! `aat_text`, `aat_shaper` and `aat_showing`.
#![tactic(auto)]

mod error;
mod features;
mod lines;
mod memory;
mod options;
mod prepared;
mod script_settings;
mod script_tags;
mod shaping;
mod showing;
mod stops;
mod typesetter;
pub mod worked;

pub use aat_characters::Script;
pub use aat_face::Face;
pub use aat_font::Feature;
pub use aat_glyph::Direction;
pub use aat_layout::FeatureError;
pub use aat_run::AatError;
pub use aat_shaped_text::{ShapedGlyph, TextGlyph};
pub use aat_text::{ClusterLevel, ClusterUnit};
pub use error::{FeatureListError, TypesetError};
pub use features::parse_features;
pub use lines::TypesetLine;
pub use memory::TypesetterMemory;
pub use options::TextOptions;
pub use script_tags::script_of_tag;
pub use typesetter::Typesetter;
