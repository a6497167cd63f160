//! Writer of the tables `glyf` and `loca`, whose simple glyphs the reader reads again.
//!
//! ```
//! let tables = write_outlines(alloc, &outlines)?;
//! ```
mod bounds;
mod error;
mod glyph;
#[doc(hidden)]
pub mod laws;
mod tables;
#[doc(hidden)]
pub mod worked;

pub use error::OutlineWriteError;
pub use tables::{OutlineBytes, write_outlines};
