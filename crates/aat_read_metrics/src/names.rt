//! Names of glyphs, from the table `post`.
//!
//! ```
//! let names = GlyphNames::of_file(alloc, &file)?;
//! let name: Option<&str> = names.name_of(glyph);
//! ```
mod macintosh;
mod shown;
mod table;
pub mod tags;
#[doc(hidden)]
pub mod worked;
mod written;

pub use table::GlyphNames;
pub use written::WrittenGlyph;
