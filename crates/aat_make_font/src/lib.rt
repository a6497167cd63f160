//! Fonts made of a description in JSON, by the writers: for tests, and for a person who tries a table out. What a
//! description has of a font is written, and nothing else; `units_per_em` and `glyphs` have to be there. docs/MAKE.md
//! leads through it.
//!
//! ```
//! let bytes = make_font(alloc, description)?;
//! ```
#![tactic(auto)]

mod characters;
mod classes;
mod entries;
mod features;
mod font;
mod glyphs;
mod kern;
mod kerx;
mod known;
mod machines;
mod morx;
mod outlines;
mod pairs;
mod subtables;
mod trak;
mod values;

pub use font::make_font;
