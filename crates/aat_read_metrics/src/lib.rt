//! The metrics of glyphs from the bytes of a font file: their boxes, and how they stand in columns. Also the tracking
//! table: it is checked before any memory is asked for, and takes at most 4 bytes of memory for each of its bytes. And the
//! names of glyphs ([`names`]).
//!
//! ```
//! let glyph_box = glyph_box_in(&file, glyph);
//! let tracking = read_trak(alloc, &bytes)?;
//! ```
#![tactic(auto)]

mod fault;
mod font_extents;
mod glyph_metrics;
/// The law of reading, as a theorem.
#[doc(hidden)]
pub mod laws;
pub mod names;
mod tables;
mod trak;
/// Worked examples, as theorems.
#[doc(hidden)]
pub mod worked;

pub use aat_bytes::tags::TRAK;
pub use glyph_metrics::{
    GlyphBox, Origin, em_in, glyph_box_in, row_metrics, vertical_advance_in, vertical_origin_in,
};
pub use names::{GlyphNames, WrittenGlyph};
pub use tables::{found_in, glyph_count_in, number_in, optional_table, units_per_em_in};
pub use trak::read_trak;
