//! From what a `Shaper` draws of a text to what is shown of it, as HarfBuzz has it: glyphs are set in columns, spaces
//! that the font lacks get a width of their own, marks lose their width and are placed by boxes, and ignorable glyphs
//! are hidden. The text may be broken where what is shown says so (`breaks_hold_as_shown`).
//!
//! ```
//! set_in_columns(&mut glyphs, &face);
//! widen_spaces(&mut glyphs, &face, Direction::TopToBottom);
//! let shown = hide_ignorables(alloc, Direction::TopToBottom, face.glyph_of(' '), &glyphs)?;
//! ```
#![tactic(auto)]

mod columns;
mod face_metrics;
mod ignorables;
/// The law of what is shown, as a theorem.
#[doc(hidden)]
pub mod laws;
mod mark_bases;
mod mark_boxes;
mod mark_places;
mod marks;
mod spaces;
/// Worked examples, as theorems.
#[doc(hidden)]
pub mod worked;

pub use columns::set_in_columns;
pub use ignorables::{hide_as_spaces, hide_ignorables};
pub use mark_boxes::place_marks;
pub use marks::zero_marks;
pub use spaces::widen_spaces;
