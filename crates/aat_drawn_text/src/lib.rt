//! What is drawn of a text: the line of its glyphs is substituted, kerned, tracked and turned into drawing order, and
//! its glyphs come out with their positions, and with where the text may be broken. A program takes `Shaper` of
//! `aat_shaper`, which keeps the plan and the memory for it.
#![tactic(auto)]

mod drawn;
mod kerned;
mod kinds;
mod line;
mod steady;
mod substitution;
mod text;
mod text_line;
mod tracking;

pub use line::{KERNED, LONGEST_TEXT};
pub use text::draw_text;
