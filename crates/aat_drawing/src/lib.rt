//! What a person or another program is shown of lines that were shaped: the glyphs in the form of `hb-shape`, JSON, and
//! a picture in SVG.
//!
//! ```
//! write_glyphs(&mut out, typesetter.glyphs())?;
//! ```
#![tactic(auto)]

mod breaks;
mod changes;
mod extent;
mod forms;
mod json;
mod legend;
mod line;
mod marks;
mod metrics;
mod picture;

pub use aat_pictures::{Colour, DrawError, FontOutlines, Paint};
pub use breaks::drawn_glyphs;
pub use changes::drawn_changes;
pub use forms::{write_flagged_glyphs, write_glyphs, write_named_glyphs};
pub use json::write_json;
pub use line::{DrawnGlyph, DrawnLine, LineBreak};
pub use metrics::LineMetrics;
pub use picture::{Picture, write_svg};
