//! Pictures in SVG: the state machines of `morx` and what substitution did to a line, for those who make fonts; and of
//! pictures of lines the colours and the outlines.
//!
//! ```
//! write_machine(alloc, &mut out, font.chains(), None, 1)?;
//! ```
#![tactic(auto)]

mod error;
mod glyph_text;
mod links;
mod machine;
mod machine_entries;
mod machine_layers;
mod machine_lines;
mod machine_marks;
mod outlines;
mod paint;
mod paths;
mod rows;
mod trace_marks;
mod trace_picture;
mod trace_rows;

pub use error::DrawError;
pub use machine::{MachinePicture, write_machine};
pub use outlines::FontOutlines;
pub use paint::{Colour, Paint, colour_by};
pub use paths::write_outlines;
pub use trace_picture::{TraceDrawing, TracePicture, write_trace_picture};
