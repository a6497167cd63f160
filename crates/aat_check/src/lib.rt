//! What is wrong in a font by Apple Advanced Typography, or of no use there: for who makes fonts.
//!
//! ```
//! let found = findings(alloc, &file, &face)?;
//! write_findings(&mut out, "font.ttf", &names, &found)?;
//! ```
#![tactic(auto)]

mod all_findings;
mod asked;
mod chains;
mod fact;
mod faults;
mod finding;
mod glyphs;
mod json;
mod kerning;
mod kerning_bytes;
mod lines;
mod machines;
mod morx_bytes;
mod names;
mod overrun;
mod pairs;
mod parts;
mod rows;
mod search;
mod sentences;
mod subtables;
mod text;
mod turns;
mod unmade;

pub use all_findings::{findings, has_trouble};
pub use fact::{Fact, Severity};
pub use finding::{Finding, GlyphLine, Place};
pub use json::write_findings_as_json;
pub use text::write_findings;
