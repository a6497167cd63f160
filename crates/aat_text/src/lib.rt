//! From a `&str` and a face to the text that a `Shaper` takes: its glyphs with clusters, its direction, the characters
//! that the font lacks, and the places where a line may end. `aat_showing` does what follows when it is shaped.
//! `text_of` gives each character the glyph that the font has for it; `prepare_text` does before what HarfBuzz does.
//!
//! ```
//! let text = text_of(alloc, &face, ClusterUnit::Characters, "fila")?;
//! ```
#![tactic(auto)]

mod cluster_starts;
mod clusters;
mod direction;
mod error;
mod glyphs;
mod ignorable_characters;
mod kinds;
mod known_glyphs;
/// The laws of texts, as theorems.
#[doc(hidden)]
pub mod laws;
mod lines;
mod lone;
mod missing;
mod plain;
mod prepared;
mod role;
mod unit;
/// Worked examples, as theorems.
#[doc(hidden)]
pub mod worked;

pub use aat_characters::{
    MarkWidths, Script, ScriptRules, native_direction, natural_direction, script_direction,
    text_script,
};
pub use clusters::ClusterLevel;
pub use direction::first_strong_direction;
pub use error::TextError;
pub use glyphs::text_of;
pub use lines::{LineEnd, line_ends};
pub use missing::{MissingCharacter, missing_characters};
pub use prepared::{PreparedText, prepare_text, prepare_text_in};
pub use unit::ClusterUnit;
