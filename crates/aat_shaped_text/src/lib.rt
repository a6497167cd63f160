//! What a text is that is shaped, what is handed out of it, and where it may be broken: the types, the definitions that
//! the shaper's contracts cite, and what it asks. A program takes `aat_shaper`.
//!
//! ```
//! let glyph = TextGlyph::new(glyph_id, cluster);
//! ```
#![tactic(auto)]

mod breaks;
mod features;
mod font;
mod kerned_places;
mod kerned_subtables;
/// The laws of tracked lines and of the breaks of a text, as theorems.
#[doc(hidden)]
pub mod laws;
mod open_line;
mod pair_places;
mod text;
/// Worked examples of a text that is shaped, as theorems.
#[doc(hidden)]
pub mod worked;

pub use breaks::{BreakRules, front_of, may_break_at, operations_left, takes_few_operations};
pub use features::{asks_kern, is_kerned_at, requests_kerning};
pub use font::{is_unkerned, kerns_apart, kerns_by_pairs, skips_of, substitutes_apart};
pub use open_line::{close_chained, is_kept, place_openly, turn};
pub use text::{CharacterKind, ShapedGlyph, SpaceWidth, TextGlyph};
