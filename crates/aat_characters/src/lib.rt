//! The characters of a text as HarfBuzz hands them to the layer: the direction in which a script is written, clusters,
//! mirrored and vertical characters, letters and marks composed and decomposed by what a font has, and the classes of
//! marks.
#![tactic(auto)]

mod clusters;
mod composed;
mod decomposed;
mod exchanges;
mod kept;
mod mark;
mod mirrored_rows;
mod native;
mod ordered;
mod placed_character;
mod script;
mod script_rules;
mod vertical_rows;
/// Worked examples, as theorems.
#[doc(hidden)]
pub mod worked;

pub use clusters::{extends, merged_clusters, turned_clusters};
pub use composed::normalized;
pub use decomposed::{has_glyph, is_written_as_itself};
pub use exchanges::{mirrored, vertical_form};
pub use mark::box_class;
pub use native::{is_regional_indicator, native_direction, natural_direction, told_script};
pub use placed_character::PlacedCharacter;
pub use script::{Script, script_direction, text_script};
pub use script_rules::{MarkWidths, ScriptRules};
