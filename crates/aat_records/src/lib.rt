//! What the library for C, `aat_c`, is made of. What crosses to C, and what it stands for: records, options and failures,
//! texts of other encodings, names, and what is put into room of C's. And a font that is held with the memory in which its
//! texts are typeset, what is asked of it, and texts that are shaped by it. `aat_c` has the handles and the calls.
#![tactic(auto)]

mod asks;
mod broken;
mod decoded;
mod failure;
mod held;
mod lines;
mod names;
mod options;
mod places;
mod records;
mod room;
mod shape;
mod texts;
pub mod worked;

pub use asks::{
    fault_in, fault_of_file, glyph_in, has_feature_in, put_feature_name, put_name_of,
    put_setting_name,
};
pub use broken::break_utf8;
pub use decoded::{Decoded, features_over, text_of_characters};
pub use failure::{DONE, Failure, failure_of_typeset};
pub use held::{Held, let_go, read_held};
pub use lines::{LineCounts, put_lines};
pub use names::put_name;
pub use options::{features_told, options_told};
pub use places::Places;
pub use records::{
    FaultRecord, FeatureRecord, GlyphRecord, LineRecord, OptionsRecord, TextGlyphRecord,
};
pub use room::{put, put_bytes};
pub use shape::{shape_glyphs, shape_utf8, shape_utf16, shape_utf32};
pub use texts::{fault_text, status_text};
