//! Kerning by pairs and by machines over both kerning tables, deleted glyphs, and the definitions of kerning with their
//! laws and worked rows.
//!
//! ```
//! let turns = hb_aat_layout_position(&plan, &font, &mut buffer)?;
//! ```
#![tactic(auto)]

mod deleted;
mod kern;
mod kerning_subtable;
mod kerx;
#[doc(hidden)]
pub mod laws;
mod pair_kerning;
mod pair_values;
mod positioning;
mod solid;
#[doc(hidden)]
pub mod worked;

pub use aat_buffer::DELETED_GLYPH;
pub use deleted::{hb_aat_layout_remove_deleted_glyphs, hb_aat_layout_zero_width_deleted_glyphs};
pub use kern::{has_kern_pairs_alone, hb_ot_layout_kern};
pub use kerx::{has_kerx_pairs_alone, hb_aat_layout_position};
pub use pair_kerning::PairRun;
pub use pair_values::{PairValues, value_of};
pub use positioning::{attach_once, kern_line, mark_line, turn_round};
pub use solid::{KERN_SKIPS, KERX_SKIPS, is_solid};
