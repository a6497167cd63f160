//! A font: its tables together, the numbers of its features, which subtables a glyph can wake, and the shaping plan.
//!
//! By which way a value is found, and in how many steps, is told in comments and not proved.
//!
//! ```
//! let font = hb_font_t::from_tables(FaceTables::default().with_morx(Morx::new(chains)?));
//! ```
#![tactic(auto)]

pub mod constants;
mod face;
mod idle;
mod morx;
mod plan;
mod tag;
mod wakers;

pub use face::{FaceTables, hb_font_t};
pub use idle::{
    contextual_entry_rests, insertion_entry_rests, ligature_entry_rests, rearrangement_entry_rests,
};
pub use morx::Morx;
pub use plan::{Feature, hb_ot_shape_plan_t};
pub use tag::hb_tag_t;
pub use wakers::{GlyphWords, SubtableWords, word_at};
