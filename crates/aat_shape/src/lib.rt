//! The one call `shape` of `aat_layout`, and the worked rows of Apple Advanced Typography: what each shapes, the printing
//! of what comes out, and their fonts, which are described as data ([`described`]). A program takes `aat_shaper` for texts.
//!
//! ```
//! let status: u8 = run(alloc, &words, &mut out);
//! ```
#![tactic(auto)]

mod build;
pub mod described;
mod fonts;
mod kerned;
mod made;
mod print;
mod program;
mod rows;
mod stop;

pub use aat_layout::shape;
pub use fonts::font_of_part;
pub use print::print_chosen;
pub use program::run;
pub use stop::Stop;
