//! The commands of the program `aat` but for `check` and `batch`: a text is shaped and shown, and a font is inspected.
//!
//! ```
//! shape(&rt, &mut out, &mut session, matches)?;
//! ```
#![tactic(auto)]

pub mod bench;
pub mod dump;
pub mod example;
pub mod faults;
mod glyph_list;
pub mod inspect;
mod line;
mod looks;
pub mod make;
mod missing;
mod output;
mod pictures;
mod request;
pub mod rows;
pub mod settled;
pub mod shape;
mod verify;
