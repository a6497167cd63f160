//! The library for C, and for what calls C: fonts behind handles, and texts that are shaped by them.
//!
//! `include/aat.h` declares what is exported here. A handle is a place in the caller's memory that holds a
//! box with a font, or nothing. A call takes the box out, works on the font, and puts it back, so that a font is never
//! in two places. What crosses is of `aat_records`, and so is a
//! font that is held in a box.
#![tactic(auto)]

mod font_calls;
mod handle;
mod shape_calls;
mod slot;
mod word_calls;

pub use handle::Handle;
pub use slot::Slot;
