//! Writers of the tables that TrueType had from its beginning: `kern`, and the outlines of `glyf` and `loca`, whose simple
//! glyphs the reader reads again, as it does `kern`.
//!
//! ```
//! let bytes = write_kern(alloc, &kern)?;
//! let tables = write_outlines(alloc, &outlines)?;
//! ```
#![tactic(auto)]

pub mod kern;
pub mod outlines;

pub use kern::{KernWriteError, write_kern};
pub use outlines::{OutlineBytes, OutlineWriteError, write_outlines};
