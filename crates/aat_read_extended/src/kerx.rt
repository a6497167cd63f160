//! The extended kerning table and its anchor points, read from bytes.
//!
//! ```
//! let KerxRead { kerx, left_out } = read_kerx(alloc, &bytes, glyph_count)?;
//! ```
mod ankr;
mod formats;
#[doc(hidden)]
pub mod laws;
mod machines;
mod subtables;
mod table;
pub mod weights;
#[doc(hidden)]
pub mod worked;

pub use aat_bytes::tags::ANKR;
pub use aat_read_pairs::LeftOutSubtable;
pub use ankr::read_ankr;
pub use table::{KerxRead, read_kerx};
