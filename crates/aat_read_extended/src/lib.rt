//! The extended tables read from bytes: the chains of `morx`, and `kerx` with its anchor points, `ankr`.
//!
//! ```
//! let morx = read_morx(alloc, &morx_bytes, glyph_count)?;
//! let KerxRead { kerx, left_out } = read_kerx(alloc, &kerx_bytes, glyph_count)?;
//! ```
#![tactic(auto)]

pub mod kerx;
pub mod morx;

pub use kerx::{ANKR, KerxRead, LeftOutSubtable, read_ankr, read_kerx};
pub use morx::read_morx;
