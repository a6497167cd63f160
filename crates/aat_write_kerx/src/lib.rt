//! Writers of the extended kerning table, `kerx`, and of the table of anchor points, `ankr`, which the readers read
//! again.
//!
//! ```
//! let bytes = write_kerx(alloc, &kerx)?;
//! ```
#![tactic(auto)]

mod ankr;
mod ankr_error;
mod classes;
mod kerx;
mod kerx_error;
#[doc(hidden)]
pub mod laws;
mod machines;
mod pairs;
mod subtable;
mod subtable_error;
mod values;
#[doc(hidden)]
pub mod worked;

pub use ankr::write_ankr;
pub use ankr_error::AnkrWriteError;
pub use kerx::write_kerx;
pub use kerx_error::KerxWriteError;
pub use subtable_error::SubtableWriteError;
