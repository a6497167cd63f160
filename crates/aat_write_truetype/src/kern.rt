//! A writer of the kerning table, `kern`, which the reader reads again.
//!
//! ```
//! let bytes = write_kern(alloc, &kern)?;
//! ```
mod classes;
mod dense;
mod error;
#[doc(hidden)]
pub mod laws;
mod machine;
mod pairs;
mod rules;
mod table;
#[doc(hidden)]
pub mod worked;

pub use error::KernWriteError;
pub use table::write_kern;
