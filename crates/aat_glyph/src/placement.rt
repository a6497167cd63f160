//! What stands after the layer's positions, before a line is drawn: offsets added up along attachments (which glyph
//! each hangs on), and tracks of `trak` (how much wider or tighter a text is set at a point size, and the line that is
//! set so): Apple's TrueType Reference Manual, "The 'trak' table".
//!
//! ```
//! add_up_attachments(alloc, direction, &mut positions)?;
//! ```
mod error;
mod interpolation;
mod offsets;
mod parents;
mod pens;
mod track_data;
mod tracked_line;
mod tracking;

/// The laws of attachments and of tracking, as theorems.
#[doc(hidden)]
pub mod laws;

/// Worked examples, as theorems.
#[doc(hidden)]
pub mod worked;

pub use error::TrackingError;
pub use offsets::add_up_attachments;
pub use parents::{attach_type, parent_of};
pub use track_data::{Track, TrackData};
pub use tracked_line::track;
pub use tracking::Tracking;
