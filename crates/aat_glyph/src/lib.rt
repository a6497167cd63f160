//! What a line of glyphs is made of: glyph records, positions, directions, named bits, and why a call of the
//! shaping buffer is refused; and what stands after the layer's positions ([`placement`]).
//!
//! ```
//! let glyph = hb_glyph_info_t::new(glyph_id, cluster);
//! ```
#![tactic(auto)]

mod error;
mod flags;
mod glyph;
pub mod placement;

pub use error::BufferError;
pub use flags::{BufferFlags, ScratchFlags, UnicodeProps};
pub use glyph::{
    DELETED_GLYPH, Direction, GlyphPosition, HB_BUFFER_CLUSTER_LEVEL_CHARACTERS,
    HB_BUFFER_CLUSTER_LEVEL_MONOTONE_CHARACTERS, HB_BUFFER_CLUSTER_LEVEL_MONOTONE_GRAPHEMES,
    glyph_flag, hb_glyph_info_t, hb_mask_t,
};
pub use placement::{
    Track, TrackData, Tracking, TrackingError, add_up_attachments, attach_type, parent_of, track,
};
