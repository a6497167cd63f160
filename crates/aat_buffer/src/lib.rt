//! The shaping buffer: a line of glyphs with a cursor, their positions, and the rules by which a text shaper
//! edits them. In how many steps a call is done is told in comments and not proved.
//!
//! ```
//! buffer.merge_clusters(0, 2);
//! ```
#![tactic(auto)]

mod buffer;
mod gap_line;
mod marked_span;
mod marks;
mod pending_runs;
mod removal;
#[doc(hidden)]
pub mod worked;

pub use aat_glyph::{
    BufferError, BufferFlags, DELETED_GLYPH, Direction, GlyphPosition,
    HB_BUFFER_CLUSTER_LEVEL_CHARACTERS, HB_BUFFER_CLUSTER_LEVEL_MONOTONE_CHARACTERS,
    HB_BUFFER_CLUSTER_LEVEL_MONOTONE_GRAPHEMES, ScratchFlags, UnicodeProps, glyph_flag,
    hb_glyph_info_t, hb_mask_t,
};
pub use buffer::hb_buffer_t;
