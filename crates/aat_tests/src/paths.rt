//! The public paths of the layer that nothing else takes: this file compiles only while each of them stands.

pub use aat_layout::buffer::{
    BufferFlags, HB_BUFFER_CLUSTER_LEVEL_CHARACTERS, HB_BUFFER_CLUSTER_LEVEL_MONOTONE_CHARACTERS,
    HB_BUFFER_CLUSTER_LEVEL_MONOTONE_GRAPHEMES, ScratchFlags,
};
pub use aat_layout::font::entry_bits::class::{
    DELETED_GLYPH as CLASS_DELETED_GLYPH, END_OF_LINE, END_OF_TEXT, OUT_OF_BOUNDS,
};
pub use aat_layout::font::entry_bits::insertion::{
    CURRENT_INSERT_BEFORE, MARKED_INSERT_BEFORE, MARKED_INSERT_COUNT,
    SET_MARK as INSERTION_SET_MARK,
};
pub use aat_layout::font::entry_bits::rearrangement::VERB;
pub use aat_layout::font::entry_bits::stack::{PUSH, RESET};
pub use aat_layout::font::entry_bits::state::{START_OF_LINE, START_OF_TEXT};
pub use aat_layout::font::keys::Keyed;
pub use aat_layout::font::{JudgedEntry, constants as font_constants};
pub use aat_layout::{
    ContextualCtx, Driver1, Driver4, InsertionCtx, KerningRun, LigatureCtx, RearrangementCtx,
    StateMachineDriver, StateTableDriver, apply_with, constants, drive_kerning, driver_context_t,
    ends_at_last, feature_info_t, feature_order, feature_range_t, has_kern_pairs_alone,
    has_kerx_pairs_alone, range_of,
};
