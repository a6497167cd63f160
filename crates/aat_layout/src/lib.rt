//! Apple Advanced Typography: extended glyph substitution and kerning over a shaping buffer, the calls one by one, and
//! `shape`, which makes them with advances and removal of deleted glyphs. It reads features from text, and hands on what
//! a caller needs of the crates below. A program takes `aat_shaper` for texts; it and `aat_shape` stand on this crate.
//!
//! ```
//! let turns = hb_aat_layout_substitute(alloc, &plan, &font, &mut buffer)?;
//! let turns = shape(alloc, &plan, &font, &mut buffer)?;
//! let feature = parse_feature("aalt[3:5]=2")?;
//! ```
#![tactic(auto)]

mod aat_layout;
mod features;
mod shaping;
mod shaping_rows;

/// The shaping buffer, a crate of its own.
pub use aat_buffer as buffer;
/// The typed tables of a font, from crates of their own.
pub mod font {
    pub use aat_font::{
        FaceTables, Feature, GlyphWords, Morx, SubtableWords, constants, contextual_entry_rests,
        hb_font_t, hb_ot_shape_plan_t, hb_tag_t, insertion_entry_rests, ligature_entry_rests,
        rearrangement_entry_rests, word_at,
    };
    pub use aat_kerning_tables::{
        Ankr, ClassPairs, Kern, KernKind, KernMachine, KernSubtable, Kerx, KerxFormat,
        KerxSubtable, Pairs, Point, Subtable1, Subtable4,
    };
    pub use aat_lookup::{
        Feat, FeatureName, GlyphId, GlyphMoves, Lookup, LookupSegment, TableError, keys,
    };
    pub use aat_machine_tables::{
        Acting, Chain, ChainFeature, ContextualEntryData, ContextualSubtable, Coverage, EntryData,
        ExtendedStateTable, GenericStateEntry, InsertionEntryData, InsertionSubtable, JudgedEntry,
        KernEntryData, LigatureSubtable, Subtable, SubtableKind, entry_bits,
    };
}
/// The numbers of the feature types and their selectors.
pub use aat_font::constants;
pub use aat_kerning::{
    DELETED_GLYPH, KERN_SKIPS, KERX_SKIPS, has_kern_pairs_alone, has_kerx_pairs_alone,
    hb_aat_layout_position, hb_aat_layout_remove_deleted_glyphs,
    hb_aat_layout_zero_width_deleted_glyphs, hb_ot_layout_kern, is_solid,
};
pub use aat_kerning_machines::{
    Driver1, Driver4, KerningRun, StateMachineDriver, StateTableDriver, drive_kerning,
};
pub use aat_kinds::{
    ContextualCtx, InsertionCtx, LIGATURE_SLOTS, LigatureCtx, MAX_CONTEXT_LENGTH, RearrangementCtx,
};
#[doc(hidden)]
pub use aat_layout::compiled_map;
pub use aat_layout::{Turns, hb_aat_layout_substitute, hb_aat_layout_substitute_with};
pub use aat_map::{
    compile_flags, feature_info_t, feature_mappings, feature_order, feature_range_t,
    hb_aat_feature_mapping_t, hb_aat_map_builder_t, hb_aat_map_t,
};
pub use aat_morx::{apply, apply_with};
pub use aat_run::{
    AatError, drive, driver_context_t, ends_at_last, hb_aat_apply_context_t, range_flags_t,
    range_of,
};
pub use features::{FeatureError, feature, parse_feature, parse_tag, tag_text};
pub use shaping::{advance, place_with_deleted, shape, shape_with_deleted};

/// The laws of the definitions as theorems.
#[doc(hidden)]
pub mod laws {
    pub use crate::features::laws::tags_are_read_again;
    pub use aat_kerning::laws::{
        alike_parts_are_kerned_apart, drivers_are_lawful, kerning_changes_little,
        kerning_is_bounded, pairs_change_the_advances, parts_are_kerned_apart, staying_is_paid,
    };
    pub use aat_kerning_machines::laws::kerning_runs_end;
    pub use aat_kinds::laws::{
        acts_keep_order, acts_keep_small, contexts_are_lawful, glyphs_are_kept,
        later_components_are_deleted,
    };
    pub use aat_morx::laws::{
        bounds_are_met, clusters_keep_their_order, requests_are_isolated, runs_are_bounded,
    };
    pub use aat_run::laws::{contexts_meet_laws, floor_is_unseen, runs_end, runs_keep_order};
}

/// The worked rows as theorems.
#[doc(hidden)]
pub mod worked {
    pub use crate::features::worked::feature_examples;
    pub use crate::shaping_rows::shaping_rows;
    pub use aat_kerning::worked::{kerning_examples, kerning_rows};
    pub use aat_map::worked::{alternate_rows, mappings_rise, range_rows, small_capital_rows};
    pub use aat_morx::worked::{
        contextual_rows, insertion_rows, ligature_rows, rearrangement_rows, substitution_examples,
    };
    pub use aat_run::worked::places_of_ranges;
}
