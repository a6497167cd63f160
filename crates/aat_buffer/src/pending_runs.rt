//! Runs of kept glyphs whose cluster a removal lowers, each to be written once.
ghost use Rattle.std.specs.Prelude.{◌≡◌};
ghost use Rattle.aat_buffer.specs.Removal.{with_cluster_and_flags};

use aat_glyph::{glyph_flag, hb_glyph_info_t};

/// Runs of kept glyphs that are to get the cluster and the DEFINED flags of the last glyph of each: how many
/// there are, and where the last of them ends.
///
/// A run has three glyphs or more. Their clusters but the last are to be written anyway, so they hold places
/// until then: the glyph before the last one where the run begins, and the first one where the run before it ends.
#[derive(Clone, Copy)]
pub(crate) struct PendingRuns {
    pub(crate) count: usize,
    pub(crate) last: u32,
}

/// A glyph with the cluster and the DEFINED flags of another one.
pub(crate) fn with_cluster_and_flags(
    glyph: hb_glyph_info_t,
    like: hb_glyph_info_t,
) -> hb_glyph_info_t
    ensures { result ≡ with_cluster_and_flags like glyph }
{
    hb_glyph_info_t {
        cluster: like.cluster,
        mask: (glyph.mask & !glyph_flag::DEFINED) | (like.mask & glyph_flag::DEFINED),
        ..glyph
    }
}
