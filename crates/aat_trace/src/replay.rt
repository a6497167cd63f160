//! Acts on a line once more.
ghost use Rattle.std.specs.Prelude.{◌≡◌, IfOk, Some, true};
ghost use Rattle.aat_buffer.specs.Clusters.{ids};
ghost use Rattle.aat_trace.specs.Replay.{in_run_order, replayed};

use crate::split_line::SplitLine;
use crate::traced::TracedAct;
use aat_buffer::hb_glyph_info_t;
use std::alloc::{AllocError, Global};

/// The ids of glyphs, in the opposite order where that is asked for.
pub(crate) fn ids_of(
    alloc: Global,
    glyphs: &[hb_glyph_info_t],
    is_reversed: bool,
) -> Result<Vec<u32>, AllocError>
    ensures { IfOk result (λ v. v.items ≡ in_run_order is_reversed (ids glyphs.now)) }
{
    let mut ids: Vec<u32> = glyphs.iter().map(|glyph| glyph.glyph_id).collect(alloc)?;
    if is_reversed {
        ids.reverse();
    }
    Ok(ids)
}

/// Whether acts, one behind another, lead from the ids of a line to those of another one.
pub(crate) fn leads(
    alloc: Global,
    acts: &[TracedAct],
    first: Vec<u32>,
    last: &[u32],
) -> Result<bool, AllocError>
    ensures { IfOk result (λ answer. answer ≡ true → replayed acts.now first.items ≡ Some last.now) }
{
    let mut line = SplitLine::new(alloc, first);
    for act in acts {
        if !line.act(act)? {
            return Ok(false);
        }
    }
    Ok(line.into_ids()?.as_slice() == last)
}
