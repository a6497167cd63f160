//! A line that is tracked.
ghost use Rattle.std.specs.Prelude.{◌≡◌, IfOk, IsSome, OnOk, length};
ghost use Rattle.aat_buffer.specs.Clusters.{IsSmall};
ghost use Rattle.aat_kerning_machines.specs.Positions.{IsPlaced};
ghost use Rattle.aat_shaped_text.specs.ShapedText.{drawn_cluster, drawn_clusters, tracked_line};

use crate::text_line::TextLine;
use aat_glyph::track;
use aat_layout::buffer::{hb_buffer_t, hb_glyph_info_t};
use aat_layout::{advance, hb_aat_layout_zero_width_deleted_glyphs};
use aat_shaped_text::is_kept;
use aat_shaped_text::laws::untracked_lines_stay;
use std::alloc::{AllocError, Allocator};

/// The cluster that a glyph is drawn for.
fn drawn_cluster(glyph: &hb_glyph_info_t) -> Option<u32>
    ensures { result ≡ drawn_cluster glyph.now }
{
    if is_kept(glyph) {
        Some(glyph.cluster)
    } else {
        None
    }
}

/// The clusters that the glyphs of a line are drawn for.
fn drawn_clusters<H: Allocator>(
    alloc: H,
    glyphs: &[hb_glyph_info_t],
) -> Result<Vec<Option<u32>, H>, AllocError>
    ensures { IfOk result (λ clusters. clusters.items ≡ drawn_clusters glyphs.now) }
{
    let mut clusters = Vec::with_capacity(alloc, glyphs.len())?;
    for glyph in glyphs {
        clusters.push(drawn_cluster(glyph))?;
    }
    Ok(clusters)
}

/// Tracks a line with its own positions, in reading order, by a value, as HarfBuzz does. By 0 it stays.
fn track_buffer<H: Allocator + Copy>(
    alloc: H,
    value: i32,
    buffer: &mut hb_buffer_t<H>,
) -> Result<(), AllocError>
    requires ids { IsSmall buffer.old }
    requires standing { IsSome buffer.old.positions }
    ensures ok { OnOk result (buffer.new ≡ tracked_line value buffer.old) }
    ensures ids { OnOk result (IsSmall buffer.new) }
    ensures count { OnOk result (length buffer.new.line ≡ length buffer.old.line) }
    ensures placed { OnOk result (IsPlaced buffer.new) }
{
    if value == 0 {
        untracked_lines_stay();
        let _placed = buffer.has_positions();
        return Ok(());
    }
    let direction = buffer.direction();
    let cursor = buffer.backtrack_len();
    buffer.sync();
    let (glyphs, positions) = buffer.positions_from_cursor_mut();
    let clusters = drawn_clusters(alloc, glyphs)?;
    track(direction, value, &clusters, positions);
    buffer.move_to(cursor);
    let _placed = buffer.has_positions();
    Ok(())
}

/// Tracks the line of a text in reading order by a value, as HarfBuzz does. By 0 it stays.
#[tactic(auto, using(crate::proofs::TextLines::advances_are))]
pub(crate) fn track_line<H: Allocator + Copy>(
    alloc: H,
    value: i32,
    buffer: &mut TextLine<'_, H>,
) -> Result<(), AllocError>
    requires ids { IsSmall buffer.old }
    requires standing { IsSome buffer.old.positions }
    ensures ok { OnOk result (buffer.new ≡ tracked_line value buffer.old) }
    ensures ids { OnOk result (IsSmall buffer.new) }
    ensures count { OnOk result (length buffer.new.line ≡ length buffer.old.line) }
    ensures placed { OnOk result (IsPlaced buffer.new) }
{
    if value == 0 {
        untracked_lines_stay();
        let _placed = buffer.has_positions();
        return Ok(());
    }
    let Some(face) = buffer.placed_by else {
        return track_buffer(alloc, value, &mut buffer.buffer);
    };
    buffer.placed_by = None;
    if advance(face, &mut buffer.buffer).is_err() {
        return Err(AllocError);
    }
    hb_aat_layout_zero_width_deleted_glyphs(&mut buffer.buffer);
    track_buffer(alloc, value, &mut buffer.buffer)
}
