//! Making the plans and lines that rows of kerning and of shaping describe.
ghost use Rattle.std.specs.Prelude.{IfOk, IsSome};
ghost use Rattle.aat_layout.specs.Clusters.{IsSmall};

use crate::rows::{MAX_LEN, Placed};
use crate::stop::Stop;
use aat_layout::buffer::{hb_buffer_t, hb_glyph_info_t, hb_mask_t};
use aat_layout::font::hb_ot_shape_plan_t;
use std::alloc::Global;

/// The bit of a mask by which a glyph asks for kerning.
const KERN_MASK: hb_mask_t = 8;

/// A plan that requests kerning of the glyphs that ask for it, or does not.
pub(crate) fn kerning_plan_of(alloc: Global, requested_kerning: bool) -> hb_ot_shape_plan_t {
    hb_ot_shape_plan_t {
        requested_kerning,
        kern_mask: KERN_MASK,
        ..hb_ot_shape_plan_t::new(Vec::new(alloc))
    }
}

/// A plan that requests kerning of the glyphs that ask for it, and applies substitution or does not.
pub(crate) fn shaping_plan_of(alloc: Global, apply_morx: bool) -> hb_ot_shape_plan_t {
    hb_ot_shape_plan_t {
        apply_morx,
        ..kerning_plan_of(alloc, true)
    }
}

/// A buffer with a budget and a line of glyphs with their advances, each of which asks for kerning.
pub(crate) fn placed_buffer_of(
    alloc: Global,
    line: &[Placed],
    max_ops: i32,
) -> Result<hb_buffer_t, Stop>
    ensures ids { IfOk result IsSmall }
    ensures placed { IfOk result (λ buffer. IsSome buffer.positions) }
{
    let mut buffer = asking_buffer_of(alloc, line, max_ops)?;
    buffer.clear_positions()?;
    for i in 0..buffer.len() {
        buffer.pos_mut(i).x_advance = advance_at(line, i);
    }
    Ok(buffer)
}

/// A buffer with a budget and a line of glyphs, each of which asks for kerning.
pub(crate) fn asking_buffer_of(
    alloc: Global,
    line: &[Placed],
    max_ops: i32,
) -> Result<hb_buffer_t, Stop>
    ensures { IfOk result IsSmall }
{
    let mut buffer = hb_buffer_t::new(alloc, MAX_LEN as usize, max_ops);
    for placed in line {
        buffer.add(hb_glyph_info_t {
            mask: KERN_MASK,
            glyph_props: placed.glyph_props,
            ..hb_glyph_info_t::new(placed.glyph as u32, placed.cluster)
        })?;
    }
    Ok(buffer)
}

/// The advance of the glyph at a place of a line, 0 behind the line.
fn advance_at(line: &[Placed], i: usize) -> i32 {
    match line.get(i) {
        Some(placed) => placed.x_advance,
        None => 0,
    }
}
