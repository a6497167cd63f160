//! Making the lines and requests that rows describe.
ghost use Rattle.std.specs.Prelude.{IfOk};
ghost use Rattle.aat_layout.specs.Clusters.{IsSmall};

use crate::rows::{Request, Run};
use crate::stop::Stop;
use aat_layout::buffer::{hb_buffer_t, hb_glyph_info_t};
use aat_layout::font::{Feature, hb_font_t, hb_ot_shape_plan_t, hb_tag_t};
use aat_layout::hb_aat_map_builder_t;
use std::alloc::Global;

/// What a request asks.
pub(crate) fn feature_of(request: &Request) -> Feature {
    Feature::new(
        hb_tag_t::from_bytes(request.tag),
        request.value,
        request.start..request.end,
    )
}

/// A builder to which requests are added in their order.
pub(crate) fn builder_of(
    alloc: Global,
    face: &hb_font_t,
    requests: &[Request],
) -> Result<hb_aat_map_builder_t, Stop> {
    let mut builder = hb_aat_map_builder_t::default(alloc);
    for request in requests {
        builder.add_feature(face, &feature_of(request))?;
    }
    Ok(builder)
}

/// A plan that applies the flags of the substitution table, under requests.
pub(crate) fn plan_of(alloc: Global, requests: &[Request]) -> Result<hb_ot_shape_plan_t, Stop> {
    let mut user_features = Vec::new(alloc);
    for request in requests {
        user_features.push(feature_of(request))?;
    }
    Ok(hb_ot_shape_plan_t::new(user_features))
}

/// A buffer with a line, a greatest length, in glyphs, and a budget.
pub(crate) fn buffer_of(
    alloc: Global,
    line: &[Run],
    max_len: u16,
    max_ops: i32,
) -> Result<hb_buffer_t, Stop>
    ensures { IfOk result IsSmall }
{
    let mut buffer = hb_buffer_t::new(alloc, max_len as usize, max_ops);
    for run in line {
        add_run(&mut buffer, run)?;
    }
    Ok(buffer)
}

/// Adds a run of one glyph.
fn add_run(buffer: &mut hb_buffer_t, run: &Run) -> Result<(), Stop>
    requires { IsSmall buffer.old }
    ensures { IsSmall buffer.new }
{
    for cluster in run.first..=run.last {
        buffer.add(hb_glyph_info_t::new(run.glyph as u32, cluster))?;
    }
    Ok(())
}

/// Gives each glyph a position with this horizontal advance, and else zeros.
pub(crate) fn set_advances(buffer: &mut hb_buffer_t, x_advance: i32) -> Result<(), Stop> {
    buffer.clear_positions()?;
    for i in 0..buffer.len() {
        buffer.pos_mut(i).x_advance = x_advance;
    }
    Ok(())
}
