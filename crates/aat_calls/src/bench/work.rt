//! What is measured, and the calls of the layer that are measured by themselves.
ghost use Rattle.std.specs.Prelude.{IsSome};
ghost use Rattle.aat_layout.specs.Clusters.{IsSmall};

use crate::bench::BenchText;
use crate::bench::lines::TextLine;
use crate::line::buffer_of;
use aat_face::Face;
use aat_layout::buffer::{hb_buffer_t, hb_mask_t};
use aat_layout::font::{hb_font_t, hb_ot_shape_plan_t};
use aat_layout::{
    AatError, Turns, hb_aat_layout_position, hb_aat_layout_substitute, hb_aat_map_builder_t,
    hb_aat_map_t, hb_ot_layout_kern,
};
use anyhow::{Result, bail};
use std::alloc::Global;

/// The bit of a mask by which a glyph asks for kerning, as `Shaper::shape` has it.
pub(crate) const KERNED: hb_mask_t = 8;

/// A font that is measured.
#[derive(Clone, Copy)]
pub struct BenchFont<'f, 'b> {
    /// The bytes of its file.
    pub bytes: &'b [u8],
    /// Which font of the file.
    pub index: u32,
    /// What was read of it.
    pub face: &'f Face<'b>,
}

/// What is measured: lines of a text in a font.
#[derive(Drop)]
pub(crate) struct Work<'f, 'b, 't> {
    /// The font.
    pub(crate) font: BenchFont<'f, 'b>,
    /// The text.
    pub(crate) text: BenchText<'t>,
    /// The features, with kerning of all glyphs.
    pub(crate) plan: hb_ot_shape_plan_t,
    /// The lines.
    pub(crate) lines: Vec<TextLine<'t>>,
}

impl Work<'_, '_, '_> {
    /// How many characters the lines have.
    pub(crate) fn characters(&self) -> usize {
        let mut count = 0usize;
        for line in &self.lines {
            count = count.saturating_add(line.characters.chars().count());
        }
        count
    }
}

/// A line that can be substituted.
#[derive(Drop)]
pub(crate) struct ReadyLine {
    buffer: hb_buffer_t,
    ghost is_small: { IsSmall buffer },
}

/// A line that can be kerned.
#[derive(Drop)]
pub(crate) struct PlacedLine {
    buffer: hb_buffer_t,
    ghost is_small: { IsSmall buffer },
    ghost is_placed: { IsSome buffer.positions },
}

/// What a call left of a line.
#[derive(Drop)]
pub(crate) struct LeftLine {
    /// The line.
    pub(crate) buffer: hb_buffer_t,
    /// The turns of the machines.
    pub(crate) turns: Turns,
}

/// Compiles the features of a plan, as each call that substitutes does.
pub(crate) fn compile(
    alloc: Global,
    plan: &hb_ot_shape_plan_t,
    font: &hb_font_t,
) -> Result<hb_aat_map_t, AatError> {
    let mut builder = hb_aat_map_builder_t::with_features(alloc, font, &plan.user_features)?;
    let mut map = hb_aat_map_t::default(alloc);
    builder.compile(font, &mut map)?;
    Ok(map)
}

/// A line before it is substituted.
pub(crate) fn ready(alloc: Global, font: &hb_font_t, line: &TextLine<'_>) -> Result<ReadyLine> {
    let buffer = buffer_of(alloc, font, line.direction, &line.glyphs, KERNED)?;
    Ok(ReadyLine { buffer })
}

/// Substitutes a line.
pub(crate) fn substitute(
    alloc: Global,
    plan: &hb_ot_shape_plan_t,
    font: &hb_font_t,
    line: ReadyLine,
) -> Result<LeftLine, AatError> {
    let ReadyLine { mut buffer } = line;
    let turns = hb_aat_layout_substitute(alloc, plan, font, &mut buffer)?;
    Ok(LeftLine { buffer, turns })
}

/// A substituted line before it is kerned: each position is all zero.
pub(crate) fn placed(line: LeftLine) -> Result<PlacedLine> {
    let LeftLine {
        mut buffer,
        turns: _,
    } = line;
    if !buffer.all_glyphs_16() {
        bail!("a glyph has more than 16 bits");
    }
    buffer.clear_positions()?;
    Ok(PlacedLine { buffer })
}

/// Kerns a line by the extended kerning table where the font has it, and else by the kerning table.
pub(crate) fn kern(
    plan: &hb_ot_shape_plan_t,
    font: &hb_font_t,
    line: PlacedLine,
) -> Result<LeftLine, AatError> {
    let PlacedLine { mut buffer } = line;
    let turns = if font.tables().kerx.is_some() {
        hb_aat_layout_position(plan, font, &mut buffer)?
    } else {
        hb_ot_layout_kern(plan, font, &mut buffer)?
    };
    Ok(LeftLine { buffer, turns })
}
