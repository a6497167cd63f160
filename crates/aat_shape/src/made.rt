//! What the parts of rows show, made as plain values.
ghost use Rattle.aat_layout.specs.Clusters.{IsSmall};

use crate::build::{buffer_of, builder_of, feature_of, plan_of, set_advances};
use crate::described::{drop_font, font_of};
use crate::fonts::font_in;
use crate::kerned::{asking_buffer_of, kerning_plan_of, placed_buffer_of, shaping_plan_of};
use crate::rows::{
    Addition, After, Compilation, Kerning, MAX_LEN, MAX_OPS, Run, Shaping, Shown, Sizes,
    Substitution, Zeroing,
};
use crate::stop::Stop;
use aat_layout::buffer::{glyph_flag, hb_buffer_t};
use aat_layout::font::{hb_font_t, hb_ot_shape_plan_t};
use aat_layout::{
    AatError, LIGATURE_SLOTS, MAX_CONTEXT_LENGTH, Turns, hb_aat_layout_position,
    hb_aat_layout_remove_deleted_glyphs, hb_aat_layout_substitute, hb_aat_layout_substitute_with,
    hb_aat_layout_zero_width_deleted_glyphs, hb_aat_map_builder_t, hb_aat_map_t, hb_ot_layout_kern,
    shape,
};
use std::alloc::{AllocError, Global};

/// A glyph as it is printed: its id, its cluster and its flags.
pub(crate) type Glyph = (u32, u32, u32);

/// Where a glyph stands: its advances in x and in y, and its offsets in x and in y.
pub(crate) type Place = (i32, i32, i32, i32);

/// A range as it is printed: its first and its last cluster and its flags.
pub(crate) type Range = (u32, u32, u32);

/// A line as it is printed.
#[derive(Drop)]
pub(crate) struct Line {
    pub(crate) glyphs: Vec<Glyph>,
    /// Where the glyphs stand: none where the line has no positions.
    pub(crate) places: Vec<Place>,
    pub(crate) turns: Turns,
    pub(crate) budget: i32,
}

/// What a part shows.
#[derive(Drop)]
pub(crate) enum Made {
    /// A line.
    Left(Line),
    /// The answers of two calls over one line.
    Answers(Result<Turns, AatError>, Result<Turns, AatError>),
    /// The ranges of each chain.
    Ranges(Vec<Range>),
    /// The answer to a request, and then the number of the builder's requests.
    Added(Result<Option<()>, AatError>, usize),
}

/// What a part shows.
pub(crate) fn make(alloc: Global, shown: &Shown) -> Result<Made, Stop> {
    match font_in(shown) {
        Some(font) => {
            let font = font_of(alloc, font)?;
            let made = make_with(alloc, shown, &font);
            drop_font(font);
            made
        }
        None => make_without(alloc, shown),
    }
}

/// What a part with this font shows.
fn make_with(alloc: Global, shown: &Shown, font: &hb_font_t) -> Result<Made, Stop> {
    match shown {
        Shown::Substitution(shown) => Ok(Made::Left(substituted(alloc, shown, font)?)),
        Shown::Refusals(shown) => refused(alloc, shown, font),
        Shown::Compilation(shown) => Ok(Made::Ranges(compiled(alloc, shown, font)?)),
        Shown::Addition(shown) => Ok(added(alloc, shown, font)),
        Shown::Kerning(shown) => Ok(Made::Left(kerned(alloc, shown, font)?)),
        Shown::Shaping(shown) => Ok(Made::Left(shaped(alloc, shown, font)?)),
        Shown::Zeroing(_) | Shown::Removal(_) => make_without(alloc, shown),
    }
}

/// What a part without a font shows: nothing is left of a line that needs one.
fn make_without(alloc: Global, shown: &Shown) -> Result<Made, Stop> {
    match shown {
        Shown::Zeroing(shown) => Ok(Made::Left(zeroed(alloc, shown)?)),
        Shown::Removal(line) => Ok(Made::Left(removed(alloc, line)?)),
        _ => Ok(Made::Ranges(Vec::new(alloc))),
    }
}

/// The glyphs of a buffer.
fn glyphs_of(alloc: Global, buffer: &hb_buffer_t) -> Result<Vec<Glyph>, AllocError> {
    let mut glyphs = Vec::new(alloc);
    for i in 0..buffer.len() {
        let glyph = buffer.info(i);
        let flags = glyph.mask & glyph_flag::DEFINED;
        glyphs.push((glyph.glyph_id, glyph.cluster, flags))?;
    }
    Ok(glyphs)
}

/// Where the glyphs of a buffer stand: none where it has no positions.
fn places_of(alloc: Global, buffer: &hb_buffer_t) -> Result<Vec<Place>, AllocError> {
    let mut places = Vec::new(alloc);
    if buffer.has_positions() {
        for i in 0..buffer.len() {
            let position = buffer.pos(i);
            let (x_advance, y_advance) = (position.x_advance, position.y_advance);
            places.push((x_advance, y_advance, position.x_offset, position.y_offset))?;
        }
    }
    Ok(places)
}

/// A line with the turns that it took.
fn line_of(alloc: Global, buffer: &hb_buffer_t, turns: Turns) -> Result<Line, Stop> {
    let glyphs = glyphs_of(alloc, buffer)?;
    let places = places_of(alloc, buffer)?;
    Ok(Line {
        glyphs,
        places,
        turns,
        budget: buffer.max_ops(),
    })
}

/// A line that is substituted by this font, without its deleted glyphs if that is asked for.
fn substituted(alloc: Global, shown: &Substitution, font: &hb_font_t) -> Result<Line, Stop> {
    let plan = plan_of(alloc, shown.requests)?;
    let mut buffer = buffer_of(alloc, shown.line, shown.max_len, shown.max_ops)?;
    buffer.set_direction(shown.direction);
    let turns = substitute(alloc, &plan, font, &shown.sizes, &mut buffer)?;
    match shown.after {
        After::Nothing => (),
        After::Removal => hb_aat_layout_remove_deleted_glyphs(&mut buffer),
    }
    line_of(alloc, &buffer, turns)
}

/// The answers where a line is substituted twice.
fn refused(alloc: Global, shown: &Substitution, font: &hb_font_t) -> Result<Made, Stop> {
    let plan = plan_of(alloc, shown.requests)?;
    let mut buffer = buffer_of(alloc, shown.line, shown.max_len, shown.max_ops)?;
    buffer.set_direction(shown.direction);
    let first = substitute(alloc, &plan, font, &shown.sizes, &mut buffer);
    let second = substitute(alloc, &plan, font, &shown.sizes, &mut buffer);
    Ok(Made::Answers(first, second))
}

/// Substitutes a line by a plan with sizes, and answers the turns.
fn substitute(
    alloc: Global,
    plan: &hb_ot_shape_plan_t,
    face: &hb_font_t,
    sizes: &Sizes,
    buffer: &mut hb_buffer_t,
) -> Result<Turns, AatError>
    requires { IsSmall buffer.old }
    ensures { IsSmall buffer.new }
{
    match sizes {
        Sizes::Usual => hb_aat_layout_substitute(alloc, plan, face, buffer),
        Sizes::SpansOfThree => hb_aat_layout_substitute_with::<LIGATURE_SLOTS, 3>(
            alloc, plan, face, buffer,
        ),
        Sizes::SpansOfTwo => hb_aat_layout_substitute_with::<LIGATURE_SLOTS, 2>(
            alloc, plan, face, buffer,
        ),
        Sizes::OneSlot => hb_aat_layout_substitute_with::<1, MAX_CONTEXT_LENGTH>(
            alloc, plan, face, buffer,
        ),
        Sizes::TwoSlots => hb_aat_layout_substitute_with::<2, MAX_CONTEXT_LENGTH>(
            alloc, plan, face, buffer,
        ),
    }
}

/// Adds the ranges of a chain.
fn add_ranges(ranges: &mut Vec<Range>, map: &hb_aat_map_t, chain: usize) -> Result<(), AllocError> {
    for range in map.ranges(chain) {
        ranges.push((range.cluster_first, range.cluster_last, range.flags))?;
    }
    Ok(())
}

/// The ranges of each chain of a map.
fn ranges_of(alloc: Global, map: &hb_aat_map_t) -> Result<Vec<Range>, AllocError> {
    let mut ranges = Vec::new(alloc);
    for chain in 0..map.chain_flags().len() {
        add_ranges(&mut ranges, map, chain)?;
    }
    Ok(ranges)
}

/// The ranges of each chain that requests are compiled into.
fn compiled(alloc: Global, shown: &Compilation, font: &hb_font_t) -> Result<Vec<Range>, Stop> {
    let mut builder = builder_of(alloc, font, shown.requests)?;
    let mut map = hb_aat_map_t::default(alloc);
    builder.compile(font, &mut map)?;
    Ok(ranges_of(alloc, &map)?)
}

/// The answer to a request that is added to a new builder.
fn added(alloc: Global, shown: &Addition, font: &hb_font_t) -> Made {
    let mut builder = hb_aat_map_builder_t::default(alloc);
    let answer = builder.add_feature(font, &feature_of(&shown.request));
    Made::Added(answer, builder.features().len())
}

/// A line that is kerned by the table of this font.
fn kerned(alloc: Global, shown: &Kerning, font: &hb_font_t) -> Result<Line, Stop> {
    let plan = kerning_plan_of(alloc, shown.requested_kerning);
    let mut buffer = placed_buffer_of(alloc, shown.line, shown.max_ops)?;
    buffer.set_direction(shown.direction);
    let turns = if shown.font.kern.is_some() {
        hb_ot_layout_kern(&plan, font, &mut buffer)?
    } else {
        hb_aat_layout_position(&plan, font, &mut buffer)?
    };
    line_of(alloc, &buffer, turns)
}

/// A line with positions, whose deleted glyphs take no room.
fn zeroed(alloc: Global, shown: &Zeroing) -> Result<Line, Stop> {
    let mut buffer = buffer_of(alloc, shown.line, MAX_LEN, MAX_OPS)?;
    set_advances(&mut buffer, shown.x_advance)?;
    hb_aat_layout_zero_width_deleted_glyphs(&mut buffer);
    line_of(alloc, &buffer, 0)
}

/// A line without its deleted glyphs.
fn removed(alloc: Global, line: &[Run]) -> Result<Line, Stop> {
    let mut buffer = buffer_of(alloc, line, MAX_LEN, MAX_OPS)?;
    hb_aat_layout_remove_deleted_glyphs(&mut buffer);
    line_of(alloc, &buffer, 0)
}

/// A line that is shaped by this font.
fn shaped(alloc: Global, shown: &Shaping, font: &hb_font_t) -> Result<Line, Stop> {
    let plan = shaping_plan_of(alloc, shown.apply_morx);
    let mut buffer = asking_buffer_of(alloc, shown.line, MAX_OPS)?;
    buffer.set_direction(shown.direction);
    let turns = shape(alloc, &plan, font, &mut buffer)?;
    line_of(alloc, &buffer, turns)
}
