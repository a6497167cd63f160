//! What each subtable changed.

use crate::line::buffer_of;
use crate::names::kind_at;
use aat_layout::buffer::{Direction, hb_glyph_info_t};
use aat_layout::font::{Feature, hb_font_t, hb_ot_shape_plan_t};
use aat_read_metrics::{GlyphNames, WrittenGlyph};
use aat_shaper::TextGlyph;
use aat_trace::{Trace, TracedAct, TracedSubtable, trace_substitution};
use anyhow::Result;
use std::alloc::Global;
use std::io::{self, Write};

/// Traces what the substitution of a text does.
pub fn trace_of(
    alloc: Global,
    font: &hb_font_t,
    direction: Direction,
    text: &[TextGlyph],
    features: &[Feature],
) -> Result<Trace> {
    let mut buffer = buffer_of(alloc, font, direction, text, 0)?;
    let plan = hb_ot_shape_plan_t::new(features.to_vec(alloc)?);
    Ok(trace_substitution(alloc, &plan, font, &mut buffer)?)
}

/// What glyphs are called: nothing where they are written by their numbers.
type Names<'n, 'f> = Option<&'n GlyphNames<'f>>;

/// Writes ids with a space before each.
fn write_ids<W: Write>(out: &mut W, names: Names<'_, '_>, ids: &[u32]) -> io::Result<()> {
    if ids.is_empty() {
        out.write_all(b" nothing")?;
    }
    for id in ids {
        let written = WrittenGlyph::new(names, *id);
        write!(out, " {written}")?;
    }
    Ok(())
}

/// Writes an act.
fn write_act<W: Write>(out: &mut W, names: Names<'_, '_>, act: &TracedAct) -> io::Result<()> {
    write!(out, "  transition {} at {}:", act.transition, act.place)?;
    write_ids(out, names, &act.taken)?;
    out.write_all(b" ->")?;
    write_ids(out, names, &act.put)?;
    writeln!(out)
}

/// Writes the places of new marks, if there are any.
fn write_marks<W: Write>(out: &mut W, marks: &[usize]) -> io::Result<()> {
    if marks.is_empty() {
        return Ok(());
    }
    out.write_all(b"  unsafe to break before")?;
    for place in marks {
        write!(out, " {place}")?;
    }
    writeln!(out)
}

/// Writes the ids of a line.
fn write_line<W: Write>(
    out: &mut W,
    names: Names<'_, '_>,
    glyphs: &[hb_glyph_info_t],
) -> io::Result<()> {
    out.write_all(b"  line:")?;
    for glyph in glyphs {
        let written = WrittenGlyph::new(names, glyph.glyph_id);
        write!(out, " {written}")?;
    }
    writeln!(out)
}

/// Writes the head of what a subtable did.
fn write_head<W: Write>(
    out: &mut W,
    font: &hb_font_t,
    subtable: &TracedSubtable,
) -> io::Result<()> {
    let (chain, number) = (subtable.chain, subtable.subtable);
    let kind = kind_at(font, chain, number);
    write!(out, "chain {chain} subtable {number}: {kind}, ")?;
    if !subtable.is_run {
        return writeln!(out, "left out");
    }
    let order = if subtable.is_reversed {
        ", from the end of the line"
    } else {
        ""
    };
    writeln!(out, "{} turns{order}", subtable.turns)
}

/// Writes what a subtable did.
fn write_subtable<W: Write>(
    out: &mut W,
    font: &hb_font_t,
    names: Names<'_, '_>,
    subtable: &TracedSubtable,
) -> io::Result<()> {
    write_head(out, font, subtable)?;
    for act in &subtable.acts {
        write_act(out, names, act)?;
    }
    write_marks(out, &subtable.marks)?;
    if !subtable.acts.is_empty() {
        write_line(out, names, &subtable.after)?;
    }
    Ok(())
}

/// Writes the trace of a line: for each subtable of `morx` its turns, the ids that it changed at which transition, the
/// places that it marked, and the line that it left if it changed it. Where names are given, an id is written as its name,
/// or as `gidN` where it has none.
pub fn write_trace<W: Write>(
    out: &mut W,
    font: &hb_font_t,
    names: Option<&GlyphNames<'_>>,
    trace: &Trace,
) -> io::Result<()> {
    if let Some(first) = trace.subtables.first() {
        write_line(out, names, &first.before)?;
    }
    for subtable in &trace.subtables {
        write_subtable(out, font, names, subtable)?;
    }
    if trace.is_incomplete {
        writeln!(out, "out of memory: a subtable is not shown")?;
    }
    Ok(())
}
