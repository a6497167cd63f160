//! Pictures of what substitution did, subtable by subtable.

use crate::error::DrawError;
use crate::links::{Link, links_of};
use crate::outlines::FontOutlines;
use crate::paint::{Colour, Paint, colour_by, write_head};
use crate::paths::write_outlines;
use crate::trace_marks::{LINKS, Look, TEXT, write_ends, write_links, write_row};
use crate::trace_rows::{Cell, Glyphs, Room, cells_of, glyph_of, pixels, row_width};
use aat_buffer::hb_glyph_info_t;
use aat_font::hb_font_t;
use aat_machine_tables::SubtableKind;
use aat_read_metrics::GlyphNames;
use aat_trace::{Trace, TracedSubtable};
use std::alloc::{AllocError, Global};
use std::io::{self, Write};

/// What a picture of a trace shows.
#[derive(Clone, Copy)]
pub struct TracePicture<'a> {
    /// What substitution did.
    pub trace: &'a Trace,
    /// The font that it was done by.
    pub font: &'a hb_font_t,
    /// The outlines of the font. Of a glyph without one a box is drawn.
    pub outlines: Option<&'a FontOutlines<'a>>,
    /// The names of its glyphs, where they are told in place of their numbers.
    pub names: Option<&'a GlyphNames<'a>>,
    /// The units of the em.
    pub units_per_em: u16,
    /// How far a line reaches above the baseline, in units of the font.
    pub ascent: i32,
    /// How far below the baseline it reaches, usually below 0.
    pub descent: i32,
    /// Whether the first glyph of the line is drawn on the left.
    pub is_forward: bool,
    /// What each subtable of `morx` is called, through all chains: what stands before the first `: ` and what stands
    /// behind it get a line each. A text without `<` and `&`.
    pub subtables: &'a [String],
    /// How it looks. The em and the margin stand for nothing here.
    pub paint: Paint,
}

/// What came of a picture of a trace.
#[derive(Clone, Copy)]
pub enum TraceDrawing {
    /// It is written.
    Written,
    /// A row has more than 1,000 glyphs. Nothing is written.
    TooLong,
}

/// The most glyphs of a row.
const MOST_GLYPHS: usize = 1_000;

/// What is left free on each side.
const MARGIN: i64 = 16;

/// The width of the names at the left.
const NAMES: i64 = 150;

/// What stands at the foot.
const FOOT: &str =
    "A cross: a deleted glyph, or under a glyph that it went out. A plus: the glyph went in.";

/// The path of the mark of a glyph that went out.
const OUT: &str = "v8m-3 1l6 6m0 -6l-6 6";

/// The path of the mark of a glyph that went in.
const IN: &str = "m-4 -9h8m-4 -4v8";

/// The height of the foot.
const FOOT_HEIGHT: i64 = 26;

/// The least width, in which the foot has room.
const LEAST_WIDTH: i64 = 500;

/// The kind of a subtable, if the font has it.
fn kind_of<'a>(font: &'a hb_font_t, subtable: &TracedSubtable) -> Option<&'a SubtableKind> {
    let chain = font.chains().get(subtable.chain)?;
    Some(&chain.subtables.get(subtable.subtable)?.kind)
}

/// Adds the glyphs of a row.
fn add_glyphs(glyphs: &mut Vec<u16>, line: &[hb_glyph_info_t]) -> Result<(), AllocError> {
    for info in line {
        if let Some(glyph) = glyph_of(info.glyph_id) {
            glyphs.push(glyph)?;
        }
    }
    Ok(())
}

/// The rows of a trace: the line as it was found, and as each subtable left it that changed it.
fn rows_of<'a>(alloc: Global, trace: &'a Trace) -> Result<Vec<&'a [hb_glyph_info_t]>, AllocError> {
    let mut rows = Vec::new(alloc);
    if let Some(first) = trace.subtables.first() {
        rows.push(first.before.as_slice())?;
    }
    for subtable in &trace.subtables {
        if !subtable.acts.is_empty() {
            rows.push(subtable.after.as_slice())?;
        }
    }
    Ok(rows)
}

/// What links tell of the rows before and behind them.
#[derive(Drop)]
struct Flow {
    /// What changed the glyphs of the row behind them last.
    changes: Vec<Option<usize>>,
    /// To which of these a link leads.
    is_linked: Vec<bool>,
    /// From which glyphs of the row before them a link leads on.
    is_left: Vec<bool>,
}

/// What links of a subtable of a number tell of the row before them and of one of so many glyphs behind them.
fn flow_of(
    alloc: Global,
    links: &[Link],
    before: &[Cell],
    count: usize,
    number: usize,
) -> Result<Flow, AllocError> {
    let mut changes = vec![in alloc; Some(number); count]?;
    let mut is_linked = vec![in alloc; false; count]?;
    let mut is_left = vec![in alloc; false; before.len()]?;
    for link in links {
        let (Some(change), Some(is_linked), Some(is_left), Some(from)) = (
            changes.get_mut(link.to),
            is_linked.get_mut(link.to),
            is_left.get_mut(link.from),
            before.get(link.from),
        ) else {
            continue;
        };
        (*is_linked, *is_left) = (true, true);
        if !link.is_changed {
            *change = from.changed_by;
        }
    }
    Ok(Flow {
        changes,
        is_linked,
        is_left,
    })
}

/// Writes what a row is called, from a height on: what stands before the first colon of a name, and what stands behind it.
fn write_name<W: Write>(out: &mut W, name: &str, top: i64, colour: Colour) -> io::Result<()> {
    let (first, second) = name.split_once(": ").unwrap_or((name, ""));
    let (y, below) = (top.saturating_add(14), top.saturating_add(29));
    writeln!(
        out,
        "<text x=\"{MARGIN}\" y=\"{y}\" fill=\"{colour}\">{first}</text>"
    )?;
    if second.is_empty() {
        return Ok(());
    }
    writeln!(
        out,
        "<text x=\"{MARGIN}\" y=\"{below}\" fill=\"{colour}\">{second}</text>"
    )
}

/// A row with the one before it, the links between them, and what these tell.
#[derive(Clone, Copy)]
struct Step<'a> {
    before: &'a [Cell],
    cells: &'a [Cell],
    links: &'a [Link],
    flow: &'a Flow,
    /// What the subtable is called.
    name: &'a str,
    /// Its colour.
    colour: Colour,
}

/// Writes the links that lead to a row, from a height on, and its name.
fn write_linked<W: Write>(out: &mut W, step: Step<'_>, top: i64) -> io::Result<()> {
    let (colour, below) = (step.colour, top.saturating_add(LINKS));
    let (start, end) = (top.saturating_add(2), below.saturating_sub(2));
    write_links(out, step.links, (step.before, step.cells), top, colour)?;
    write_ends(out, step.before, &step.flow.is_left, OUT, start, colour)?;
    write_ends(out, step.cells, &step.flow.is_linked, IN, end, colour)?;
    write_name(out, step.name, below, colour)
}

/// Writes the row of a subtable of a number behind another row, from a height on, and gives it.
fn write_step<W: Write>(
    alloc: Global,
    out: &mut W,
    picture: &TracePicture<'_>,
    look: &Look<'_>,
    before: &[Cell],
    (number, subtable): (usize, &TracedSubtable),
    (room, top): (Room, i64),
) -> io::Result<Vec<Cell>> {
    let line = subtable.after.as_slice();
    let links = links_of(alloc, kind_of(picture.font, subtable), subtable)?;
    let flow = flow_of(alloc, &links, before, line.len(), number)?;
    let cells = cells_of(alloc, look.glyphs, line, &flow.changes, room)?;
    let step = Step {
        before,
        cells: &cells,
        links: &links,
        flow: &flow,
        name: match picture.subtables.get(number) {
            Some(name) => name.as_str(),
            None => "",
        },
        colour: colour_by(number),
    };
    write_linked(out, step, top)?;
    write_row(alloc, out, look, &cells, top.saturating_add(LINKS))?;
    Ok(cells)
}

/// Writes all rows with the links between them, as a group that is left open.
fn write_rows<W: Write>(
    alloc: Global,
    out: &mut W,
    picture: &TracePicture<'_>,
    look: &Look<'_>,
    room: Room,
) -> io::Result<()> {
    writeln!(out, "<g fill=\"none\" stroke-width=\"1.3\">")?;
    let Some(first) = picture.trace.subtables.first() else {
        return Ok(());
    };
    let line = first.before.as_slice();
    let mut cells = cells_of(alloc, look.glyphs, line, &[], room)?;
    let mut top = MARGIN;
    write_name(out, "the line", top, picture.paint.foreground)?;
    write_row(alloc, out, look, &cells, top)?;
    for (number, subtable) in picture.trace.subtables.iter().enumerate() {
        if !subtable.acts.is_empty() {
            top = top.saturating_add(look.row_height);
            let step = (number, subtable);
            cells = write_step(alloc, out, picture, look, &cells, step, (room, top))?;
            top = top.saturating_add(LINKS);
        }
    }
    Ok(())
}

/// The width of the widest one of some rows, in pixels, or `None` where one has too many glyphs.
fn widest(
    alloc: Global,
    glyphs: Glyphs<'_>,
    rows: &[&[hb_glyph_info_t]],
) -> Result<Option<i64>, AllocError> {
    let mut most = 0;
    for row in rows {
        if row.len() > MOST_GLYPHS {
            return Ok(None);
        }
        let width = row_width(alloc, glyphs, row)?;
        most = width.max(most);
    }
    Ok(Some(most))
}

/// Writes the outlines of all glyphs of some rows, and gives the numbers of those that have one, which rise.
fn write_all_outlines<W: Write>(
    alloc: Global,
    out: &mut W,
    outlines: Option<&FontOutlines<'_>>,
    rows: &[&[hb_glyph_info_t]],
) -> Result<Vec<u16>, DrawError> {
    let mut glyphs = Vec::new(alloc);
    for row in rows {
        add_glyphs(&mut glyphs, row)?;
    }
    match outlines {
        Some(outlines) => write_outlines(alloc, out, outlines, glyphs),
        None => Ok(Vec::new(alloc)),
    }
}

/// How the rows of a picture look, before outlines are written.
fn look_of<'a>(picture: &TracePicture<'a>) -> Look<'a> {
    let em = picture.units_per_em;
    let ascent = pixels(i64::from(picture.ascent), em).clamp(16, 96);
    let depth = pixels(i64::from(picture.descent), em).saturating_neg();
    let descent = depth.clamp(4, 48);
    Look {
        glyphs: Glyphs {
            font: picture.font,
            names: picture.names,
            units_per_em: em,
        },
        ascent,
        descent,
        row_height: ascent.saturating_add(descent).saturating_add(TEXT),
        written: &[],
        paint: picture.paint,
    }
}

/// Writes the end of the rows, the foot at a height, and the end of a picture.
fn write_foot<W: Write>(out: &mut W, ink: Colour, foot: i64) -> io::Result<()> {
    writeln!(out, "</g>")?;
    writeln!(
        out,
        "<text x=\"{MARGIN}\" y=\"{foot}\" fill=\"{ink}\">{FOOT}</text>"
    )?;
    writeln!(out, "</svg>")
}

/// Writes a picture that has such rows.
fn write_picture<W: Write>(
    alloc: Global,
    out: &mut W,
    picture: &TracePicture<'_>,
    rows: &[&[hb_glyph_info_t]],
) -> Result<TraceDrawing, DrawError> {
    let look = look_of(picture);
    let Some(widest) = widest(alloc, look.glyphs, rows)? else {
        return Ok(TraceDrawing::TooLong);
    };
    let room = Room {
        left: MARGIN + NAMES,
        right: widest.saturating_add(MARGIN + NAMES),
        is_forward: picture.is_forward,
    };
    let step = look.row_height.saturating_add(LINKS);
    let below = step.saturating_mul(rows.len().min(1 << 20) as i64);
    let foot = below.saturating_sub(LINKS - MARGIN - FOOT_HEIGHT);
    let width = room.right.saturating_add(MARGIN).max(LEAST_WIDTH);
    write_head(out, &picture.paint, width, foot.saturating_add(MARGIN))?;
    let written = write_all_outlines(alloc, out, picture.outlines, rows)?;
    let look = Look {
        written: &written,
        ..look
    };
    write_rows(alloc, out, picture, &look, room)?;
    write_foot(out, picture.paint.foreground, foot)?;
    Ok(TraceDrawing::Written)
}

/// Writes a picture of a trace as a file of SVG: a row for the line as it was found, and one for each subtable that changed
/// it, named at the left.
///
/// A glyph is drawn by its outline, 44 pixels an em, or without one as the box of its advance, with its number or name
/// below it. It has the colour of the subtable that changed it last. A line leads from each glyph to what became of it, grey
/// where its subtable left it as it was. Of an act that joins glyphs all lead to the glyph that is left; of one that moves
/// them each to itself. Any other act leads each glyph to the one put in its place. Where it puts fewer, the rest lead to
/// the last one put; where it puts more, the last one taken leads to the rest. A deleted glyph is a grey cross. A plus is
/// over a glyph that went in, and a cross under one that went out.
///
/// A trace with a row of more than 1,000 glyphs is not drawn: nothing is written, as `TooLong` says. Without a subtable
/// there is no row.
///
/// Refused as 1, `Outline`, where the outline of a glyph of `glyf` has a fault, in the order of the numbers of the glyphs;
/// as 2, `Writer`, where the writer fails; and as 3, `OutOfMemory`, where memory is wanting, or was for the trace. A part
/// of the picture may be written then.
pub fn write_trace_picture<W: Write>(
    alloc: Global,
    out: &mut W,
    picture: &TracePicture<'_>,
) -> Result<TraceDrawing, DrawError> {
    if picture.trace.is_incomplete {
        return Err(DrawError::OutOfMemory);
    }
    let rows = rows_of(alloc, picture.trace)?;
    write_picture(alloc, out, picture, &rows)
}
