//! The marks of a machine's picture: circles of states, and the lines beside them with their arrows.

use crate::machine::Machine;
use crate::machine_layers::{Layers, RADIUS, Spot};
use crate::machine_lines::{Line, lines_beside};
use crate::paint::{Colour, Paint, colour_by, write_head};
use std::alloc::{AllocError, Global};
use std::io::{self, Write};

/// What is left free on each side.
const MARGIN: i64 = 20;

/// The width of a letter of a line.
const LETTER: i64 = 6;

/// How far the texts are from their circle.
const BESIDE: i64 = 30;

/// The height of the foot.
const FOOT: i64 = 44;

/// The least width of a picture, in which the foot has room.
const LEAST_WIDTH: i64 = 560;

/// The colour of states that no line reaches, and of their arrows.
const GREY: u32 = 0x999999;

/// How marks are drawn.
const STYLE: &str = "<style>.line{fill:none}.head,text{stroke:none}circle{fill:#ffffff}</style>";

/// What stands at the foot of a picture.
const FIRST_NOTE: &str =
    "Left out: entries that lead to state 0 and do nothing. As 0: by the entries of state 0.";

/// What stands below it.
const SECOND_NOTE: &str = "Grey: states that no line reaches.";

/// Where a column stands, in pixels from the left.
#[derive(Clone, Copy)]
struct Column {
    /// The middle of its circles.
    middle: i64,
    /// Where its arrows begin to bend to the next column, and how much room they have for it.
    turn: i64,
    bend: i64,
}

/// The column of a number.
fn column_at(columns: &[Column], number: usize) -> Column {
    let nowhere = Column {
        middle: 0,
        turn: 0,
        bend: 0,
    };
    columns.get(number).copied().unwrap_or(nowhere)
}

/// The widths of the texts of columns, in pixels.
fn widths_of(
    alloc: Global,
    machine: &Machine<'_>,
    layers: &Layers,
    lines: &[Line],
) -> Result<Vec<i64>, AllocError> {
    let mut widths = vec![in alloc; 0i64; layers.columns]?;
    for line in lines {
        let text = line.cut_text(alloc, machine)?;
        let length = text.len().min(1 << 20) as i64;
        let Some(spot) = layers.spots.get(line.state) else {
            continue;
        };
        if let Some(width) = widths.get_mut(spot.column) {
            *width = length.saturating_mul(LETTER).max(*width);
        }
    }
    Ok(widths)
}

/// Columns of a height whose texts have such widths.
fn columns_of(alloc: Global, widths: &[i64], height: i64) -> Result<Vec<Column>, AllocError> {
    let bend = (height / 8).clamp(60, 240);
    let mut columns = Vec::new(alloc);
    let mut middle = MARGIN + RADIUS;
    for width in widths {
        let turn = width.saturating_add(middle).saturating_add(RADIUS + BESIDE);
        columns.push(Column { middle, turn, bend })?;
        middle = turn.saturating_add(bend).saturating_add(RADIUS);
    }
    Ok(columns)
}

/// The colour of a state in a spot.
fn colour_of(layers: &Layers, spot: &Spot, state: u16) -> Colour {
    if spot.column < layers.reached_columns {
        colour_by(state as usize)
    } else {
        Colour::opaque(GREY)
    }
}

/// Writes the arrow of a line, from its state along below its text to the state that follows it in the next column.
fn write_arrow<W: Write>(
    out: &mut W,
    columns: &[Column],
    from: &Spot,
    to: &Spot,
    middle: i64,
) -> io::Result<()> {
    let column = column_at(columns, from.column);
    let start = column.middle.saturating_add(RADIUS);
    let (enter, turn) = (start.saturating_add(BESIDE), column.turn);
    let end = column_at(columns, to.column).middle.saturating_sub(RADIUS);
    let (first, second) = (
        start.saturating_add(BESIDE / 2),
        turn.saturating_add(column.bend / 2),
    );
    let (from_y, to_y) = (
        from.middle.saturating_add(MARGIN),
        to.middle.saturating_add(MARGIN),
    );
    let y = middle.saturating_add(MARGIN + 6);
    write!(out, "<path class=\"line\" d=\"M{start} {from_y}")?;
    write!(out, "C{first} {from_y} {first} {y} {enter} {y}H{turn}")?;
    writeln!(out, "C{second} {y} {second} {to_y} {end} {to_y}\"/>")?;
    writeln!(out, "<path class=\"head\" d=\"M{end} {to_y}l-8 -4v8Z\"/>")
}

/// Writes a line beside a state in a spot, with its arrow. The whole line is the title.
fn write_line<W: Write>(
    out: &mut W,
    layers: &Layers,
    columns: &[Column],
    line: &Line,
    spot: &Spot,
    (whole, cut): (&str, &str),
) -> io::Result<()> {
    writeln!(out, "{whole}</title>")?;
    if let Some((_, to, _, _)) = line.arrow
        && let Some(to) = layers.spots.get(to)
        && spot.column < to.column
    {
        write_arrow(out, columns, spot, to, line.middle)?;
    }
    let middle = column_at(columns, spot.column).middle;
    let x = middle.saturating_add(RADIUS + BESIDE);
    let y = line.middle.saturating_add(MARGIN + 3);
    writeln!(out, "<text x=\"{x}\" y=\"{y}\">{cut}</text></g>")
}

/// Writes the lines beside states with their arrows, each in the colour of its state.
fn write_lines<W: Write>(
    alloc: Global,
    out: &mut W,
    machine: &Machine<'_>,
    layers: &Layers,
    lines: &[Line],
    columns: &[Column],
) -> io::Result<()> {
    for line in lines {
        let Some(spot) = layers.spots.get(line.state) else {
            continue;
        };
        let state = machine.states.get(line.state).copied().unwrap_or(0);
        let colour = colour_of(layers, spot, state);
        write!(
            out,
            "<g stroke=\"{colour}\" fill=\"{colour}\"><title>{state} "
        )?;
        let whole = line.whole_text(alloc, machine, usize::MAX)?;
        let cut = line.cut_text(alloc, machine)?;
        let texts = (whole.as_str(), cut.as_str());
        write_line(out, layers, columns, line, spot, texts)?;
    }
    Ok(())
}

/// Writes the circles of the states with their numbers.
fn write_states<W: Write>(
    out: &mut W,
    machine: &Machine<'_>,
    layers: &Layers,
    columns: &[Column],
) -> io::Result<()> {
    for (state, spot) in machine.states.iter().zip(&layers.spots) {
        let (x, y) = (
            column_at(columns, spot.column).middle,
            spot.middle.saturating_add(MARGIN),
        );
        let colour = colour_of(layers, spot, *state);
        let base = y.saturating_add(4);
        writeln!(
            out,
            "<circle cx=\"{x}\" cy=\"{y}\" r=\"{RADIUS}\" stroke=\"{colour}\"/>"
        )?;
        writeln!(
            out,
            "<text x=\"{x}\" y=\"{base}\" text-anchor=\"middle\" fill=\"{colour}\">{state}</text>"
        )?;
    }
    Ok(())
}

/// Writes the picture of a machine whose lines and columns are found.
fn write_shown<W: Write>(
    alloc: Global,
    out: &mut W,
    machine: &Machine<'_>,
    layers: &Layers,
    lines: &[Line],
    columns: &[Column],
) -> io::Result<()> {
    let last = column_at(columns, layers.columns.saturating_sub(1));
    let width = last.turn.saturating_add(MARGIN).max(LEAST_WIDTH);
    let height = layers.height.saturating_add(2 * MARGIN + FOOT);
    write_head(out, &Paint::plain(), width, height)?;
    writeln!(out, "{STYLE}")?;
    let (first, second) = (
        height.saturating_sub(FOOT - 14),
        height.saturating_sub(FOOT - 30),
    );
    writeln!(
        out,
        "<text x=\"{MARGIN}\" y=\"{first}\">{FIRST_NOTE}</text>"
    )?;
    writeln!(
        out,
        "<text x=\"{MARGIN}\" y=\"{second}\">{SECOND_NOTE}</text>"
    )?;
    write_lines(alloc, out, machine, layers, lines, columns)?;
    write_states(out, machine, layers, columns)?;
    writeln!(out, "</svg>")
}

/// Writes the picture of a machine.
///
/// An error is that of the writer, or `OutOfMemory`. A part of the picture may be written then.
pub(crate) fn write_marks<W: Write>(
    alloc: Global,
    out: &mut W,
    machine: &Machine<'_>,
) -> io::Result<()> {
    let layers = Layers::new(alloc, machine)?;
    let lines = lines_beside(alloc, machine, &layers)?;
    let widths = widths_of(alloc, machine, &layers, &lines)?;
    let columns = columns_of(alloc, &widths, layers.height)?;
    write_shown(alloc, out, machine, &layers, &lines, &columns)
}
