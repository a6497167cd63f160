//! Printing the worked rows.

use crate::made::{Glyph, Line, Made, Place, Range, make};
use crate::rows::{Part, Row, all_rows};
use crate::stop::Stop;
use aat_layout::{AatError, Turns};
use std::alloc::Global;
use std::io::Write;

/// Prints the rows that the words choose, and says whether they choose any.
///
/// No word chooses all rows, in their order. One word that is a row's number in decimal chooses that row. Anything else
/// chooses none, and prints nothing.
///
/// Stopped as `Unwritten` where a write fails, and as `Refused` with the number of an error where a call is refused
/// that is not what its row shows, 3 for want of memory in making a row's values. What was printed until then stays
/// printed.
pub fn print_chosen<W: Write>(alloc: Global, words: &[String], out: &mut W) -> Result<bool, Stop> {
    if words.len() > 1 {
        return Ok(false);
    }
    let mut is_known = words.is_empty();
    for rows in all_rows() {
        is_known |= print_those(alloc, words, rows, out)?;
    }
    Ok(is_known)
}

/// Prints those of some rows that the words choose, and says whether they choose any.
fn print_those<W: Write>(
    alloc: Global,
    words: &[String],
    rows: &[Row],
    out: &mut W,
) -> Result<bool, Stop> {
    let mut is_known = false;
    for row in rows {
        if is_chosen(words, row) {
            is_known = true;
            print_row(alloc, row, out)?;
        }
    }
    Ok(is_known)
}

/// Whether words choose a row: none chooses all, and one chooses the row whose number it is.
fn is_chosen(words: &[String], row: &Row) -> bool {
    words.iter().all(|word| word.as_str() == row.number)
}

/// Prints the parts of a row.
fn print_row<W: Write>(alloc: Global, row: &Row, out: &mut W) -> Result<(), Stop> {
    for part in row.parts {
        print_part(alloc, part, out)?;
    }
    Ok(())
}

/// Prints a part of a row: its name, and then what it shows.
fn print_part<W: Write>(alloc: Global, part: &Part, out: &mut W) -> Result<(), Stop> {
    writeln!(out, "row {}", part.name)?;
    let made = make(alloc, &part.shown)?;
    print_made(&made, out)
}

/// Prints what a part shows: the numbers of the errors where two calls are refused, 2 for a line that would become
/// longer than its greatest length, and 4 for a buffer that has failed.
fn print_made<W: Write>(made: &Made, out: &mut W) -> Result<(), Stop> {
    match made {
        Made::Left(line) => print_line(line, out),
        Made::Answers(first, second) => {
            print_refusal(*first, out)?;
            print_refusal(*second, out)
        }
        Made::Ranges(ranges) => print_ranges(ranges, out),
        Made::Added(answer, requests) => print_addition(*answer, *requests, out),
    }
}

/// Prints the number of the error of a refused call, and nothing of a call that answers.
fn print_refusal<W: Write>(answer: Result<Turns, AatError>, out: &mut W) -> Result<(), Stop> {
    match answer {
        Ok(_) => Ok(()),
        Err(AatError::OutOfMemory) => Err(Stop::from(AatError::OutOfMemory)),
        Err(error) => {
            writeln!(out, "error {}", error.number())?;
            Ok(())
        }
    }
}

/// Prints the answer to a request, and then the number of the builder's requests.
///
/// The answer is `some` for a feature that is known, `none` for one that is not, and `error` with the
/// error's number and the value for a value of alternates that is no setting.
fn print_addition<W: Write>(
    answer: Result<Option<()>, AatError>,
    requests: usize,
    out: &mut W,
) -> Result<(), Stop> {
    match answer {
        Ok(Some(())) => writeln!(out, "some")?,
        Ok(None) => writeln!(out, "none")?,
        Err(AatError::AaltValue(value)) => {
            let number = AatError::AaltValue(value).number();
            writeln!(out, "error {number} {value}")?;
        }
        Err(error) => return Err(Stop::from(error)),
    }
    writeln!(out, "requests {requests}")?;
    Ok(())
}

/// Prints a line, a glyph to a line of text, and then the turns and the budget that is left.
fn print_line<W: Write>(line: &Line, out: &mut W) -> Result<(), Stop> {
    for (i, glyph) in line.glyphs.iter().enumerate() {
        print_glyph(glyph, line.places.get(i), out)?;
    }
    writeln!(out, "turns {} budget {}", line.turns, line.budget)?;
    Ok(())
}

/// Prints a glyph of a line: its id, its cluster and its flags, and where positions stand its advances and offsets.
fn print_glyph<W: Write>(glyph: &Glyph, place: Option<&Place>, out: &mut W) -> Result<(), Stop> {
    let (id, cluster, flags) = *glyph;
    match place {
        None => writeln!(out, "{id} {cluster} {flags}")?,
        Some(place) => {
            let (x_advance, y_advance, x_offset, y_offset) = *place;
            writeln!(
                out,
                "{id} {cluster} {flags} {x_advance} {y_advance} {x_offset} {y_offset}"
            )?;
        }
    }
    Ok(())
}

/// Prints ranges, each on a line with its first and its last cluster and its flags.
fn print_ranges<W: Write>(ranges: &[Range], out: &mut W) -> Result<(), Stop> {
    for (first, last, flags) in ranges {
        writeln!(out, "range {first} {last} {flags}")?;
    }
    Ok(())
}
