//! Lines, as they are put into room of C's.
ghost use Rattle.std.specs.Prelude.{◌≡◌, ◌<◌, ◌^◌, length, map, slice_set, IfErr, IfOk, OnErr};
ghost use Rattle.aat_records.specs.Lines.{AreLinesPut, filled_from, glyphs_of, line_records, place_behind};
ghost use Rattle.aat_records.specs.Records.{as_it_is, filled, glyph_record};

use crate::failure::Failure;
use crate::places::Places;
use crate::records::{GlyphRecord, LineRecord};
use crate::room::put;
use aat_shaped_text::{ShapedGlyph, TextGlyph};
use aat_typesetter::TypesetLine;

/// How many lines there are, and how many glyphs are drawn of them.
#[derive(Clone, Copy)]
pub struct LineCounts {
    pub lines: usize,
    pub glyphs: usize,
}

/// The place in a text of a length before which so many of its glyphs are.
fn place_behind(text: &[TextGlyph], size: usize, count: usize) -> usize
    ensures { result ≡ place_behind text.now size count }
{
    match text.get(count) {
        Some(glyph) => glyph.cluster as usize,
        None => size,
    }
}

/// How many glyphs are drawn of lines, for which memory is wanting where they are too many to be counted.
#[tactic(auto, using(crate::proofs::LinesPut::one_count))]
fn glyph_count(lines: &[TypesetLine]) -> Result<usize, Failure>
    ensures count { IfOk result (λ count. count ≡ length (glyphs_of lines.now)) }
    ensures refused { IfErr result (λ failure. failure ≡ Failure.OutOfMemory) }
{
    let mut count = 0usize;
    for i in 0..lines.len() {
        match count.checked_add(lines[i].glyphs().len()) {
            Some(sum) => count = sum,
            None => return Err(Failure::OutOfMemory),
        }
    }
    Ok(count)
}

/// Puts the glyphs of a line into room behind those of the lines before it.
#[tactic(auto, using(crate::proofs::Filled::past_the_room))]
fn put_behind(glyphs: &[ShapedGlyph], start: usize, out: &mut [GlyphRecord])
    ensures { out.new ≡ filled_from start (map (glyph_record as_it_is) glyphs.now) out.old }
{
    if start < out.len() {
        put(glyphs, &Places::Own, &mut out[start..]);
    }
}

/// Puts the glyphs of lines into room, one line behind the other.
#[tactic(auto, using(crate::proofs::LinesPut::fits))]
fn put_glyphs(lines: &[TypesetLine], out: &mut [GlyphRecord])
    requires { length (glyphs_of lines.now) < 2 ^ 64 }
    ensures { out.new ≡ filled (map (glyph_record as_it_is) (glyphs_of lines.now)) out.old }
{
    let mut count = 0usize;
    for i in 0..lines.len() {
        let glyphs = lines[i].glyphs();
        put_behind(glyphs, count, out);
        count += glyphs.len();
    }
}

/// Puts the record of a line at a place of room, where that has it.
#[tactic(auto, using(std::proofs::lemmas::List::set_past))]
fn put_row(row: LineRecord, place: usize, rows: &mut [LineRecord])
    ensures { rows.new ≡ slice_set rows.old place row }
{
    if place < rows.len() {
        rows[place] = row;
    }
}

/// Puts the records of lines of a text of a length into room.
#[tactic(auto, using(crate::proofs::LinesPut::fits))]
fn put_rows(lines: &[TypesetLine], text: &[TextGlyph], size: usize, rows: &mut [LineRecord])
    requires { length (glyphs_of lines.now) < 2 ^ 64 }
    ensures { rows.new ≡ filled (line_records text.now size 0 lines.now) rows.old }
{
    let mut count = 0usize;
    for i in 0..lines.len() {
        let line = &lines[i];
        count += line.glyphs().len();
        let row = LineRecord {
            text_end: place_behind(text, size, line.text_end()),
            glyphs_end: count,
        };
        put_row(row, i, rows);
    }
}

/// Puts lines of a text of a length and their glyphs into room. Refused as `OutOfMemory` where there are too many
/// glyphs to be counted; then nothing is put.
#[tactic(auto, using(crate::proofs::LinesPut::record_count, crate::proofs::LinesPut::put_count))]
pub fn put_lines(
    lines: &[TypesetLine],
    text: &[TextGlyph],
    size: usize,
    out: &mut [GlyphRecord],
    rows: &mut [LineRecord],
) -> Result<LineCounts, Failure>
    ensures put { IfOk result (AreLinesPut lines.now text.now size out.old out.new rows.old rows.new) }
    ensures refused { IfErr result (λ failure. failure ≡ Failure.OutOfMemory) }
    ensures glyphs_stay { OnErr result (out.new ≡ out.old) }
    ensures rows_stay { OnErr result (rows.new ≡ rows.old) }
{
    let glyphs = glyph_count(lines)?;
    put_glyphs(lines, out);
    put_rows(lines, text, size, rows);
    Ok(LineCounts {
        lines: lines.len(),
        glyphs,
    })
}
