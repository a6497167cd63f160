//! Glyphs in the form of `hb-shape`.
ghost use Rattle.std.specs.Prelude.{◌≡◌, ◌+◌, ◌<◌, ◌≤◌};

use aat_read_metrics::{GlyphNames, WrittenGlyph};
use aat_shaper::ShapedGlyph;
use itoa::write_digits;
use std::io::{self, Write};

/// What stands between two glyphs.
const BEHIND: u8 = b'|';

/// A glyph has at most 66 bytes with what stands before it: two numbers without a sign, of 5 and 10 digits, four with
/// one, of 11 bytes each, and seven bytes between them.
const LONGEST: usize = 72;

/// Room for a glyph, which is put together from its end to its start: the digits of a number come in that order.
type GlyphText = [u8; LONGEST];

/// Puts a byte before a place, and answers where it stands.
fn byte_before(text: &mut GlyphText, end: usize, byte: u8) -> usize
    requires room { 0 < end }
    requires inside { end ≤ 72 }
    ensures { result + 1 ≡ end }
{
    text[end - 1] = byte;
    end - 1
}

/// Puts a number before a place, and answers where it begins.
fn number_before(text: &mut GlyphText, end: usize, number: u32) -> usize
    requires room { 10 ≤ end }
    requires inside { end ≤ 72 }
    ensures before { result ≤ end }
    ensures short { end ≤ result + 10 }
{
    write_digits(u64::from(number), text, end)
}

/// Puts a number with its sign before a place, and answers where it begins.
fn signed_before(text: &mut GlyphText, end: usize, number: i32) -> usize
    requires room { 11 ≤ end }
    requires inside { end ≤ 72 }
    ensures before { result ≤ end }
    ensures short { end ≤ result + 11 }
{
    let start = number_before(text, end, number.unsigned_abs());
    if number < 0 {
        byte_before(text, start, b'-')
    } else {
        start
    }
}

/// Puts two numbers with a comma between them before a place, and answers where they begin.
fn pair_before(text: &mut GlyphText, end: usize, x: i32, y: i32) -> usize
    requires room { 23 ≤ end }
    requires inside { end ≤ 72 }
    ensures before { result ≤ end }
    ensures short { end ≤ result + 23 }
{
    let end = signed_before(text, end, y);
    let end = byte_before(text, end, b',');
    signed_before(text, end, x)
}

/// Puts an advance before a place, and answers where it begins. One of 0 along y is left out.
fn advance_before(text: &mut GlyphText, end: usize, x: i32, y: i32) -> usize
    requires room { 24 ≤ end }
    requires inside { end ≤ 72 }
    ensures before { result ≤ end }
    ensures short { end ≤ result + 24 }
{
    if y == 0 {
        let start = signed_before(text, end, x);
        return byte_before(text, start, b'+');
    }
    let start = pair_before(text, end, x, y);
    byte_before(text, start, b'+')
}

/// Puts an offset before a place, unless it is 0, and answers where it begins.
fn offset_before(text: &mut GlyphText, end: usize, x: i32, y: i32) -> usize
    requires room { 24 ≤ end }
    requires inside { end ≤ 72 }
    ensures before { result ≤ end }
    ensures short { end ≤ result + 24 }
{
    if (x, y) == (0, 0) {
        return end;
    }
    let start = pair_before(text, end, x, y);
    byte_before(text, start, b'@')
}

/// Puts what stands behind the number of a glyph at the end of its room: its cluster, its offset unless that is 0, and
/// its advance. Answers where it begins.
fn behind_number(text: &mut GlyphText, glyph: &ShapedGlyph) -> usize
    ensures room { 10 < result }
    ensures inside { result ≤ 72 }
{
    let end = advance_before(text, LONGEST, glyph.x_advance, glyph.y_advance);
    let end = offset_before(text, end, glyph.x_offset, glyph.y_offset);
    let end = number_before(text, end, glyph.cluster);
    byte_before(text, end, b'=')
}

/// Puts a glyph at the end of its room: its number, and what stands behind it. Answers where it begins.
fn glyph_text(text: &mut GlyphText, glyph: &ShapedGlyph) -> usize
    ensures before { 0 < result }
    ensures inside { result ≤ 72 }
{
    let end = behind_number(text, glyph);
    number_before(text, end, u32::from(glyph.glyph_id))
}

/// Writes a glyph behind the byte that stands before it.
fn write_glyph<W: Write>(out: &mut W, before: u8, glyph: &ShapedGlyph) -> io::Result<()> {
    let mut text = [0u8; LONGEST];
    let start = glyph_text(&mut text, glyph);
    let start = byte_before(&mut text, start, before);
    out.write_all(&text[start..])
}

/// Writes a glyph by its name behind the byte that stands before it.
fn write_named_glyph<W: Write>(
    out: &mut W,
    before: u8,
    names: &GlyphNames<'_>,
    glyph: &ShapedGlyph,
) -> io::Result<()> {
    let written = WrittenGlyph::new(Some(names), u32::from(glyph.glyph_id));
    out.write_all(&[before])?;
    write!(out, "{written}")?;
    let mut text = [0u8; LONGEST];
    let start = behind_number(&mut text, glyph);
    out.write_all(&text[start..])
}

/// Writes the glyphs of a line, by their names where these are given and with their flags where these are asked, and the
/// end of the line.
fn write_line<W: Write>(
    out: &mut W,
    names: Option<&GlyphNames<'_>>,
    glyphs: &[ShapedGlyph],
    shows_flags: bool,
) -> io::Result<()> {
    let mut before = b'[';
    for glyph in glyphs {
        match names {
            Some(names) => write_named_glyph(out, before, names, glyph)?,
            None => write_glyph(out, before, glyph)?,
        }
        if shows_flags && before == BEHIND && !glyph.may_break_before {
            out.write_all(b"#1")?;
        }
        before = BEHIND;
    }
    if glyphs.is_empty() {
        out.write_all(b"[")?;
    }
    out.write_all(b"]\n")
}

/// Writes the glyphs of a line as `hb-shape --no-glyph-names` does, and the end of the line:
/// `[NUMBER=CLUSTER@X,Y+ADVANCE|..]`, in drawing order. An offset of 0 is left out, and so is a vertical advance of 0.
///
/// An error is that of the writer. A part of the text may be written then.
pub fn write_glyphs<W: Write>(out: &mut W, glyphs: &[ShapedGlyph]) -> io::Result<()> {
    write_line(out, None, glyphs, false)
}

/// Writes the glyphs of a line as [`write_glyphs`] does, and `#1` behind each but the first one before which the text may
/// not be broken, as `hb-shape --show-flags` does.
///
/// An error is that of the writer. A part of the text may be written then.
pub fn write_flagged_glyphs<W: Write>(out: &mut W, glyphs: &[ShapedGlyph]) -> io::Result<()> {
    write_line(out, None, glyphs, true)
}

/// Writes the glyphs of a line as [`write_glyphs`] or [`write_flagged_glyphs`] does, but each by its name, or as `gidN`
/// where it has none, as `hb-shape` does.
///
/// An error is that of the writer. A part of the text may be written then.
pub fn write_named_glyphs<W: Write>(
    out: &mut W,
    names: &GlyphNames<'_>,
    glyphs: &[ShapedGlyph],
    shows_flags: bool,
) -> io::Result<()> {
    write_line(out, Some(names), glyphs, shows_flags)
}
