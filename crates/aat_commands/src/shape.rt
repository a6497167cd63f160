//! The command `aat shape`.

use crate::glyph_list::{characters_of, glyphs_of};
use crate::line::{Context, SetLine};
use crate::missing::tell_missing;
use crate::output::{show_line, write_picture};
use crate::request::{Output, Request};
use crate::verify::{Whole, verify};
use aat_calls::subtable_names;
use aat_drawing::DrawnLine;
use aat_text::{LineEnd, line_ends};
use aat_typesetter::{TextGlyph, TypesetLine, Typesetter};
use aat_words::{Font, FontSource, Progress, Session, Speaker, text_of_file};
use anyhow::{Context as _, Result, anyhow, ensure};
use clap::ArgMatches;
use std::alloc::Global;
use std::fs;
use std::io::Write;

/// Writes the line that was typeset last, or keeps it for a picture.
fn show_whole<W: Write>(
    alloc: Global,
    out: &mut W,
    context: &Context<'_, '_>,
    typesetter: &Typesetter<'_>,
    ends: &[LineEnd],
    kept: &mut Vec<DrawnLine>,
) -> Result<()> {
    let line = SetLine {
        ends,
        direction: typesetter.direction(),
        text: typesetter.text(),
        shaped: typesetter.shaped(),
        glyphs: typesetter.glyphs(),
    };
    show_line(alloc, out, context, line, kept)
}

/// The part of a text between two places, none where they are not places of it.
fn part(text: &[TextGlyph], start: usize, end: usize) -> &[TextGlyph] {
    match text.get(start..end) {
        Some(part) => part,
        None => &[],
    }
}

/// Writes the lines of the text that was typeset last, or keeps them for a picture.
fn show_lines<W: Write>(
    alloc: Global,
    out: &mut W,
    context: &Context<'_, '_>,
    typesetter: &Typesetter<'_>,
    ends: &[LineEnd],
    lines: &[TypesetLine],
    kept: &mut Vec<DrawnLine>,
) -> Result<()> {
    let mut start = 0;
    for line in lines {
        let set = SetLine {
            ends,
            direction: typesetter.direction(),
            text: part(typesetter.text(), start, line.text_end()),
            shaped: line.shaped(),
            glyphs: line.glyphs(),
        };
        show_line(alloc, out, context, set, kept)?;
        start = line.text_end();
    }
    Ok(())
}

/// Typesets a line of the text, and writes or keeps the lines that it is broken into. One without a character is one
/// line.
fn shape_text_line<W: Write>(
    alloc: Global,
    out: &mut W,
    context: &Context<'_, '_>,
    typesetter: &mut Typesetter<'_>,
    text: &str,
    kept: &mut Vec<DrawnLine>,
) -> Result<()> {
    let options = context.request.options();
    let ends = if context.request.output.tells_of_glyphs() {
        line_ends(alloc, options.unit, text)?
    } else {
        Vec::new(alloc)
    };
    if let Some(width) = context.request.width
        && !text.is_empty()
    {
        let lines = typesetter.lines(text, u64::from(width), &options)?;
        return show_lines(alloc, out, context, typesetter, &ends, &lines, kept);
    }
    typesetter.line(text, &options)?;
    if context.request.verifies {
        verify(alloc, context, Whole::Text(text), typesetter.glyphs())?;
    }
    show_whole(alloc, out, context, typesetter, &ends, kept)
}

/// Typesets the line of a number, and tells how far the work is.
fn shape_told_line<W: Write>(
    rt: &HostRuntime,
    out: &mut W,
    context: &Context<'_, '_>,
    progress: &mut Progress,
    typesetter: &mut Typesetter<'_>,
    (number, line): (usize, &str),
    kept: &mut Vec<DrawnLine>,
) -> Result<()> {
    let shaped = shape_text_line(rt.alloc(), out, context, typesetter, line, kept);
    shaped.with_context(|| anyhow!("line {number}"))?;
    let not_found = context.request.not_found;
    let text = typesetter.text();
    if text.iter().any(|glyph| glyph.glyph_id == not_found) {
        tell_missing(rt, progress, context, number, line)?;
    }
    progress.add(rt, line.len())?;
    Ok(())
}

/// Shapes each line of a text, and tells how far the work is.
fn shape_told_lines<W: Write>(
    rt: &HostRuntime,
    out: &mut W,
    context: &Context<'_, '_>,
    progress: &mut Progress,
    typesetter: &mut Typesetter<'_>,
    text: &str,
    kept: &mut Vec<DrawnLine>,
) -> Result<()> {
    let mut number = 0usize;
    for line in text.lines() {
        number = number.saturating_add(1);
        let numbered = (number, line);
        shape_told_line(rt, out, context, progress, typesetter, numbered, kept)?;
    }
    Ok(())
}

/// Shapes each line of a text, and writes the lines or keeps them for a picture.
fn shape_lines<W: Write>(
    rt: &HostRuntime,
    out: &mut W,
    context: &Context<'_, '_>,
    text: &str,
) -> Result<Vec<DrawnLine>> {
    let mut progress = Progress::new(rt, text.len());
    let mut typesetter = Typesetter::new(rt.alloc(), context.face);
    let mut kept = Vec::new(rt.alloc());
    let shaped = shape_told_lines(
        rt,
        out,
        context,
        &mut progress,
        &mut typesetter,
        text,
        &mut kept,
    );
    drop(typesetter);
    progress.clear(rt)?;
    shaped?;
    Ok(kept)
}

/// Typesets a line of glyphs, which ends only at its end, and writes it or keeps it for a picture.
fn shape_line_of_glyphs<W: Write>(
    alloc: Global,
    out: &mut W,
    context: &Context<'_, '_>,
    typesetter: &mut Typesetter<'_>,
    glyphs: Vec<TextGlyph>,
    kept: &mut Vec<DrawnLine>,
) -> Result<()> {
    typesetter.line_of_glyphs(glyphs, &context.request.options())?;
    if context.request.verifies {
        let whole = Whole::Glyphs(typesetter.text());
        verify(alloc, context, whole, typesetter.glyphs())?;
    }
    show_whole(alloc, out, context, typesetter, &[], kept)
}

/// Typesets the glyphs of a list in one line, and writes it or keeps it for a picture.
fn shape_glyphs<W: Write>(
    alloc: Global,
    out: &mut W,
    context: &Context<'_, '_>,
    list: &str,
) -> Result<Vec<DrawnLine>> {
    let glyphs = glyphs_of(alloc, list)?;
    let mut typesetter = Typesetter::new(alloc, context.face);
    let mut kept = Vec::new(alloc);
    let shaped = shape_line_of_glyphs(alloc, out, context, &mut typesetter, glyphs, &mut kept);
    drop(typesetter);
    shaped?;
    Ok(kept)
}

/// What is shaped.
#[derive(Clone, Copy)]
enum Text<'a> {
    /// The lines of a text.
    Lines(&'a str),
    /// A line of glyphs, by a list of their numbers.
    Glyphs(&'a str),
}

/// Shapes a text in a font, and shows its lines.
fn shape_in<W: Write>(
    rt: &HostRuntime,
    out: &mut W,
    font: &Font<'_>,
    context: &Context<'_, '_>,
    text: Text<'_>,
) -> Result<()> {
    let kept = match text {
        Text::Lines(text) => shape_lines(rt, out, context, text)?,
        Text::Glyphs(list) => shape_glyphs(rt.alloc(), out, context, list)?,
    };
    if !context.request.output.is_picture() {
        return Ok(());
    }
    let file = font.file()?;
    write_picture(rt.alloc(), out, font.source.path, context, &file, &kept)
}

/// Shapes a text as the command line asks.
fn shape_text<W: Write>(
    rt: &HostRuntime,
    out: &mut W,
    session: &mut Session<'_>,
    matches: &ArgMatches<'_>,
    request: Request,
    text: Text<'_>,
) -> Result<()> {
    let alloc = rt.alloc();
    let font = session.fonts.font(rt, &FontSource::of_matches(matches)?)?;
    font.tell_faults(rt, session.speaker)?;
    let subtables = if request.output.names_subtables() {
        subtable_names(alloc, font.face.font())?
    } else {
        Vec::new(alloc)
    };
    let names = if request.shows_names {
        Some(font.names(alloc)?)
    } else {
        None
    };
    let context = Context {
        face: font.face,
        names,
        font,
        request,
        subtables,
        speaker: session.speaker,
    };
    shape_in(rt, out, font, &context, text)
}

/// Shapes the text that a command line gives, and writes what is shown to a file where that is asked.
pub fn shape<W: Write>(
    rt: &HostRuntime,
    out: &mut W,
    session: &mut Session<'_>,
    matches: &ArgMatches<'_>,
) -> Result<()> {
    let Some(path) = matches.get_str("output-file") else {
        return shape_given(rt, out, session, matches);
    };
    let mut text = Vec::new(rt.alloc());
    shape_given(rt, &mut text, session, matches)?;
    fs::write(rt, path, text).with_context(|| anyhow!("{path}"))
}

/// The text that a command line gives: that of a file, that of numbers of characters, or itself.
fn text_given(rt: &HostRuntime, speaker: Speaker, matches: &ArgMatches<'_>) -> Result<String> {
    if let Some(path) = matches.get_str("file") {
        return text_of_file(rt, speaker, path);
    }
    match matches.get_str("unicodes") {
        Some(list) => characters_of(rt.alloc(), list),
        None => {
            let text = matches.get_str("text").unwrap_or("");
            Ok(String::from_str(rt.alloc(), text)?)
        }
    }
}

/// Shapes the text or the glyphs that a command line gives.
fn shape_given<W: Write>(
    rt: &HostRuntime,
    out: &mut W,
    session: &mut Session<'_>,
    matches: &ArgMatches<'_>,
) -> Result<()> {
    let request = Request::of_matches(rt.alloc(), matches)?;
    if let Some(list) = matches.get_str("glyphs") {
        return shape_text(rt, out, session, matches, request, Text::Glyphs(list));
    }
    let text = text_given(rt, session.speaker, matches)?;
    if request.output == Output::TracePicture {
        ensure!(text.lines().count() <= 1, "a trace is drawn of one line");
        ensure!(request.width.is_none(), "a trace is drawn of a whole line");
    }
    let text = Text::Lines(text.as_str());
    shape_text(rt, out, session, matches, request, text)
}
