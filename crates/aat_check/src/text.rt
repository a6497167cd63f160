//! Findings as text.

use crate::finding::{Finding, GlyphLine, Place};
use crate::sentences::Sentence;
use aat_bytes::Tag;
use aat_bytes::tags::MORX;
use aat_font::Feature;
use aat_read_metrics::GlyphNames;
use std::io::{self, Write};

/// Writes glyphs in quotation marks.
fn write_glyphs<W: Write>(out: &mut W, glyphs: &[u16]) -> io::Result<()> {
    write!(out, "\"")?;
    for (place, glyph) in glyphs.iter().enumerate() {
        let space = if place == 0 { "" } else { " " };
        write!(out, "{space}{glyph}")?;
    }
    write!(out, "\"")
}

/// Writes a feature as the option of features takes it, without its value where that is 1.
pub(crate) fn write_feature<W: Write>(out: &mut W, feature: &Feature) -> io::Result<()> {
    let (tag, value) = (Tag(feature.tag.0), feature.value);
    match value {
        1 => write!(out, "{tag}"),
        _ => write!(out, "{tag}={value}"),
    }
}

/// Writes what a line of glyphs is, which no shell reads behind the command: their names, and its two parts.
fn write_remark<W: Write>(out: &mut W, names: &GlyphNames<'_>, line: &GlyphLine) -> io::Result<()> {
    let is_named = line
        .glyphs
        .iter()
        .all(|glyph| names.name_of(*glyph).is_some());
    if is_named {
        write!(out, " #")?;
        write_names(out, names, &line.glyphs)?;
    }
    let Some(cut) = line.cut else {
        return Ok(());
    };
    let (first, second) = line.glyphs.split_at(cut.min(line.glyphs.len()));
    write!(out, "{}its parts ", if is_named { ", " } else { " # " })?;
    write_glyphs(out, first)?;
    write!(out, " and ")?;
    write_glyphs(out, second)
}

/// Writes the command that shows a line of glyphs of a font, with the trace where substitution is shown.
fn write_line<W: Write>(
    out: &mut W,
    font: &str,
    names: &GlyphNames<'_>,
    place: &Place,
    line: &GlyphLine,
) -> io::Result<()> {
    write!(out, ": see aat shape {font} --glyphs ")?;
    write_glyphs(out, &line.glyphs)?;
    if line.is_vertical {
        write!(out, " --direction ttb")?;
    }
    if let Some(feature) = &line.feature {
        write!(out, " --features ")?;
        write_feature(out, feature)?;
    }
    // a trace is of substitution alone
    if place.table == MORX {
        write!(out, " --trace")?;
    }
    write_remark(out, names, line)
}

/// Writes a place, which ends with the number of a glyph where it has one, and behind that the name of the glyph.
fn write_place<W: Write>(out: &mut W, names: &GlyphNames<'_>, place: &Place) -> io::Result<()> {
    write!(out, "{place}")?;
    match place.glyph.and_then(|glyph| names.name_of(glyph)) {
        Some(name) => write!(out, " ({name})"),
        None => Ok(()),
    }
}

/// Writes the names of glyphs that each have one.
fn write_names<W: Write>(out: &mut W, names: &GlyphNames<'_>, glyphs: &[u16]) -> io::Result<()> {
    for glyph in glyphs {
        if let Some(name) = names.name_of(*glyph) {
            write!(out, " {name}")?;
        }
    }
    Ok(())
}

/// Writes a finding.
fn write_finding<W: Write>(
    out: &mut W,
    font: &str,
    names: &GlyphNames<'_>,
    finding: &Finding,
) -> io::Result<()> {
    let (severity, number) = (finding.fact.severity(), finding.fact.number());
    let sentence = Sentence {
        fact: finding.fact,
        names,
    };
    write!(out, "{severity} {number:02} ")?;
    write_place(out, names, &finding.place)?;
    write!(out, ": {sentence}")?;
    if let Some(line) = &finding.line {
        write_line(out, font, names, &finding.place, line)?;
    }
    writeln!(out)
}

/// Writes findings in their order, a line each: how much harm it tells of, its number of two digits, its place, and its
/// sentence, and where there is a line of glyphs the command that shows it, with the words that name the font. Behind the
/// number of a glyph stands its name, where it has one, and behind `#` those of a line's glyphs, where all have one, and
/// its parts. Without any finding it writes `no finding`.
///
/// An error is that of the writer. A part of the text may be written then.
pub fn write_findings<W: Write>(
    out: &mut W,
    font: &str,
    names: &GlyphNames<'_>,
    findings: &[Finding],
) -> io::Result<()> {
    if findings.is_empty() {
        return writeln!(out, "no finding");
    }
    for finding in findings {
        write_finding(out, font, names, finding)?;
    }
    Ok(())
}
