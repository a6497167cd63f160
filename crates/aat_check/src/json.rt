//! Findings as JSON.

use crate::fact::Fact;
use crate::finding::{Finding, GlyphLine, Place};
use crate::sentences::Sentence;
use crate::text::write_feature;
use aat_read_metrics::GlyphNames;
use serde_json::Value;
use std::alloc::{AllocError, Global};
use std::io::{self, Write};

/// A sentence as a text of JSON.
fn quoted(alloc: Global, fact: Fact, names: &GlyphNames<'_>) -> Result<String, AllocError> {
    let sentence = Sentence { fact, names }.to_string(alloc)?;
    Value::String(sentence).to_string(alloc)
}

/// Writes a member whose value is a number, where that is there.
fn write_number<W: Write>(out: &mut W, key: &str, number: Option<usize>) -> io::Result<()> {
    match number {
        Some(number) => write!(out, ",\"{key}\":{number}"),
        None => Ok(()),
    }
}

/// Writes the member of the name of a glyph, where it has one. A name stands for itself in JSON.
fn write_name<W: Write>(out: &mut W, names: &GlyphNames<'_>, glyph: Option<u16>) -> io::Result<()> {
    match glyph.and_then(|glyph| names.name_of(glyph)) {
        Some(name) => write!(out, ",\"name\":\"{name}\""),
        None => Ok(()),
    }
}

/// Writes the members of a place behind its table.
fn write_place<W: Write>(out: &mut W, names: &GlyphNames<'_>, place: &Place) -> io::Result<()> {
    write_number(out, "chain", place.chain)?;
    write_number(out, "subtable", place.subtable)?;
    write_number(out, "feature", place.feature.map(usize::from))?;
    write_number(out, "state", place.state.map(usize::from))?;
    write_number(out, "class", place.class.map(usize::from))?;
    write_number(out, "glyph", place.glyph.map(usize::from))?;
    write_name(out, names, place.glyph)
}

/// Writes the member of the names of glyphs, where each of them has one.
fn write_names<W: Write>(out: &mut W, names: &GlyphNames<'_>, glyphs: &[u16]) -> io::Result<()> {
    if !glyphs.iter().all(|glyph| names.name_of(*glyph).is_some()) {
        return Ok(());
    }
    write!(out, ",\"names\":[")?;
    for (place, glyph) in glyphs.iter().enumerate() {
        let comma = if place == 0 { "" } else { "," };
        if let Some(name) = names.name_of(*glyph) {
            write!(out, "{comma}\"{name}\"")?;
        }
    }
    write!(out, "]")
}

/// Writes the members of the line that shows a finding.
fn write_line<W: Write>(out: &mut W, names: &GlyphNames<'_>, line: &GlyphLine) -> io::Result<()> {
    let direction = if line.is_vertical { "ttb" } else { "ltr" };
    write!(out, ",\"direction\":\"{direction}\"")?;
    if let Some(feature) = &line.feature {
        write!(out, ",\"features\":\"")?;
        write_feature(out, feature)?;
        write!(out, "\"")?;
    }
    write!(out, ",\"glyphs\":")?;
    let mut before = "[";
    for glyph in &line.glyphs {
        write!(out, "{before}{glyph}")?;
        before = ",";
    }
    write!(out, "]")?;
    write_names(out, names, &line.glyphs)?;
    write_number(out, "cut", line.cut)
}

/// Writes a finding as an object, behind what parts it from the one before.
fn write_object<W: Write>(
    alloc: Global,
    out: &mut W,
    before: &str,
    names: &GlyphNames<'_>,
    finding: &Finding,
) -> io::Result<()> {
    let sentence = quoted(alloc, finding.fact, names)?;
    let (number, severity) = (finding.fact.number(), finding.fact.severity());
    let table = finding.place.table;
    write!(
        out,
        "{before}{{\"number\":{number},\"severity\":\"{severity}\""
    )?;
    write!(out, ",\"table\":\"{table}\"")?;
    write_place(out, names, &finding.place)?;
    write!(out, ",\"sentence\":{sentence}")?;
    if let Some(line) = &finding.line {
        write_line(out, names, line)?;
    }
    write!(out, "}}")
}

/// Writes findings in their order as an array of objects, a line each. An object has `number`, `severity`, `table`, and
/// those of `chain`, `subtable`, `feature`, `state`, `class` and `glyph` that its place has, `name` where that glyph has one,
/// then `sentence`, and where a line shows it `direction`, `features` where one has to be asked for, `glyphs`, `names` where
/// all of these have one, and `cut`, how many of them stand in the first of its two parts, where it is shown beside them.
///
/// An error is that of the writer, or `OutOfMemory`. A part of the text may be written then.
pub fn write_findings_as_json<W: Write>(
    alloc: Global,
    out: &mut W,
    names: &GlyphNames<'_>,
    findings: &[Finding],
) -> io::Result<()> {
    let mut before = "[";
    for finding in findings {
        write_object(alloc, out, before, names, finding)?;
        before = ",\n";
    }
    let end = if findings.is_empty() { "[]" } else { "]" };
    writeln!(out, "{end}")
}
