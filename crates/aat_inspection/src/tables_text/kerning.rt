//! The tables of kerning, and anchor points.
use crate::tables_text::Names;
use crate::tables_text::machines::write_machine;
use crate::tables_text::pairs::{write_classes, write_pairs, write_values};
use aat_font::hb_font_t;
use aat_kerning_tables::{Ankr, KernKind, KernSubtable, KerxFormat, KerxSubtable, Point};
use aat_read_metrics::WrittenGlyph;
use std::alloc::Global;
use std::io::{self, Write};

/// The name of how a subtable of `kerx` kerns.
fn format_name(format: &KerxFormat) -> &'static str {
    match format {
        KerxFormat::Format0(_) | KerxFormat::Format2(_) | KerxFormat::Format6(_) => "pairs",
        KerxFormat::Format2Classes(_) | KerxFormat::Format6Classes(_) => "classes",
        KerxFormat::Format1(_) => "stack",
        KerxFormat::Format4(_) => "anchors",
    }
}

/// Writes the pairs of point indexes of an anchor machine.
fn write_anchor_pairs<W: Write>(out: &mut W, pairs: &[(u16, u16)]) -> io::Result<()> {
    for (place, (marked, current)) in pairs.iter().enumerate() {
        writeln!(out, "  action {place} point {marked} point {current}")?;
    }
    Ok(())
}

/// Writes how a subtable of `kerx` kerns.
fn write_format<W: Write>(
    alloc: Global,
    out: &mut W,
    names: Names<'_, '_>,
    format: &KerxFormat,
) -> io::Result<()> {
    match format {
        KerxFormat::Format0(pairs) | KerxFormat::Format2(pairs) | KerxFormat::Format6(pairs) => {
            write_pairs(out, names, pairs)
        }
        KerxFormat::Format2Classes(pairs) | KerxFormat::Format6Classes(pairs) => {
            write_classes(alloc, out, names, pairs)
        }
        KerxFormat::Format1(stack) => {
            write_machine(alloc, out, names, &stack.state_table)?;
            write_values(out, &stack.values)
        }
        KerxFormat::Format4(anchors) => {
            write_machine(alloc, out, names, &anchors.state_table)?;
            write_anchor_pairs(out, &anchors.anchor_points)
        }
    }
}

/// Writes the words for what is so of a subtable, behind a space each.
fn write_words<W: Write>(out: &mut W, words: &[(bool, &str)]) -> io::Result<()> {
    for (is_so, word) in words {
        if *is_so {
            write!(out, " {word}")?;
        }
    }
    writeln!(out)
}

/// Writes a subtable of `kerx`.
fn write_extended<W: Write>(
    alloc: Global,
    out: &mut W,
    names: Names<'_, '_>,
    subtable: &KerxSubtable,
) -> io::Result<()> {
    let name = format_name(&subtable.format);
    write!(out, "kerx {name} tuples {}", subtable.tuple_count)?;
    let words = [
        (!subtable.horizontal, "vertical"),
        (subtable.has_cross_stream, "across"),
        (subtable.is_last_to_first, "last to first"),
    ];
    write_words(out, &words)?;
    write_format(alloc, out, names, &subtable.format)
}

/// Writes how a subtable of `kern` kerns.
fn write_kind<W: Write>(
    alloc: Global,
    out: &mut W,
    names: Names<'_, '_>,
    kind: &KernKind,
) -> io::Result<()> {
    match kind {
        KernKind::Pairs(pairs) => write_pairs(out, names, pairs),
        KernKind::Classes(pairs) => write_classes(alloc, out, names, pairs),
        KernKind::Machine(machine) => {
            write_machine(alloc, out, names, &machine.state_table)?;
            write_values(out, &machine.values)
        }
    }
}

/// The name of how a subtable of `kern` kerns.
fn kind_name(kind: &KernKind) -> &'static str {
    match kind {
        KernKind::Pairs(_) => "pairs",
        KernKind::Classes(_) => "classes",
        KernKind::Machine(_) => "stack",
    }
}

/// Writes a subtable of `kern`.
fn write_plain<W: Write>(
    alloc: Global,
    out: &mut W,
    names: Names<'_, '_>,
    subtable: &KernSubtable,
) -> io::Result<()> {
    write!(out, "kern {}", kind_name(&subtable.kind))?;
    let words = [
        (!subtable.horizontal, "vertical"),
        (subtable.has_cross_stream, "across"),
    ];
    write_words(out, &words)?;
    write_kind(alloc, out, names, &subtable.kind)
}

/// Writes the points of a glyph.
fn write_points<W: Write>(
    out: &mut W,
    glyph: WrittenGlyph<'_, '_>,
    points: &[Point],
) -> io::Result<()> {
    for (place, point) in points.iter().enumerate() {
        writeln!(
            out,
            "point {place} of glyph {glyph} at {} {}",
            point.x, point.y
        )?;
    }
    Ok(())
}

/// Writes the points of glyphs.
fn write_anchors<W: Write>(out: &mut W, names: Names<'_, '_>, ankr: &Ankr) -> io::Result<()> {
    for (glyph, points) in ankr.rows() {
        let written = WrittenGlyph::new(names, u32::from(*glyph));
        write_points(out, written, points)?;
    }
    Ok(())
}

/// Writes the subtables of `kerx` in their order.
pub(crate) fn write_extended_subtables<W: Write>(
    alloc: Global,
    out: &mut W,
    names: Names<'_, '_>,
    font: &hb_font_t,
) -> io::Result<()> {
    for subtable in font.kerx_subtables() {
        write_extended(alloc, out, names, subtable)?;
    }
    Ok(())
}

/// Writes the subtables of `kern` in their order.
pub(crate) fn write_plain_subtables<W: Write>(
    alloc: Global,
    out: &mut W,
    names: Names<'_, '_>,
    font: &hb_font_t,
) -> io::Result<()> {
    for subtable in font.kern_subtables() {
        write_plain(alloc, out, names, subtable)?;
    }
    Ok(())
}

/// Writes the anchor points of glyphs, if there are any.
pub(crate) fn write_anchor_points<W: Write>(
    out: &mut W,
    names: Names<'_, '_>,
    font: &hb_font_t,
) -> io::Result<()> {
    match &font.tables().ankr {
        Some(ankr) => write_anchors(out, names, ankr),
        None => Ok(()),
    }
}

/// Writes the subtables of `kerx` and `kern` in their order, and the anchor points of glyphs.
pub(crate) fn write_kerning<W: Write>(
    alloc: Global,
    out: &mut W,
    names: Names<'_, '_>,
    font: &hb_font_t,
) -> io::Result<()> {
    write_extended_subtables(alloc, out, names, font)?;
    write_plain_subtables(alloc, out, names, font)?;
    write_anchor_points(out, names, font)
}
