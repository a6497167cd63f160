//! The subtables of `kerx` and of `kern`.

use aat_font::hb_font_t;
use aat_kerning_tables::{KernKind, KernSubtable, KerxFormat, KerxSubtable};
use std::io::{self, Write};

/// What of a subtable is the same in both tables.
#[derive(Drop)]
struct Header {
    horizontal: bool,
    has_cross_stream: bool,
    variable: bool,
}

/// How a subtable of `kerx` kerns.
fn format_name(format: &KerxFormat) -> &'static str {
    match format {
        KerxFormat::Format0(_) | KerxFormat::Format2(_) | KerxFormat::Format6(_) => "pairs",
        KerxFormat::Format2Classes(_) | KerxFormat::Format6Classes(_) => "pairs of classes",
        KerxFormat::Format1(_) => "stack machine",
        KerxFormat::Format4(_) => "anchor machine",
    }
}

/// How a subtable of `kern` kerns.
fn kind_name(kind: &KernKind) -> &'static str {
    match kind {
        KernKind::Pairs(_) => "pairs",
        KernKind::Classes(_) => "pairs of classes",
        KernKind::Machine(_) => "stack machine",
    }
}

/// Writes for which text a subtable is, whether it moves glyphs across the line, and whether it is of variations.
fn write_header<W: Write>(out: &mut W, header: &Header) -> io::Result<()> {
    let direction = if header.horizontal {
        "horizontal"
    } else {
        "vertical"
    };
    write!(out, ", {direction}")?;
    if header.has_cross_stream {
        write!(out, ", cross-stream")?;
    }
    if header.variable {
        write!(out, ", of variations")?;
    }
    writeln!(out)
}

/// Writes the subtables of `kerx` in their order.
fn write_extended<W: Write>(out: &mut W, subtables: &[KerxSubtable]) -> io::Result<()> {
    for subtable in subtables {
        write!(out, "kerx {}", format_name(&subtable.format))?;
        let header = Header {
            horizontal: subtable.horizontal,
            has_cross_stream: subtable.has_cross_stream,
            variable: subtable.variable,
        };
        write_header(out, &header)?;
    }
    Ok(())
}

/// Writes the subtables of `kern` in their order.
fn write_plain<W: Write>(out: &mut W, subtables: &[KernSubtable]) -> io::Result<()> {
    for subtable in subtables {
        write!(out, "kern {}", kind_name(&subtable.kind))?;
        let header = Header {
            horizontal: subtable.horizontal,
            has_cross_stream: subtable.has_cross_stream,
            variable: subtable.variable,
        };
        write_header(out, &header)?;
    }
    Ok(())
}

/// Writes the subtables of `kerx` and then those of `kern`, in their order: how each kerns, and for which text.
///
/// An error is that of the writer. A part of the text may be written then.
pub(crate) fn write_kerning<W: Write>(out: &mut W, font: &hb_font_t) -> io::Result<()> {
    write_extended(out, font.kerx_subtables())?;
    write_plain(out, font.kern_subtables())
}
