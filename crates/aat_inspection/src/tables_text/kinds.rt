//! What a subtable of `morx` does.
use crate::tables_text::Names;
use crate::tables_text::lookups::{Given, write_lookup};
use crate::tables_text::machines::write_machine;
use aat_lookup::GlyphId;
use aat_machine_tables::{ContextualSubtable, InsertionSubtable, LigatureSubtable, SubtableKind};
use aat_read_metrics::WrittenGlyph;
use std::alloc::Global;
use std::io::{self, Write};

/// Writes the lookups of a contextual subtable.
fn write_contextual<W: Write>(
    alloc: Global,
    out: &mut W,
    names: Names<'_, '_>,
    contextual: &ContextualSubtable,
) -> io::Result<()> {
    write_machine(alloc, out, names, &contextual.state)?;
    for (place, lookup) in contextual.lookups.iter().enumerate() {
        writeln!(out, "  lookup {place}")?;
        write_lookup(alloc, out, names, lookup, Given::Glyph)?;
    }
    Ok(())
}

/// Writes glyphs in their order.
fn write_glyphs<W: Write>(
    out: &mut W,
    names: Names<'_, '_>,
    word: &str,
    glyphs: &[GlyphId],
) -> io::Result<()> {
    for (place, glyph) in glyphs.iter().enumerate() {
        let written = WrittenGlyph::new(names, u32::from(glyph.0));
        writeln!(out, "  {word} {place} {written}")?;
    }
    Ok(())
}

/// Writes the actions of a ligature subtable.
fn write_actions<W: Write>(out: &mut W, actions: &[u32]) -> io::Result<()> {
    for (place, action) in actions.iter().enumerate() {
        writeln!(out, "  action {place} {action:#010x}")?;
    }
    Ok(())
}

/// Writes the components of a ligature subtable.
fn write_components<W: Write>(out: &mut W, components: &[u16]) -> io::Result<()> {
    for (place, component) in components.iter().enumerate() {
        writeln!(out, "  component {place} {component}")?;
    }
    Ok(())
}

/// Writes a ligature subtable.
fn write_ligature<W: Write>(
    alloc: Global,
    out: &mut W,
    names: Names<'_, '_>,
    ligature: &LigatureSubtable,
) -> io::Result<()> {
    write_machine(alloc, out, names, &ligature.state)?;
    write_actions(out, &ligature.ligature_actions)?;
    write_components(out, &ligature.components)?;
    write_glyphs(out, names, "ligature", &ligature.ligatures)
}

/// Writes an insertion subtable.
fn write_insertion<W: Write>(
    alloc: Global,
    out: &mut W,
    names: Names<'_, '_>,
    insertion: &InsertionSubtable,
) -> io::Result<()> {
    write_machine(alloc, out, names, &insertion.state)?;
    write_glyphs(out, names, "inserted", &insertion.glyphs)
}

/// Writes what a subtable does.
pub(crate) fn write_kind<W: Write>(
    alloc: Global,
    out: &mut W,
    names: Names<'_, '_>,
    kind: &SubtableKind,
) -> io::Result<()> {
    match kind {
        SubtableKind::Rearrangement(machine) => write_machine(alloc, out, names, machine),
        SubtableKind::Contextual(contextual) => write_contextual(alloc, out, names, contextual),
        SubtableKind::Ligature(ligature) => write_ligature(alloc, out, names, ligature),
        SubtableKind::NonContextual(lookup) => write_lookup(
            alloc,
            out,
            names,
            lookup,
            Given::Glyph,
        ),
        SubtableKind::Insertion(insertion) => write_insertion(alloc, out, names, insertion),
    }
}
