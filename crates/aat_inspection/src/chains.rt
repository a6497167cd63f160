//! The chains of `morx`.

use aat_cuts::find_unsettled;
use aat_machine_tables::{Chain, Coverage, Subtable, SubtableKind};
use std::alloc::Global;
use std::io::{self, Write};

/// What a subtable of `morx` does, in a word.
pub fn kind_name(kind: &SubtableKind) -> &'static str {
    match kind {
        SubtableKind::Rearrangement(_) => "rearrangement",
        SubtableKind::Contextual(_) => "contextual",
        SubtableKind::Ligature(_) => "ligature",
        SubtableKind::NonContextual(_) => "noncontextual",
        SubtableKind::Insertion(_) => "insertion",
    }
}

/// For which directions of text a subtable is.
fn directions(coverage: Coverage) -> &'static str {
    if coverage.is_all_directions() {
        "horizontal and vertical"
    } else if coverage.is_vertical() {
        "vertical"
    } else {
        "horizontal"
    }
}

/// In which order a subtable takes the glyphs.
fn order(coverage: Coverage) -> &'static str {
    match (coverage.is_logical(), coverage.is_backwards()) {
        (false, false) => "layout order",
        (false, true) => "reverse layout order",
        (true, false) => "logical order",
        (true, true) => "reverse logical order",
    }
}

/// Whether a law says that a line may be cut at the unmarked places of a settled subtable of this kind.
fn is_proved(kind: &SubtableKind) -> bool {
    !matches!(
        kind,
        SubtableKind::Rearrangement(_) | SubtableKind::Ligature(_)
    )
}

/// Writes whether a subtable is settled for cuts, or why it is not.
fn write_reason<W: Write>(alloc: Global, out: &mut W, kind: &SubtableKind) -> io::Result<()> {
    match find_unsettled(alloc, kind)? {
        Some(reason) => writeln!(out, "not settled for cuts: {reason}"),
        None if is_proved(kind) => writeln!(out, "settled for cuts"),
        None => writeln!(out, "settled, but cuts by its marks are not proved"),
    }
}

/// Writes a subtable of a chain that has such flags by default.
fn write_subtable<W: Write>(
    alloc: Global,
    out: &mut W,
    default_flags: u32,
    subtable: &Subtable,
) -> io::Result<()> {
    let kind = kind_name(&subtable.kind);
    let directions = directions(subtable.coverage);
    let order = order(subtable.coverage);
    let flags = subtable.feature_flags;
    let state = if default_flags & flags != 0 {
        "on"
    } else {
        "off"
    };
    write!(out, "{kind}, {directions}, {order}, flags {flags:#010x}, ")?;
    write!(out, "{state} by default, ")?;
    write_reason(alloc, out, &subtable.kind)
}

/// Writes the subtables of a chain in their order.
fn write_subtables<W: Write>(alloc: Global, out: &mut W, chain: &Chain) -> io::Result<()> {
    for (place, subtable) in chain.subtables.iter().enumerate() {
        write!(out, "  subtable {place} ")?;
        write_subtable(alloc, out, chain.default_flags, subtable)?;
    }
    Ok(())
}

/// Writes the chains in their order: their default flags, and their subtables.
///
/// An error is that of the writer, or `OutOfMemory`. A part of the text may be written then.
pub(crate) fn write_chains<W: Write>(
    alloc: Global,
    out: &mut W,
    chains: &[Chain],
) -> io::Result<()> {
    for (place, chain) in chains.iter().enumerate() {
        writeln!(
            out,
            "chain {place} default flags {:#010x}",
            chain.default_flags
        )?;
        write_subtables(alloc, out, chain)?;
    }
    Ok(())
}

/// Writes of each subtable of a chain of a number whether it is settled for cuts, or why it is not.
fn write_settled_chain<W: Write>(
    alloc: Global,
    out: &mut W,
    number: usize,
    chain: &Chain,
) -> io::Result<()> {
    for (place, subtable) in chain.subtables.iter().enumerate() {
        let kind = kind_name(&subtable.kind);
        write!(out, "chain {number} subtable {place} {kind}, ")?;
        write_reason(alloc, out, &subtable.kind)?;
    }
    Ok(())
}

/// Writes of each subtable of chains whether it is settled for cuts, or why it is not, a line each in their order, and
/// answers whether there are any.
///
/// An error is that of the writer, or `OutOfMemory`. A part of the text may be written then.
pub fn write_settled<W: Write>(alloc: Global, out: &mut W, chains: &[Chain]) -> io::Result<bool> {
    for (number, chain) in chains.iter().enumerate() {
        write_settled_chain(alloc, out, number, chain)?;
    }
    Ok(chains.iter().any(|chain| !chain.subtables.is_empty()))
}
