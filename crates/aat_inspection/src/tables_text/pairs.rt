//! Pairs that kern.
use crate::tables_text::Names;
use crate::tables_text::lookups::{Given, write_lookup};
use aat_kerning_tables::{ClassPairs, Pairs};
use aat_read_metrics::WrittenGlyph;
use std::alloc::Global;
use std::io::{self, Write};

/// The most pairs, or values, that are written.
const MOST_PAIRS: usize = 1000;

/// Writes pairs with their values, up to 1,000 of them.
pub(crate) fn write_pairs<W: Write>(
    out: &mut W,
    names: Names<'_, '_>,
    pairs: &Pairs,
) -> io::Result<()> {
    let pairs = pairs.pairs();
    for (left, right, value) in pairs.iter().take(MOST_PAIRS) {
        let left = WrittenGlyph::new(names, u32::from(*left));
        let right = WrittenGlyph::new(names, u32::from(*right));
        writeln!(out, "  pair {left} {right} value {value}")?;
    }
    if pairs.len() > MOST_PAIRS {
        writeln!(out, "  and {} pairs more", pairs.len() - MOST_PAIRS)?;
    }
    Ok(())
}

/// Writes pairs by classes: the classes of glyphs on the left and on the right, how many right ones there are, and the
/// values in their order.
pub(crate) fn write_classes<W: Write>(
    alloc: Global,
    out: &mut W,
    names: Names<'_, '_>,
    pairs: &ClassPairs,
) -> io::Result<()> {
    write_lookup(alloc, out, names, pairs.left(), Given::Class("left class"))?;
    write_lookup(
        alloc,
        out,
        names,
        pairs.right(),
        Given::Class("right class"),
    )?;
    writeln!(out, "  right classes {}", pairs.right_count())?;
    write_values(out, pairs.values())
}

/// Writes values in their order, up to 1,000 of them.
pub(crate) fn write_values<W: Write>(out: &mut W, values: &[i16]) -> io::Result<()> {
    for (place, value) in values.iter().take(MOST_PAIRS).enumerate() {
        writeln!(out, "  value {place} {value}")?;
    }
    if values.len() > MOST_PAIRS {
        writeln!(out, "  and {} values more", values.len() - MOST_PAIRS)?;
    }
    Ok(())
}
