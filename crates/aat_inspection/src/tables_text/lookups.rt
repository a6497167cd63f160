//! Lookups.
use crate::tables_text::Names;
use aat_lookup::Lookup;
use aat_read_metrics::WrittenGlyph;
use std::alloc::Global;
use std::io::{self, Write};

/// The most pairs of a lookup that are written.
const MOST_PAIRS: usize = 1000;

/// What a lookup gives for a glyph.
#[derive(Clone, Copy)]
pub(crate) enum Given {
    /// The glyph that takes its place.
    Glyph,
    /// Its class, by the word for it.
    Class(&'static str),
}

/// Writes the pairs of a lookup, a line each with a word before what is given, up to 1,000 of them.
pub(crate) fn write_lookup<W: Write>(
    alloc: Global,
    out: &mut W,
    names: Names<'_, '_>,
    lookup: &Lookup,
    given: Given,
) -> io::Result<()> {
    let (word, given_names) = match given {
        Given::Glyph => ("to", names),
        Given::Class(word) => (word, None),
    };
    let pairs = lookup.to_pairs(alloc)?;
    for pair in pairs.iter().take(MOST_PAIRS) {
        let glyph = WrittenGlyph::new(names, u32::from(pair.0));
        let value = WrittenGlyph::new(given_names, u32::from(pair.1));
        writeln!(out, "  glyph {glyph} {word} {value}")?;
    }
    if pairs.len() > MOST_PAIRS {
        writeln!(out, "  and {} glyphs more", pairs.len() - MOST_PAIRS)?;
    }
    Ok(())
}
