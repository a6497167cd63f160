//! The constructors of tables, over a heap.

use aat_layout::font::{
    ClassPairs, ExtendedStateTable, Feat, FeatureName, GenericStateEntry, GlyphId, Lookup,
    LookupSegment, Pairs, TableError,
};
use linked_list_allocator::LocalHeap;

/// Glyphs that lie close, so that an array of values goes beside their pairs.
const CLOSE: [(u16, u16); 9] = [
    (1, 4),
    (2, 5),
    (3, 6),
    (4, 7),
    (5, 8),
    (6, 9),
    (7, 10),
    (8, 11),
    (9, 12),
];

/// Glyphs that lie far from one another, without an array beside them.
const FAR: [(u16, u16); 5] = [(1, 4), (15000, 5), (30000, 6), (45000, 7), (60000, 8)];

/// Segments of glyphs.
const SEGMENTS: [LookupSegment; 2] = [
    LookupSegment {
        first_glyph: 3,
        last_glyph: 5,
        value: 7,
    },
    LookupSegment {
        first_glyph: 60000,
        last_glyph: 60001,
        value: 8,
    },
];

/// A name of a feature type.
macro_rules! name {
    ($kind:literal) => {
        FeatureName {
            kind: $kind,
            settings: 1,
            exclusive: false,
        }
    };
}

/// The names of four feature types.
const NAMES: [FeatureName; 4] = [name!(0), name!(1), name!(2), name!(3)];

/// Pairs whose left glyphs lie close, so that a list of starts and one of words go beside them.
const KERNING: [(u16, u16, i16); 4] = [(1, 2, -25), (1, 3, 4), (2, 1, 5), (4, 2, 6)];

/// A rule whose entry goes to the state 3.
fn rule(state: u16, class: u16) -> (u16, u16, GenericStateEntry<()>) {
    let entry = GenericStateEntry {
        new_state: 3,
        flags: 0,
        extra: (),
    };
    (state, class, entry)
}

/// A table whose constructor copies what it is given.
#[derive(Clone, Copy)]
pub(crate) enum Table {
    CloseLookup,
    FarLookup,
    Segments,
    Names,
    Pairs,
    ClassPairs,
    /// Rules of two states, with a grid beside them.
    Grid,
    /// Rules of which one has a state that is too high for a grid.
    Rules,
}

/// Whether a lookup of pairs is made over a heap, and has the value of a glyph.
fn is_lookup_made(
    heap: &LocalHeap,
    pairs: &[(u16, u16)],
    glyph: u16,
    value: u16,
) -> Result<bool, TableError> {
    let lookup = Lookup::new(heap, pairs)?;
    Ok(lookup.value(GlyphId(glyph)) == Some(value))
}

/// Whether a lookup of segments is made over a heap, and has the value of a glyph.
fn is_segment_lookup_made(heap: &LocalHeap) -> Result<bool, TableError> {
    let lookup = Lookup::from_segments(heap, &SEGMENTS)?;
    Ok(lookup.value(GlyphId(60001)) == Some(8))
}

/// Whether pairs are made over a heap, and have the value of two glyphs.
fn are_pairs_made(heap: &LocalHeap) -> Result<bool, TableError> {
    let pairs = Pairs::new(heap, &KERNING)?;
    Ok(pairs.glyphs_kerning(GlyphId(2), GlyphId(1)) == Some(5))
}

/// Whether a table by classes is made over a heap, and has the value of two glyphs.
fn is_class_table_made(heap: &LocalHeap) -> Result<bool, TableError> {
    let pairs = ClassPairs::new(heap, &[(1, 1)], &[(2, 1)], 2, &[0, 0, 0, -25])?;
    Ok(pairs.glyphs_kerning(GlyphId(1), GlyphId(2)) == -25)
}

/// Whether a state table is made over a heap, and has the class of a glyph and the entry of its highest state.
fn is_machine_made(
    heap: &LocalHeap,
    classes: &[(u16, u16)],
    highest: u16,
) -> Result<bool, TableError> {
    let rules = [rule(0, 0), rule(0, 1), rule(highest, 2)];
    let table = ExtendedStateTable::new(heap, 4, classes, &rules)?;
    let entry = table.entry(highest, 2);
    Ok(table.class(GlyphId(1)) == Some(4) && entry == Some(rule(highest, 2).2))
}

/// Whether a table is made over a heap, and answers what it was made of.
pub(crate) fn is_made(heap: &LocalHeap, table: Table) -> Result<bool, TableError> {
    match table {
        Table::CloseLookup => is_lookup_made(heap, &CLOSE, 6, 9),
        Table::FarLookup => is_lookup_made(heap, &FAR, 60000, 8),
        Table::Segments => is_segment_lookup_made(heap),
        Table::Names => Ok(Feat::new(heap, &NAMES)?.find(3) == Some(NAMES[3])),
        Table::Pairs => are_pairs_made(heap),
        Table::ClassPairs => is_class_table_made(heap),
        Table::Grid => is_machine_made(heap, &CLOSE, 1),
        Table::Rules => is_machine_made(heap, &FAR, 65535),
    }
}
