//! The readers of tables that take an allocator, over a heap.

use aat_bytes::ReadError;
use aat_layout::buffer::Direction;
use aat_layout::font::{ExtendedStateTable, GlyphId};
use aat_read_lookup::{read_feat, read_lookup};
use aat_read_machine::{MORX, read_machine};
use aat_read_metrics::read_trak;
use aat_read_outlines::Outlines;
use aat_read_pairs::read_kern_pairs;
use linked_list_allocator::LocalHeap;

/// `feat` of the types 1 and 3.
const FEAT: [u8; 36] = [
    0, 1, 0, 0, 0, 2, 0, 0, 0, 0, 0, 0, 0, 1, 0, 1, 0, 0, 0, 36, 0, 0, 1, 0, 0, 3, 0, 1, 0, 0, 0,
    36, 0, 0, 1, 1,
];

/// A lookup of format 6: 5 has the value 9, and 7 has 8.
const LOOKUP: [u8; 20] = [0, 6, 0, 4, 0, 2, 0, 8, 0, 1, 0, 0, 0, 5, 0, 9, 0, 7, 0, 8];

/// A rearrangement of five classes and one state, in which the glyph 5 is of the class 4. Each entry is the same.
const MACHINE: [u8; 46] = [
    0, 0, 0, 5, 0, 0, 0, 16, 0, 0, 0, 32, 0, 0, 0, 42, 0, 6, 0, 4, 0, 1, 0, 4, 0, 0, 0, 0, 0, 5, 0,
    4, 0, 0, 0, 0, 0, 0, 0, 0, 0, 0, 0, 0, 0, 0,
];

/// Pairs of `kern`: 1 2 by -25, and 2 1 by 7.
const PAIRS: [u8; 20] = [
    0, 2, 0, 0, 0, 0, 0, 0, 0, 1, 0, 2, 0xFF, 0xE7, 0, 2, 0, 1, 0, 7,
];

/// One track for rows: 9 at twelve points.
const TRACKS: [u8; 34] = [
    0, 1, 0, 0, 0, 0, 0, 12, 0, 0, 0, 0, 0, 1, 0, 1, 0, 0, 0, 28, 0, 0, 0, 0, 1, 0, 0, 32, 0, 12,
    0, 0, 0, 9,
];

/// The data of a glyph with a contour of four points, and where it begins and ends, in pairs of bytes.
const GLYPH: [u8; 24] = [
    0, 1, 0, 100, 0, 0, 2, 0x58, 2, 0xBC, 0, 3, 0, 0, 0x33, 0x21, 0x10, 0x23, 0x64, 1, 0xF4, 0xFA,
    2, 0xBC,
];

const PLACES: [u8; 4] = [0, 0, 0, 12];

/// A reader.
#[derive(Clone, Copy)]
pub(crate) enum Reader {
    Feat,
    Lookup,
    Machine,
    Pairs,
    Tracks,
    Outline,
}

/// Whether feature names are read over a heap, and have a type.
fn is_feat_read(heap: &LocalHeap) -> Result<bool, ReadError> {
    let feat = read_feat(heap, &FEAT)?;
    Ok(feat.find(3).is_some())
}

/// Whether a lookup is read over a heap, and has the value of a glyph.
fn is_lookup_read(heap: &LocalHeap) -> Result<bool, ReadError> {
    let lookup = read_lookup(heap, MORX, &LOOKUP, 0, 9)?;
    Ok(lookup.value(GlyphId(7)) == Some(8))
}

/// Whether a machine is read over a heap, and has the class of a glyph.
fn is_machine_read(heap: &LocalHeap) -> Result<bool, ReadError> {
    let machine: ExtendedStateTable<(), &LocalHeap> = read_machine(heap, MORX, &MACHINE, 0, 9)?;
    Ok(machine.class(GlyphId(5)) == Some(4))
}

/// Whether pairs are read over a heap, and have the value of two glyphs.
fn are_pairs_read(heap: &LocalHeap) -> Result<bool, ReadError> {
    let pairs = read_kern_pairs(heap, &PAIRS, 0)?;
    Ok(pairs.glyphs_kerning(GlyphId(1), GlyphId(2)) == Some(-25))
}

/// Whether tracks are read over a heap, and have their value at a size.
fn are_tracks_read(heap: &LocalHeap) -> Result<bool, ReadError> {
    let tracking = read_trak(heap, &TRACKS)?;
    Ok(tracking.tracking_at(Direction::LeftToRight, 0, 12 * 65536) == 9)
}

/// Whether an outline is read over a heap, and has its points.
fn is_outline_read(heap: &LocalHeap) -> Result<bool, ReadError> {
    let outline = Outlines::new(&GLYPH, &PLACES, false, 1).outline(heap, 0)?;
    Ok(outline.points().len() == 4)
}

/// Whether a table is read over a heap, and answers what its bytes say.
pub(crate) fn is_read(heap: &LocalHeap, reader: Reader) -> Result<bool, ReadError> {
    match reader {
        Reader::Feat => is_feat_read(heap),
        Reader::Lookup => is_lookup_read(heap),
        Reader::Machine => is_machine_read(heap),
        Reader::Pairs => are_pairs_read(heap),
        Reader::Tracks => are_tracks_read(heap),
        Reader::Outline => is_outline_read(heap),
    }
}
