//! Pairs by classes whose values are named by an index: format 3 of the kerning table.
ghost use Rattle.std.specs.Prelude.{◌≡◌, ◌+◌, ◌*◌, ◌^◌, ◌<◌, ◌≤◌, length, IfOk};
ghost use Rattle.aat_read_lookup.specs.Lookups.{Gives};
ghost use Rattle.aat_read_pairs.specs.KernIndexes.{byte_classes, index_count, index_place, indexed_value, indexed_values, indexes_at, kern_indexes_at, left_place, right_place};
ghost use Rattle.aat_read_pairs.specs.inside.Inside.{HasIndexes};

use crate::made::class_pairs;
use aat_bytes::tags::KERN;
use aat_bytes::{Fault, FaultKind, ReadError, be16};
use aat_kerning_tables::ClassPairs;
use std::alloc::{AllocError, Allocator};

/// A subtable by indexes.
#[derive(Clone, Copy)]
pub(crate) struct KernIndexes {
    /// Where the values start.
    pub(crate) values: usize,
    /// The number of glyphs.
    pub(crate) glyph_count: u16,
    /// The number of values.
    pub(crate) value_count: u8,
    /// The number of left classes.
    pub(crate) left_count: u8,
    /// The number of right classes.
    pub(crate) right_count: u8,
}

/// Each of so many glyphs with its class, of one byte.
fn byte_classes<A: Allocator>(
    alloc: A,
    bytes: &[u8],
    place: usize,
    count: u16,
) -> Result<Vec<(u16, u16), A>, AllocError>
    requires { place + count ≤ length bytes.now }
    ensures { IfOk result (λ classes. classes.items ≡ byte_classes bytes.now place count) }
{
    (0..count)
        .map(|glyph| (glyph, bytes[place + glyph as usize] as u16))
        .collect(alloc)
}

impl KernIndexes {
    /// The subtable that goes on at a place.
    #[tactic(auto, unfolding(crate::specs::KernIndexes::indexes_at))]
    fn read(bytes: &[u8], place: usize) -> Result<KernIndexes, Fault>
        ensures is { result ≡ indexes_at bytes.now place }
        ensures inside { IfOk result (λ grid. HasIndexes bytes.now grid) }
    {
        if bytes.len() < 6 || place > bytes.len() - 6 {
            return Err(Fault::new(KERN, FaultKind::PastEnd, place));
        }
        let grid = KernIndexes {
            values: place + 6,
            glyph_count: be16(bytes, place),
            value_count: bytes[place + 2],
            left_count: bytes[place + 3],
            right_count: bytes[place + 4],
        };
        let size = 2 * (grid.value_count as usize + grid.glyph_count as usize) + grid.index_count();
        if bytes.len() < place + 6 + size {
            return Err(Fault::new(KERN, FaultKind::PastEnd, place + 6));
        }
        Ok(grid)
    }

    /// The number of indexes.
    fn index_count(self) -> usize
        ensures is { result ≡ index_count self }
        ensures few { result < 65536 }
    {
        self.left_count as usize * self.right_count as usize
    }

    /// Where the left classes of glyphs start.
    fn left_place(self, bytes: &[u8]) -> usize
        requires { HasIndexes bytes.now self }
        ensures { result ≡ left_place self }
    {
        self.values + 2 * self.value_count as usize
    }

    /// Where the right classes start.
    fn right_place(self, bytes: &[u8]) -> usize
        requires { HasIndexes bytes.now self }
        ensures { result ≡ right_place self }
    {
        self.left_place(bytes) + self.glyph_count as usize
    }

    /// The value that an index names.
    fn value(self, bytes: &[u8], i: usize) -> i16
        requires inside { HasIndexes bytes.now self }
        requires below { i < index_count self }
        ensures { result ≡ indexed_value bytes.now self i }
    {
        let indexes = self.right_place(bytes) + self.glyph_count as usize;
        let index = bytes[indexes + i];
        if index < self.value_count {
            return be16(bytes, self.values + 2 * index as usize).cast_signed();
        }
        0
    }

    /// The values.
    fn values<A: Allocator>(self, alloc: A, bytes: &[u8]) -> Result<Vec<i16, A>, AllocError>
        requires { HasIndexes bytes.now self }
        ensures { IfOk result (λ values. values.items ≡ indexed_values bytes.now self) }
    {
        (0..self.index_count())
            .map(|i| self.value(bytes, i))
            .collect(alloc)
    }
}

/// Reads the pairs of a subtable of format 3 of the table `kern`, by classes and indexes of values. `bytes` is the table
/// from its start, up to where the subtable may reach, and `place` is where it goes on behind its header. A glyph at or
/// above the number of glyphs has class 0; a class at or above the number of classes, and an index of no value, kern
/// nothing.
///
/// The first fault in this order, of `kern`, with its place from the start of the table: 1, `PastEnd`, 6 bytes that are
/// not there, at `place`; 1, values, classes or indexes that are not there, at the first value. `OutOfMemory` comes only
/// if the bytes have no fault.
///
/// Apple's TrueType Reference Manual, "The 'kern' table", format 3.
#[tactic(auto, unfolding(crate::specs::KernIndexes::kern_indexes_at))]
pub fn read_kern_indexes<A: Allocator + Copy>(
    alloc: A,
    bytes: &[u8],
    place: usize,
) -> Result<ClassPairs<A>, ReadError>
    ensures { Gives result (kern_indexes_at bytes.now place) }
{
    let grid = KernIndexes::read(bytes, place)?;
    let glyph_count = grid.glyph_count;
    let left = byte_classes(alloc, bytes, grid.left_place(bytes), glyph_count)?;
    let right = byte_classes(alloc, bytes, grid.right_place(bytes), glyph_count)?;
    let values = grid.values(alloc, bytes)?;
    Ok(class_pairs(alloc, &left, &right, grid.right_count as u16, values)?)
}
