//! Pairs by rows and columns with values of 32 bits: the long form of format 6 of the extended kerning table.
ghost use Rattle.std.specs.Prelude.{◌≡◌, ◌+◌, ◌-◌, ◌*◌, ◌/◌, ◌^◌, ◌<◌, ◌≤◌, find, is_none, length, IfOk, IfSome};
ghost use Rattle.std.specs.List.{range_with_len};
ghost use Rattle.aat_read_lookup.specs.Lookups.{Gives};
ghost use Rattle.aat_read_pairs.specs.LongArrays.{array_value, array_values, kerx_long_arrays_at, long_grid_at, long_grid_pairs, long_value, short_grid, short_value, value_count, wide_place, wide_value_at};
ghost use Rattle.aat_read_pairs.specs.inside.Inside.{IsNearLong};

use crate::kerx_classes::column_count_at;
use crate::values::Tuples;
use aat_bytes::tags::KERX;
use aat_bytes::{Fault, FaultKind, ReadError, be16, be32};
use aat_kerning_tables::ClassPairs;
use aat_read_lookup::{long_lookup_bytes, read_long_rows};
use std::alloc::{AllocError, Allocator};

/// A number of 32 bits in two's complement, if 16 bits have it.
fn short_value(number: u32) -> Option<i16>
    ensures { result ≡ short_value number }
{
    if number < 0x8000 || number >= 0xFFFF_8000 {
        return Some(((number % 65536) as u16).cast_signed());
    }
    None
}

impl Tuples {
    /// The value of a number of 32 bits, if 16 bits have it.
    fn long_value(self, bytes: &[u8], number: u32) -> Option<i16>
        requires { self.place < 2 ^ 63 + 2 ^ 32 }
        ensures { result ≡ long_value bytes.now self number }
    {
        if self.count == 0 {
            return short_value(number);
        }
        let place = self.place + number as usize;
        if bytes.len() < place + 2 * self.count as usize {
            return Some(0);
        }
        Some(be16(bytes, place).cast_signed())
    }
}

/// A subtable whose values and lookups have 32 bits.
#[derive(Clone, Copy)]
pub(crate) struct LongGrid {
    /// Where the lookup of left glyphs starts.
    pub(crate) rows: usize,
    /// Where the lookup of right glyphs starts.
    pub(crate) columns: usize,
    /// The number of rows.
    pub(crate) row_count: u16,
    /// The number of values in a row.
    pub(crate) column_count: u16,
    /// Where the array of values starts.
    pub(crate) array: usize,
    /// The tuples of the values.
    pub(crate) tuples: Tuples,
}

impl LongGrid {
    /// The subtable that starts at a place.
    #[tactic(auto, unfolding(crate::specs::LongArrays::long_grid_at))]
    fn read(bytes: &[u8], start: usize, tuple_count: u32) -> Result<LongGrid, Fault>
        ensures is { result ≡ long_grid_at bytes.now start tuple_count }
        ensures near { IfOk result IsNearLong }
    {
        if bytes.len() < 36 || start > bytes.len() - 36 {
            return Err(Fault::new(KERX, FaultKind::PastEnd, start));
        }
        let column_count = column_count_at(start + 18, be16(bytes, start + 18) as u32)?;
        Ok(LongGrid {
            rows: start + be32(bytes, start + 20) as usize,
            columns: start + be32(bytes, start + 24) as usize,
            row_count: be16(bytes, start + 16),
            column_count,
            array: start + be32(bytes, start + 28) as usize,
            tuples: Tuples {
                place: start + be32(bytes, start + 32) as usize,
                count: tuple_count,
            },
        })
    }

    /// How many values the array has.
    fn value_count(self, bytes: &[u8]) -> usize
        ensures { result ≡ value_count bytes.now self }
    {
        let count = self.row_count as usize * self.column_count as usize;
        count.min(bytes.len().saturating_sub(self.array) / 4)
    }

    /// The value of an index of the array, if 16 bits have it.
    fn value(self, bytes: &[u8], i: usize) -> Option<i16>
        requires near { IsNearLong self }
        requires inside { self.array + 4 * i + 4 ≤ length bytes.now }
        ensures { result ≡ array_value bytes.now self i }
    {
        self.tuples
            .long_value(bytes, be32(bytes, self.array + 4 * i))
    }

    /// The first of so many values that 16 bits do not have.
    fn wide_among(self, bytes: &[u8], count: usize) -> Option<usize>
        requires near { IsNearLong self }
        requires inside { count ≤ (length bytes.now - self.array) / 4 }
        ensures first { result ≡ find (λ i. is_none (array_value bytes.now self i)) (range_with_len 0 count) }
        ensures below { IfSome result (λ i. i < count) }
    {
        (0..count).find(|i| self.value(bytes, *i).is_none())
    }

    /// The place of the first value that 16 bits do not have.
    fn wide_place(self, bytes: &[u8]) -> Option<usize>
        requires { IsNearLong self }
        ensures { result ≡ wide_place bytes.now self }
    {
        match self.wide_among(bytes, self.value_count(bytes)) {
            Some(i) => Some(self.array + 4 * i),
            None => None,
        }
    }

    /// The subtable, if 16 bits have each value.
    fn short(self, bytes: &[u8]) -> Result<LongGrid, Fault>
        requires { IsNearLong self }
        ensures is { result ≡ short_grid bytes.now self }
        ensures near { IfOk result IsNearLong }
    {
        match self.wide_place(bytes) {
            Some(place) => Err(Fault::new(KERX, FaultKind::UnknownFormat, place)),
            None => Ok(self),
        }
    }

    /// The values.
    fn values<A: Allocator>(self, alloc: A, bytes: &[u8]) -> Result<Vec<i16, A>, AllocError>
        requires { IsNearLong self }
        ensures { IfOk result (λ values. values.items ≡ array_values bytes.now self) }
    {
        (0..self.value_count(bytes))
            .map(|i| self.value(bytes, i).unwrap_or(0))
            .collect(alloc)
    }

    /// The pairs of the subtable.
    #[tactic(auto, unfolding(crate::specs::LongArrays::long_grid_pairs))]
    fn pairs<A: Allocator + Copy>(
        self,
        alloc: A,
        bytes: &[u8],
        glyph_count: u16,
    ) -> Result<ClassPairs<A>, ReadError>
        requires { IsNearLong self }
        ensures { Gives result (long_grid_pairs bytes.now glyph_count self) }
    {
        long_lookup_bytes(KERX, bytes, self.rows, glyph_count)?;
        long_lookup_bytes(KERX, bytes, self.columns, glyph_count)?;
        let count = self.column_count;
        let left = read_long_rows(alloc, KERX, bytes, self.rows, glyph_count, count)?;
        let right = read_long_rows(alloc, KERX, bytes, self.columns, glyph_count, 1)?;
        let values = self.values(alloc, bytes)?;
        Ok(ClassPairs::from_lookups(alloc, left, right, count, values)?)
    }
}

/// The place of the first value of a subtable of format 6 of the table `kerx` with values of 32 bits that 16 bits do not
/// have, if there is one and the header of the subtable is there. With a tuple count above 0 there is none, since the
/// values of tuples have 16 bits. `bytes` and `start` are those of `read_kerx_long_arrays`. It takes no memory.
///
/// Apple's TrueType Reference Manual, "The 'kerx' table", format 6.
pub fn kerx_wide_value(bytes: &[u8], start: usize, tuple_count: u32) -> Option<usize>
    ensures { result ≡ wide_value_at bytes.now start tuple_count }
{
    match LongGrid::read(bytes, start, tuple_count) {
        Ok(grid) => grid.wide_place(bytes),
        Err(_) => None,
    }
}

/// Reads the pairs of a subtable of format 6 of the table `kerx` whose values and lookups have 32 bits, by rows and
/// columns. `bytes` is the table from its start, up to where the subtable may reach, and `start` is where its header of
/// 12 bytes starts. The lookup of left glyphs has the offset of a row, which counts values, and that of right glyphs a
/// column; a glyph without one is in the first, and one in a row or a column that the array does not have kerns nothing.
/// A number of the array is a value, or, with a tuple count above 0, the offset of the tuple whose first value it is, from
/// where the subtable's offset of tuples says; 0 where the tuple is not there as a whole. The array has a number for each
/// row and column; past the end there are none.
///
/// The first fault in this order, of `kerx`, with its place from the start of the table: 1, `PastEnd`, 36 bytes that are
/// not there, at `start`; 3, `ShortLength`, rows of no value, at the number of columns; 2, `UnknownFormat`, a value that
/// 16 bits do not have, at the first of them, which `kerx_wide_value` tells; then those of the lookup of left glyphs and
/// of that of right ones, as `read_long_rows` has them. `OutOfMemory` comes only if the bytes have no fault.
///
/// Apple's TrueType Reference Manual, "The 'kerx' table", format 6.
pub fn read_kerx_long_arrays<A: Allocator + Copy>(
    alloc: A,
    bytes: &[u8],
    start: usize,
    glyph_count: u16,
    tuple_count: u32,
) -> Result<ClassPairs<A>, ReadError>
    ensures { Gives result (kerx_long_arrays_at bytes.now start glyph_count tuple_count) }
{
    let grid = LongGrid::read(bytes, start, tuple_count)?;
    let short = grid.short(bytes)?;
    short.pairs(alloc, bytes, glyph_count)
}
