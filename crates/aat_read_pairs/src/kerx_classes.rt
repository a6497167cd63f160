//! Pairs by classes whose classes are lookups: formats 2 and 6 of the extended kerning table.
ghost use Rattle.std.specs.Prelude.{◌≡◌, ◌+◌, ◌*◌, ◌^◌, ◌<◌, ◌≤◌, length, IfOk};
ghost use Rattle.aat_read_lookup.specs.Lookups.{Gives};
ghost use Rattle.aat_read_pairs.specs.KerxClasses.{array_grid_at, array_value, array_values, class_grid_at, column_count_at, grid_pairs, kerx_arrays_at, kerx_classes_at};
ghost use Rattle.aat_read_pairs.specs.inside.Inside.{IsNear};

use crate::values::Tuples;
use aat_bytes::tags::KERX;
use aat_bytes::{Fault, FaultKind, ReadError, be16, be32};
use aat_kerning_tables::ClassPairs;
use aat_read_lookup::{lookup_bytes, read_lookup, read_rows};
use std::alloc::{AllocError, Allocator};

/// A subtable whose classes are lookups.
#[derive(Clone, Copy)]
pub(crate) struct KerxGrid {
    /// Where the lookup of left glyphs starts.
    pub(crate) rows: usize,
    /// Where the lookup of right glyphs starts.
    pub(crate) columns: usize,
    /// The number of values in a row.
    pub(crate) column_count: u16,
    /// Where the array of values starts.
    pub(crate) array: usize,
    /// The tuples of the values.
    pub(crate) tuples: Tuples,
}

/// A number of values in a row.
pub(crate) fn column_count_at(place: usize, count: u32) -> Result<u16, Fault>
    ensures is { result ≡ column_count_at place count }
    ensures some { IfOk result (λ count. 0 < count) }
{
    if count == 0 {
        return Err(Fault::new(KERX, FaultKind::ShortLength, place));
    }
    if count > 65535 {
        return Err(Fault::new(KERX, FaultKind::PastEnd, place));
    }
    Ok(count as u16)
}

impl KerxGrid {
    /// A subtable of format 2.
    #[tactic(auto, unfolding(crate::specs::KerxClasses::class_grid_at))]
    fn of_classes(bytes: &[u8], start: usize, tuple_count: u32) -> Result<KerxGrid, Fault>
        ensures is { result ≡ class_grid_at bytes.now start tuple_count }
        ensures near { IfOk result IsNear }
    {
        if bytes.len() < 28 || start > bytes.len() - 28 {
            return Err(Fault::new(KERX, FaultKind::PastEnd, start));
        }
        let column_count = column_count_at(start + 12, be32(bytes, start + 12) / 2)?;
        Ok(KerxGrid {
            rows: start + be32(bytes, start + 16) as usize,
            columns: start + be32(bytes, start + 20) as usize,
            column_count,
            array: start + be32(bytes, start + 24) as usize,
            tuples: Tuples {
                place: start,
                count: tuple_count,
            },
        })
    }

    /// A subtable of format 6.
    #[tactic(auto, unfolding(crate::specs::KerxClasses::array_grid_at))]
    fn of_arrays(bytes: &[u8], start: usize, tuple_count: u32) -> Result<KerxGrid, Fault>
        ensures is { result ≡ array_grid_at bytes.now start tuple_count }
        ensures near { IfOk result IsNear }
    {
        if bytes.len() < 36 || start > bytes.len() - 36 {
            return Err(Fault::new(KERX, FaultKind::PastEnd, start));
        }
        if be32(bytes, start + 12) % 2 == 1 {
            return Err(Fault::new(KERX, FaultKind::UnknownFormat, start + 12));
        }
        let column_count = column_count_at(start + 18, be16(bytes, start + 18) as u32)?;
        Ok(KerxGrid {
            rows: start + be32(bytes, start + 20) as usize,
            columns: start + be32(bytes, start + 24) as usize,
            column_count,
            array: start + be32(bytes, start + 28) as usize,
            tuples: Tuples {
                place: start + be32(bytes, start + 32) as usize,
                count: tuple_count,
            },
        })
    }

    /// The value of an index of the array.
    fn value(self, bytes: &[u8], i: usize) -> i16
        requires near { IsNear self }
        requires inside { self.array + 2 * i + 2 ≤ length bytes.now }
        ensures { result ≡ array_value bytes.now self i }
    {
        self.tuples.value(bytes, be16(bytes, self.array + 2 * i))
    }

    /// The values.
    fn values<A: Allocator>(self, alloc: A, bytes: &[u8]) -> Result<Vec<i16, A>, AllocError>
        requires { IsNear self }
        ensures { IfOk result (λ values. values.items ≡ array_values bytes.now self) }
    {
        let count = bytes.len().saturating_sub(self.array) / 2;
        (0..count).map(|i| self.value(bytes, i)).collect(alloc)
    }

    /// The pairs of the subtable.
    #[tactic(auto, unfolding(crate::specs::KerxClasses::grid_pairs))]
    fn pairs<A: Allocator + Copy>(
        self,
        alloc: A,
        bytes: &[u8],
        glyph_count: u16,
    ) -> Result<ClassPairs<A>, ReadError>
        requires { IsNear self }
        ensures { Gives result (grid_pairs bytes.now glyph_count self) }
    {
        lookup_bytes(KERX, bytes, self.rows, glyph_count)?;
        lookup_bytes(KERX, bytes, self.columns, glyph_count)?;
        let count = self.column_count;
        let left = read_rows(alloc, KERX, bytes, self.rows, glyph_count, count)?;
        let right = read_lookup(alloc, KERX, bytes, self.columns, glyph_count)?;
        let values = self.values(alloc, bytes)?;
        Ok(ClassPairs::from_lookups(alloc, left, right, count, values)?)
    }
}

/// Reads the pairs of a subtable of format 2 of the table `kerx`, by classes. `bytes` is the table from its start, up to
/// where the subtable may reach, and `start` is where its header of 12 bytes starts. The lookup of left glyphs has the
/// offset of a row, which counts values, and that of right glyphs a column; a glyph without one is in the first. A
/// number of the array is a value, or, with a tuple count above 0, the offset from `start` of the tuple whose first
/// value it is; 0 where the tuple is not there as a whole. Past the end there are no values.
///
/// The first fault in this order, of `kerx`, with its place from the start of the table: 1, `PastEnd`, 28 bytes that are
/// not there, at `start`; 3, `ShortLength`, a row of fewer than 2 bytes, and 1, one of more than 131,071, at the width;
/// then those of the lookup of left glyphs and of that of right ones, as `read_lookup` has them. `OutOfMemory` comes only
/// if the bytes have no fault.
///
/// Apple's TrueType Reference Manual, "The 'kerx' table", format 2.
pub fn read_kerx_classes<A: Allocator + Copy>(
    alloc: A,
    bytes: &[u8],
    start: usize,
    glyph_count: u16,
    tuple_count: u32,
) -> Result<ClassPairs<A>, ReadError>
    ensures { Gives result (kerx_classes_at bytes.now start glyph_count tuple_count) }
{
    let grid = KerxGrid::of_classes(bytes, start, tuple_count)?;
    grid.pairs(alloc, bytes, glyph_count)
}

/// Reads the pairs of a subtable of format 6 of the table `kerx`, by rows and columns, as `read_kerx_classes` does.
/// Offsets of tuples count from where the subtable's offset of them says.
///
/// The first fault in this order, of `kerx`, with its place from the start of the table: 1, `PastEnd`, 36 bytes that are
/// not there, at `start`; 2, `UnknownFormat`, values and lookups of 32 bits, which `read_kerx_long_arrays` reads, at the
/// flags; 3, `ShortLength`, rows of no value, at the number of columns; then those of the lookup of left glyphs and of that of right ones, as `read_lookup`
/// has them. `OutOfMemory` comes only if the bytes have no fault.
///
/// Apple's TrueType Reference Manual, "The 'kerx' table", format 6.
pub fn read_kerx_arrays<A: Allocator + Copy>(
    alloc: A,
    bytes: &[u8],
    start: usize,
    glyph_count: u16,
    tuple_count: u32,
) -> Result<ClassPairs<A>, ReadError>
    ensures { Gives result (kerx_arrays_at bytes.now start glyph_count tuple_count) }
{
    let grid = KerxGrid::of_arrays(bytes, start, tuple_count)?;
    grid.pairs(alloc, bytes, glyph_count)
}
