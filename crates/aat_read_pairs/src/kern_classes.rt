//! Pairs by classes whose offsets are added up: format 2 of the kerning table.
ghost use Rattle.std.specs.Prelude.{◌≡◌, ◌+◌, ◌*◌, ◌^◌, ◌<◌, ◌≤◌, length, IfOk, IfSome};
ghost use Rattle.aat_read_lookup.specs.Lookups.{Gives};
ghost use Rattle.aat_read_pairs.specs.KernClasses.{array_place, checked_table_at, class_of, classes_of, columns_of, first_odd, grid_at, grid_value, grid_values, kern_classes_at, value_count};
ghost use Rattle.aat_read_pairs.specs.inside.Inside.{HasOffsets, HasRow};

use crate::class_table::ClassTable;
use crate::made::class_pairs;
use aat_bytes::tags::KERN;
use aat_bytes::{Fault, FaultKind, ReadError, be16};
use aat_kerning_tables::ClassPairs;
use std::alloc::{AllocError, Allocator};

/// The side of a pair on which a glyph stands.
#[derive(Clone, Copy)]
pub(crate) enum Side {
    /// The left side: its class is a row.
    Left,
    /// The right side: its class is a column.
    Right,
}

/// A subtable by classes.
#[derive(Clone, Copy)]
pub(crate) struct KernGrid {
    /// Where the subtable starts.
    pub(crate) start: usize,
    /// How many bytes a row has.
    pub(crate) width: u16,
    /// The offset of the left classes.
    pub(crate) left: u16,
    /// The offset of the right classes.
    pub(crate) right: u16,
    /// The offset of the array.
    pub(crate) array: u16,
}

impl KernGrid {
    /// The subtable that starts at a place and goes on at another one.
    #[tactic(auto, unfolding(crate::specs::KernClasses::grid_at))]
    fn read(bytes: &[u8], start: usize, place: usize) -> Result<KernGrid, Fault>
        requires { start ≤ length bytes.now }
        ensures is { result ≡ grid_at bytes.now start place }
        ensures row { IfOk result (λ grid. HasRow bytes.now grid) }
        ensures start { IfOk result (λ grid. grid.start ≡ start) }
    {
        if bytes.len() < 8 || place > bytes.len() - 8 {
            return Err(Fault::new(KERN, FaultKind::PastEnd, place));
        }
        let width = be16(bytes, place);
        if width == 0 || width % 2 == 1 {
            return Err(Fault::new(KERN, FaultKind::ShortLength, place));
        }
        let array = be16(bytes, place + 6);
        let first_row = start + array as usize;
        if bytes.len() < first_row + width as usize {
            return Err(Fault::new(KERN, FaultKind::PastEnd, first_row));
        }
        Ok(KernGrid {
            start,
            width,
            left: be16(bytes, place + 2),
            right: be16(bytes, place + 4),
            array,
        })
    }

    /// The class of an offset, if it has one.
    fn class_of(self, side: Side, offset: u16) -> Option<u16>
        requires { 1 < self.width }
        ensures { result ≡ class_of self side offset }
    {
        match side {
            Side::Left => {
                if offset == 0 {
                    return Some(0);
                }
                if offset < self.array {
                    return None;
                }
                let rows = offset - self.array;
                if rows % self.width == 0 {
                    Some(rows / self.width + 1)
                } else {
                    None
                }
            }
            Side::Right => {
                if offset < self.width && offset % 2 == 0 {
                    Some(offset / 2)
                } else {
                    None
                }
            }
        }
    }

    /// The first offset of a class table that has no class.
    fn first_odd(self, side: Side, table: ClassTable, bytes: &[u8]) -> Option<usize>
        requires wide { 1 < self.width }
        requires inside { HasOffsets bytes.now table }
        ensures first { result ≡ first_odd bytes.now self side table }
        ensures below { IfSome result (λ k. k < table.count) }
    {
        (0..table.count).find(|k| self.class_of(side, table.offset(*k, bytes)).is_none())
    }

    /// A class table each of whose offsets has a class.
    #[tactic(auto, unfolding(crate::specs::KernClasses::checked_table_at))]
    fn checked_table(self, side: Side, bytes: &[u8], place: usize) -> Result<ClassTable, Fault>
        requires { 1 < self.width }
        ensures is { result ≡ checked_table_at bytes.now self side place }
        ensures inside { IfOk result (λ table. HasOffsets bytes.now table) }
    {
        let table = ClassTable::read(bytes, place)?;
        match self.first_odd(side, table, bytes) {
            Some(k) => Err(Fault::new(KERN, FaultKind::UnknownFormat, table.place(k, bytes))),
            None => Ok(table),
        }
    }

    /// Each glyph of a class table with its class.
    fn classes<A: Allocator>(
        self,
        alloc: A,
        side: Side,
        table: ClassTable,
        bytes: &[u8],
    ) -> Result<Vec<(u16, u16), A>, AllocError>
        requires wide { 1 < self.width }
        requires inside { HasOffsets bytes.now table }
        ensures { IfOk result (λ classes. classes.items ≡ classes_of bytes.now self side table) }
    {
        (0..table.count)
            .map(|k| {
                let class = self.class_of(side, table.offset(k, bytes));
                (table.first + k as u16, class.unwrap_or(0))
            })
            .collect(alloc)
    }

    /// The number of values in a row.
    fn columns(self) -> u16
        ensures { result ≡ columns_of self }
    {
        self.width / 2
    }

    /// The value of an index.
    fn value(self, bytes: &[u8], i: usize) -> i16
        requires row { HasRow bytes.now self }
        requires below { i < value_count bytes.now self }
        ensures { result ≡ grid_value bytes.now self i }
    {
        let columns = self.columns() as usize;
        if i < columns {
            return 0;
        }
        let array = self.start + self.array as usize;
        be16(bytes, array + 2 * (i - columns)).cast_signed()
    }

    /// The values.
    fn values<A: Allocator>(self, alloc: A, bytes: &[u8]) -> Result<Vec<i16, A>, AllocError>
        requires { HasRow bytes.now self }
        ensures { IfOk result (λ values. values.items ≡ grid_values bytes.now self) }
    {
        let array = self.start + self.array as usize;
        let count = self.columns() as usize + (bytes.len() - array) / 2;
        (0..count).map(|i| self.value(bytes, i)).collect(alloc)
    }
}

/// Reads the pairs of a subtable of format 2 of the table `kern`, by classes. `bytes` is the table from its start, up to
/// where the subtable may reach; `start` is where its header starts, and `place` where it goes on behind it. A left
/// glyph without an offset, or with offset 0, has class 0 and kerns nothing; a right one without an offset is in the
/// first column.
///
/// The first fault in this order, of `kern`, with its place from the start of the table: 1, `PastEnd`, 8 bytes that are
/// not there, at `place`; 3, `ShortLength`, a row of no bytes or of an odd number, at `place`; 1, a first row that is
/// not there, at the array. Then for the left classes and after them for the right ones: 1, 4 bytes that are not there,
/// at the class table, and offsets that are not there, at the first of them; 2, `UnknownFormat`, at the first offset
/// that is neither 0 nor that of a row, and of the right ones that of no column. `OutOfMemory` comes only if the bytes
/// have no fault.
///
/// Apple's TrueType Reference Manual, "The 'kern' table", format 2.
#[tactic(auto, unfolding(crate::specs::KernClasses::kern_classes_at))]
pub fn read_kern_classes<A: Allocator + Copy>(
    alloc: A,
    bytes: &[u8],
    start: usize,
    place: usize,
) -> Result<ClassPairs<A>, ReadError>
    requires { start ≤ length bytes.now }
    ensures { Gives result (kern_classes_at bytes.now start place) }
{
    let grid = KernGrid::read(bytes, start, place)?;
    let left = grid.checked_table(Side::Left, bytes, start + grid.left as usize)?;
    let right = grid.checked_table(Side::Right, bytes, start + grid.right as usize)?;
    let left = grid.classes(alloc, Side::Left, left, bytes)?;
    let right = grid.classes(alloc, Side::Right, right, bytes)?;
    let values = grid.values(alloc, bytes)?;
    Ok(class_pairs(alloc, &left, &right, grid.columns(), values)?)
}
