//! Lookups whose values are offsets of rows.
ghost use Rattle.std.specs.Prelude.{◌≡◌, ◌<◌, map, IfOk};
ghost use Rattle.aat_read_lookup.specs.LongLookups.{in_long_row, long_pairs_of, long_rows_at};
ghost use Rattle.aat_read_lookup.specs.Lookups.{Gives, pairs_of};
ghost use Rattle.aat_read_lookup.specs.Rows.{in_row, rows_at};
ghost use Rattle.aat_read_lookup.specs.inside.Sound.{IsSound};

use crate::kept::Keep;
use crate::layout::Layout;
use crate::lookup::{lookup_of, spread_lookup};
use crate::segment::ValueKind;
use aat_bytes::{ReadError, Tag};
use aat_lookup::Lookup;
use std::alloc::{AllocError, Allocator};

/// The rows of a layout. Fails only where they get no memory.
fn rows_of<A: Allocator + Copy>(
    alloc: A,
    layout: Layout,
    bytes: &[u8],
    width: u16,
) -> Result<Lookup<A>, AllocError>
    requires wide { 0 < width }
    requires sound { IsSound bytes.now layout }
    ensures { IfOk result (λ lookup. lookup ≡ map (in_row width) (pairs_of bytes.now layout)) }
{
    lookup_of(alloc, layout, bytes, Keep::Row(width))
}

/// The rows of a layout whose values have 32 bits, in segments. Fails only where they get no memory.
fn long_rows_of<A: Allocator + Copy>(
    alloc: A,
    layout: Layout,
    bytes: &[u8],
    width: u16,
) -> Result<Lookup<A>, AllocError>
    requires wide { 0 < width }
    requires sound { IsSound bytes.now layout }
    ensures { IfOk result (λ lookup. lookup ≡ map (in_long_row width) (long_pairs_of bytes.now layout)) }
{
    let rise = layout.does_rise(bytes);
    spread_lookup(alloc, layout, bytes, rise, Keep::LongRow(width))
}

/// Reads the lookup that starts at a place of a table, as `read_lookup` does, with the same faults, and gives each glyph
/// the row of its value: rows have so many values, and a value is the offset of a row, which counts values. A value
/// inside of a row gives that row. It takes as much memory as the lookup that `read_lookup` gives.
///
/// Apple's TrueType Reference Manual, "The 'kerx' table", formats 2 and 6.
pub fn read_rows<A: Allocator + Copy>(
    alloc: A,
    table: Tag,
    bytes: &[u8],
    place: usize,
    glyph_count: u16,
    width: u16,
) -> Result<Lookup<A>, ReadError>
    requires { 0 < width }
    ensures { Gives result (rows_at table bytes.now place glyph_count width) }
{
    let layout = Layout::read(table, bytes, place, glyph_count, ValueKind::Word)?;
    Ok(rows_of(alloc, layout, bytes, width)?)
}

/// Reads the lookup with values of 32 bits that starts at a place of a table, in bytes from the start of the table, and
/// gives each glyph the row of its value: rows have `width` values, and a value counts the values before its row. A value
/// inside of a row gives that row, and one from row 65,535 on gives 65,535. With a width of 1 the values are those of
/// the lookup, as far as they have 16 bits. `bytes` is the whole table: the lists of a lookup may reach to its end, and
/// its offsets count from the start of the lookup. The formats are 0, 2, 4, 6, 8, and 10 with values of one, two or four
/// bytes. `glyph_count` is the number of glyphs of `maxp`, which format 0 has values for.
///
/// The first fault in this order, of `table`, with its place from the start of the table. 1, `PastEnd`, a lookup whose
/// format is not there, and 2, `UnknownFormat`, one of another format, both at `place`. Of formats 0, 8 and 10: 1, a
/// header that is not there, at `place`; 2, values of another size than 1, 2 or 4, at the size; 1, values that are not
/// there, at the first value. Of formats 2, 4 and 6: 1, a header of 12 bytes that is not there, at `place`; 3,
/// `ShortLength`, units that are smaller than their records of 8, 6 and 6 bytes, at their size; 1, units that are not
/// there, at the first of them; then for each unit of format 4 in the order of the file, found or not, 5, `NotRising`, at
/// the unit, if its last glyph is below its first one, and 1, values that are not there, at the first value; and last 1,
/// units of format 4 that share so many values that these, counted for each unit, and the records of the units are more
/// bytes than stand from `place` to the end of the table, at `place`. A unit may be wider than its record. A terminator
/// that is counted as the last unit is none. A glyph has the value of the unit that a bisection finds, as `read_lookup`
/// says.
///
/// `OutOfMemory` comes only if the bytes have no fault. There are at most 65,536 glyphs. They are kept as segments, one
/// for each unit of the formats 2 and 6, and one for each glyph of the others, of 6 bytes: at most 6 for each byte that
/// `long_lookup_bytes` counts. Its list is in memory twice until it is read.
///
/// Apple's TrueType Reference Manual, "Font Tables", section on lookup tables.
pub fn read_long_rows<A: Allocator + Copy>(
    alloc: A,
    table: Tag,
    bytes: &[u8],
    place: usize,
    glyph_count: u16,
    width: u16,
) -> Result<Lookup<A>, ReadError>
    requires { 0 < width }
    ensures { Gives result (long_rows_at table bytes.now place glyph_count width) }
{
    let layout = Layout::read(table, bytes, place, glyph_count, ValueKind::Long)?;
    Ok(long_rows_of(alloc, layout, bytes, width)?)
}
