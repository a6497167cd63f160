//! State tables from bytes.
ghost use Rattle.std.specs.Prelude.{◌≡◌, ◌+◌, ◌*◌, ◌^◌, ◌<◌, ◌≤◌, IfErr, IfOk, length};
ghost use Rattle.aat_bytes.specs.declared.error.ReadError.TheVariants.{OutOfMemory};
ghost use Rattle.aat_machine_tables.specs.Table.{table_value};
ghost use Rattle.aat_read_lookup.specs.Lookups.{Gives, lookup_at};
ghost use Rattle.aat_read_machine.specs.Machine.{machine_at, with_classes};
ghost use Rattle.aat_read_machine.specs.StateArray.{AreIndexed, AreWhole, class_place, rules_of};
ghost use Rattle.aat_read_machine.specs.inside.OfRows.{AreNamed};

use crate::entry_read::EntryRead;
use crate::state_array::{Cells, StateArray};
use aat_bytes::{ReadError, Tag};
use aat_lookup::Lookup;
use aat_machine_tables::ExtendedStateTable;
use aat_read_lookup::read_lookup;
use std::alloc::Allocator;

/// The machine of a state table whose cells are there, with classes and with rows as they stand.
fn of_rows<T: EntryRead, A: Allocator + Copy>(
    alloc: A,
    classes: Lookup<A>,
    array: &StateArray,
    cells: usize,
    entries: usize,
) -> Result<ExtendedStateTable<T, A>, ReadError>
    requires some { 0 < cells }
    requires few { cells ≤ 65536 * array.now.class_count }
    requires known { entries ≤ 65536 }
    requires size { array.now.entry_size ≡ 4 + T.SIZE }
    requires indexed { AreIndexed array.now cells }
    requires named { AreNamed array.now cells entries }
    requires inside { array.now.entries + array.now.entry_size * entries ≤ length array.now.bytes }
    ensures ok { IfOk result (λ machine. machine
        ≡ table_value array.now.class_count classes (rules_of T.extra_at array.now cells)) }
    ensures memory { IfErr result (λ e. e ≡ OutOfMemory) }
{
    let class_count = array.class_count();
    let rows = array.rows(alloc, cells)?;
    let entries = array.entries::<T, A>(alloc, entries)?;
    match ExtendedStateTable::of_rows(alloc, class_count, classes, rows, entries) {
        Ok(machine) => Ok(machine),
        Err(_) => Err(ReadError::OutOfMemory),
    }
}

/// The machine of a state table whose cells are there, with classes and with a rule for each cell.
fn of_rules<T: EntryRead, A: Allocator + Copy>(
    alloc: A,
    classes: Lookup<A>,
    array: &StateArray,
    cells: usize,
) -> Result<ExtendedStateTable<T, A>, ReadError>
    requires few { cells ≤ 65536 * array.now.class_count }
    requires size { array.now.entry_size ≡ 4 + T.SIZE }
    requires indexed { AreIndexed array.now cells }
    requires whole { AreWhole array.now cells }
    ensures ok { IfOk result (λ machine. machine
        ≡ table_value array.now.class_count classes (rules_of T.extra_at array.now cells)) }
    ensures memory { IfErr result (λ e. e ≡ OutOfMemory) }
{
    let rules = array.rules::<T, A>(alloc, cells)?;
    match ExtendedStateTable::with_classes(alloc, array.class_count(), classes, rules) {
        Ok(machine) => Ok(machine),
        Err(_) => Err(ReadError::OutOfMemory),
    }
}

/// The machine of a state table whose cells are there. Its rows are kept as they stand, unless they name entries far
/// apart: memory is bounded by the cells.
#[tactic(auto, unfolding(crate::specs::Machine::with_classes))]
pub(crate) fn with_classes<T: EntryRead, A: Allocator + Copy>(
    alloc: A,
    table: Tag,
    bytes: &[u8],
    glyph_count: u16,
    array: &StateArray,
    cells: Cells,
) -> Result<ExtendedStateTable<T, A>, ReadError>
    requires some { 0 < cells.count }
    requires few { cells.count ≤ 65536 * array.now.class_count }
    requires known { cells.entries ≤ 65536 }
    requires size { array.now.entry_size ≡ 4 + T.SIZE }
    requires indexed { AreIndexed array.now cells.count }
    requires whole { AreWhole array.now cells.count }
    requires named { AreNamed array.now cells.count cells.entries }
    ensures { let classes = lookup_at table bytes.now (class_place array.now) glyph_count in
        Gives result (with_classes T.extra_at array.now cells.count classes) }
{
    let classes = read_lookup(alloc, table, bytes, array.class_place(), glyph_count)?;
    if cells.entries <= cells.count && array.has_entries(cells.entries) {
        of_rows(alloc, classes, array, cells.count, cells.entries)
    } else {
        of_rules(alloc, classes, array, cells.count)
    }
}

/// Reads the state table that starts at a place of a table, in bytes from the start of the table. `bytes` is the
/// table, up to where rows, entries and classes may reach. It has the header of `morx` and `kerx`. `glyph_count` is the
/// number of glyphs of `maxp`, for classes of format 0. The rules of the machine are one for each state and class.
///
/// The first fault in this order, of `table`, with its place from the start of the table: 1, `PastEnd`, a header of 16
/// bytes that is not there, at `place`; 3, `ShortLength`, fewer than 4 classes, and 1, more than 65,535, both at
/// `place`; 1, the first row that reaches past the end; 1, the first entry, by states and then classes, that does; and
/// the faults of the class table, as `read_lookup` has them. The rows are those of state 0, in which a machine starts,
/// and of every state up to the highest that entries of rows name, so that a font may lack the row of state 1.
///
/// `OutOfMemory` comes only if the bytes have no fault.
///
/// Apple's TrueType Reference Manual, "Font Tables", section on state tables.
#[tactic(auto, unfolding(crate::specs::Machine::machine_at))]
pub fn read_machine<T: EntryRead, A: Allocator + Copy>(
    alloc: A,
    table: Tag,
    bytes: &[u8],
    place: usize,
    glyph_count: u16,
) -> Result<ExtendedStateTable<T, A>, ReadError>
    ensures { Gives result (machine_at T.SIZE T.extra_at table bytes.now place glyph_count) }
{
    let array = StateArray::read(table, bytes, place, T::SIZE)?;
    let cells = array.cells()?;
    with_classes(alloc, table, bytes, glyph_count, &array, cells)
}
