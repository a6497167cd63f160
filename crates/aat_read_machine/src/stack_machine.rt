//! State tables of `kerx` whose entries name values by bytes.
ghost use Rattle.std.specs.Prelude.{◌≡◌, ◌*◌, ◌<◌, ◌≤◌, true, IfOk};
ghost use Rattle.aat_read_lookup.specs.Lookups.{Gives};
ghost use Rattle.aat_read_machine.specs.Entries.{stack_action_at, value_index};
ghost use Rattle.aat_read_machine.specs.Machine.{machine_at, with_classes};
ghost use Rattle.aat_read_machine.specs.StateArray.{AreIndexed, AreWhole, has_entry, has_index, rule_of, rules_of};

use crate::state_array::StateArray;
use aat_bytes::{ReadError, Tag};
use aat_machine_tables::{EntryData, ExtendedStateTable, GenericStateEntry};
use aat_read_lookup::read_lookup;
use std::alloc::{AllocError, Allocator};

/// The index of the value that begins at a byte; 0xFFFF is none.
fn value_index(byte: u16) -> u16
    ensures { result ≡ value_index byte }
{
    if byte == 0xFFFF { 0xFFFF } else { byte / 2 }
}

impl<'a> StateArray<'a> {
    /// The rule of a cell.
    fn stack_rule(&self, cell: usize) -> (u16, u16, GenericStateEntry<EntryData>)
        requires few { cell < 65536 * self.now.class_count }
        requires size { self.now.entry_size ≡ 6 }
        requires indexed { has_index self.now cell ≡ true }
        requires whole { has_entry self.now cell ≡ true }
        ensures { result ≡ rule_of stack_action_at self.now cell }
    {
        let (state, class, entry) = self.rule::<EntryData>(cell);
        let extra = EntryData {
            action_index: value_index(entry.extra.action_index),
        };
        let entry = GenericStateEntry {
            new_state: entry.new_state,
            flags: entry.flags,
            extra,
        };
        (state, class, entry)
    }

    /// The rules of so many cells.
    fn stack_rules<A: Allocator>(
        &self,
        alloc: A,
        cells: usize,
    ) -> Result<Vec<(u16, u16, GenericStateEntry<EntryData>), A>, AllocError>
        requires few { cells ≤ 65536 * self.now.class_count }
        requires size { self.now.entry_size ≡ 6 }
        requires indexed { AreIndexed self.now cells }
        requires whole { AreWhole self.now cells }
        ensures { IfOk result (λ rules. rules.items ≡ rules_of stack_action_at self.now cells) }
    {
        (0..cells).map(|cell| self.stack_rule(cell)).collect(alloc)
    }
}

/// Reads a state table as `read_machine` does, with the same faults, whose entries name the values of a stack machine of
/// `kerx`. An entry has a number of bytes from the first value on, of which each value takes two. Its half is the place
/// of the value; 0xFFFF stays, and names none.
///
/// `OutOfMemory` comes only if the bytes have no fault.
///
/// Apple's TrueType Reference Manual, "The 'kerx' table", format 1.
#[tactic(auto, unfolding(crate::specs::Machine::machine_at, crate::specs::Machine::with_classes))]
pub fn read_stack_machine<A: Allocator + Copy>(
    alloc: A,
    table: Tag,
    bytes: &[u8],
    place: usize,
    glyph_count: u16,
) -> Result<ExtendedStateTable<EntryData, A>, ReadError>
    ensures { Gives result (machine_at 2 stack_action_at table bytes.now place glyph_count) }
{
    let array = StateArray::read(table, bytes, place, 2)?;
    let cells = array.cells()?;
    let classes = read_lookup(alloc, table, bytes, array.class_place(), glyph_count)?;
    let rules = array.stack_rules(alloc, cells.count)?;
    match ExtendedStateTable::with_classes(alloc, array.class_count(), classes, rules) {
        Ok(machine) => Ok(machine),
        Err(_) => Err(ReadError::OutOfMemory),
    }
}
