//! Machines of the kerning table.
ghost use Rattle.std.specs.Prelude.{◌≡◌, ◌+◌, ◌*◌, ◌<◌, ◌≤◌, length, IfOk, MatchResult, Ok};
ghost use Rattle.aat_machine_tables.specs.Table.{table_value};
ghost use Rattle.aat_read_lookup.specs.Lookups.{Gives};
ghost use Rattle.aat_read_kern.specs.ByteStates.{rules_of};
ghost use Rattle.aat_read_kern.specs.KernMachines.{classes_of, kern_machine_at, values_of};
ghost use Rattle.aat_read_kern.specs.inside.Whole.{AreIndexed, AreNear, AreWhole, HasClasses, HasHeader};

use crate::byte_classes::ByteClasses;
use crate::byte_machine::ByteMachine;
use crate::rows::Rows;
use aat_bytes::{ReadError, be16};
use aat_kerning_tables::KernMachine;
use aat_lookup::Lookup;
use aat_machine_tables::{ExtendedStateTable, KernEntryData};
use std::alloc::{AllocError, Global};

/// The most values of a machine.
const MOST_VALUES: usize = 16384;

impl ByteMachine {
    /// The values.
    fn values(self, alloc: Global, bytes: &[u8]) -> Result<Vec<i16>, AllocError>
        requires { HasHeader bytes.now self }
        ensures { IfOk result (λ values. values.items ≡ values_of bytes.now self) }
    {
        let start = self.place + self.values as usize;
        let count = (bytes.len().saturating_sub(start) / 2).min(MOST_VALUES);
        (0..count)
            .map(|i| be16(bytes, start + 2 * i).cast_signed())
            .collect(alloc)
    }

    /// The state table of rows that are there. Fails only where it gets no memory.
    fn state_table(
        self,
        alloc: Global,
        bytes: &[u8],
        rows: Rows,
        table: ByteClasses,
    ) -> Result<ExtendedStateTable<KernEntryData>, AllocError>
        requires header { HasHeader bytes.now self }
        requires near { AreNear self rows }
        requires indexed { AreIndexed bytes.now self rows }
        requires whole { AreWhole bytes.now self rows }
        requires classes { HasClasses bytes.now table }
        ensures { IfOk result (λ machine. machine
            ≡ table_value self.class_count (classes_of bytes.now table) (rules_of bytes.now self rows)) }
    {
        let classes = table.classes(alloc, bytes)?;
        let Ok(lookup) = Lookup::new(alloc, &classes) else {
            return Err(AllocError);
        };
        let rules = self.rules(alloc, rows, bytes)?;
        match ExtendedStateTable::with_classes(alloc, self.class_count, lookup, rules) {
            Ok(machine) => Ok(machine),
            Err(_) => Err(AllocError),
        }
    }
}

/// Reads a machine of a subtable of format 1 of the table `kern`, which starts at a place. `bytes` is the table from its
/// start, up to where rows, entries, classes and values may reach. Its states are numbered anew, from the first on, and
/// behind these those before it, the nearest first. The rows are those of the first state and of every state up to the
/// furthest that entries of rows name, on either side of it. An entry has the two highest bits of its flags; their other
/// bits name a value by its offset. An offset before the values names none of them, and empties the stack.
///
/// The first fault in this order, of `kern`, with its place from the start of the table: 1, `PastEnd`, a header of 10
/// bytes that is not there, and 3, `ShortLength`, fewer than 4 classes, both at `place`; 1, the first row that reaches
/// past the end, and the first entry, by states and then classes, that does; 1, a class table of 4 bytes that is not
/// there, at its place, and classes that are not there, at the first of them. `OutOfMemory` comes only if the bytes have
/// no fault.
///
/// Apple's TrueType Reference Manual, "The 'kern' table", format 1.
#[tactic(auto, unfolding(crate::specs::KernMachines::kern_machine_at))]
pub fn read_kern_machine(
    alloc: Global,
    bytes: &[u8],
    place: usize,
) -> Result<KernMachine, ReadError>
    ensures { Gives result (kern_machine_at bytes.now place) }
{
    let machine = ByteMachine::read(bytes, place)?;
    let rows = machine.whole_rows(bytes)?;
    let table = ByteClasses::read(bytes, machine.place + machine.classes as usize)?;
    let state_table = machine.state_table(alloc, bytes, rows, table)?;
    let values = machine.values(alloc, bytes)?;
    Ok(KernMachine {
        state_table,
        values,
    })
}
