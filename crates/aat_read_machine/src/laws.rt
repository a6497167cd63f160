//! Laws of machines and subtables that are read, as theorems. These calls do nothing: what is proved is their contracts.
ghost use Rattle.aat_read_machine.specs.MachineLaws.{HasEntriesOfBytes, MachinesAreThoseOfBytes, SubtablesAreBounded};

use crate::entry_read::EntryRead;

/// A machine that is read is that of its bytes: each glyph has the class of its class table, and each state that a run
/// can come to from state 0 on has, at each class, the entry that the bytes have there.
pub fn machines_are_those_of_bytes<T: EntryRead>()
    ensures { MachinesAreThoseOfBytes T.SIZE T.extra_at }
{}

/// A machine that is read has, at each state with a row and each class, the entry that the bytes have there.
pub fn entries_are_those_of_bytes<T: EntryRead>()
    ensures { HasEntriesOfBytes T.extra_at }
{}

/// A subtable that is read takes less than 19 bytes of memory for each byte from its place on: its machine, its lists,
/// its classes and its lookups together. What a `Vec` has room for beyond what it holds does not count.
pub fn subtables_are_bounded()
    ensures { SubtablesAreBounded }
{}
