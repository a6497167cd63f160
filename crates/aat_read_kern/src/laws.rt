//! Laws of the kerning table. These calls do nothing: what is proved is their contracts.
ghost use Rattle.aat_read_kern.specs.KernLaws.{EntriesAreThoseOfBytes, KernIsBounded, MachinesAreBounded, SubtablesAreThoseOfBytes};

/// A kerning table that is read has the subtables of its bytes, in their order, each with what its header and its bytes
/// say at its place. Those that kern are in the table, and those that are left out are told.
pub fn subtables_are_those_of_bytes()
    ensures { SubtablesAreThoseOfBytes }
{}

/// A machine of rows that are read has, at each state and class, the entry of the bytes: that which the byte of the class
/// in the row of the state names, with the state whose row it names, the two highest bits of its flags, and its value.
pub fn entries_are_those_of_bytes()
    ensures { EntriesAreThoseOfBytes }
{}

/// A machine that is read takes at most 27 bytes of memory for each byte from its place on: its rules with the cells
/// beside them, its classes and its values. What a `Vec` has room for beyond what it holds does not count.
pub fn machines_are_bounded()
    ensures { MachinesAreBounded }
{}

/// A kerning table that is read takes at most 32 bytes of memory for each of its bytes: its subtables, with their pairs,
/// classes, machines and values, and what is told of those that are left out. What a `Vec` has room for beyond what it
/// holds does not count.
pub fn kern_is_bounded()
    ensures { KernIsBounded }
{}
