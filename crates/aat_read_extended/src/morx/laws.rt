//! Laws of the chains of `morx`. These calls do nothing: what is proved is their contracts.
ghost use Rattle.aat_read_extended.specs.morx.MorxLaws.{ChainsAreCounted, ChainsAreThoseOfBytes, MemoryIsBounded};

/// A table that is read has the chains of its bytes, in their order. Each has the default flags, the features and the
/// subtables that the bytes have at its place, in their order. They end inside its length, and it ends in the table.
pub fn chains_are_those_of_bytes()
    ensures { ChainsAreThoseOfBytes }
{}

/// A table that is read has as many chains as its header says, and no more than 65,535 subtables.
pub fn chains_are_counted()
    ensures { ChainsAreCounted }
{}

/// A table that is read takes at most 24 bytes of memory for each of its bytes. What a `Vec` has room for beyond what it
/// holds does not count.
pub fn memory_is_bounded()
    ensures { MemoryIsBounded }
{}
