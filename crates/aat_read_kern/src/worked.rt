//! Worked examples of the kerning table as theorems. These calls do nothing: what is proved is their contracts.
ghost use Rattle.aat_read_kern.specs.KernExamples.{HeadersHaveTheirBits, LastReachesToTheEnd, MachineFaultsHaveTheirPlaces, OthersAreLeftOut, StatesAreNumberedAnew};
ghost use Rattle.aat_read_kern.specs.SizeExamples.{SizesAreKnown};

/// The definitions of machines of bytes compute to the examples.
#[tactic(auto, unfolding(crate::specs::KernMachines::kern_machine_at, crate::specs::KernMachines::byte_classes_at, crate::specs::ByteMachines::byte_machine_at, crate::specs::ByteMachines::has_index, crate::specs::ByteMachines::has_entry, crate::specs::ByteStates::rows_of, crate::specs::ByteStates::closed_rows, crate::specs::ByteStates::with_named, crate::specs::ByteStates::whole_rows))]
pub fn machines()
    ensures states { StatesAreNumberedAnew }
    ensures faults { MachineFaultsHaveTheirPlaces }
{}

/// The definitions of the table compute to the examples.
#[tactic(auto, unfolding(crate::specs::Kern::list_of, crate::specs::Kern::subtable_at, crate::specs::Kern::read_up_to, crate::specs::Kern::end_at, crate::specs::Kern::kern_kind_at, aat_read_pairs::specs::ListedPairs::kern_pairs_at, aat_read_pairs::specs::ListedPairs::listed_pairs))]
pub fn tables()
    ensures lengths { LastReachesToTheEnd }
    ensures headers { HeadersHaveTheirBits }
    ensures others { OthersAreLeftOut }
{}

/// The types by which memory is counted have their sizes.
pub fn sizes()
    ensures { SizesAreKnown }
{}
