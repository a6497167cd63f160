//! Worked examples of state tables as theorems. These calls do nothing: what is proved is their contracts.
ghost use Rattle.aat_read_machine.specs.ListExamples.{GlyphsReachToTheEnd, ListsHaveOffsets, ListsReachToTheEnd, LookupMayBeTheList, LookupsOfTheListAreChecked};
ghost use Rattle.aat_read_machine.specs.MachineExamples.{MachineFaultsHaveTheirPlaces, StateOneIsNotAsked, StatesAreNamed};
ghost use Rattle.aat_read_machine.specs.RoomExamples.{FourthLookupHasNoRoom, ThreeLookupsHaveRoom};
ghost use Rattle.aat_read_machine.specs.SizeExamples.{SizesAreKnown};

/// The definitions of state tables compute to the examples.
#[tactic(auto, unfolding(crate::specs::Machine::machine_at, crate::specs::Machine::with_classes, crate::specs::StateArray::state_array_at, crate::specs::StateArray::header_at, crate::specs::StateArray::cells_of, crate::specs::StateArray::states_of, crate::specs::StateArray::least, crate::specs::StateArray::states_named, crate::specs::StateArray::has_index, crate::specs::StateArray::has_entry, aat_read_lookup::specs::Layouts::layout_at, aat_read_lookup::specs::Layouts::searched_at, aat_read_lookup::specs::Layouts::checked_units, aat_read_lookup::specs::Layouts::units_at))]
pub fn machines()
    ensures states { StatesAreNamed }
    ensures one { StateOneIsNotAsked }
    ensures faults { MachineFaultsHaveTheirPlaces }
{}

/// The definitions of contextual glyph substitution compute to the examples.
#[tactic(auto, unfolding(crate::specs::Contextual::contextual_tables_at, crate::specs::Contextual::contextual_tables, crate::specs::Contextual::lookups_within, crate::specs::Contextual::listed_lookup, crate::specs::Room::lookup_cost, crate::specs::Room::lookup_size, aat_bytes::specs::Numbers::u16_at, aat_bytes::specs::Numbers::u32_at, crate::specs::Machine::with_classes, crate::specs::StateArray::state_array_at, crate::specs::StateArray::header_at, crate::specs::StateArray::cells_of, crate::specs::StateArray::states_of, crate::specs::StateArray::least, crate::specs::StateArray::states_named, crate::specs::StateArray::has_index, crate::specs::StateArray::has_entry, aat_read_lookup::specs::Layouts::layout_at, aat_read_lookup::specs::Layouts::searched_at, aat_read_lookup::specs::Layouts::checked_units, aat_read_lookup::specs::Layouts::units_at))]
pub fn room()
    ensures three { ThreeLookupsHaveRoom }
    ensures fourth { FourthLookupHasNoRoom }
{}

/// The definitions of lists compute to the examples.
#[tactic(auto, unfolding(crate::specs::Kinds::ligature_at, crate::specs::Kinds::insertion_tables_at, crate::specs::Machine::machine_at, crate::specs::Machine::with_classes, crate::specs::StateArray::state_array_at, crate::specs::StateArray::header_at, crate::specs::StateArray::cells_of, crate::specs::StateArray::states_of, crate::specs::StateArray::least, crate::specs::StateArray::states_named, crate::specs::StateArray::has_index, crate::specs::StateArray::has_entry, aat_read_lookup::specs::Layouts::layout_at, aat_read_lookup::specs::Layouts::searched_at, aat_read_lookup::specs::Layouts::checked_units, aat_read_lookup::specs::Layouts::units_at))]
pub fn lists()
    ensures offsets { ListsHaveOffsets }
    ensures ligatures { ListsReachToTheEnd }
    ensures insertion { GlyphsReachToTheEnd }
{}

/// The definitions of contextual glyph substitution compute to a lookup at offset 0.
#[tactic(auto, unfolding(crate::specs::Contextual::contextual_tables_at, crate::specs::Contextual::contextual_tables, crate::specs::Contextual::lookups_within, crate::specs::Contextual::listed_lookup, crate::specs::Room::lookup_cost, crate::specs::Room::lookup_size, aat_bytes::specs::Numbers::u16_at, aat_bytes::specs::Numbers::u32_at, crate::specs::Machine::with_classes, crate::specs::StateArray::state_array_at, crate::specs::StateArray::header_at, crate::specs::StateArray::cells_of, crate::specs::StateArray::states_of, crate::specs::StateArray::least, crate::specs::StateArray::states_named, crate::specs::StateArray::has_index, crate::specs::StateArray::has_entry, aat_read_lookup::specs::Layouts::layout_at, aat_read_lookup::specs::Layouts::searched_at, aat_read_lookup::specs::Layouts::checked_units, aat_read_lookup::specs::Layouts::units_at, aat_read_lookup::specs::Layouts::array_of))]
pub fn lookup_at_the_list()
    ensures read { LookupMayBeTheList }
    ensures checked { LookupsOfTheListAreChecked }
{}

/// The types by which memory is counted have their sizes.
pub fn sizes()
    ensures { SizesAreKnown }
{}
