//! Worked examples of anchor points and subtables as theorems. These calls do nothing: what is proved is their
//! contracts.
ghost use Rattle.aat_read_extended.specs.kerx.AnchorExamples.{AnkrFaultsHaveTheirPlaces, GlyphsHaveTheirPoints, SharedPointsHaveRoom};
ghost use Rattle.aat_read_extended.specs.kerx.KerxExamples.{AnchorMachineHasItsPairs, KerxFaultsHaveTheirPlaces, LastListReachesToTheEnd, LongValuesAreRead, OthersAreLeftOut, PairsHaveTheirValues, StackMachineHasItsValues};
ghost use Rattle.aat_read_extended.specs.kerx.SizeExamples.{SizesAreKnown};

/// The definitions of anchor points compute to the examples.
#[tactic(auto, unfolding(crate::specs::kerx::Anchors::ankr_of, crate::specs::kerx::Anchors::points_within, aat_read_lookup::specs::Layouts::units_at, aat_read_lookup::specs::Layouts::checked_units, aat_read_lookup::specs::Layouts::searched_at, aat_read_lookup::specs::Layouts::array_of, aat_read_lookup::specs::Layouts::trimmed_array_at, aat_read_lookup::specs::Layouts::layout_at))]
pub fn anchors()
    ensures points { GlyphsHaveTheirPoints }
    ensures faults { AnkrFaultsHaveTheirPlaces }
    ensures room { SharedPointsHaveRoom }
{}

/// The definitions of the extended kerning table compute to the examples.
#[tactic(auto, unfolding(crate::specs::kerx::KerxTables::kerx_of, crate::specs::kerx::KerxSubtables::subtable_at, crate::specs::kerx::KerxSubtables::end_at, crate::specs::kerx::Formats::format_at, crate::specs::kerx::Formats::anchor_format_at, crate::specs::kerx::Formats::arrays_format_at, crate::specs::kerx::Formats::long_format_at, aat_read_pairs::specs::LongArrays::long_grid_at, aat_read_pairs::specs::LongArrays::long_grid_pairs, aat_read_lookup::specs::Layouts::layout_at, aat_read_lookup::specs::Layouts::trimmed_array_at, aat_read_lookup::specs::Layouts::array_of, crate::specs::kerx::Machines::stack_tables_at, aat_read_pairs::specs::ListedPairs::kerx_pairs_at, aat_read_pairs::specs::ListedPairs::listed_pairs, aat_read_machine::specs::Machine::machine_at, aat_read_machine::specs::Machine::with_classes, aat_read_machine::specs::StateArray::state_array_at, aat_read_machine::specs::StateArray::header_at, aat_read_machine::specs::StateArray::cells_of, aat_read_machine::specs::StateArray::states_of, aat_read_machine::specs::StateArray::least, aat_read_machine::specs::StateArray::states_named, aat_read_machine::specs::StateArray::has_index, aat_read_machine::specs::StateArray::has_entry, aat_read_lookup::specs::Layouts::searched_at, aat_read_lookup::specs::Layouts::checked_units, aat_read_lookup::specs::Layouts::units_at))]
pub fn tables()
    ensures stack { StackMachineHasItsValues }
    ensures anchors { AnchorMachineHasItsPairs }
    ensures pairs { PairsHaveTheirValues }
    ensures long { LongValuesAreRead }
    ensures others { OthersAreLeftOut }
    ensures last { LastListReachesToTheEnd }
    ensures faults { KerxFaultsHaveTheirPlaces }
{}

/// The types by which memory is counted have their sizes.
pub fn sizes()
    ensures { SizesAreKnown }
{}
