//! Worked examples of the chains of `morx` as theorems. These calls do nothing: what is proved is their contracts.
ghost use Rattle.aat_read_extended.specs.morx.MorxExamples.{ChainHasItsParts, ChainsStartWhereLengthsEnd, MorxFaultsHaveTheirPlaces, PartsAreInOrder, SubtableMayReachBehindItsEnd, UnknownKindDoesNothing};
ghost use Rattle.aat_read_extended.specs.morx.SizeExamples.{SizesAreKnown};

/// The definitions of chains compute to the examples.
#[tactic(auto, unfolding(crate::specs::morx::Chains::morx_of, crate::specs::morx::Chains::chain_at, crate::specs::morx::Chains::chain_value_at, crate::specs::morx::ChainFeatures::whole_features, crate::specs::morx::ChainSubtables::subtable_at, crate::specs::morx::InTurn::end_at, crate::specs::morx::Reaches::allowance, aat_read_machine::specs::SubtableKinds::subtable_kind_at, aat_read_lookup::specs::Layouts::layout_at, aat_read_lookup::specs::Layouts::searched_at, aat_read_lookup::specs::Layouts::checked_units, aat_read_lookup::specs::Layouts::units_at))]
pub fn chains()
    ensures parts { ChainHasItsParts }
    ensures unknown { UnknownKindDoesNothing }
    ensures order { PartsAreInOrder }
    ensures lengths { ChainsStartWhereLengthsEnd }
    ensures reach { SubtableMayReachBehindItsEnd }
    ensures faults { MorxFaultsHaveTheirPlaces }
{}

/// The types by which memory is counted have their sizes.
pub fn sizes()
    ensures { SizesAreKnown }
{}
