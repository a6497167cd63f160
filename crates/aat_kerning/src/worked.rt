//! The worked rows of kerning as theorems. These calls do nothing: what is proved is their contracts.

ghost use Rattle.aat_kerning.specs.KerningExamples.{KerningExamples};
ghost use Rattle.aat_kerning.specs.KerningRows.{KerningRows};

/// The worked rows of kerning, zeroing and removal follow from the definitions.
#[tactic(auto, using(crate::proofs::KerningRowsHold::kerning_rows))]
pub fn kerning_rows()
    ensures { KerningRows }
{}

/// So does an example of each rule of kerning that no row shows.
#[tactic(auto, using(crate::proofs::KerningRowsHold::kerning_examples))]
pub fn kerning_examples()
    ensures { KerningExamples }
{}
