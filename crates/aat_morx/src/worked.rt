//! The worked rows as theorems. These calls do nothing: what is proved is their contracts.

ghost use Rattle.aat_morx.specs.ContextualRows.{ContextualRows};
ghost use Rattle.aat_morx.specs.Examples.{Row2, Row6, OffIsLeftOut, VerticalIsLeftOut, AlwaysOnRuns, WholeLineIsMarked, PositionsAreDropped, PropertiesFollowClasses};
ghost use Rattle.aat_morx.specs.InsertionRows.{InsertionRows};
ghost use Rattle.aat_morx.specs.LigatureRows.{LigatureRows};
ghost use Rattle.aat_morx.specs.RearrangementRows.{RearrangementRows};

/// The worked rows of rearrangement follow from the definitions.
#[tactic(auto, using(crate::proofs::Rows::rearrangement_rows))]
pub fn rearrangement_rows()
    ensures { RearrangementRows }
{}

/// The worked rows of contextual and noncontextual subtables follow from the definitions.
#[tactic(auto, using(crate::proofs::Rows::contextual_rows))]
pub fn contextual_rows()
    ensures { ContextualRows }
{}

/// The worked rows of ligatures follow from the definitions.
#[tactic(auto, using(crate::proofs::Rows::ligature_rows))]
pub fn ligature_rows()
    ensures { LigatureRows }
{}

/// The worked rows of insertion follow from the definitions.
#[tactic(auto, using(crate::proofs::Rows::insertion_rows))]
pub fn insertion_rows()
    ensures { InsertionRows }
{}

/// Rows 2 and 6, and what is left out, marked, dropped and classed.
pub fn substitution_examples()
    ensures row_2 { Row2 }
    ensures row_6 { Row6 }
    ensures off { OffIsLeftOut }
    ensures vertical { VerticalIsLeftOut }
    ensures always_on { AlwaysOnRuns }
    ensures marked { WholeLineIsMarked }
    ensures positions { PositionsAreDropped }
    ensures properties { PropertiesFollowClasses }
{}
