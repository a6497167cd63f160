//! Examples of cuts, and of machines that are settled and of some that are not, as theorems. These calls do nothing:
//! what is proved is their contracts.
ghost use Rattle.aat_cut_kinds.specs.CutExamples.{CutExamples};
ghost use Rattle.aat_cut_kinds.specs.EmptyRunExamples.{EmptyRunExamples};
ghost use Rattle.aat_cut_kinds.specs.FallExamples.{FallExamples};
ghost use Rattle.aat_cut_kinds.specs.OtherCutExamples.{InsertionCutExamples, LigatureCutExamples, RearrangementCutExamples};
ghost use Rattle.aat_cut_kinds.specs.PremiseExamples.{BackwardPremises, ContextualPremises, FallingPremises, RisingPremises};
ghost use Rattle.aat_cut_kinds.specs.UnsettledExamples.{CaseVerdicts, FailedPremises};

/// What a settled contextual subtable leaves of a line and of its parts, and five lines whose parts leave something else.
#[tactic(auto, using(crate::proofs::Examples::cut_examples))]
pub fn cuts_of_lines()
    ensures { CutExamples }
{}

/// Lines whose parts leave something else, though no mark says so, in ligature subtables.
#[tactic(auto, using(crate::proofs::Examples::ligature_cut_examples))]
pub fn ligatures_over_cuts()
    ensures { LigatureCutExamples }
{}

/// The same in rearrangement subtables.
#[tactic(auto, using(crate::proofs::Examples::rearrangement_cut_examples))]
pub fn rearrangements_over_cuts()
    ensures { RearrangementCutExamples }
{}

/// The same in insertion subtables.
#[tactic(auto, using(crate::proofs::Examples::insertion_cut_examples))]
pub fn insertions_over_cuts()
    ensures { InsertionCutExamples }
{}

/// Lines whose clusters fall as an insertion subtable takes them: two that are cut, and one where the mark before the cut
/// tells that it is not.
#[tactic(auto, using(crate::proofs::Examples::fall_examples))]
pub fn insertions_where_clusters_fall()
    ensures { FallExamples }
{}

/// Lines whose parts have the glyphs and the clusters of the whole line and other marks, since an entry that puts no
/// glyphs in names a run: where the clusters rise, where they fall, and from the end of the line.
#[tactic(auto, using(crate::proofs::Examples::empty_run_examples))]
pub fn insertions_of_no_glyphs()
    ensures { EmptyRunExamples }
{}

/// Lines whose parts leave something else in a settled contextual subtable, since one premise fails and no other: no
/// cluster starts at the place, the cut is marked, or no budget is left.
#[tactic(auto, using(crate::proofs::Examples::contextual_premises))]
pub fn contextual_premises_of_a_place()
    ensures { ContextualPremises }
{}

/// The same in insertion subtables, where the clusters rise.
#[tactic(auto, using(crate::proofs::Examples::rising_premises))]
pub fn insertion_premises_of_a_place()
    ensures { RisingPremises }
{}

/// Where the clusters fall: a missing entry, a subtable that is off, no budget left.
#[tactic(auto, using(crate::proofs::Examples::falling_premises))]
pub fn insertion_premises_at_a_fall()
    ensures { FallingPremises }
{}

/// From the end of the line: these, no cluster that starts, and a marked cut.
#[tactic(auto, using(crate::proofs::Examples::backward_premises))]
pub fn insertion_premises_from_the_end()
    ensures { BackwardPremises }
{}

/// Of the machines of the examples of cuts: which are settled, and why the others are not; and that one is not plain.
#[tactic(auto, using(crate::proofs::Unsettled::case_verdicts))]
pub fn verdicts_of_cases()
    ensures { CaseVerdicts }
{}

/// Which premise a machine fails whose line comes out differently in two parts: it is not complete, it uses what was not
/// set since state 0, or an entry sets it differently that is taken for that of state 0.
#[tactic(auto, using(crate::proofs::Unsettled::failed_premises))]
pub fn premises_of_cases()
    ensures { FailedPremises }
{}
