//! Examples of closing runs as theorems. These calls do nothing: what is proved is their contracts.
ghost use Rattle.aat_closing.specs.AlikeExamples.{AlikeExamples};
ghost use Rattle.aat_closing.specs.ClosingExamples.{ClosingExamples};

/// Which clusters closing runs tell to be open: in a line that can be cut, and in lines whose parts leave something else,
/// though the first glyph left behind the cut has no mark.
#[tactic(auto, using(crate::proofs::Examples::closing_examples))]
pub fn closings_of_lines()
    ensures { ClosingExamples }
{}

/// A line that is cut where a subtable is off on both sides, and one where it is on before the cut and off behind it: its
/// parts leave something else, though the cluster behind the cut is told to be open.
#[tactic(auto, using(crate::proofs::Examples::alike_examples))]
pub fn cuts_where_it_is_off()
    ensures { AlikeExamples }
{}
