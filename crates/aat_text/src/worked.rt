//! Worked examples as theorems. These calls do nothing: what is proved is their contracts.
ghost use Rattle.aat_text.specs.PreparedExamples.{FamiliesStayWhole, HebrewIsTurned, KindsAreTold, ParenthesesAreMirrored};
ghost use Rattle.aat_text.specs.Examples.{AccentsAreMarks, AccentsShareClusters, BreaksAreForced, ClosingBracketsStay, FillersAreSeen, IdeographsEndLines, IgnorablesAreNotMissing, JoinersAreIgnorable, LettersAreStrong, LinesEndBehindSpaces};

/// The definitions of glyphs and of missing characters compute to the examples.
pub fn glyphs()
    ensures clusters { AccentsShareClusters }
    ensures ignorable { JoinersAreIgnorable }
    ensures seen { FillersAreSeen }
    ensures marks { AccentsAreMarks }
    ensures missing { IgnorablesAreNotMissing }
{}

/// The definition of the direction computes to the examples.
pub fn directions()
    ensures { LettersAreStrong }
{}

/// The definition of prepared texts computes to the examples.
pub fn prepared()
    ensures turned { HebrewIsTurned }
    ensures whole { FamiliesStayWhole }
    ensures kinds { KindsAreTold }
    ensures mirrored { ParenthesesAreMirrored }
{}

/// The definition of where a line may end computes to the examples.
pub fn line_ends()
    ensures spaces { LinesEndBehindSpaces }
    ensures closing { ClosingBracketsStay }
    ensures forced { BreaksAreForced }
    ensures ideographs { IdeographsEndLines }
{}
