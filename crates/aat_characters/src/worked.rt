//! Worked examples as theorems. These calls do nothing: what is proved is their contracts.
ghost use Rattle.aat_characters.specs.ClusterExamples.{ClustersStayWhole, FamiliesAreWhole, FlagsArePairs, MarksContinueLetters};
ghost use Rattle.aat_characters.specs.MarkExamples.{PointsArePlaced, VowelsArePlaced};
ghost use Rattle.aat_characters.specs.NormalizedExamples.{AccentsCompose, MarksAreOrdered, OthersStandIn};
ghost use Rattle.aat_characters.specs.ScriptExamples.{DigitsRunToTheRight, RowsAreUnicodes, ScriptsRun};

/// The definitions of scripts and of native directions compute to the examples.
pub fn scripts()
    ensures scripts { ScriptsRun }
    ensures digits { DigitsRunToTheRight }
{}

/// The definition of normalized characters computes to the examples.
pub fn normalized()
    ensures composed { AccentsCompose }
    ensures ordered { MarksAreOrdered }
    ensures others { OthersStandIn }
{}

/// The definition of clusters computes to the examples.
pub fn clusters()
    ensures marks { MarksContinueLetters }
    ensures flags { FlagsArePairs }
    ensures families { FamiliesAreWhole }
    ensures whole { ClustersStayWhole }
{}

/// The definition of the classes by which marks are placed computes to the examples.
pub fn mark_classes()
    ensures points { PointsArePlaced }
    ensures vowels { VowelsArePlaced }
{}

/// The rows of the code are those of the definitions.
pub fn rows()
    ensures { RowsAreUnicodes }
{}
