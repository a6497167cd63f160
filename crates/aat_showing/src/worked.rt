//! Worked examples as theorems. These calls do nothing: what is proved is their contracts.
ghost use Rattle.aat_showing.specs.HiddenExamples.{HiddenGlyphsAreSpaces, HiddenGlyphsGo, MarksHaveNoWidth};
ghost use Rattle.aat_showing.specs.PlacedExamples.{ColumnsRunDown, MarksAreStacked, MarksHaveSides, MarksOfBackwardText, MarksStayBeyond, MarksWithoutBoxes, SpacesAreWidened, SpacesHaveWidths};

/// The definition of what is drawn without ignorable glyphs computes to the examples.
pub fn ignorables()
    ensures spaces { HiddenGlyphsAreSpaces }
    ensures gone { HiddenGlyphsGo }
{}

/// The definition of what is drawn with marks without width computes to the examples.
pub fn marks()
    ensures { MarksHaveNoWidth }
{}

/// The definitions of columns, of widths of spaces, and of marks that are placed by boxes compute to the examples.
pub fn placed()
    ensures columns { ColumnsRunDown }
    ensures widths { SpacesHaveWidths }
    ensures widened { SpacesAreWidened }
    ensures stacked { MarksAreStacked }
    ensures sides { MarksHaveSides }
    ensures beyond { MarksStayBeyond }
    ensures boxless { MarksWithoutBoxes }
    ensures backward { MarksOfBackwardText }
{}
