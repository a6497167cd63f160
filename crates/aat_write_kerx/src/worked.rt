//! Worked examples as theorems. These calls do nothing: what is proved is their contracts.
ghost use Rattle.aat_write_kerx.specs.WriteExamples.{PairsHaveTheirNumber, PointsHaveTheirPlaces, RowsHaveTheirOffsets, StackMachineHasItsValues, SubtablesAreRefused};

/// A table of anchor points.
pub fn points()
    ensures { PointsHaveTheirPlaces }
{}

/// Extended kerning tables of one subtable, and those that are refused.
pub fn subtables()
    ensures pairs { PairsHaveTheirNumber }
    ensures rows { RowsHaveTheirOffsets }
    ensures values { StackMachineHasItsValues }
    ensures refusals { SubtablesAreRefused }
{}
