//! Worked examples of charstrings as theorems. This call does nothing: what is proved is its contract.
ghost use Rattle.aat_read_charstrings.specs.Examples.{FaultsHaveTheirPlaces, GlyphsAreDrawn, GlyphsHaveFontDicts, IntegersAreThoseOfTheNote, KeysHaveOperands, ObjectsHaveOffsets, OperatorsDraw, SubroutinesAreBiased};

/// The definitions of numbers, DICTs, INDEXes, operators and glyphs compute to the examples.
#[tactic(auto, unfolding(crate::specs::Runs::run, crate::specs::Dicts::entry_of, crate::specs::Machines::drawn_glyph, crate::specs::Paths::drawn, crate::specs::Steps::line, crate::specs::Steps::curve, crate::specs::Steps::back_by, crate::specs::Steps::even_back, crate::specs::Steps::sum_of, crate::specs::Steps::nearer_end, crate::specs::Steps::even_curve, crate::specs::Steps::turning_curve))]
pub fn examples()
    ensures integers { IntegersAreThoseOfTheNote }
    ensures keys { KeysHaveOperands }
    ensures objects { ObjectsHaveOffsets }
    ensures fonts { GlyphsHaveFontDicts }
    ensures draw { OperatorsDraw }
    ensures biased { SubroutinesAreBiased }
    ensures drawn { GlyphsAreDrawn }
    ensures faults { FaultsHaveTheirPlaces }
{}
