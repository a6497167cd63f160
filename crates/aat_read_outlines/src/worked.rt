//! Worked examples of outlines as theorems. These calls do nothing: what is proved is their contracts.
ghost use Rattle.aat_read_outlines.specs.Examples.{ComponentsAreDrawn, ContoursAreCurves, FlagsAreRepeated, OffsetFaultsHaveTheirPlaces, PointsArePlaced, PointsAreSums, SimpleFaultsHaveTheirPlaces};
ghost use Rattle.aat_read_outlines.specs.FlagExamples.{ComponentFlagsAreBits, PointFlagsAreBits};

/// The definitions of simple glyphs compute to the examples.
pub fn simple_glyphs()
    ensures points { PointsAreSums }
    ensures flags { FlagsAreRepeated }
    ensures faults { SimpleFaultsHaveTheirPlaces }
{}

/// The definitions of segments compute to the examples.
pub fn curves()
    ensures { ContoursAreCurves }
{}

/// The definitions of offsets and of composite glyphs compute to the examples.
#[tactic(auto, unfolding(aat_bytes::specs::Numbers::u16_at, aat_bytes::specs::Numbers::u32_at, crate::specs::Composites::drawn_at))]
pub fn composite_glyphs()
    ensures placed { PointsArePlaced }
    ensures drawn { ComponentsAreDrawn }
    ensures faults { OffsetFaultsHaveTheirPlaces }
{}

/// The flags are the bits that the manual numbers.
pub fn flags()
    ensures points { PointFlagsAreBits }
    ensures components { ComponentFlagsAreBits }
{}
