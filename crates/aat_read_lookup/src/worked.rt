//! Worked examples of lookups and features as theorems. These calls do nothing: what is proved is their contracts.
ghost use Rattle.aat_read_lookup.specs.FeatureExamples.{FeatFaultsHaveTheirPlaces, FeaturesAreThoseFound, FeaturesHaveNames};
ghost use Rattle.aat_read_lookup.specs.LongExamples as long;
ghost use Rattle.aat_read_lookup.specs.SizeExamples.{BytesAreOfRecordsAndValues, SharedValuesAreAFault, SizesAreOfWhatIsKept};
ghost use Rattle.aat_read_lookup.specs.LookupExamples.{ArraysHaveAValueForEachGlyph, FaultsHaveTheirPlaces, UnitsAreThoseFound, UnitsHaveTheirGlyphs};

/// The definitions of lookups compute to the examples.
#[tactic(auto, unfolding(crate::specs::Layouts::units_at, crate::specs::Layouts::checked_units, crate::specs::Layouts::searched_at, crate::specs::Layouts::array_of, crate::specs::Layouts::trimmed_array_at, crate::specs::Layouts::sized_array_at, crate::specs::Layouts::layout_at))]
pub fn lookups()
    ensures arrays { ArraysHaveAValueForEachGlyph }
    ensures units { UnitsHaveTheirGlyphs }
    ensures found { UnitsAreThoseFound }
    ensures faults { FaultsHaveTheirPlaces }
{}

/// The definitions of sizes compute to the examples.
#[tactic(auto, unfolding(crate::specs::Layouts::units_at, crate::specs::Layouts::checked_units, crate::specs::Layouts::searched_at, crate::specs::Layouts::array_of, crate::specs::Layouts::sized_array_at, crate::specs::Layouts::layout_at))]
pub fn sizes()
    ensures kept { SizesAreOfWhatIsKept }
    ensures shared { SharedValuesAreAFault }
    ensures bytes { BytesAreOfRecordsAndValues }
{}

/// The definitions of the feature name table compute to the examples.
#[tactic(auto, unfolding(aat_bytes::specs::Numbers::u16_at, crate::specs::Features::feature_count))]
pub fn features()
    ensures names { FeaturesHaveNames }
    ensures found { FeaturesAreThoseFound }
    ensures faults { FeatFaultsHaveTheirPlaces }
{}

/// The definitions of lookups with values of 32 bits compute to the examples.
#[tactic(auto, unfolding(crate::specs::Layouts::units_at, crate::specs::Layouts::checked_units, crate::specs::Layouts::searched_at, crate::specs::Layouts::array_of, crate::specs::Layouts::trimmed_array_at, crate::specs::Layouts::sized_array_at, crate::specs::Layouts::layout_at))]
pub fn long_lookups()
    ensures arrays { long.ArraysHaveAValueForEachGlyph }
    ensures units { long.UnitsHaveTheirGlyphs }
    ensures rows { long.ValuesAreRows }
    ensures faults { long.FaultsHaveTheirPlaces }
    ensures sizes { long.SizesAreOfSegments }
{}
