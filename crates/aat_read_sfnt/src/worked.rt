//! Worked examples of a font's bytes as theorems. These calls do nothing: what is proved is their contracts.
ghost use Rattle.aat_read_sfnt.specs.Examples.{AdvancesAreListed, CollectionsListTheirFonts, FallingGroupsAreFound, FallingRangesAreFound, FallingSegmentsAreFound, FaultySubtablesArePassedOver, GroupsMapCharacters, HeadersAreRead, MacRomanIsRead, OriginsAreListed, RangesHaveTheirEnds, SegmentsMapCharacters, ShortSegmentsAreAFault, SymbolsAreDoubled, TablesAreSlices, TagsAreNames};

/// The definitions of directories and of the profile compute to the examples.
#[tactic(auto, unfolding(aat_bytes::specs::Numbers::slice, aat_bytes::specs::Numbers::slice_from, crate::specs::Directory::place_in_collection, crate::specs::Directory::directory_place, crate::specs::Directory::directory_at, crate::specs::Header::glyph_count))]
pub fn directories()
    ensures tables { TablesAreSlices }
    ensures collections { CollectionsListTheirFonts }
{}

/// The definitions of format 4 compute to the examples.
#[tactic(auto, unfolding(aat_bytes::specs::Numbers::u16_at, crate::specs::SegmentMapping::segments_at, crate::specs::SegmentMapping::glyph_in_segment))]
pub fn segments()
    ensures segments { SegmentsMapCharacters }
    ensures falling { FallingSegmentsAreFound }
    ensures short { ShortSegmentsAreAFault }
{}

/// The definitions of a map and of its characters compute to the examples.
#[tactic(auto, unfolding(aat_bytes::specs::Numbers::slice_from, crate::specs::Characters::record_with, crate::specs::Characters::first_encoding, crate::specs::Characters::sound_encoding, crate::specs::Characters::subtable_at, crate::specs::Characters::subtable_of, crate::specs::Characters::cmap_of, crate::specs::ShortTables::trimmed_table_at, crate::specs::CharacterSets::place_of))]
pub fn maps()
    ensures faulty { FaultySubtablesArePassedOver }
    ensures symbols { SymbolsAreDoubled }
    ensures mac_roman { MacRomanIsRead }
{}

/// The definitions of metrics, of format 12 and of classes compute to the examples.
#[tactic(auto, unfolding(crate::specs::ClassDefinition::class_ranges_at, crate::specs::SegmentedCoverage::groups_at))]
pub fn lists()
    ensures advances { AdvancesAreListed }
    ensures groups { GroupsMapCharacters }
    ensures falling_groups { FallingGroupsAreFound }
    ensures ranges { RangesHaveTheirEnds }
    ensures falling { FallingRangesAreFound }
{}

/// The definitions of headers of glyphs, of vertical origins and of tags compute to the examples.
#[tactic(auto, unfolding(aat_bytes::specs::Numbers::slice, aat_bytes::specs::Numbers::u32_at, crate::specs::Header::units_per_em))]
pub fn columns()
    ensures headers { HeadersAreRead }
    ensures origins { OriginsAreListed }
    ensures tags { TagsAreNames }
{}
