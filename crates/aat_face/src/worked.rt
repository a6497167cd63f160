//! Worked examples of faces as theorems. These calls do nothing: what is proved is their contracts.
ghost use Rattle.aat_face.specs.Examples.{ChainsAreOfTheFont, FacesHaveTracks, FaultsAreListed, FeaturesHaveTexts, GlyphsHaveValues, LeftOutsAreTold, WindowsGoesFirst};
ghost use Rattle.aat_face.specs.SizeExamples.{SizesAreKnown};

/// The definition of a face computes to the examples.
#[tactic(auto, unfolding(aat_bytes::specs::Numbers::slice, aat_bytes::specs::Numbers::slice_from, aat_read_sfnt::specs::Directory::place_in_collection, aat_read_sfnt::specs::Directory::directory_place, aat_read_sfnt::specs::Directory::directory_at, aat_read_sfnt::specs::Header::glyph_count, aat_read_sfnt::specs::Header::units_per_em, aat_read_sfnt::specs::Metrics::long_metric_count, aat_read_metrics::specs::GlyphMetrics::metrics_at))]
pub fn faces()
    ensures faults { FaultsAreListed }
{}

/// The definition of a face computes to the example of a font with chains.
#[tactic(auto, unfolding(aat_bytes::specs::Numbers::slice, aat_bytes::specs::Numbers::slice_from, aat_read_sfnt::specs::Directory::place_in_collection, aat_read_sfnt::specs::Directory::directory_place, aat_read_sfnt::specs::Directory::directory_at, aat_read_sfnt::specs::Header::glyph_count, aat_read_sfnt::specs::Header::units_per_em, aat_read_sfnt::specs::Metrics::long_metric_count, aat_read_metrics::specs::GlyphMetrics::metrics_at, aat_read_extended::specs::morx::Chains::morx_of, aat_read_extended::specs::morx::Chains::chain_at, aat_read_extended::specs::morx::Chains::chain_value_at, aat_read_extended::specs::morx::ChainFeatures::whole_features, aat_read_extended::specs::morx::ChainSubtables::subtable_at, aat_read_extended::specs::morx::InTurn::end_at, aat_read_extended::specs::morx::Reaches::allowance, aat_read_machine::specs::SubtableKinds::subtable_kind_at, aat_read_lookup::specs::Layouts::layout_at, aat_read_lookup::specs::Layouts::array_of))]
pub fn chains()
    ensures { ChainsAreOfTheFont }
{}

/// The definition of a face computes to the examples of tracking.
#[tactic(auto, unfolding(aat_bytes::specs::Numbers::slice, aat_bytes::specs::Numbers::slice_from, aat_read_sfnt::specs::Directory::place_in_collection, aat_read_sfnt::specs::Directory::directory_place, aat_read_sfnt::specs::Directory::directory_at, aat_read_sfnt::specs::Header::glyph_count, aat_read_sfnt::specs::Header::units_per_em, aat_read_sfnt::specs::Metrics::long_metric_count, aat_read_metrics::specs::GlyphMetrics::metrics_at))]
pub fn tracks()
    ensures { FacesHaveTracks }
{}

/// The definition of a face computes to the example of a subtable that is left out.
#[tactic(auto, unfolding(aat_bytes::specs::Numbers::slice, aat_bytes::specs::Numbers::slice_from, aat_read_sfnt::specs::Directory::place_in_collection, aat_read_sfnt::specs::Directory::directory_place, aat_read_sfnt::specs::Directory::directory_at, aat_read_sfnt::specs::Header::glyph_count, aat_read_sfnt::specs::Header::units_per_em, aat_read_sfnt::specs::Metrics::long_metric_count, aat_read_metrics::specs::GlyphMetrics::metrics_at, aat_read_kern::specs::Kern::list_of, aat_read_kern::specs::Kern::end_at, aat_read_kern::specs::Kern::read_up_to, aat_read_kern::specs::Kern::subtable_at))]
pub fn left_out()
    ensures { LeftOutsAreTold }
{}

/// The definitions of the values of glyphs and of English names compute to the examples, and the types by which memory is
/// counted have their sizes.
#[tactic(auto, unfolding(aat_bytes::specs::Numbers::slice, aat_bytes::specs::Numbers::slice_from, aat_read_sfnt::specs::Names::has_pair, aat_read_sfnt::specs::Names::has_key))]
pub fn lists()
    ensures values { GlyphsHaveValues }
    ensures names { WindowsGoesFirst }
    ensures sizes { SizesAreKnown }
{}

/// The definitions of the names of features compute to the examples.
#[tactic(auto, unfolding(aat_bytes::specs::Numbers::slice, aat_bytes::specs::Numbers::slice_from, aat_bytes::specs::Numbers::u16_at, aat_read_lookup::specs::Features::feature_count, aat_read_sfnt::specs::Names::has_pair, aat_read_sfnt::specs::Names::has_key))]
pub fn features()
    ensures { FeaturesHaveTexts }
{}
