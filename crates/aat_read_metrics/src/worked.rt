//! Worked examples of metrics and of the tracking table as theorems. These calls do nothing: what is proved is their
//! contracts.
ghost use Rattle.aat_read_metrics.specs.MetricExamples.{BoxesAreOfHeaders, BoxesBeginAtTheBearing, BoxesStandInTheMiddle, ExtentsAreAsked, TopsHaveBearings};
ghost use Rattle.aat_read_metrics.specs.TrakExamples.{TablesHaveTracks, TrakFaultsHaveTheirPlaces};

/// The definition of the tracking table computes to the examples.
pub fn tables()
    ensures tables { TablesHaveTracks }
    ensures faults { TrakFaultsHaveTheirPlaces }
{}

/// The definitions of boxes and of columns compute to the examples.
#[tactic(auto, unfolding(aat_bytes::specs::Numbers::slice, aat_bytes::specs::Numbers::slice_from, aat_read_sfnt::specs::Header::glyph_count, aat_read_sfnt::specs::Header::units_per_em, aat_read_sfnt::specs::Metrics::long_metric_count, crate::specs::GlyphMetrics::metrics_at, crate::specs::GlyphMetrics::data_in, crate::specs::GlyphMetrics::extents_in, crate::specs::GlyphMetrics::box_of, crate::specs::GlyphMetrics::glyph_header, crate::specs::GlyphMetrics::glyph_box_in, crate::specs::GlyphMetrics::vertical_advance_in, crate::specs::GlyphMetrics::tops_in, crate::specs::GlyphMetrics::height_without_origins, crate::specs::GlyphMetrics::vertical_origin_in))]
pub fn glyph_metrics()
    ensures boxes { BoxesAreOfHeaders }
    ensures middle { BoxesStandInTheMiddle }
    ensures bearings { BoxesBeginAtTheBearing }
    ensures tops { TopsHaveBearings }
    ensures extents { ExtentsAreAsked }
{}
