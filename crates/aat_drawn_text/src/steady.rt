//! Spans of clusters at which the features of a text ask for the same.
ghost use Rattle.std.specs.Prelude.{◌≡◌, ◌<◌, fold, length};
ghost use Rattle.aat_shaped_text.specs.Breaks.{may_break_by};
ghost use Rattle.aat_drawn_text.specs.inside.Steady.{IsSteady, change_of, contains, first_behind, first_from, next_change};

use aat_layout::buffer::hb_glyph_info_t;
use aat_layout::font::Feature;
use aat_shaped_text::BreakRules;

/// The first and the last cluster of a span. At all of its clusters the features of a text ask for the same.
#[derive(Clone, Copy)]
pub(crate) struct SteadySpan {
    /// The first cluster.
    pub(crate) first: u32,
    /// The last cluster.
    pub(crate) last: u32,
}

/// Where behind a cluster a feature begins to hold clusters, or else ends to.
fn change_of(cluster: u32, feature: &Feature) -> u32
    ensures { result ≡ change_of cluster feature.now }
{
    if cluster < feature.start {
        feature.start
    } else {
        feature.end
    }
}

/// The cluster behind those from one on up to which nothing changes, with one more feature.
fn next_change(cluster: u32, behind: u32, feature: &Feature) -> u32
    ensures { result ≡ next_change cluster behind feature.now }
{
    let change = change_of(cluster, feature);
    if cluster < change && change < behind {
        change
    } else {
        behind
    }
}

/// The first cluster of a span up to a cluster, from one that a start or an end does not come behind.
fn first_from(cluster: u32, first: u32, cut: u32) -> u32
    ensures { result ≡ first_from cluster first cut }
{
    if cluster < cut { first } else { first.max(cut) }
}

/// The same with the start and the end of a feature.
fn first_behind(cluster: u32, first: u32, feature: &Feature) -> u32
    ensures { result ≡ first_behind cluster first feature.now }
{
    first_from(
        cluster,
        first_from(cluster, first, feature.start),
        feature.end,
    )
}

/// The cluster behind the span from a cluster on.
#[inline(never)]
fn change_behind(features: &[Feature], cluster: u32) -> u32
    ensures { result ≡ fold (next_change cluster) 0xFFFFFFFF features.now }
{
    features.iter().fold(
        u32::MAX,
        |behind, feature| next_change(cluster, behind, feature),
    )
}

/// The first cluster of the span up to a cluster.
#[inline(never)]
fn first_up_to(features: &[Feature], cluster: u32) -> u32
    ensures { result ≡ fold (first_behind cluster) 0 features.now }
{
    features
        .iter()
        .fold(0, |first, feature| first_behind(cluster, first, feature))
}

/// The span from a cluster on.
fn span_from(features: &[Feature], cluster: u32) -> SteadySpan
    ensures { IsSteady features.now result }
{
    SteadySpan {
        first: cluster,
        last: change_behind(features, cluster).saturating_sub(1),
    }
}

/// The span up to a cluster.
fn span_up_to(features: &[Feature], cluster: u32) -> SteadySpan
    ensures { IsSteady features.now result }
{
    SteadySpan {
        first: first_up_to(features, cluster),
        last: cluster,
    }
}

impl SteadySpan {
    /// No cluster.
    pub(crate) fn none() -> SteadySpan
        ensures { result ≡ record { first = 1; last = 0 } }
    {
        SteadySpan { first: 1, last: 0 }
    }

    /// Whether it has a cluster.
    pub(crate) fn contains(self, cluster: u32) -> bool
        ensures { result ≡ contains self cluster }
    {
        self.first <= cluster && cluster <= self.last
    }

    /// The span that a cluster is in, as far as it goes where clusters go on as they did.
    pub(crate) fn at(self, features: &[Feature], cluster: u32) -> SteadySpan
        requires { IsSteady features.now self }
        ensures { IsSteady features.now result }
    {
        if self.contains(cluster) {
            self
        } else if cluster < self.first {
            span_up_to(features, cluster)
        } else {
            span_from(features, cluster)
        }
    }

    /// Rules that break a line before a place as others do: without features, where both clusters that meet there are in
    /// the span.
    pub(crate) fn rules_at<'f>(
        self,
        rules: BreakRules<'f>,
        line: &[hb_glyph_info_t],
        i: usize,
    ) -> BreakRules<'f>
        requires in_line { i < length line.now }
        requires steady { IsSteady rules.features.now self }
        ensures { may_break_by result line.now i ≡ may_break_by rules.entry line.now i }
    {
        if rules.features.is_empty() {
            return rules;
        }
        let before = line[i.saturating_sub(1)].cluster;
        if self.contains(before) && self.contains(line[i].cluster) {
            BreakRules {
                is_even: rules.is_even,
                features: &[],
            }
        } else {
            rules
        }
    }
}
