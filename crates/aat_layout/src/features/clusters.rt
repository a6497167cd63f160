//! Clusters in a text, and of a range.
ghost use Rattle.std.specs.Prelude.{◌≡◌};
ghost use Rattle.aat_layout.specs.features.Clusters.{all_clusters, bracketed_at, closed, clusters_at, end_of, ended_at, only, separated, start_of};
ghost use Rattle.std.specs.Range.Bound.{bound_map};

use crate::features::characters::{next, skip_spaces};
use crate::features::error::FeatureError;
use crate::features::numbers::number_at;
use aat_font::{Feature, hb_tag_t};
use std::ops::{Bound, Range, RangeBounds};

/// Clusters, and the place behind what tells them.
type ClustersRead = Result<(Range<u32>, usize), FeatureError>;

/// The cluster that a range starts at.
fn start_of(bound: Bound<&u32>) -> u32
    ensures { result ≡ start_of (bound_map (λ n. n.now) bound.entry) }
{
    match bound {
        Bound::Included(n) => *n,
        Bound::Excluded(n) => n.saturating_add(1),
        Bound::Unbounded => 0,
    }
}

/// The cluster that a range ends before.
fn end_of(bound: Bound<&u32>) -> u32
    ensures { result ≡ end_of (bound_map (λ n. n.now) bound.entry) }
{
    match bound {
        Bound::Included(n) => n.saturating_add(1),
        Bound::Excluded(n) => *n,
        Bound::Unbounded => u32::MAX,
    }
}

/// A request of a feature's value over a range of clusters: `3..5`, `3..`, `..5`, `..`, or one with its end included. A
/// range with no end goes to the end of the text, whose number is `u32::MAX`. So an end of that number, included or
/// not, is no end.
///
/// Nothing is asked of its ends: over a range that ends before it starts the feature is nowhere on. The range has to
/// have bounds, as each of std's has but one `a..=b` that was iterated to its end.
pub fn feature<R: RangeBounds<u32>>(tag: hb_tag_t, value: u32, clusters: R) -> Feature
    requires { R.has_bounds clusters }
    ensures tag { result.tag ≡ tag }
    ensures value { result.value ≡ value }
    ensures start { result.start ≡ start_of (R.start_bound clusters) }
    ensures end { result.end ≡ end_of (R.end_bound clusters) }
{
    let start = start_of(clusters.start_bound());
    let end = end_of(clusters.end_bound());
    Feature::new(tag, value, start..end)
}

/// All clusters.
fn all_clusters() -> Range<u32>
    ensures { result ≡ all_clusters }
{
    0..u32::MAX
}

/// The cluster of a number alone, or all clusters where there is no number.
fn only(number: Option<u32>) -> Range<u32>
    ensures { result ≡ only number }
{
    match number {
        Some(n) => n..n.saturating_add(1),
        None => all_clusters(),
    }
}

/// The place behind a sign that parts a start from an end, where it comes next.
#[tactic(auto, unfolding(crate::specs::features::Clusters::separated))]
fn separated(text: &[u8], place: usize) -> Option<usize>
    ensures { result ≡ separated text.now place }
{
    next(b":", text, place)
        .or(next(b";", text, place))
        .or(next(b"..", text, place))
}

/// These clusters, and the place behind the bracket that closes them.
#[tactic(auto, unfolding(crate::specs::features::Clusters::closed))]
fn closed(clusters: Range<u32>, text: &[u8], place: usize) -> ClustersRead
    ensures { result ≡ closed clusters text.now place }
{
    match next(b"]", text, place) {
        Some(behind) => Ok((clusters, behind)),
        None => Err(FeatureError::MissingBracket(skip_spaces(text, place))),
    }
}

/// The clusters from a start on to the end that comes next, or with no end.
#[tactic(auto, unfolding(crate::specs::features::Clusters::ended_at))]
fn ended_at(start: Option<u32>, text: &[u8], place: usize) -> ClustersRead
    ensures { result ≡ ended_at start text.now place }
{
    let (end, place) = number_at(text, place)?;
    closed(start.unwrap_or(0)..end.unwrap_or(u32::MAX), text, place)
}

/// The clusters in brackets of which the first is passed.
#[tactic(auto, unfolding(crate::specs::features::Clusters::bracketed_at))]
fn bracketed_at(text: &[u8], place: usize) -> ClustersRead
    ensures { result ≡ bracketed_at text.now place }
{
    let (start, place) = number_at(text, place)?;
    match separated(text, place) {
        Some(behind) => ended_at(start, text, behind),
        None => closed(only(start), text, place),
    }
}

/// The clusters in brackets that come next, or else all clusters.
#[tactic(auto, unfolding(crate::specs::features::Clusters::clusters_at))]
pub fn clusters_at(text: &[u8], place: usize) -> ClustersRead
    ensures { result ≡ clusters_at text.now place }
{
    match next(b"[", text, place) {
        Some(behind) => bracketed_at(text, behind),
        None => Ok((all_clusters(), place)),
    }
}
