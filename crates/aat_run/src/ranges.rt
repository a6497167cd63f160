//! Ranges of clusters with the flags of a chain, and how they switch a subtable.
ghost use Rattle.std.specs.Prelude.{◌≡◌, ◌<◌, ◌≤◌, IfSome, IsTrue, [], false, find, length};
ghost use Rattle.std.specs.List.{list_all, list_any};
ghost use Rattle.aat_run.specs.RangeOf.{binary_digits, is_held_at};
ghost use Rattle.aat_run.specs.Ranges.{IsGapless, ends_at_last, flags_in, flags_on, holds, is_driven_on, switch_for};
ghost use Rattle.aat_run.specs.Stretches.{IsSwitchedAlike};
ghost use Rattle.aat_run.specs.Switches.{meets};
ghost use Rattle.aat_run.specs.Throughout.{is_everywhere_on, is_nowhere_on};
ghost use Rattle.aat_run.specs.inside.Near.{place_near};

use aat_buffer::hb_mask_t;

/// The flags of a chain from `cluster_first` to `cluster_last`.
#[derive(Clone, Copy, PartialEq, Eq, Debug)]
pub struct range_flags_t {
    pub flags: hb_mask_t,
    pub cluster_first: u32,
    pub cluster_last: u32,
}

/// The flags of the range that holds a cluster, if there is one.
pub fn flags_in(ranges: &[range_flags_t], cluster: u32) -> Option<hb_mask_t>
    ensures { result ≡ flags_in ranges.now cluster }
{
    ranges
        .iter()
        .find(|range| range.holds(cluster))
        .map(|range| range.flags)
}

/// Whether a subtable with some feature flags is on at a cluster: always where no range is compiled.
pub fn is_on(ranges: &[range_flags_t], feature_flags: hb_mask_t, cluster: u32) -> bool
    ensures { result ≡ (switch_for ranges.now).is_on feature_flags cluster }
{
    ranges.is_empty() || flags_in(ranges, cluster).unwrap_or(0) & feature_flags != 0
}

/// Whether the last range ends at the last cluster there can be. An empty list has none that does.
pub fn ends_at_last(ranges: &[range_flags_t]) -> bool
    ensures { result ≡ ends_at_last ranges.now }
{
    match ranges.last() {
        Some(last) => last.cluster_last == u32::MAX,
        None => false,
    }
}

/// The place of the range that holds a cluster, and the number of probes that found it. A probe compares the cluster
/// with one range, and there are at most as many as the number of ranges has binary digits.
///
/// The ranges have to split the clusters: they follow one another from 0 without a gap, and the last ends at the last
/// cluster there can be, which no empty list does.
pub fn range_of(ranges: &[range_flags_t], cluster: u32) -> (usize, u32)
    requires gapless { IsGapless ranges.now }
    requires whole { IsTrue (ends_at_last ranges.now) }
    ensures within { result.0 < length ranges.now }
    ensures place { IsTrue (is_held_at ranges.now result.0 cluster) }
    ensures probes { result.1 ≤ binary_digits (length ranges.now) }
{
    let mut low = 0;
    let mut high = ranges.len() - 1;
    let mut probes = 0;
    while low < high {
        let middle = low + (high - low) / 2;
        let last = ranges[middle].cluster_last;
        probes += 1;
        if last < cluster {
            low = middle + 1;
        } else {
            high = middle;
        }
    }
    (low, probes)
}

/// Whether a range of a list switches a subtable with some feature flags on.
fn has_on(ranges: &[range_flags_t], feature_flags: hb_mask_t) -> bool
    ensures { result ≡ list_any (λ r. meets r.flags feature_flags) ranges.now }
{
    ranges.iter().any(|r| r.flags & feature_flags != 0)
}

/// Whether each range of a list switches a subtable with some feature flags on.
fn are_on(ranges: &[range_flags_t], feature_flags: hb_mask_t) -> bool
    ensures { result ≡ list_all (λ r. meets r.flags feature_flags) ranges.now }
{
    ranges.iter().all(|r| r.flags & feature_flags != 0)
}

/// Whether there are ranges and none of them switches a subtable with some feature flags on.
pub fn is_nowhere_on(ranges: &[range_flags_t], feature_flags: hb_mask_t) -> bool
    ensures { result ≡ is_nowhere_on ranges.now feature_flags }
{
    !ranges.is_empty() && !has_on(ranges, feature_flags)
}

/// Whether the ranges end at the last cluster there can be and each of them switches a subtable with some feature flags
/// on.
pub fn is_everywhere_on(ranges: &[range_flags_t], feature_flags: hb_mask_t) -> bool
    ensures { result ≡ is_everywhere_on ranges.now feature_flags }
{
    ends_at_last(ranges) && are_on(ranges, feature_flags)
}

/// The ranges that have to be asked whether a subtable is on at a cluster: none where it is on everywhere. The ranges
/// have to follow one another from 0 without a gap.
pub fn ranges_to_ask(ranges: &[range_flags_t], feature_flags: hb_mask_t) -> &[range_flags_t]
    requires { IsGapless ranges.now }
    ensures gapless { IsGapless result.now }
    ensures driven { is_driven_on result.now feature_flags ≡ is_driven_on ranges.now feature_flags }
    ensures switched { (switch_for result.now).is_on feature_flags ≡ (switch_for ranges.now).is_on feature_flags }
    ensures none { IsTrue (is_everywhere_on ranges.now feature_flags) → result.now ≡ [] }
    ensures all { is_everywhere_on ranges.now feature_flags ≡ false → result.now ≡ ranges.now }
{
    if is_everywhere_on(ranges, feature_flags) {
        &[]
    } else {
        ranges
    }
}

impl range_flags_t {
    /// Whether the range holds a cluster.
    fn holds(&self, cluster: u32) -> bool
        ensures { result ≡ holds cluster self.now }
    {
        self.cluster_first <= cluster && cluster <= self.cluster_last
    }
}

/// The first range that holds a cluster, if there is one, whose place is kept then: found by a walk.
fn range_with(ranges: &[range_flags_t], place: &mut usize, cluster: u32) -> Option<range_flags_t>
    ensures { result ≡ find (holds cluster) ranges.now }
{
    for (i, range) in ranges.iter().enumerate() {
        if range.holds(cluster) {
            *place = i;
            return Some(*range);
        }
    }
    None
}

/// Whether the range at a place holds a cluster. Past the end there is none.
fn is_held_at(ranges: &[range_flags_t], place: usize, cluster: u32) -> bool
    ensures { result ≡ is_held_at ranges.now place cluster }
{
    match ranges.get(place) {
        Some(range) => range.holds(cluster),
        None => false,
    }
}

/// The place of the range that holds a cluster, where it is this one or one beside it.
fn place_near(ranges: &[range_flags_t], place: usize, cluster: u32) -> Option<usize>
    ensures near { result ≡ place_near ranges.now place cluster }
    ensures within { IfSome result (λ near. near < length ranges.now) }
    ensures held { IfSome result (λ near. IsTrue (is_held_at ranges.now near cluster)) }
{
    let behind = place.saturating_add(1);
    let before = place.saturating_sub(1);
    if is_held_at(ranges, place, cluster) {
        Some(place)
    } else if is_held_at(ranges, behind, cluster) {
        Some(behind)
    } else if is_held_at(ranges, before, cluster) {
        Some(before)
    } else {
        None
    }
}

/// The range that holds a cluster, if there is one, whose place is kept then: found by bisection where the ranges end
/// at the last cluster there can be, and else by a walk from the first one.
fn range_at(ranges: &[range_flags_t], place: &mut usize, cluster: u32) -> Option<range_flags_t>
    requires { IsGapless ranges.now }
    ensures { result ≡ find (holds cluster) ranges.now }
{
    if ends_at_last(ranges) {
        let (found, _) = range_of(ranges, cluster);
        *place = found;
        Some(ranges[found])
    } else {
        range_with(ranges, place, cluster)
    }
}

/// The range that holds a cluster, if there is one, whose place is kept then. It is looked for at the place that was
/// kept and beside it first, which is not proved.
fn range_from(ranges: &[range_flags_t], place: &mut usize, cluster: u32) -> Option<range_flags_t>
    requires { IsGapless ranges.now }
    ensures { result ≡ find (holds cluster) ranges.now }
{
    match place_near(ranges, *place, cluster) {
        Some(near) => {
            *place = near;
            Some(ranges[near])
        }
        None => range_at(ranges, place, cluster),
    }
}

/// Whether a machine with some feature flags is on at a cluster, with a place at which its range is looked for
/// first.
pub(crate) fn is_driven_on(
    ranges: &[range_flags_t],
    feature_flags: hb_mask_t,
    place: &mut usize,
    cluster: u32,
) -> bool
    requires { IsGapless ranges.now }
    ensures { result ≡ is_driven_on ranges.now feature_flags cluster }
{
    ranges.len() < 2 || is_on_in(ranges, feature_flags, place, cluster)
}

/// Whether the range of a cluster switches a machine with some feature flags on, with a place at which it is looked for
/// first. It stands apart, so that a turn with fewer than two ranges stays short.
#[inline(never)]
fn is_on_in(
    ranges: &[range_flags_t],
    feature_flags: hb_mask_t,
    place: &mut usize,
    cluster: u32,
) -> bool
    requires { IsGapless ranges.now }
    ensures { result ≡ meets (flags_on ranges.now cluster) feature_flags }
{
    match range_from(ranges, place, cluster) {
        Some(range) => range.flags & feature_flags != 0,
        None => false,
    }
}

/// Clusters over which a subtable is on, or off, throughout.
#[derive(Clone, Copy, PartialEq, Eq, Debug)]
pub struct Stretch {
    /// The first of the clusters.
    pub cluster_first: u32,
    /// The last of the clusters. Where it is below the first one the stretch has none.
    pub cluster_last: u32,
    /// Whether the subtable is on at these clusters.
    pub is_on: bool,
    /// The place at which the range of another cluster is looked for first. Any place is allowed.
    place: usize,
}

impl Stretch {
    /// A stretch without clusters, from which a walk over a line begins.
    pub fn none() -> Stretch
        ensures { result.cluster_last < result.cluster_first }
    {
        Stretch {
            cluster_first: 1,
            cluster_last: 0,
            is_on: false,
            place: 0,
        }
    }

    /// The stretch of a subtable with some feature flags that holds a cluster: this one where it does, else that of the
    /// range that holds it. Where no range is compiled all clusters are one stretch, on which the subtable is on, and a
    /// cluster that no range holds is one by itself, at which it is off.
    ///
    /// The ranges have to follow one another from 0 without a gap, and at each cluster of this stretch they have to
    /// switch the subtable as it says: so they do on a stretch that was found by the same ranges and flags, and on one
    /// without clusters.
    pub fn on_to(self, ranges: &[range_flags_t], feature_flags: hb_mask_t, cluster: u32) -> Stretch
        requires gapless { IsGapless ranges.now }
        requires alike { IsSwitchedAlike ((switch_for ranges.now).is_on feature_flags) self }
        ensures first { result.cluster_first ≤ cluster }
        ensures last { cluster ≤ result.cluster_last }
        ensures alike { IsSwitchedAlike ((switch_for ranges.now).is_on feature_flags) result }
    {
        if (self.cluster_first..=self.cluster_last).contains(&cluster) {
            self
        } else {
            stretch_at(ranges, feature_flags, self.place, cluster)
        }
    }
}

/// The stretch that holds a cluster, whose range is looked for at a place first.
fn stretch_at(
    ranges: &[range_flags_t],
    feature_flags: hb_mask_t,
    place: usize,
    cluster: u32,
) -> Stretch
    requires { IsGapless ranges.now }
    ensures first { result.cluster_first ≤ cluster }
    ensures last { cluster ≤ result.cluster_last }
    ensures alike { IsSwitchedAlike ((switch_for ranges.now).is_on feature_flags) result }
{
    let mut place = place;
    if ranges.is_empty() {
        return Stretch {
            cluster_first: 0,
            cluster_last: u32::MAX,
            is_on: true,
            place,
        };
    }
    match range_from(ranges, &mut place, cluster) {
        Some(range) => Stretch {
            cluster_first: range.cluster_first,
            cluster_last: range.cluster_last,
            is_on: range.flags & feature_flags != 0,
            place,
        },
        None => Stretch {
            cluster_first: cluster,
            cluster_last: cluster,
            is_on: false,
            place,
        },
    }
}
