//! One walk over the starts and the ends of requests, which leaves at each cluster what is live there.
ghost use Rattle.std.specs.Prelude.{◌≡◌, ◌≤◌, ◌+◌, ◌++◌, length, filter, drop, fold};
ghost use Rattle.std.specs.Prelude.{IfOk, IfErr, OnOk, IsPermutation, take_while};
ghost use Rattle.std.specs.List.{prefix_len};
ghost use Rattle.std.specs.List.Sorted.{IsNonDecreasingBy};
ghost use Rattle.aat_map.specs.Live.{infos, has_begun, live_among, without_earliest};
ghost use Rattle.aat_map.specs.inside.Firsts.{firsts_of, AreApart, IsNoted};
ghost use Rattle.aat_map.specs.inside.Walked.{ends_within, ends_by, AreWalked, IsWalkedUpTo};

use crate::feature::feature_range_t;
use crate::gather::count_up_to;
use crate::live::{Live, begin, end};
use aat_run::AatError;
use std::alloc::Allocator;

/// The requests that end before the last cluster, by where they end.
pub(crate) fn by_end<A: Allocator + Copy>(
    alloc: A,
    ordered: &[feature_range_t],
) -> Result<Vec<feature_range_t, A>, AatError>
    ensures same { IfOk result (λ ending. IsPermutation (filter ends_within ordered.now) ending.items) }
    ensures rising { IfOk result (λ ending. IsNonDecreasingBy (λ r. r.end) ending.items) }
    ensures err { IfErr result (λ e. e ≡ AatError.OutOfMemory) }
{
    let mut ending = ending_within(alloc, ordered)?;
    ending.sort_by_key(|r| r.end)?;
    Ok(ending)
}

/// The requests that end before the last cluster. One up to the last cluster never ends.
fn ending_within<A: Allocator + Copy>(
    alloc: A,
    ordered: &[feature_range_t],
) -> Result<Vec<feature_range_t, A>, AatError>
    ensures ok { IfOk result (λ ending. ending.items ≡ filter ends_within ordered.now) }
    ensures err { IfErr result (λ e. e ≡ AatError.OutOfMemory) }
{
    let mut ending = Vec::with_capacity(alloc, ordered.len())?;
    for request in ordered {
        if request.end != u32::MAX {
            ending.push(*request)?;
        }
    }
    Ok(ending)
}

/// Goes on to a cluster: what starts up to it comes behind what is live, and what ends up to it goes. Answers how many
/// requests have begun and ended there.
///
/// Each end takes out the earliest equal one, which started before. So what starts at the same cluster stays,
/// and it does not matter in which order ends at one cluster are met.
pub(crate) fn go_on<A: Allocator>(
    live: &mut Live<A>,
    passed: (usize, usize),
    ordered: &[feature_range_t],
    ending: &[feature_range_t],
    cluster: u32,
) -> Result<(usize, usize), AatError>
    requires apart { AreApart live.old.groups.items }
    requires firsts { live.old.firsts.items ≡ firsts_of live.old.groups.items live.old.active.items }
    requires walked { AreWalked ordered.now ending.now }
    requires begun { passed.0 ≤ length ordered.now }
    requires ended { passed.1 ≤ length ending.now }
    requires up_to { IsWalkedUpTo cluster ordered.now ending.now live.old.active.items passed.0 passed.1 }
    ensures live { OnOk result (live.new.active.items ≡ live_among cluster ordered.now) }
    ensures groups { OnOk result (live.new.groups.items ≡ live.old.groups.items) }
    ensures firsts { OnOk result (live.new.firsts.items ≡ firsts_of live.new.groups.items live.new.active.items) }
    ensures begun { IfOk result (λ now. now.0 ≤ length ordered.now) }
    ensures ended { IfOk result (λ now. now.1 ≤ length ending.now) }
    ensures up_to { IfOk result (λ now. IsWalkedUpTo cluster ordered.now ending.now
        live.new.active.items now.0 now.1) }
    ensures changed { OnOk result (IsNoted live.old.is_changed live.new.is_changed
        live.old.firsts.items live.new.firsts.items) }
    ensures err { IfErr result (λ e. e ≡ AatError.OutOfMemory) }
{
    let begun = start_up_to(live, ordered, passed.0, cluster)?;
    let ended = end_up_to(live, ending, passed.1, cluster);
    Ok((begun, ended))
}

/// Puts what starts up to a cluster behind what is live. Answers how many have begun there.
fn start_up_to<A: Allocator>(
    live: &mut Live<A>,
    ordered: &[feature_range_t],
    begun: usize,
    cluster: u32,
) -> Result<usize, AatError>
    requires within { begun ≤ length ordered.now }
    requires apart { AreApart live.old.groups.items }
    requires firsts { live.old.firsts.items ≡ firsts_of live.old.groups.items live.old.active.items }
    ensures live { OnOk result (live.new.active.items
        ≡ live.old.active.items ++ infos (take_while (has_begun cluster) (drop begun ordered.now))) }
    ensures groups { OnOk result (live.new.groups.items ≡ live.old.groups.items) }
    ensures firsts { OnOk result (live.new.firsts.items ≡ firsts_of live.new.groups.items live.new.active.items) }
    ensures count { IfOk result (λ n. n ≡ begun + prefix_len (has_begun cluster) (drop begun ordered.now)) }
    ensures within { IfOk result (λ n. n ≤ length ordered.now) }
    ensures changed { OnOk result (IsNoted live.old.is_changed live.new.is_changed
        live.old.firsts.items live.new.firsts.items) }
    ensures err { IfErr result (λ e. e ≡ AatError.OutOfMemory) }
{
    let coming = &ordered[begun..];
    let more = count_up_to(coming, cluster);
    push_all(live, &coming[..more])?;
    Ok(begun + more)
}

/// Puts what requests ask for last.
fn push_all<A: Allocator>(live: &mut Live<A>, requests: &[feature_range_t]) -> Result<(), AatError>
    requires apart { AreApart live.old.groups.items }
    requires firsts { live.old.firsts.items ≡ firsts_of live.old.groups.items live.old.active.items }
    ensures ok { OnOk result (live.new.active.items ≡ live.old.active.items ++ infos requests.now) }
    ensures groups { OnOk result (live.new.groups.items ≡ live.old.groups.items) }
    ensures firsts { OnOk result (live.new.firsts.items ≡ firsts_of live.new.groups.items live.new.active.items) }
    ensures changed { OnOk result (IsNoted live.old.is_changed live.new.is_changed
        live.old.firsts.items live.new.firsts.items) }
    ensures err { IfErr result (λ e. e ≡ AatError.OutOfMemory) }
{
    for request in requests {
        begin(live, &request.info)?;
    }
    Ok(())
}

/// Takes what ends up to a cluster out of what is live. Answers how many have ended there.
fn end_up_to<A: Allocator>(
    live: &mut Live<A>,
    ending: &[feature_range_t],
    ended: usize,
    cluster: u32,
) -> usize
    requires within { ended ≤ length ending.now }
    requires apart { AreApart live.old.groups.items }
    requires firsts { live.old.firsts.items ≡ firsts_of live.old.groups.items live.old.active.items }
    ensures live { live.new.active.items
        ≡ fold without_earliest live.old.active.items (infos (take_while (ends_by cluster) (drop ended ending.now))) }
    ensures groups { live.new.groups.items ≡ live.old.groups.items }
    ensures firsts { live.new.firsts.items ≡ firsts_of live.new.groups.items live.new.active.items }
    ensures count { result ≡ ended + prefix_len (ends_by cluster) (drop ended ending.now) }
    ensures within { result ≤ length ending.now }
    ensures changed { IsNoted live.old.is_changed live.new.is_changed live.old.firsts.items live.new.firsts.items }
{
    let leaving = &ending[ended..];
    let more = count_ending(leaving, cluster);
    take_out_all(live, &leaving[..more]);
    ended + more
}

/// How many requests in front end up to a cluster.
pub(crate) fn count_ending(ending: &[feature_range_t], cluster: u32) -> usize
    ensures count { result ≡ length (take_while (ends_by cluster) ending.now) }
    ensures within { result ≤ length ending.now }
{
    ending.iter().take_while(|q| q.end <= cluster).count()
}

/// Takes out for each request the earliest setting that is equal to its own.
fn take_out_all<A: Allocator>(live: &mut Live<A>, requests: &[feature_range_t])
    requires apart { AreApart live.old.groups.items }
    requires firsts { live.old.firsts.items ≡ firsts_of live.old.groups.items live.old.active.items }
    ensures live { live.new.active.items ≡ fold without_earliest live.old.active.items (infos requests.now) }
    ensures groups { live.new.groups.items ≡ live.old.groups.items }
    ensures firsts { live.new.firsts.items ≡ firsts_of live.new.groups.items live.new.active.items }
    ensures changed { IsNoted live.old.is_changed live.new.is_changed live.old.firsts.items live.new.firsts.items }
{
    for request in requests {
        end(live, &request.info);
    }
}
