//! Gathering the requests that count at a cluster: in order, by their groups, and what is kept of each.
ghost use Rattle.std.specs.Prelude.{◌≡◌, ◌≤◌, [], ◌∷◌, ◌++◌, if◌then◌else◌, length, take_while, nat_le, not};
ghost use Rattle.std.specs.Prelude.{All, IfOk, IfErr, OnOk, IsPermutation};
ghost use Rattle.std.specs.Prelude.{List};
ghost use Rattle.aat_map.specs.declared.feature.feature_info_t.{feature_info_t};
ghost use Rattle.aat_map.specs.Live.{by_start, admitted, is_admitted, infos, without_earliest};
ghost use Rattle.aat_map.specs.inside.CompiledSpans.{EndsWithinText};
ghost use Rattle.aat_map.specs.Live.{is_equal, kept, in_group, IsRisingByGroup};
ghost use Rattle.aat_map.specs.inside.Firsts.{AreGroupsOf, present};
ghost use Rattle.std.specs.List.{list_any};

use crate::feature::{feature_info_t, feature_order, feature_range_t, group_setting};
use aat_run::AatError;
use std::alloc::Allocator;
use std::collections::VecDeque;

/// The admitted requests by start, and where starts are equal in the order of adding.
///
/// A request whose start is not below its end holds no cluster. It is dropped here, since its end, which comes no later
/// than its start, would else take out an equal request that is still live.
pub(crate) fn by_start<A: Allocator + Copy>(
    alloc: A,
    requests: &[feature_range_t],
) -> Result<Vec<feature_range_t, A>, AatError>
    ensures ok { IfOk result (λ ordered. ordered.items ≡ by_start requests.now) }
    ensures bounded { OnOk result (All EndsWithinText requests.now) }
    ensures err { IfErr result (λ e. e ≡ AatError.OutOfMemory) }
{
    let mut ordered = admitted(alloc, requests)?;
    ordered.sort_by_key(|r| r.start)?;
    Ok(ordered)
}

/// The requests whose start is below their end, in the order of adding.
fn admitted<A: Allocator + Copy>(
    alloc: A,
    requests: &[feature_range_t],
) -> Result<Vec<feature_range_t, A>, AatError>
    ensures ok { IfOk result (λ list. list.items ≡ admitted requests.now) }
    ensures bounded { OnOk result (All EndsWithinText requests.now) }
    ensures err { IfErr result (λ e. e ≡ AatError.OutOfMemory) }
{
    let mut list = Vec::with_capacity(alloc, requests.len())?;
    for request in requests {
        push_admitted(&mut list, request)?;
    }
    Ok(list)
}

/// Puts a request last whose start is below its end.
fn push_admitted<A: Allocator>(
    list: &mut Vec<feature_range_t, A>,
    request: &feature_range_t,
) -> Result<(), AatError>
    ensures ok { OnOk result (list.new.items
        ≡ list.old.items ++ (if is_admitted request.now then request.now ∷ [] else [])) }
    ensures bounded { EndsWithinText request.now }
    ensures err { IfErr result (λ e. e ≡ AatError.OutOfMemory) }
{
    if request.start < request.end {
        list.push(*request)?;
    }
    Ok(())
}

/// How many requests in front start no later than a cluster.
pub(crate) fn count_up_to(ordered: &[feature_range_t], start: u32) -> usize
    ensures count { result ≡ length (take_while (λ q. nat_le q.start start) ordered.now) }
    ensures within { result ≤ length ordered.now }
{
    ordered.iter().take_while(|q| q.start <= start).count()
}

/// Takes out the earliest that is equal to one. Equal requests ask for the same, so which of them ends
/// shows only in the order in which groups are looked through.
#[tactic(auto, using(crate::proofs::GatherLemmas::taken_out, crate::proofs::GatherLemmas::none_taken_out))]
pub(crate) fn take_out<A: Allocator>(list: &mut VecDeque<feature_info_t, A>, info: &feature_info_t)
    ensures { list.new.items ≡ without_earliest list.old.items info.now }
{
    let at = count_of_others(list, info);
    if at < list.len() {
        list.remove(at);
    }
}

/// How many settings in front are not equal to one.
fn count_of_others<A: Allocator>(list: &VecDeque<feature_info_t, A>, info: &feature_info_t) -> usize
    ensures count { result ≡ length (take_while (λ i. not (is_equal i info.now)) list.now.items) }
    ensures within { result ≤ length list.now.items }
{
    list.iter().take_while(|i| !is_equal(i, info)).count()
}

/// Whether two settings are equal in kind, setting and exclusiveness.
pub(crate) fn is_equal(a: &feature_info_t, b: &feature_info_t) -> bool
    ensures { result ≡ is_equal a.now b.now }
{
    a == b
}

/// What is there of the first of each group, in the order of groups.
pub(crate) fn kept_of<A: Allocator>(
    alloc: A,
    firsts: &[Option<feature_info_t>],
) -> Result<Vec<feature_info_t, A>, AatError>
    ensures kept { IfOk result (λ list. IsPermutation (present firsts.now) list.items) }
    ensures rising { IfOk result (λ list. (xs : List feature_info_t) → IsPermutation (kept xs) (present firsts.now)
        → IsRisingByGroup list.items) }
    ensures err { IfErr result (λ e. e ≡ AatError.OutOfMemory) }
{
    let mut list = present_of(alloc, firsts)?;
    list.sort_unstable_by(|a, b| feature_order(a, b));
    Ok(list)
}

/// What is there of the first of each group.
fn present_of<A: Allocator>(
    alloc: A,
    firsts: &[Option<feature_info_t>],
) -> Result<Vec<feature_info_t, A>, AatError>
    ensures ok { IfOk result (λ list. list.items ≡ present firsts.now) }
    ensures err { IfErr result (λ e. e ≡ AatError.OutOfMemory) }
{
    let mut list = Vec::with_capacity(alloc, firsts.len())?;
    for first in firsts {
        push_present(&mut list, first)?;
    }
    Ok(list)
}

/// Puts a setting last, if there is one.
fn push_present<A: Allocator>(
    list: &mut Vec<feature_info_t, A>,
    first: &Option<feature_info_t>,
) -> Result<(), AatError>
    ensures ok { OnOk result (list.new.items ≡ list.old.items ++ present (first.now ∷ [])) }
    ensures err { IfErr result (λ e. e ≡ AatError.OutOfMemory) }
{
    if let Some(info) = first {
        list.push(*info)?;
    }
    Ok(())
}

/// Of each group of requests the first, in the order of groups, so that a bisection finds where those of a kind begin.
pub(crate) fn groups_of<A: Allocator + Copy>(
    alloc: A,
    requests: &[feature_range_t],
) -> Result<Vec<feature_info_t, A>, AatError>
    ensures ok { IfOk result (λ groups. AreGroupsOf (infos requests.now) groups.items) }
    ensures kept { IfOk result (λ groups. IsPermutation (kept (infos requests.now)) groups.items) }
    ensures rising { IfOk result (λ groups. IsRisingByGroup groups.items) }
    ensures err { IfErr result (λ e. e ≡ AatError.OutOfMemory) }
{
    let mut groups = first_of_each(alloc, requests)?;
    groups.sort_unstable_by(|a, b| feature_order(a, b));
    Ok(groups)
}

/// Of each group of requests the first.
fn first_of_each<A: Allocator + Copy>(
    alloc: A,
    requests: &[feature_range_t],
) -> Result<Vec<feature_info_t, A>, AatError>
    ensures ok { IfOk result (λ groups. groups.items ≡ kept (infos requests.now)) }
    ensures err { IfErr result (λ e. e ≡ AatError.OutOfMemory) }
{
    let mut groups = Vec::new(alloc);
    for request in requests {
        push_first(&mut groups, request.info)?;
    }
    Ok(groups)
}

/// Puts a setting last where its group is new.
fn push_first<A: Allocator>(
    firsts: &mut Vec<feature_info_t, A>,
    info: feature_info_t,
) -> Result<(), AatError>
    ensures ok { OnOk result (firsts.new.items
        ≡ firsts.old.items ++ (if list_any (λ i. in_group i info) firsts.old.items then [] else info ∷ [])) }
    ensures err { IfErr result (λ e. e ≡ AatError.OutOfMemory) }
{
    if has_group(firsts, &info) {
        return Ok(());
    }
    firsts.push(info)?;
    Ok(())
}

/// Whether a list has a setting of this group.
fn has_group(list: &[feature_info_t], info: &feature_info_t) -> bool
    ensures { result ≡ list_any (λ i. in_group i info.now) list.now }
{
    list.iter().any(|i| is_one_group(i, info))
}

/// Whether two settings are of one group.
pub(crate) fn is_one_group(a: &feature_info_t, b: &feature_info_t) -> bool
    ensures { result ≡ in_group a.now b.now }
{
    a.kind == b.kind && a.is_exclusive == b.is_exclusive && group_setting(a) == group_setting(b)
}
