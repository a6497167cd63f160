//! What is live, and of each group the first.
ghost use Rattle.std.specs.Prelude.{◌≡◌, ◌≢◌, false, ◌<◌, ◌≤◌, true, [], ◌∷◌, ◌++◌, length, filter, not, take_while, slice_set};
ghost use Rattle.std.specs.Prelude.{IfOk, IfErr, OnOk};
ghost use Rattle.aat_map.specs.Live.{has_begun, in_group, infos, without_earliest, IsRisingByGroup};
ghost use Rattle.aat_map.specs.inside.Firsts.{first_of, firsts_of, AreApart, AreGroupsOf, IsNoted};

use crate::feature::{feature_info_t, feature_range_t};
use crate::gather::{groups_of, is_equal, is_one_group, take_out};
use aat_run::AatError;
use std::alloc::Allocator;
use std::collections::VecDeque;

/// What is live at a cluster, and of each group the first.
#[derive(Drop)]
pub(crate) struct Live<A: Allocator> {
    /// What is live, in order of start.
    pub(crate) active: VecDeque<feature_info_t, A>,
    /// One setting of each group that is requested.
    pub(crate) groups: Vec<feature_info_t, A>,
    /// Of each of these groups the first that is live.
    pub(crate) firsts: Vec<Option<feature_info_t>, A>,
    /// Whether one of these has changed since this was set to `false`; at the start it is `true`.
    pub(crate) is_changed: bool,
}

/// What is live at cluster 0, of requests by start: what starts there.
pub(crate) fn live_at_start<A: Allocator + Copy>(
    alloc: A,
    ordered: &[feature_range_t],
) -> Result<Live<A>, AatError>
    ensures active { IfOk result (λ live. live.active.items ≡ infos (filter (has_begun 0) ordered.now)) }
    ensures groups { IfOk result (λ live. AreGroupsOf (infos ordered.now) live.groups.items) }
    ensures rising { IfOk result (λ live. IsRisingByGroup live.groups.items) }
    ensures firsts { IfOk result (λ live. live.firsts.items ≡ firsts_of live.groups.items live.active.items) }
    ensures changed { IfOk result (λ live. live.is_changed ≡ true) }
    ensures err { IfErr result (λ e. e ≡ AatError.OutOfMemory) }
{
    let active = begun_at_start(alloc, ordered)?;
    let groups = groups_of(alloc, ordered)?;
    let firsts = firsts_of(alloc, &groups, &active)?;
    Ok(Live {
        active,
        groups,
        firsts,
        is_changed: true,
    })
}

/// What starts at cluster 0.
fn begun_at_start<A: Allocator + Copy>(
    alloc: A,
    ordered: &[feature_range_t],
) -> Result<VecDeque<feature_info_t, A>, AatError>
    ensures ok { IfOk result (λ list. list.items ≡ infos (filter (has_begun 0) ordered.now)) }
    ensures err { IfErr result (λ e. e ≡ AatError.OutOfMemory) }
{
    let mut list = VecDeque::new(alloc);
    for request in ordered {
        if request.start == 0 {
            list.push_back(request.info)?;
        }
    }
    Ok(list)
}

/// Of each group the first.
fn firsts_of<A: Allocator + Copy>(
    alloc: A,
    groups: &[feature_info_t],
    list: &VecDeque<feature_info_t, A>,
) -> Result<Vec<Option<feature_info_t>, A>, AatError>
    ensures ok { IfOk result (λ firsts. firsts.items ≡ firsts_of groups.now list.now.items) }
    ensures err { IfErr result (λ e. e ≡ AatError.OutOfMemory) }
{
    let mut firsts = Vec::with_capacity(alloc, groups.len())?;
    for group in groups {
        firsts.push(first_of(list, group))?;
    }
    Ok(firsts)
}

/// Puts a setting behind what is live.
pub(crate) fn begin<A: Allocator>(live: &mut Live<A>, info: &feature_info_t) -> Result<(), AatError>
    requires apart { AreApart live.old.groups.items }
    requires firsts { live.old.firsts.items ≡ firsts_of live.old.groups.items live.old.active.items }
    ensures active { OnOk result (live.new.active.items ≡ live.old.active.items ++ info.now ∷ []) }
    ensures groups { live.new.groups.items ≡ live.old.groups.items }
    ensures firsts { OnOk result (live.new.firsts.items ≡ firsts_of live.new.groups.items live.new.active.items) }
    ensures changed { OnOk result (IsNoted live.old.is_changed live.new.is_changed
        live.old.firsts.items live.new.firsts.items) }
    ensures err { IfErr result (λ e. e ≡ AatError.OutOfMemory) }
{
    live.active.push_back(*info)?;
    let place = place_of(&live.groups, info);
    if place < live.groups.len() {
        let first = live.firsts[place].or(Some(*info));
        set_first(live, place, first);
    }
    Ok(())
}

/// Takes out the earliest that is equal to one.
pub(crate) fn end<A: Allocator>(live: &mut Live<A>, info: &feature_info_t)
    requires apart { AreApart live.old.groups.items }
    requires firsts { live.old.firsts.items ≡ firsts_of live.old.groups.items live.old.active.items }
    ensures active { live.new.active.items ≡ without_earliest live.old.active.items info.now }
    ensures groups { live.new.groups.items ≡ live.old.groups.items }
    ensures firsts { live.new.firsts.items ≡ firsts_of live.new.groups.items live.new.active.items }
    ensures changed { IsNoted live.old.is_changed live.new.is_changed live.old.firsts.items live.new.firsts.items }
{
    take_out(&mut live.active, info);
    let place = place_of(&live.groups, info);
    if place < live.groups.len() {
        let first = first_of(&live.active, &live.groups[place]);
        set_first(live, place, first);
    }
}

/// Sets the first of a group, and notes where it is another one.
fn set_first<A: Allocator>(live: &mut Live<A>, place: usize, first: Option<feature_info_t>)
    requires { place < length live.old.firsts.items }
    ensures active { live.new.active.items ≡ live.old.active.items }
    ensures groups { live.new.groups.items ≡ live.old.groups.items }
    ensures firsts { live.new.firsts.items ≡ slice_set live.old.firsts.items place first }
    ensures changed { IsNoted live.old.is_changed live.new.is_changed live.old.firsts.items live.new.firsts.items }
{
    if !is_same(&live.firsts[place], &first) {
        live.firsts[place] = first;
        live.is_changed = true;
    }
}

/// Whether two are the same setting, or there is neither.
fn is_same(a: &Option<feature_info_t>, b: &Option<feature_info_t>) -> bool
    ensures same { result ≡ true → a.now ≡ b.now }
    ensures other { result ≡ false → a.now ≢ b.now }
{
    match (a, b) {
        (Some(x), Some(y)) => is_equal(x, y),
        (None, None) => true,
        _ => false,
    }
}

/// How many groups stand before that of a setting.
pub(crate) fn place_of(groups: &[feature_info_t], info: &feature_info_t) -> usize
    ensures count { result ≡ length (take_while (λ g. not (in_group info.now g)) groups.now) }
    ensures within { result ≤ length groups.now }
{
    groups.iter().take_while(|g| !is_one_group(info, g)).count()
}

/// The first that is of a group, if there is one.
fn first_of<A: Allocator>(
    list: &VecDeque<feature_info_t, A>,
    group: &feature_info_t,
) -> Option<feature_info_t>
    ensures { result ≡ first_of list.now.items group.now }
{
    let at = count_of_others(list, group);
    if at < list.len() {
        Some(list[at])
    } else {
        None
    }
}

/// How many settings in front are not of a group.
fn count_of_others<A: Allocator>(
    list: &VecDeque<feature_info_t, A>,
    group: &feature_info_t,
) -> usize
    ensures count { result ≡ length (take_while (λ i. not (in_group i group.now)) list.now.items) }
    ensures within { result ≤ length list.now.items }
{
    list.iter().take_while(|i| !is_one_group(i, group)).count()
}
