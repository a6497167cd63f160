//! Where among the groups that are requested the settings stand that chain features ask for, and the flags that the
//! first of each group gives the chains.
ghost use Rattle.std.specs.Prelude.{◌≡◌, ◌<◌, ◌≤◌, ◌==◌, ◌&&◌, ◌||◌, map, length, IfOk, IfErr};
ghost use Rattle.std.specs.List.{AllWithin};
ghost use Rattle.aat_map.specs.Live.{IsRisingByGroup};
ghost use Rattle.aat_map.specs.inside.Firsts.{firsts_of, present, AreApart};
ghost use Rattle.aat_map.specs.inside.Placed.{ArePlaced, places_for, places_of, place_in, place_lists, setting_of};
ghost use Rattle.aat_map.specs.inside.Placed.{has_at, has_first};
ghost use Rattle.aat_map.specs.inside.CompiledSpans.{all_flags_for};
ghost use Rattle.aat_map.specs.Compiled.{flags_for};

use crate::chain_flags::{OLDER_SMALL_CAPS, SMALL_CAPS, changed_by, count_below};
use crate::feature::feature_info_t;
use crate::live::{Live, place_of};
use aat_buffer::hb_mask_t;
use aat_machine_tables::{Chain, ChainFeature};
use aat_run::AatError;
use std::alloc::Allocator;

/// Where among groups the settings stand that chain features ask for. A setting can be of two groups, since the
/// settings of its kind exclude one another or do not. The place of a group that there is not is the number of groups.
#[derive(Drop)]
pub(crate) struct Placed<A: Allocator> {
    /// Of each chain the places for each of its features.
    pub(crate) of_chains: Vec<Vec<(usize, usize), A>, A>,
    /// The places for small capitals of lower case letters.
    pub(crate) small_caps: (usize, usize),
}

/// Where among groups the settings stand that the features of chains ask for.
pub(crate) fn placed_in<A: Allocator + Copy>(
    alloc: A,
    groups: &[feature_info_t],
    chains: &[Chain],
) -> Result<Placed<A>, AatError>
    requires { IsRisingByGroup groups.now }
    ensures ok { IfOk result (λ p. ArePlaced groups.now chains.now (place_lists p.of_chains.items) p.small_caps) }
    ensures err { IfErr result (λ e. e ≡ AatError.OutOfMemory) }
{
    Ok(Placed {
        of_chains: places_of_chains(alloc, groups, chains)?,
        small_caps: places_of(groups, SMALL_CAPS),
    })
}

/// The places for the features of each chain.
fn places_of_chains<A: Allocator + Copy>(
    alloc: A,
    groups: &[feature_info_t],
    chains: &[Chain],
) -> Result<Vec<Vec<(usize, usize), A>, A>, AatError>
    requires { IsRisingByGroup groups.now }
    ensures ok { IfOk result (λ lists. place_lists lists.items ≡ map (places_for groups.now) chains.now) }
    ensures err { IfErr result (λ e. e ≡ AatError.OutOfMemory) }
{
    let mut lists = Vec::with_capacity(alloc, chains.len())?;
    for chain in chains {
        lists.push(places_for(alloc, groups, chain)?)?;
    }
    Ok(lists)
}

/// The places for each feature of a chain.
fn places_for<A: Allocator>(
    alloc: A,
    groups: &[feature_info_t],
    chain: &Chain,
) -> Result<Vec<(usize, usize), A>, AatError>
    requires { IsRisingByGroup groups.now }
    ensures ok { IfOk result (λ places. places.items ≡ places_for groups.now chain.now) }
    ensures err { IfErr result (λ e. e ≡ AatError.OutOfMemory) }
{
    let mut places = Vec::with_capacity(alloc, chain.features.len())?;
    for feature in &chain.features {
        places.push(places_of(groups, (feature.kind, feature.setting)))?;
    }
    Ok(places)
}

/// The places of the two groups that a kind and setting can be of. Groups rise by their kind, so a bisection finds
/// where those of the kind begin.
fn places_of(groups: &[feature_info_t], wanted: (u16, u16)) -> (usize, usize)
    requires { IsRisingByGroup groups.now }
    ensures { result ≡ places_of groups.now wanted.0 wanted.1 }
{
    let from = count_below(groups, wanted.0);
    (
        place_from(groups, from, false, wanted),
        place_from(groups, from, true, wanted),
    )
}

/// The place of the group of a setting, looked for from a place on, before which all groups are of lower kinds.
fn place_from(
    groups: &[feature_info_t],
    from: usize,
    is_exclusive: bool,
    wanted: (u16, u16),
) -> usize
    requires within { from ≤ length groups.now }
    requires lower { AllWithin (λ i. i.kind < wanted.0) groups.now 0 from }
    ensures { result ≡ place_in groups.now (setting_of is_exclusive wanted.0 wanted.1) }
{
    let (kind, setting) = wanted;
    let info = feature_info_t {
        kind,
        setting,
        is_exclusive,
    };
    from + place_of(&groups[from..], &info)
}

/// Writes over the flags of each chain with those that the first of each group gives it.
pub(crate) fn write_flags<A: Allocator>(
    flags: &mut [hb_mask_t],
    chains: &[Chain],
    placed: &Placed<A>,
    live: &Live<A>,
)
    requires each { length flags.old ≡ length chains.now }
    requires apart { AreApart live.now.groups.items }
    requires firsts { live.now.firsts.items ≡ firsts_of live.now.groups.items live.now.active.items }
    requires placed { ArePlaced live.now.groups.items chains.now
        (place_lists placed.now.of_chains.items) placed.now.small_caps }
    ensures { flags.new ≡ all_flags_for (present live.now.firsts.items) chains.now }
{
    for (i, chain) in chains.iter().enumerate() {
        flags[i] = flags_of_placed(chain, &placed.of_chains[i], placed.small_caps, live);
    }
}

/// The flags that the first of each group gives a chain.
fn flags_of_placed<A: Allocator>(
    chain: &Chain,
    places: &[(usize, usize)],
    small_caps: (usize, usize),
    live: &Live<A>,
) -> hb_mask_t
    requires apart { AreApart live.now.groups.items }
    requires firsts { live.now.firsts.items ≡ firsts_of live.now.groups.items live.now.active.items }
    requires places { places.now ≡ places_for live.now.groups.items chain.now }
    requires small_caps { small_caps ≡ places_of live.now.groups.items 37 1 }
    ensures { result ≡ flags_for (present live.now.firsts.items) chain.now }
{
    let mut flags = chain.default_flags;
    for (i, feature) in chain.features.iter().enumerate() {
        let is_asked = is_asked_at(&live.firsts, places[i], small_caps, feature);
        flags = changed_by(is_asked, flags, feature);
    }
    flags
}

/// Whether a chain feature is asked for, or it is the older small capitals and the newer ones are.
fn is_asked_at(
    firsts: &[Option<feature_info_t>],
    places: (usize, usize),
    small_caps: (usize, usize),
    feature: &ChainFeature,
) -> bool
    ensures { result ≡ (has_first firsts.now places feature.now.setting
        || ((feature.now.kind == 3) && (feature.now.setting == 3) && has_first firsts.now small_caps 1)) }
{
    has_first(firsts, places, feature.setting)
        || feature.kind == OLDER_SMALL_CAPS.0
            && feature.setting == OLDER_SMALL_CAPS.1
            && has_first(firsts, small_caps, SMALL_CAPS.1)
}

/// Whether the first of one of two groups has a setting.
fn has_first(firsts: &[Option<feature_info_t>], places: (usize, usize), setting: u16) -> bool
    ensures { result ≡ has_first firsts.now places setting }
{
    has_at(firsts, places.0, setting) || has_at(firsts, places.1, setting)
}

/// Whether there is a first of the group at a place, and it has a setting.
fn has_at(firsts: &[Option<feature_info_t>], place: usize, setting: u16) -> bool
    ensures { result ≡ has_at firsts.now place setting }
{
    match firsts.get(place) {
        Some(Some(info)) => info.setting == setting,
        _ => false,
    }
}
