//! The ranges of a chain by a map, or without one by its default flags.
ghost use Rattle.std.specs.Prelude.{◌≡◌, ◌∷◌, [], IfSome, IsTrue};
ghost use Rattle.std.specs.List.{list_all};
ghost use Rattle.std.specs.Option.{option_copied};
ghost use Rattle.aat_map.specs.Map.{default_list, list_or};
ghost use Rattle.aat_run.specs.Ranges.{is_whole_list, IsGapless};

use crate::map::hb_aat_map_t;
use aat_machine_tables::Chain;
use aat_run::range_flags_t;
use std::alloc::Allocator;

/// The range of a chain where nothing is requested: its default flags over the whole text.
pub fn default_range(chain: &Chain) -> range_flags_t
    ensures { result ∷ [] ≡ default_list chain.now }
{
    range_flags_t {
        flags: chain.default_flags,
        cluster_first: 0,
        cluster_last: u32::MAX,
    }
}

/// The list of the chain at a place in a map, and without a map another list, which has to begin at 0, to follow
/// without a gap, and to be empty or to end at the last cluster there can be. Takes no memory.
pub fn ranges_of<'r, A: Allocator + Copy>(
    map: Option<&'r hb_aat_map_t<A>>,
    place: usize,
    other: &'r [range_flags_t],
) -> &'r [range_flags_t]
    requires gapless { IsGapless other.now }
    requires whole { IsTrue (is_whole_list other.now) }
    ensures list { result.now ≡ list_or (option_copied map.entry) place other.now }
    ensures gapless { IsGapless result.now }
    ensures whole { IfSome (option_copied map.entry) (λ m. IsTrue (list_all is_whole_list m))
        → IsTrue (is_whole_list result.now) }
{
    match map {
        Some(map) => map.ranges(place),
        None => other,
    }
}
