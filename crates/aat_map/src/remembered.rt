//! The flags of the chains, remembered from range to range.
ghost use Rattle.std.specs.Prelude.{◌≡◌, ◌<◌, ◌≤◌, ℕ, length, false, IfErr, OnOk};
ghost use Rattle.aat_run.specs.Ranges.{next_start, range};
ghost use Rattle.aat_map.specs.Map.{list_at, with_ranges};
ghost use Rattle.aat_map.specs.inside.CompiledSpans.{all_flags_for, ranges_with};
ghost use Rattle.aat_map.specs.inside.Firsts.{firsts_of, present, AreApart};
ghost use Rattle.aat_map.specs.inside.Placed.{ArePlaced, place_lists};

use crate::live::Live;
use crate::map::hb_aat_map_t;
use crate::placed::{Placed, write_flags};
use aat_buffer::hb_mask_t;
use aat_machine_tables::Chain;
use aat_run::{AatError, range_flags_t};
use std::alloc::Allocator;

/// Brings the flags of the chains to those that the first of each group gives them. They are computed anew only where
/// one of these has changed.
pub(crate) fn renew<A: Allocator>(
    flags: &mut [hb_mask_t],
    chains: &[Chain],
    placed: &Placed<A>,
    live: &Live<A>,
)
    requires each { length flags.old ≡ length chains.now }
    requires valid { live.now.is_changed ≡ false
        → flags.old ≡ all_flags_for (present live.now.firsts.items) chains.now }
    requires apart { AreApart live.now.groups.items }
    requires firsts { live.now.firsts.items ≡ firsts_of live.now.groups.items live.now.active.items }
    requires placed { ArePlaced live.now.groups.items chains.now
        (place_lists placed.now.of_chains.items) placed.now.small_caps }
    ensures { flags.new ≡ all_flags_for (present live.now.firsts.items) chains.now }
{
    if live.is_changed {
        write_flags(flags, chains, placed, live);
    }
}

/// Adds a range with its flags to the list of each chain.
pub(crate) fn push_flags<A: Allocator + Copy>(
    flags: &[hb_mask_t],
    span: (u32, u32),
    map: &mut hb_aat_map_t<A>,
) -> Result<(), AatError>
    requires span { span.0 ≤ span.1 }
    requires lists { length map.old ≡ length flags.now }
    requires follows { (k : ℕ) → k < length flags.now → next_start (list_at map.old k) ≡ span.0 }
    ensures ok { OnOk result (map.new ≡ with_ranges (ranges_with span flags.now) map.old) }
    ensures err { IfErr result (λ e. e ≡ AatError.OutOfMemory) }
{
    for (i, flags_of_chain) in flags.iter().enumerate() {
        map.push(i, range_of_span(*flags_of_chain, span))?;
    }
    Ok(())
}

/// A range of flags over a span.
fn range_of_span(flags: hb_mask_t, span: (u32, u32)) -> range_flags_t
    ensures { result ≡ range span.0 span.1 flags }
{
    range_flags_t {
        flags,
        cluster_first: span.0,
        cluster_last: span.1,
    }
}
