//! Compiling requests into the flags of each chain, range by range.
ghost use Rattle.std.specs.Prelude.{◌≡◌, ◌<◌, ◌≤◌, [], length, slice_get, slice_index_or, true, filter, All, IsTrue, IsPermutation, Some};
ghost use Rattle.std.specs.Prelude.{IfOk, IfErr, OnOk, OnErr};
ghost use Rattle.std.specs.List.{list_all};
ghost use Rattle.aat_font.specs.Face.{tables_of, chains_in};
ghost use Rattle.aat_run.specs.Ranges.{last_cluster, is_whole_list};
ghost use Rattle.aat_map.specs.Builder.{AreKeptAt};
ghost use Rattle.aat_map.specs.Compiled.{HaveFlags, IsLastStart};
ghost use Rattle.aat_map.specs.Live.{by_start, has_begun, infos, kept_at, IsRisingByGroup};
ghost use Rattle.aat_map.specs.Map.{AreStarts, range_starts};
ghost use Rattle.aat_map.specs.Spans.{spans};
ghost use Rattle.aat_map.specs.SwitchedChains.{switched_by, by_requests};
ghost use Rattle.aat_map.specs.inside.CompiledSpans.{compiled_lists, last_of, EndsWithinText, RiseFromZero, IsLastSpan, IsCompiled};
ghost use Rattle.aat_map.specs.inside.Firsts.{firsts_of, present, AreGroupsOf};
ghost use Rattle.aat_map.specs.inside.OverAll.{are_over_all};
ghost use Rattle.aat_map.specs.inside.Walked.{AreWalked};

use crate::builder::hb_aat_map_builder_t;
use crate::chain_flags::push_ranges;
use crate::feature::{feature_info_t, feature_range_t};
use crate::gather::{by_start, count_up_to, groups_of, kept_of};
use crate::live::{Live, live_at_start};
use crate::map::hb_aat_map_t;
use crate::placed::placed_in;
use crate::remembered::{push_flags, renew};
use crate::starts::starts_of;
use crate::walk::{by_end, count_ending, go_on};
use aat_font::hb_font_t;
use aat_machine_tables::Chain;
use aat_run::AatError;
use std::alloc::Allocator;

impl<A: Allocator + Copy> hb_aat_map_builder_t<A> {
    /// Compiles the requests into the flags of each chain of the font at each cluster.
    ///
    /// The map gets a list for each chain. Its ranges begin at 0 and at each cluster within the text
    /// at which a request starts or ends, and the last one ends at `u32::MAX`; equal neighbours are not
    /// joined. Requests whose start is not below their end are dropped. Afterwards the builder tells of
    /// the last range.
    ///
    /// Refused as 3, `OutOfMemory`, and never else. No clause says when memory suffices: requests take some also for a
    /// font without a chain. The map is then empty, the requests are as they were, and of the builder's range and
    /// settings nothing more is known than of those of every builder: the settings rise by
    /// [`feature_order`](crate::feature_order), and the first cluster is at most the last.
    ///
    /// Apple's TrueType Reference Manual, "The 'morx' table", feature subtables.
    pub fn compile(&mut self, face: &hb_font_t, map: &mut hb_aat_map_t<A>) -> Result<(), AatError>
        ensures lists { OnOk result (length map.new ≡ length (chains_in (tables_of face.now).morx)) }
        ensures flags { OnOk result (HaveFlags self.old.features (chains_in (tables_of face.now).morx) map.new) }
        ensures starts { OnOk result (All (λ ranges. AreStarts self.old.features (range_starts ranges)) map.new) }
        ensures whole { OnOk result (IsTrue (list_all is_whole_list map.new)) }
        ensures switches { OnOk result (switched_by (chains_in (tables_of face.now).morx) map.new
            ≡ by_requests self.old.features (chains_in (tables_of face.now).morx)) }
        ensures range { OnOk result (IsLastStart self.old.features self.new.range_first) }
        ensures last { OnOk result (self.new.range_last ≡ last_cluster) }
        ensures current { OnOk result (AreKeptAt self.new.range_first self.old.features self.new.current_features) }
        ensures requests { self.new.features ≡ self.old.features }
        ensures err { IfErr result (λ e. e ≡ AatError.OutOfMemory) }
        ensures empty { OnErr result (map.new ≡ []) }
    {
        map.clear();
        let answer = compile_ranges(self, face.chains(), map);
        map.empty_on_err(answer)
    }
}

/// Compiles range by range, over an empty map.
fn compile_ranges<A: Allocator + Copy>(
    builder: &mut hb_aat_map_builder_t<A>,
    chains: &[Chain],
    map: &mut hb_aat_map_t<A>,
) -> Result<(), AatError>
    requires { map.old ≡ [] }
    ensures ok { OnOk result (IsCompiled builder.old.features chains.now map.new builder.new) }
    ensures requests { builder.new.features ≡ builder.old.features }
    ensures err { IfErr result (λ e. e ≡ AatError.OutOfMemory) }
{
    if are_over_all(builder.features()) {
        return compile_over_all(builder, chains, map);
    }
    let ordered = by_start(builder.allocator(), builder.features())?;
    compile_parts(builder, chains, map, &ordered)
}

/// Whether each request starts at 0 and never ends.
fn are_over_all(requests: &[feature_range_t]) -> bool
    ensures { result ≡ are_over_all requests.now }
{
    requests.iter().all(|r| r.start == 0 && r.end == u32::MAX)
}

/// Compiles requests over the whole text, over an empty map: each chain has one range, with what is first of each
/// group. Nothing starts or ends within the text, so no walk is needed.
fn compile_over_all<A: Allocator + Copy>(
    builder: &mut hb_aat_map_builder_t<A>,
    chains: &[Chain],
    map: &mut hb_aat_map_t<A>,
) -> Result<(), AatError>
    requires empty { map.old ≡ [] }
    requires over_all { are_over_all builder.old.features ≡ true }
    ensures ok { OnOk result (IsCompiled builder.old.features chains.now map.new builder.new) }
    ensures requests { builder.new.features ≡ builder.old.features }
    ensures err { IfErr result (λ e. e ≡ AatError.OutOfMemory) }
{
    let kept = groups_of(builder.allocator(), builder.features())?;
    builder.set_range((0, u32::MAX), kept);
    map.resize(chains.len())?;
    push_ranges(chains, builder, map)
}

/// Compiles requests over parts of the text, range by range, over an empty map.
fn compile_parts<A: Allocator + Copy>(
    builder: &mut hb_aat_map_builder_t<A>,
    chains: &[Chain],
    map: &mut hb_aat_map_t<A>,
    ordered: &[feature_range_t],
) -> Result<(), AatError>
    requires empty { map.old ≡ [] }
    requires ordered { ordered.now ≡ by_start builder.old.features }
    requires bounded { All EndsWithinText builder.old.features }
    ensures ok { OnOk result (IsCompiled builder.old.features chains.now map.new builder.new) }
    ensures requests { builder.new.features ≡ builder.old.features }
    ensures err { IfErr result (λ e. e ≡ AatError.OutOfMemory) }
{
    let alloc = builder.allocator();
    let ending = by_end(alloc, ordered)?;
    let starts = starts_of(alloc, ordered, &ending)?;
    map.resize(chains.len())?;
    let live = compile_spans(builder, chains, map, ordered, &ending, &starts)?;
    tell_last(builder, &starts, &live.firsts)
}

/// Compiles the range of each start in turn, in one walk over what starts and what ends. Answers what is live in the
/// last one.
///
/// Neighbours with equal flags are not joined. So what is requested over a part of the text alone always
/// makes more ranges than one, whatever its flags are, and the ranges of all chains begin at the same
/// clusters.
fn compile_spans<A: Allocator + Copy>(
    builder: &hb_aat_map_builder_t<A>,
    chains: &[Chain],
    map: &mut hb_aat_map_t<A>,
    ordered: &[feature_range_t],
    ending: &[feature_range_t],
    starts: &[u32],
) -> Result<Live<A>, AatError>
    requires ordered { ordered.now ≡ by_start builder.now.features }
    requires walked { AreWalked ordered.now ending.now }
    requires starts { RiseFromZero starts.now }
    requires lists { map.old ≡ compiled_lists builder.now.features chains.now [] }
    ensures lists { OnOk result (map.new ≡ compiled_lists builder.now.features chains.now (spans starts.now)) }
    ensures kept { IfOk result (λ live. IsPermutation (kept_at (last_of starts.now) builder.now.features)
        (present live.firsts.items)) }
    ensures err { IfErr result (λ e. e ≡ AatError.OutOfMemory) }
{
    let mut live = live_at_start(builder.allocator(), ordered)?;
    walk_spans(builder, chains, map, ordered, ending, starts, &mut live)?;
    Ok(live)
}

/// Walks on from what is live at the start, and compiles the range of each start in turn. It leaves what is live in the
/// last one.
fn walk_spans<A: Allocator + Copy>(
    builder: &hb_aat_map_builder_t<A>,
    chains: &[Chain],
    map: &mut hb_aat_map_t<A>,
    ordered: &[feature_range_t],
    ending: &[feature_range_t],
    starts: &[u32],
    live: &mut Live<A>,
) -> Result<(), AatError>
    requires ordered { ordered.now ≡ by_start builder.now.features }
    requires walked { AreWalked ordered.now ending.now }
    requires starts { RiseFromZero starts.now }
    requires lists { map.old ≡ compiled_lists builder.now.features chains.now [] }
    requires active { live.old.active.items ≡ infos (filter (has_begun 0) ordered.now) }
    requires groups { AreGroupsOf (infos ordered.now) live.old.groups.items }
    requires rising { IsRisingByGroup live.old.groups.items }
    requires firsts { live.old.firsts.items ≡ firsts_of live.old.groups.items live.old.active.items }
    requires changed { live.old.is_changed ≡ true }
    ensures lists { OnOk result (map.new ≡ compiled_lists builder.now.features chains.now (spans starts.now)) }
    ensures kept { OnOk result (IsPermutation (kept_at (last_of starts.now) builder.now.features)
        (present live.new.firsts.items)) }
    ensures err { IfErr result (λ e. e ≡ AatError.OutOfMemory) }
{
    let placed = placed_in(builder.allocator(), &live.groups, chains)?;
    let mut flags = vec![in builder.allocator(); 0; chains.len()]?;
    let mut passed = (count_up_to(ordered, 0), count_ending(ending, 0));
    for i in 0..starts.len() {
        let span = span_at(starts, i);
        passed = go_on(live, passed, ordered, ending, span.0)?;
        renew(&mut flags, chains, &placed, live);
        live.is_changed = false;
        push_flags(&flags, span, map)?;
    }
    Ok(())
}

/// The first and the last cluster of a range, from where they begin.
fn span_at(starts: &[u32], i: usize) -> (u32, u32)
    requires exists { i < length starts.now }
    requires rising { RiseFromZero starts.now }
    ensures span { slice_get (spans starts.now) i ≡ Some result }
    ensures first { result.0 ≡ slice_index_or starts.now i 0 }
    ensures ordered { result.0 ≤ result.1 }
{
    if i + 1 < starts.len() {
        (starts[i], starts[i + 1] - 1)
    } else {
        (starts[i], u32::MAX)
    }
}

/// Has a builder tell of the last range, with what is kept there: of each group the first that is live.
fn tell_last<A: Allocator + Copy>(
    builder: &mut hb_aat_map_builder_t<A>,
    starts: &[u32],
    firsts: &[Option<feature_info_t>],
) -> Result<(), AatError>
    requires starts { RiseFromZero starts.now }
    requires kept { IsPermutation (kept_at (last_of starts.now) builder.old.features) (present firsts.now) }
    ensures range { OnOk result (IsLastSpan starts.now builder.new) }
    ensures current { OnOk result (AreKeptAt builder.new.range_first builder.old.features
        builder.new.current_features) }
    ensures requests { builder.new.features ≡ builder.old.features }
    ensures err { IfErr result (λ e. e ≡ AatError.OutOfMemory) }
{
    let kept = kept_of(builder.allocator(), firsts)?;
    builder.set_range((starts[starts.len() - 1], u32::MAX), kept);
    Ok(())
}
