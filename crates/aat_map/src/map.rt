//! The flags of each chain over ranges of clusters.
ghost use Rattle.std.specs.Prelude.{IsTrue, ◌≡◌, ◌≤◌, ◌<◌, length, IfErr, OnOk, OnErr, [], Option, slice_index_or, All};
ghost use Rattle.std.specs.List.{list_all};
ghost use Rattle.aat_map.specs.Map.{flags_at, resized, list_at, lists};
ghost use Rattle.aat_map.specs.inside.MapLists.{with_range_at};
ghost use Rattle.aat_run.specs.Ranges.{is_whole_list, next_start, IsGapless};

use aat_buffer::hb_mask_t;
use aat_run::{AatError, ends_at_last, flags_in, range_flags_t, range_of};
use std::alloc::{Allocator, Global};
use std::marker::Model;

/// For each chain its flags over ranges of clusters, which begin at 0 and follow without a gap. A
/// contract sees it as the list of these lists.
#[derive(Drop)]
pub struct hb_aat_map_t<A: Allocator + Copy = Global> {
    chain_flags: Vec<Vec<range_flags_t, A>, A>,
}

impl<A: Allocator + Copy> Model for hb_aat_map_t<A> {
    ghost use Rattle.std.specs.Prelude.{List, All};
    ghost use Rattle.aat_run.specs.declared.ranges.range_flags_t.{range_flags_t};
    ghost use Rattle.aat_run.specs.Ranges.{IsGapless};
    ghost use Rattle.aat_map.specs.Map.{lists};

    ghost Value = { List (List range_flags_t) };

    ghost view = { λ m. lists m.chain_flags.items };

    ghost invariant = { λ m. All IsGapless (lists m.chain_flags.items) };
}

impl<A: Allocator + Copy> hb_aat_map_t<A> {
    /// A map without lists. Takes no memory.
    pub fn default(alloc: A) -> hb_aat_map_t<A>
        ensures { result ≡ [] }
    {
        hb_aat_map_t {
            chain_flags: Vec::new(alloc),
        }
    }

    /// The list of each chain, in the order of the chains.
    pub fn chain_flags(&self) -> &[Vec<range_flags_t, A>]
        ensures lists { lists result.now ≡ self.now }
        ensures gapless { All IsGapless (lists result.now) }
    {
        &self.chain_flags
    }

    /// The flags of a chain at a cluster: those of the range that holds it, and none where there is no
    /// such list or range. Ranges that end at the last cluster there can be are bisected, and others are
    /// looked through from the first one.
    pub fn flags_at(&self, chain: usize, cluster: u32) -> Option<hb_mask_t>
        ensures { result ≡ flags_at self.now chain cluster }
    {
        let ranges = self.ranges(chain);
        if ends_at_last(ranges) {
            let (place, _) = range_of(ranges, cluster);
            Some(ranges[place].flags)
        } else {
            flags_in(ranges, cluster)
        }
    }

    /// Whether each list is empty or ends at the last cluster there can be.
    pub fn is_whole(&self) -> bool
        ensures { result ≡ list_all is_whole_list self.now }
    {
        for ranges in &self.chain_flags {
            if !is_whole_list(ranges) {
                return false;
            }
        }
        true
    }
}

impl<A: Allocator + Copy> hb_aat_map_t<A> {
    /// The list of a chain, empty where it has none. It begins at 0 and follows without a gap; in a map that is whole
    /// it is empty or ends at the last cluster there can be.
    #[tactic(auto, using(crate::proofs::MapLemmas::whole_at))]
    pub fn ranges(&self, chain: usize) -> &[range_flags_t]
        ensures list { result.now ≡ list_at self.now chain }
        ensures gapless { IsGapless result.now }
        ensures whole { IsTrue (list_all is_whole_list self.now) → IsTrue (is_whole_list result.now) }
    {
        let _lists = &self.chain_flags;
        self.list(chain)
    }

    /// The list of a chain, empty where it has none.
    fn list(&self, chain: usize) -> &[range_flags_t]
        ensures { result.now ≡ list_at self.now chain }
    {
        if chain < self.chain_flags.len() {
            self.chain_flags[chain].as_slice()
        } else {
            &[]
        }
    }

    /// No lists.
    pub(crate) fn clear(&mut self)
        ensures { self.new ≡ [] }
    {
        self.chain_flags.clear();
    }

    /// Hands an answer on; after a refusal there are no lists, since one that ends early would be
    /// taken for a list without flags past its end.
    pub(crate) fn empty_on_err(&mut self, answer: Result<(), AatError>) -> Result<(), AatError>
        ensures same { result ≡ answer }
        ensures ok { OnOk result (self.new ≡ self.old) }
        ensures err { OnErr result (self.new ≡ []) }
    {
        if answer.is_err() {
            self.clear();
        }
        answer
    }

    /// A list for each of `count` chains: lists past them go, and missing ones are empty. Refused as 3,
    /// `OutOfMemory`, where a list gets no memory.
    pub(crate) fn resize(&mut self, count: usize) -> Result<(), AatError>
        ensures ok { OnOk result (self.new ≡ resized count self.old) }
        ensures err { IfErr result (λ e. (e ≡ AatError.OutOfMemory) × (0 < count)) }
    {
        let alloc = *self.chain_flags.allocator();
        self.chain_flags.truncate(count);
        for next in self.chain_flags.len()..count {
            self.chain_flags.push(Vec::new(alloc))?;
        }
        Ok(())
    }

    /// A range behind the others of a chain, which it has to follow. Refused as 3, `OutOfMemory`, where
    /// the list gets no memory.
    pub(crate) fn push(&mut self, chain: usize, range: range_flags_t) -> Result<(), AatError>
        requires exists { chain < length self.old }
        requires follows { next_start (list_at self.old chain) ≡ range.cluster_first }
        requires ordered { range.cluster_first ≤ range.cluster_last }
        ensures ok { OnOk result (self.new ≡ with_range_at self.old chain range) }
        ensures err { IfErr result (λ e. e ≡ AatError.OutOfMemory) }
    {
        self.chain_flags[chain].push(range)?;
        Ok(())
    }
}

/// Whether a list is empty or ends at the last cluster.
fn is_whole_list(ranges: &[range_flags_t]) -> bool
    ensures { result ≡ is_whole_list ranges.now }
{
    match ranges.last() {
        Some(last) => last.cluster_last == u32::MAX,
        None => true,
    }
}
