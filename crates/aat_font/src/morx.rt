//! The extended glyph metamorphosis table.
ghost use Rattle.std.specs.Prelude.{◌≡◌, ◌≤◌, IfOk, IfErr, OnOk};
ghost use Rattle.aat_machine_tables.specs.Chains.{subtable_count};
ghost use Rattle.aat_font.specs.Blocks.{blocks_of};
ghost use Rattle.aat_font.specs.Wakers.{AreChainWakers};

use crate::wakers::{SubtableWords, words_where_memory};
use aat_lookup::TableError;
use aat_machine_tables::{Chain, MAX_SUBTABLES};

/// The extended glyph metamorphosis table: chains that are run in their order.
///
/// Apple's TrueType Reference Manual, "The 'morx' table".
#[derive(Drop)]
pub struct Morx {
    chains: Vec<Chain>,
    wakers: SubtableWords,
    ghost few: { subtable_count chains.items ≤ 65535 },
    ghost awake: { AreChainWakers chains.items wakers.blocks.items },
}

impl Morx {
    ghost use Rattle.std.specs.Prelude.{◌≡◌, ◌≤◌, IfOk, IfErr, OnOk};
    ghost use Rattle.aat_machine_tables.specs.Chains.{subtable_count};
    ghost use Rattle.aat_font.specs.Morx.{chains_of};
    ghost use Rattle.aat_font.specs.Blocks.{blocks_of};
    ghost use Rattle.aat_font.specs.Wakers.{AreChainWakers};
    ghost use Rattle.aat_lookup.specs.TableErrors.{RefusesMany};

    /// Makes the table of its chains, which are kept as they are handed in. Beside them it keeps which subtables a glyph
    /// may wake, where there is memory for that; without it each subtable takes its turns at each glyph.
    ///
    /// Refused as 4, `TooManySubtables`, where the chains have more than 65,535 subtables together.
    /// The chains are then dropped.
    pub fn new(chains: Vec<Chain>) -> Result<Morx, TableError>
        ensures ok { IfOk result (λ m. chains_of m ≡ chains.items) }
        ensures few { OnOk result (subtable_count chains.items ≤ 65535) }
        ensures refused { IfErr result (RefusesMany (subtable_count chains.items)) }
    {
        let mut count = 0;
        for chain in &chains {
            count += chain.subtables.len();
            if count > MAX_SUBTABLES {
                return Err(TableError::TooManySubtables);
            }
        }
        let alloc = *chains.allocator();
        let wakers = words_where_memory(alloc, &chains);
        Ok(Morx { chains, wakers })
    }

    /// The words that tell which subtables a glyph may wake, one for each 64 subtables, and their summary. Subtables of
    /// all chains are numbered one behind the other. Fewer words are right too: a subtable without one runs. How many
    /// there are is not proved.
    pub fn wakers(&self) -> &SubtableWords
        ensures { AreChainWakers (chains_of self.now) (blocks_of result.now) }
    {
        &self.wakers
    }

    /// The chains in their order.
    pub fn chains(&self) -> &[Chain]
        ensures chains { result.now ≡ chains_of self.now }
        ensures few { subtable_count result.now ≤ 65535 }
    {
        &self.chains
    }
}
