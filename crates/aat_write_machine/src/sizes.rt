//! How many bytes chains and subtables take. Sums are counted up to 2 ^ 32, which is more than a length can say.
ghost use Rattle.std.specs.Prelude.{◌≡◌, ◌^◌, min, sum_by};
ghost use Rattle.aat_write_machine.specs.ChainBytes.{chain_size, count_subtables, subtable_size, table_size};

use crate::chain::ChainBytes;
use crate::subtable::SubtableBytes;

/// The least number that a length cannot say.
pub(crate) const LIMIT: u64 = 0x1_0000_0000;

/// The most subtables that chains may have together.
pub(crate) const MOST_SUBTABLES: usize = 65535;

/// The bytes of subtables.
pub(crate) fn subtables_size(subtables: &[SubtableBytes]) -> u64
    ensures { result ≡ min (sum_by subtable_size subtables.now) (2 ^ 32) }
{
    let mut size = 0;
    for subtable in subtables {
        size = (size + 12 + subtable.body.len() as u64).min(LIMIT);
    }
    size
}

/// The bytes of a chain.
pub(crate) fn chain_size(chain: &ChainBytes) -> u64
    ensures { result ≡ min (chain_size chain.now) (2 ^ 32) }
{
    let features = (chain.features.len() as u64).min(LIMIT);
    (16 + 12 * features + subtables_size(&chain.subtables)).min(LIMIT)
}

/// The bytes of a table of chains.
pub(crate) fn table_size(chains: &[ChainBytes]) -> u64
    ensures { result ≡ min (table_size chains.now) (2 ^ 32) }
{
    let mut size = 8;
    for chain in chains {
        size = (size + chain_size(chain)).min(LIMIT);
    }
    size
}

/// The subtables of all chains, counted up to 65,536.
pub(crate) fn count_subtables(chains: &[ChainBytes]) -> usize
    ensures { result ≡ min (count_subtables chains.now) 65536 }
{
    let mut count = 0;
    for chain in chains {
        count = (count + chain.subtables.len()).min(MOST_SUBTABLES + 1);
    }
    count
}
