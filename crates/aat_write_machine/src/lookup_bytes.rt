//! Lookups of machines to bytes.
ghost use Rattle.std.specs.Prelude.{◌<◌, ◌^◌, length, IfOk};
ghost use Rattle.aat_write_machine.specs.Lookups.{lookup_written};
ghost use Rattle.aat_write_machine.specs.MorxWriteErrors.{Writes, of_lookup};

use crate::error::MorxWriteError;
use crate::lookup::write_lookup;
use aat_lookup::Lookup;
use std::alloc::Allocator;

/// The bytes of pairs as a lookup.
fn pairs_bytes<A: Allocator>(alloc: A, pairs: &[(u16, u16)]) -> Result<Vec<u8, A>, MorxWriteError>
    ensures writes { Writes result (of_lookup (lookup_written pairs.now)) }
    ensures short { IfOk result (λ bytes. length bytes.items < 2 ^ 20) }
{
    let bytes = write_lookup(alloc, pairs)?;
    Ok(bytes)
}

/// The bytes of a lookup.
pub(crate) fn lookup_bytes<A: Allocator + Copy>(
    alloc: A,
    lookup: &Lookup<A>,
) -> Result<Vec<u8, A>, MorxWriteError>
    ensures writes { Writes result (of_lookup (lookup_written lookup.now)) }
    ensures short { IfOk result (λ bytes. length bytes.items < 2 ^ 20) }
{
    let pairs = lookup.to_pairs(alloc)?;
    pairs_bytes(alloc, &pairs)
}
