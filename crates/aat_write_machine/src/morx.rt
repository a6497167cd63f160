//! The extended glyph metamorphosis table to bytes.
ghost use Rattle.std.specs.Prelude.{◌≡◌, MatchResult, Ok};
ghost use Rattle.aat_read_extended.specs.morx.Chains.{value_of_chain, values_of_morx};
ghost use Rattle.aat_write_machine.specs.MorxWriteErrors.{RefusesWithin};
ghost use Rattle.aat_write_machine.specs.ChainWriteErrors.{WritesWithin};
ghost use Rattle.aat_write_machine.specs.MorxBytes.{chain_content, each_written, morx_written, subtable_content};

use crate::chain::ChainBytes;
use crate::chain_error::ChainWriteError;
use crate::error::MorxWriteError;
use crate::subtable::SubtableBytes;
use crate::subtable_kind::{kind_number, write_subtable_kind};
use crate::write::write_chains;
use aat_font::Morx;
use aat_machine_tables::{Chain, Subtable};
use std::alloc::Global;

/// A subtable with the bytes of what it does.
fn subtable_content(alloc: Global, subtable: &Subtable) -> Result<SubtableBytes, MorxWriteError>
    ensures { let written = subtable_content subtable.now in
        MatchResult result (λ s. written ≡ Ok s) (RefusesWithin written) }
{
    let body = write_subtable_kind(alloc, &subtable.kind)?;
    Ok(SubtableBytes {
        kind: kind_number(&subtable.kind),
        coverage: subtable.coverage,
        feature_flags: subtable.feature_flags,
        body,
    })
}

/// Subtables with the bytes of what they do.
fn subtable_contents(
    alloc: Global,
    subtables: &[Subtable],
) -> Result<Vec<SubtableBytes>, MorxWriteError>
    ensures { let written = each_written subtable_content subtables.now in
        MatchResult result (λ contents. written ≡ Ok contents.items) (RefusesWithin written) }
{
    let mut contents = Vec::new(alloc);
    for subtable in subtables {
        let content = subtable_content(alloc, subtable)?;
        contents.push(content)?;
    }
    Ok(contents)
}

/// A chain with the bytes of its subtables.
fn chain_content(alloc: Global, chain: &Chain) -> Result<ChainBytes, MorxWriteError>
    ensures { let written = chain_content (value_of_chain chain.now) in
        MatchResult result (λ c. written ≡ Ok c) (RefusesWithin written) }
{
    let subtables = subtable_contents(alloc, &chain.subtables)?;
    let features = Vec::from_slice(alloc, &chain.features)?;
    Ok(ChainBytes {
        default_flags: chain.default_flags,
        features,
        subtables,
    })
}

/// Chains with the bytes of their subtables.
fn chain_contents(alloc: Global, chains: &[Chain]) -> Result<Vec<ChainBytes>, MorxWriteError>
    ensures { let written = each_written (λ c. chain_content (value_of_chain c)) chains.now in
        MatchResult result (λ contents. written ≡ Ok contents.items) (RefusesWithin written) }
{
    let mut contents = Vec::new(alloc);
    for chain in chains {
        let content = chain_content(alloc, chain)?;
        contents.push(content)?;
    }
    Ok(contents)
}

/// Writes the extended glyph metamorphosis table as one of version 2: each subtable by `write_subtable_kind`, and the
/// chains by `write_chains`.
///
/// Refused in this order: 1, `Subtable`, with the error of the first subtable that is not written; 2, `TooLong`, a
/// table of more than 4,294,967,295 bytes. 4, `OutOfMemory`, may come before any of these is met. 3,
/// `TooManySubtables`, never comes, since the typed table has no more of them.
///
/// `read_morx` reads the same chains again, if there is memory, and if no coverage has other bits than the four that
/// `Coverage` names. The lists of ligature and insertion subtables, which have no length, begin with those that were
/// written. Apple's TrueType Reference Manual, "The 'morx' table".
pub fn write_morx(alloc: Global, morx: &Morx) -> Result<Vec<u8>, ChainWriteError>
    ensures { WritesWithin result (morx_written (values_of_morx morx.now)) }
{
    let contents = chain_contents(alloc, morx.chains())?;
    write_chains(alloc, &contents)
}
