//! Tables of chains to bytes.
ghost use Rattle.std.specs.Prelude.{◌≡◌, ◌++◌, ◌<◌, ◌^◌, sum_by, OnOk};
ghost use Rattle.std.specs.List.{flat_map};
ghost use Rattle.aat_write_machine.specs.ChainBytes.{chain_bytes, chain_size, chains_written, feature_bytes, subtable_bytes, subtable_size};
ghost use Rattle.aat_write_machine.specs.ChainWriteErrors.{Writes};

use crate::chain::ChainBytes;
use crate::chain_error::ChainWriteError;
use crate::sizes::{LIMIT, MOST_SUBTABLES, chain_size, count_subtables, table_size};
use crate::subtable::SubtableBytes;
use crate::words::{append_longs, append_words};
use aat_machine_tables::ChainFeature;
use bitflags::Flags;
use std::alloc::{AllocError, Global};

/// Appends a subtable.
fn append_subtable(out: &mut Vec<u8>, subtable: &SubtableBytes) -> Result<(), AllocError>
    requires { subtable_size subtable.now < 2 ^ 32 }
    ensures { OnOk result (out.new.items ≡ out.old.items ++ subtable_bytes subtable.now) }
{
    let size = 12 + subtable.body.len() as u32;
    let coverage = 0x0100_0000 * subtable.coverage.bits() as u32 + subtable.kind as u32;
    append_longs(out, &[size, coverage, subtable.feature_flags])?;
    out.extend_from_slice(&subtable.body)
}

/// Appends subtables.
fn append_subtables(out: &mut Vec<u8>, subtables: &[SubtableBytes]) -> Result<(), AllocError>
    requires { sum_by subtable_size subtables.now < 2 ^ 32 }
    ensures { OnOk result (out.new.items ≡ out.old.items ++ flat_map subtable_bytes subtables.now) }
{
    for subtable in subtables {
        append_subtable(out, subtable)?;
    }
    Ok(())
}

/// Appends a feature.
fn append_feature(out: &mut Vec<u8>, feature: &ChainFeature) -> Result<(), AllocError>
    ensures { OnOk result (out.new.items ≡ out.old.items ++ feature_bytes feature.now) }
{
    append_words(out, &[feature.kind, feature.setting])?;
    append_longs(out, &[feature.enable_flags, feature.disable_flags])
}

/// Appends features.
fn append_features(out: &mut Vec<u8>, features: &[ChainFeature]) -> Result<(), AllocError>
    ensures { OnOk result (out.new.items ≡ out.old.items ++ flat_map feature_bytes features.now) }
{
    for feature in features {
        append_feature(out, feature)?;
    }
    Ok(())
}

/// Appends a chain.
fn append_chain(out: &mut Vec<u8>, chain: &ChainBytes) -> Result<(), AllocError>
    requires { chain_size chain.now < 2 ^ 32 }
    ensures { OnOk result (out.new.items ≡ out.old.items ++ chain_bytes chain.now) }
{
    let size = chain_size(chain) as u32;
    let features = chain.features.len() as u32;
    let subtables = chain.subtables.len() as u32;
    append_longs(out, &[chain.default_flags, size, features, subtables])?;
    append_features(out, &chain.features)?;
    append_subtables(out, &chain.subtables)
}

/// Appends chains.
fn append_chains(out: &mut Vec<u8>, chains: &[ChainBytes]) -> Result<(), AllocError>
    requires { sum_by chain_size chains.now < 2 ^ 32 }
    ensures { OnOk result (out.new.items ≡ out.old.items ++ flat_map chain_bytes chains.now) }
{
    for chain in chains {
        append_chain(out, chain)?;
    }
    Ok(())
}

/// Writes chains, whose subtables have bodies of bytes, as a table of version 2. A body is written as it is handed in,
/// without bytes behind it that fill it up.
///
/// Refused in this order: 2, `TooLong`, a table of more than 4,294,967,295 bytes; 3, `TooManySubtables`, more than
/// 65,535 subtables of all chains together. 4, `OutOfMemory`, comes only where neither holds.
///
/// The reader reads the chains again, where each kind is one that `SubtableBytes` names, no coverage has other bits
/// than the four that `Coverage` names, and each body is read at any place of a table. Apple's TrueType Reference
/// Manual, "The 'morx' table".
pub fn write_chains(alloc: Global, chains: &[ChainBytes]) -> Result<Vec<u8>, ChainWriteError>
    ensures { Writes result (chains_written chains.now) }
{
    if table_size(chains) >= LIMIT {
        return Err(ChainWriteError::TooLong);
    }
    if count_subtables(chains) > MOST_SUBTABLES {
        return Err(ChainWriteError::TooManySubtables);
    }
    let mut out = Vec::new(alloc);
    append_words(&mut out, &[2, 0])?;
    append_longs(&mut out, &[chains.len() as u32])?;
    append_chains(&mut out, chains)?;
    Ok(out)
}
