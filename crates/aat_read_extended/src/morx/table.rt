//! The extended glyph metamorphosis table from bytes.
ghost use Rattle.std.specs.Prelude.{◌≡◌, ◌+◌, ◌≤◌, length, map, vec_len, IfOk};
ghost use Rattle.aat_machine_tables.specs.Chains.{subtable_count};
ghost use Rattle.aat_read_extended.specs.morx.Chains.{ChainStart, chain_at, chain_value_at, first_chain, morx_of, value_and_next, value_of_chain, values_of_morx};
ghost use Rattle.aat_read_machine.specs.Within.{GivesAs};
ghost use Rattle.aat_read_machine.specs.InTurn.{in_turn};

use crate::morx::chain_features::whole_features;
use crate::morx::chain_subtables::subtables;
use crate::morx::in_turn::end_at;
use crate::morx::reach::{Reach, allowance};
use aat_bytes::{Fault, FaultKind, ReadError, be16, be32};
use aat_font::Morx;
use aat_machine_tables::Chain;
use aat_read_machine::MORX;
use std::alloc::Global;

/// How many subtables all chains may have.
const MOST_SUBTABLES: usize = 65535;

/// The chain of a header at a place, which may have so many subtables.
#[tactic(auto, unfolding(crate::specs::morx::Chains::chain_value_at))]
fn chain_value_at(
    alloc: Global,
    bytes: &[u8],
    glyph_count: u16,
    place: usize,
    end: usize,
    most_subtables: usize,
) -> Result<Chain, ReadError>
    requires header { place + 16 ≤ end }
    requires end { end ≤ length bytes.now }
    ensures gives { let start : ChainStart = record { place = place; most_subtables = most_subtables } in
        GivesAs value_of_chain result (chain_value_at bytes.now glyph_count start end) }
    ensures few { IfOk result (λ chain. vec_len chain.subtables ≤ most_subtables) }
{
    let feature_count = be32(bytes, place + 8);
    let subtable_count = be32(bytes, place + 12);
    if most_subtables < subtable_count as usize {
        return Err(ReadError::Fault(Fault::new(MORX, FaultKind::PastEnd, place + 12)));
    }
    let features = whole_features(alloc, &bytes[..end], place + 16, feature_count)?;
    let start = place + 16 + 12 * feature_count as usize;
    let reach = Reach {
        end,
        allowance: allowance(end - place, subtable_count),
    };
    let subtables = subtables(alloc, bytes, glyph_count, reach, subtable_count, start)?;
    Ok(Chain::new(be32(bytes, place), features, subtables))
}

/// The chain that starts at a place, which may have so many subtables, and where it ends.
#[tactic(auto, unfolding(crate::specs::morx::Chains::chain_at))]
fn chain_at(
    alloc: Global,
    bytes: &[u8],
    glyph_count: u16,
    place: usize,
    most_subtables: usize,
) -> Result<(Chain, usize), ReadError>
    requires { place ≤ length bytes.now }
    ensures gives { let start : ChainStart = record { place = place; most_subtables = most_subtables } in
        GivesAs (value_and_next most_subtables) result (chain_at bytes.now glyph_count start) }
    ensures inside { IfOk result (λ r. r.1 ≤ length bytes.now) }
    ensures few { IfOk result (λ r. vec_len r.0.subtables ≤ most_subtables) }
{
    let end = end_at(bytes, place, 16, 4)?;
    let chain = chain_value_at(alloc, bytes, glyph_count, place, end, most_subtables)?;
    Ok((chain, end))
}

/// So many chains, which stand behind a header of 8 bytes.
fn chains(
    alloc: Global,
    bytes: &[u8],
    glyph_count: u16,
    count: u32,
) -> Result<Vec<Chain>, ReadError>
    requires { 8 ≤ length bytes.now }
    ensures gives { let read = in_turn (chain_at bytes.now glyph_count) count first_chain in
        GivesAs (λ chains. map value_of_chain chains.items) result read }
    ensures few { IfOk result (λ chains. subtable_count chains.items ≤ 65535) }
{
    let room = bytes.len() / 16;
    let mut chains = Vec::with_capacity(alloc, room.min(count as usize))?;
    let mut place = 8;
    let mut most_subtables = MOST_SUBTABLES;
    for _ in 0..count {
        let (chain, end) = chain_at(alloc, bytes, glyph_count, place, most_subtables)?;
        place = end;
        most_subtables -= chain.subtables.len();
        chains.push(chain)?;
    }
    Ok(chains)
}

/// Reads the extended glyph metamorphosis table of a font of so many glyphs. Its version is 2 or 3. `bytes` is the
/// whole table. A subtable of an unknown kind does nothing, and no feature flag switches it. Of the coverage the kind
/// and the four highest bits are read. What version 3 has behind the subtables of a chain, the glyphs that each may
/// touch, is passed.
///
/// A chain has its features and subtables inside its length. What a subtable does may reach behind its length, by an
/// equal share of a fourth of the chain's length, and not past the end of the table. So a table that is read takes at
/// most 24 bytes of memory for each of its bytes, and bits of glyphs beside it (`Morx::new`) at most 8.5 megabytes.
///
/// The first fault in this order, of the table `morx`, with its place from the start of the table: 1, `PastEnd`, a
/// header of 8 bytes that is not there, at 0; 2, `UnknownFormat`, another version, at 0. Then for each chain: 1, its
/// header of 16 bytes that is not there, at its place; 3, `ShortLength`, a length below that of the header, at the
/// length; 1, a length that reaches past the end, at the length; 1, more than 65,535 subtables with those of the chains
/// before, at their number; 1, features of 12 bytes that are not in the chain, at the first of them. Then for each
/// subtable 1, 3 and 1 in the same way, up to the end of the chain, with a header of 12 bytes, and the faults of
/// `read_subtable_kind`. `OutOfMemory` may come before any of these is met.
///
/// Apple's TrueType Reference Manual, "The 'morx' table".
#[tactic(auto, unfolding(crate::specs::morx::Chains::morx_of))]
pub fn read_morx(alloc: Global, bytes: &[u8], glyph_count: u16) -> Result<Morx, ReadError>
    ensures { GivesAs values_of_morx result (morx_of bytes.now glyph_count) }
{
    if bytes.len() < 8 {
        return Err(ReadError::Fault(Fault::new(MORX, FaultKind::PastEnd, 0)));
    }
    let version = be16(bytes, 0);
    if version != 2 && version != 3 {
        return Err(ReadError::Fault(Fault::new(MORX, FaultKind::UnknownFormat, 0)));
    }
    let chains = chains(alloc, bytes, glyph_count, be32(bytes, 4))?;
    match Morx::new(chains) {
        Ok(morx) => Ok(morx),
        Err(_) => unreachable!(),
    }
}
