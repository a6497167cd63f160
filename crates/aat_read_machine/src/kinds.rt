//! The kinds of subtables of `morx` that have lists, from bytes.
ghost use Rattle.std.specs.Prelude.{◌≡◌, ◌+◌, ◌^◌, ◌<◌, ◌≤◌, IfOk, length};
ghost use Rattle.aat_read_lookup.specs.Lookups.{Gives};
ghost use Rattle.aat_read_machine.specs.Kinds.{insertion_tables_at, ligature_at, list_at, list_place};
ghost use Rattle.aat_read_machine.specs.Lists.{glyphs_from, numbers16, numbers32};

use crate::lists::{glyphs_from, numbers16, numbers32};
use crate::machine::read_machine;
use aat_bytes::tags::MORX;
use aat_bytes::{Fault, FaultKind, ReadError, be32};
use aat_machine_tables::{
    ExtendedStateTable, InsertionEntryData, InsertionSubtable, LigatureSubtable,
};
use std::alloc::{AllocError, Global};

/// Where a list starts whose offset, from the subtable's place, stands so many bytes behind that place.
pub(crate) fn list_place(bytes: &[u8], place: usize, at: u8) -> usize
    requires { place + at + 4 ≤ length bytes.now }
    ensures place { result ≡ list_place bytes.now place at }
    ensures small { result < 2 ^ 63 + 2 ^ 32 }
{
    place + be32(bytes, place + at as usize) as usize
}

/// Where a list starts that has an offset.
fn list_at(bytes: &[u8], place: usize, at: u8) -> Result<usize, Fault>
    requires { place + at + 4 ≤ length bytes.now }
    ensures { result ≡ list_at bytes.now place at }
{
    if be32(bytes, place + at as usize) == 0 {
        return Err(Fault::new(MORX, FaultKind::PastEnd, place + at as usize));
    }
    Ok(list_place(bytes, place, at))
}

/// A subtable of ligature substitution of a machine, and of lists that start at these places.
fn with_lists(
    alloc: Global,
    bytes: &[u8],
    state: ExtendedStateTable<u16>,
    actions: usize,
    components: usize,
    ligatures: usize,
) -> Result<LigatureSubtable, AllocError>
    ensures { IfOk result (λ tables. tables ≡ record {
      state = state;
      actions = numbers32 bytes.now actions;
      components = numbers16 bytes.now components;
      ligatures = glyphs_from bytes.now ligatures;
    }) }
{
    let ligature_actions = numbers32(alloc, bytes, actions)?;
    let components = numbers16(alloc, bytes, components)?;
    let ligatures = glyphs_from(alloc, bytes, ligatures)?;
    Ok(LigatureSubtable {
        state,
        ligature_actions,
        components,
        ligatures,
    })
}

/// Reads a subtable of ligature substitution, whose state table starts at a place of the table `morx`. `bytes` is the
/// table from its start, up to where the lists of the subtable may reach.
///
/// The first fault in this order, of `morx`, with its place from the start of the table: 1, `PastEnd`, a header of 28
/// bytes that is not there, at `place`; 1, the first list that has offset 0, for which HarfBuzz drops the table too, at
/// the offset; then those of `read_machine`. The lists reach to the end of `bytes`, and one that starts past it is
/// empty. `OutOfMemory` comes only if the bytes have no fault.
///
/// Apple's TrueType Reference Manual, "The 'morx' table", ligature substitution.
#[tactic(auto, unfolding(crate::specs::Kinds::ligature_at))]
pub fn read_ligature(
    alloc: Global,
    bytes: &[u8],
    place: usize,
    glyph_count: u16,
) -> Result<LigatureSubtable, ReadError>
    ensures { Gives result (ligature_at bytes.now place glyph_count) }
{
    if bytes.len() < 28 || place > bytes.len() - 28 {
        return Err(ReadError::Fault(Fault::new(MORX, FaultKind::PastEnd, place)));
    }
    let actions = list_at(bytes, place, 16)?;
    let components = list_at(bytes, place, 20)?;
    let ligatures = list_at(bytes, place, 24)?;
    let state = read_machine::<u16, Global>(alloc, MORX, bytes, place, glyph_count)?;
    Ok(with_lists(alloc, bytes, state, actions, components, ligatures)?)
}

/// Reads a subtable of glyph insertion, whose state table starts at a place of the table `morx`. `bytes` is the table
/// from its start, up to where the list of the subtable may reach.
///
/// The first fault in this order, of `morx`, with its place from the start of the table: 1, `PastEnd`, a header of 20
/// bytes that is not there, at `place`; 1, a list that has offset 0, at the offset, for which HarfBuzz drops the table
/// too; then those of `read_machine`. The list reaches to the end of `bytes`, and one that starts past it is empty.
/// `OutOfMemory` comes only if the bytes have no fault.
///
/// Apple's TrueType Reference Manual, "The 'morx' table", glyph insertion.
#[tactic(auto, unfolding(crate::specs::Kinds::insertion_tables_at))]
pub fn read_insertion(
    alloc: Global,
    bytes: &[u8],
    place: usize,
    glyph_count: u16,
) -> Result<InsertionSubtable, ReadError>
    ensures { Gives result (insertion_tables_at bytes.now place glyph_count) }
{
    if bytes.len() < 20 || place > bytes.len() - 20 {
        return Err(ReadError::Fault(Fault::new(MORX, FaultKind::PastEnd, place)));
    }
    let list = list_at(bytes, place, 16)?;
    let state = read_machine::<InsertionEntryData, Global>(alloc, MORX, bytes, place, glyph_count)?;
    let glyphs = glyphs_from(alloc, bytes, list)?;
    Ok(InsertionSubtable { state, glyphs })
}
