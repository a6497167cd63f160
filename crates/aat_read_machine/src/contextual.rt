//! Contextual glyph substitution from bytes.
ghost use Rattle.std.specs.Prelude.{◌≡◌, ◌+◌, ◌*◌, ◌^◌, ◌<◌, ◌≤◌, MatchResult, Ok};
ghost use Rattle.aat_read_lookup.specs.Lookups.{Gives};
ghost use Rattle.aat_read_machine.specs.Contextual.{contextual_tables, contextual_tables_at, listed_lookup, lookups_at, lookups_within};
ghost use Rattle.aat_read_machine.specs.StateArray.{AreIndexed, AreWhole};
ghost use Rattle.aat_read_machine.specs.inside.OfRows.{AreNamed};
ghost use Rattle.aat_read_machine.specs.Within.{GivesWithin, RefusesWithin};

use crate::kinds::list_place;
use crate::machine::with_classes;
use crate::room::lookup_past_room;
use crate::state_array::{Cells, StateArray};
use aat_bytes::tags::MORX;
use aat_bytes::{Fault, FaultKind, ReadError, be32};
use aat_lookup::Lookup;
use aat_machine_tables::{ContextualEntryData, ContextualSubtable};
use aat_read_lookup::read_lookup;
use std::alloc::Global;

/// The lookup of an index of the list that starts at a place.
#[tactic(auto, unfolding(crate::specs::Contextual::listed_lookup))]
fn listed_lookup(
    alloc: Global,
    bytes: &[u8],
    list: usize,
    glyph_count: u16,
    i: usize,
) -> Result<Lookup, ReadError>
    requires list { list < 2 ^ 63 + 2 ^ 32 }
    requires index { i < 65536 }
    ensures { Gives result (listed_lookup bytes.now list glyph_count i) }
{
    let place = list + 4 * i;
    if bytes.len() < place + 4 {
        return Err(ReadError::Fault(Fault::new(MORX, FaultKind::PastEnd, place)));
    }
    let offset = be32(bytes, place) as usize;
    read_lookup(alloc, MORX, bytes, list + offset, glyph_count)
}

/// So many lookups of the list that starts at a place.
fn lookups(
    alloc: Global,
    bytes: &[u8],
    list: usize,
    glyph_count: u16,
    count: usize,
) -> Result<Vec<Lookup>, ReadError>
    requires list { list < 2 ^ 63 + 2 ^ 32 }
    requires few { count ≤ 65536 }
    ensures { let read = lookups_at bytes.now list glyph_count count in
        MatchResult result (λ lookups. read ≡ Ok lookups.items) (RefusesWithin read) }
{
    let mut lookups = Vec::with_capacity(alloc, count)?;
    for i in 0..count {
        let lookup = listed_lookup(alloc, bytes, list, glyph_count, i)?;
        lookups.push(lookup)?;
    }
    Ok(lookups)
}

/// So many lookups of the list that starts at a place, if all of them have room.
#[tactic(auto, unfolding(crate::specs::Contextual::lookups_within))]
fn lookups_within(
    alloc: Global,
    bytes: &[u8],
    list: usize,
    glyph_count: u16,
    room: usize,
    count: usize,
) -> Result<Vec<Lookup>, ReadError>
    requires list { list < 2 ^ 63 + 2 ^ 32 }
    requires few { count ≤ 65536 }
    requires room { room < 2 ^ 63 }
    ensures { let read = lookups_within bytes.now list glyph_count room count in
        MatchResult result (λ lookups. read ≡ Ok lookups.items) (RefusesWithin read) }
{
    match lookup_past_room(bytes, list, glyph_count, room, count) {
        Some(i) => Err(ReadError::Fault(Fault::new(MORX, FaultKind::PastEnd, list + 4 * i))),
        None => lookups(alloc, bytes, list, glyph_count, count),
    }
}

/// The tables of a machine whose cells are there, and whose list of lookups starts at a place.
#[tactic(auto, unfolding(crate::specs::Contextual::contextual_tables))]
fn contextual_tables(
    alloc: Global,
    bytes: &[u8],
    list: usize,
    glyph_count: u16,
    array: &StateArray,
    cells: Cells,
) -> Result<ContextualSubtable, ReadError>
    requires list { list < 2 ^ 63 + 2 ^ 32 }
    requires some { 0 < cells.count }
    requires few { cells.count ≤ 65536 * array.now.class_count }
    requires small { cells.count < 2 ^ 33 }
    requires size { array.now.entry_size ≡ 8 }
    requires indexed { AreIndexed array.now cells.count }
    requires whole { AreWhole array.now cells.count }
    requires named { AreNamed array.now cells.count cells.entries }
    requires known { cells.entries ≤ 65536 }
    ensures { GivesWithin result (contextual_tables bytes.now list glyph_count array.now cells.count) }
{
    let state = with_classes::<ContextualEntryData, Global>(
        alloc,
        MORX,
        bytes,
        glyph_count,
        array,
        cells,
    )?;
    let count = array.lookup_count(cells);
    let room = array.room_left(cells.count);
    let lookups = lookups_within(alloc, bytes, list, glyph_count, room, count)?;
    Ok(ContextualSubtable { state, lookups })
}

/// Reads a subtable of contextual glyph substitution, whose state table starts at a place of the table `morx`. `bytes`
/// is the table from its start, up to where the parts of the subtable may reach. It has as many lookups as the highest
/// index that entries name asks for; 0xFFFF names none.
///
/// The first fault in this order, of `morx`, with its place from the start of the table: 1, `PastEnd`, a header of 20
/// bytes that is not there, at `place`; those of `read_machine`; 1, at the offset of the first lookup that passes the
/// room; then for each lookup 1, an offset that is not there, at its place, and those of `read_lookup`. A lookup with
/// offset 0 is the list itself, as for HarfBuzz. `OutOfMemory` may come before any of these is met.
///
/// The room is the bytes from the state table on. A cell takes 2 bytes of it, a lookup 8, and one whose offset is there
/// also its own bytes by its format, so that many offsets to one lookup take no more memory than the bytes account for.
///
/// Apple's TrueType Reference Manual, "The 'morx' table", contextual glyph substitution.
#[tactic(auto, unfolding(crate::specs::Contextual::contextual_tables_at))]
pub fn read_contextual(
    alloc: Global,
    bytes: &[u8],
    place: usize,
    glyph_count: u16,
) -> Result<ContextualSubtable, ReadError>
    ensures { GivesWithin result (contextual_tables_at bytes.now place glyph_count) }
{
    if bytes.len() < 20 || place > bytes.len() - 20 {
        return Err(ReadError::Fault(Fault::new(MORX, FaultKind::PastEnd, place)));
    }
    let array = StateArray::read(MORX, bytes, place, 4)?;
    let cells = array.cells()?;
    contextual_tables(
        alloc,
        bytes,
        list_place(bytes, place, 16),
        glyph_count,
        &array,
        cells,
    )
}
