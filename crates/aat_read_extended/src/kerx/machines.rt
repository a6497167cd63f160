//! The machines of the extended kerning table from bytes.
ghost use Rattle.std.specs.Prelude.{◌≡◌, ◌+◌, ◌^◌, ◌<◌, ◌≤◌, IfOk, length};
ghost use Rattle.aat_read_lookup.specs.Lookups.{Gives};
ghost use Rattle.aat_read_machine.specs.Kinds.{list_place};
ghost use Rattle.aat_read_extended.specs.kerx.Machines.{action_type, anchor_flags, anchor_tables_at, pairs_place, point_pairs_from, stack_tables_at, values_from};

use aat_bytes::{Fault, FaultKind, ReadError, be16, be32};
use aat_kerning_tables::{Subtable1, Subtable4};
use aat_machine_tables::EntryData;
use aat_read_machine::{read_machine, read_stack_machine};
use aat_read_pairs::KERX;
use std::alloc::{AllocError, Global};

/// The values from a place on.
fn values_from(alloc: Global, bytes: &[u8], place: usize) -> Result<Vec<i16>, AllocError>
    ensures { IfOk result (λ values. values.items ≡ values_from bytes.now place) }
{
    let count = bytes.len().saturating_sub(place) / 2;
    (0..count)
        .map(|i| be16(bytes, place + 2 * i).cast_signed())
        .collect(alloc)
}

/// The pairs of point indexes from a place on.
fn point_pairs_from(
    alloc: Global,
    bytes: &[u8],
    place: usize,
) -> Result<Vec<(u16, u16)>, AllocError>
    ensures { IfOk result (λ pairs. pairs.items ≡ point_pairs_from bytes.now place) }
{
    let count = bytes.len().saturating_sub(place) / 4;
    (0..count)
        .map(|i| {
            let at = place + 4 * i;
            (be16(bytes, at), be16(bytes, at + 2))
        })
        .collect(alloc)
}

/// Where the values of a machine of format 1 start.
fn values_place(bytes: &[u8], place: usize) -> usize
    requires { place + 20 ≤ length bytes.now }
    ensures { result ≡ list_place bytes.now place 16 }
{
    place + be32(bytes, place + 16) as usize
}

/// Reads a machine of format 1, whose state table starts at a place of the table `kerx`. `bytes` is the table from its
/// start, up to where the values may reach.
///
/// The first fault in this order, of `kerx`, with its place from the start of the table: 1, `PastEnd`, a header of 20
/// bytes that is not there, at `place`; then those of `read_machine`. The values reach to the end of `bytes`, and are
/// none if they start past it. `OutOfMemory` comes only if the bytes have no fault.
///
/// Apple's TrueType Reference Manual, "The 'kerx' table", format 1.
#[tactic(auto, unfolding(crate::specs::kerx::Machines::stack_tables_at))]
pub(crate) fn read_stack_tables(
    alloc: Global,
    bytes: &[u8],
    place: usize,
    glyph_count: u16,
) -> Result<Subtable1, ReadError>
    ensures { Gives result (stack_tables_at bytes.now place glyph_count) }
{
    if bytes.len() < 20 || place > bytes.len() - 20 {
        return Err(ReadError::Fault(Fault::new(KERX, FaultKind::PastEnd, place)));
    }
    let state_table = read_stack_machine(alloc, KERX, bytes, place, glyph_count)?;
    let values = values_from(alloc, bytes, values_place(bytes, place))?;
    Ok(Subtable1 {
        state_table,
        values,
    })
}

/// What the entries of a machine of format 4 name.
pub(crate) fn action_type(bytes: &[u8], place: usize) -> u32
    requires { place + 20 ≤ length bytes.now }
    ensures { result ≡ action_type bytes.now place }
{
    be32(bytes, place + 16) / 0x4000_0000
}

/// Where the pairs of a machine of format 4 start.
fn pairs_place(bytes: &[u8], place: usize) -> usize
    requires { place + 20 ≤ length bytes.now }
    ensures { result ≡ pairs_place bytes.now place }
{
    place + (be32(bytes, place + 16) % 0x0100_0000) as usize
}

/// Reads a machine of format 4 by anchor points, whose state table starts at a place of the table `kerx` and has its
/// header. The faults are those of `read_machine`. The pairs reach to the end of `bytes`, and are none if they start
/// past it. `OutOfMemory` comes only if the bytes have no fault.
///
/// Apple's TrueType Reference Manual, "The 'kerx' table", format 4.
pub(crate) fn read_anchor_tables(
    alloc: Global,
    bytes: &[u8],
    place: usize,
    glyph_count: u16,
) -> Result<Subtable4, ReadError>
    requires { place + 20 ≤ length bytes.now }
    ensures { Gives result (anchor_tables_at bytes.now place glyph_count) }
{
    let state_table = read_machine::<EntryData, Global>(alloc, KERX, bytes, place, glyph_count)?;
    let anchor_points = point_pairs_from(alloc, bytes, pairs_place(bytes, place))?;
    Ok(Subtable4 {
        state_table,
        anchor_points,
    })
}
