//! The subtables of a chain.
ghost use Rattle.std.specs.Prelude.{◌≡◌, ◌+◌, ◌≤◌, length, vec_len, IfOk};
ghost use Rattle.aat_read_machine.specs.Within.{GivesWithin};
ghost use Rattle.aat_read_extended.specs.morx.ChainSubtables.{coverage_at, flags_at, kind_at, subtable_at, subtables_at};
ghost use Rattle.aat_read_machine.specs.Within.{GivesAs};

use crate::morx::in_turn::end_at;
use crate::morx::reach::{Reach, up_to};
use aat_bytes::{ReadError, be32};
use aat_machine_tables::{Coverage, Subtable};
use aat_read_machine::read_subtable_kind;
use bitflags::Flags;
use std::alloc::Global;

/// The kind of a subtable.
fn kind_at(bytes: &[u8], place: usize) -> u8
    requires { place + 12 ≤ length bytes.now }
    ensures { result ≡ kind_at bytes.now place }
{
    (be32(bytes, place + 4) % 256) as u8
}

/// For which text a subtable is, and in which order.
fn coverage_at(bytes: &[u8], place: usize) -> Coverage
    requires { place + 12 ≤ length bytes.now }
    ensures { result ≡ coverage_at bytes.now place }
{
    let highest = (be32(bytes, place + 4) / 0x0100_0000) as u8;
    Coverage::from_bits_retain(highest & 0xF0)
}

/// The feature flags of a subtable.
fn flags_at(bytes: &[u8], place: usize) -> u32
    requires { place + 12 ≤ length bytes.now }
    ensures { result ≡ flags_at bytes.now place }
{
    match kind_at(bytes, place) {
        0 | 1 | 2 | 4 | 5 => be32(bytes, place + 8),
        _ => 0,
    }
}

/// The subtable at a place, and where it ends.
#[tactic(auto, unfolding(crate::specs::morx::ChainSubtables::subtable_at))]
fn subtable_at(
    alloc: Global,
    bytes: &[u8],
    glyph_count: u16,
    reach: Reach,
    place: usize,
) -> Result<(Subtable, usize), ReadError>
    requires place { place ≤ reach.end }
    requires end { reach.end ≤ length bytes.now }
    requires allowance { reach.allowance ≤ length bytes.now }
    ensures gives { GivesWithin result (subtable_at bytes.now glyph_count reach place) }
    ensures inside { IfOk result (λ r. r.1 ≤ reach.end) }
{
    let end = end_at(&bytes[..reach.end], place, 12, 0)?;
    let kind = kind_at(bytes, place);
    let used = up_to(bytes, end + reach.allowance);
    let does = read_subtable_kind(alloc, used, place + 12, kind, glyph_count)?;
    let subtable = Subtable::new(does, coverage_at(bytes, place), flags_at(bytes, place));
    Ok((subtable, end))
}

/// So many subtables that start at a place.
pub(crate) fn subtables(
    alloc: Global,
    bytes: &[u8],
    glyph_count: u16,
    reach: Reach,
    count: u32,
    start: usize,
) -> Result<Vec<Subtable>, ReadError>
    requires start { start ≤ reach.end }
    requires end { reach.end ≤ length bytes.now }
    requires allowance { reach.allowance ≤ length bytes.now }
    ensures gives { let read = subtables_at bytes.now glyph_count reach count start in
        GivesAs (λ subtables. subtables.items) result read }
    ensures count { IfOk result (λ subtables. vec_len subtables ≡ count) }
{
    let room = (reach.end - start) / 12;
    let mut subtables = Vec::with_capacity(alloc, room.min(count as usize))?;
    let mut place = start;
    for _ in 0..count {
        let (subtable, end) = subtable_at(alloc, bytes, glyph_count, reach, place)?;
        subtables.push(subtable)?;
        place = end;
    }
    Ok(subtables)
}
