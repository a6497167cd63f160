//! The room for the lookups of contextual glyph substitution.
ghost use Rattle.std.specs.Prelude.{◌≡◌, ◌+◌, ◌*◌, ◌^◌, ◌<◌, ◌≤◌, IfSome, length, sum_by};
ghost use Rattle.std.specs.List.{range_with_len};
ghost use Rattle.aat_read_machine.specs.Room.{lookup_cost, lookup_past_room, lookup_size, number_at, unit_size};

use aat_bytes::{u16_at, u32_at};

/// The number of 16 bits at a place, and 0 where it is not there.
fn number_at(bytes: &[u8], place: usize) -> usize
    ensures is { result ≡ number_at bytes.now place }
    ensures small { result < 65536 }
{
    match u16_at(bytes, place) {
        Some(number) => number as usize,
        None => 0,
    }
}

/// How many bytes the unit of format 4 at a place and its values take.
fn unit_size(bytes: &[u8], place: usize) -> usize
    requires { place < 2 ^ 63 + 2 ^ 40 }
    ensures is { result ≡ unit_size bytes.now place }
    ensures small { result < 2 ^ 18 }
{
    let last = number_at(bytes, place);
    6 + 2 * (last + 1).saturating_sub(number_at(bytes, place + 2))
}

/// How many bytes so many units of format 4 take, of a size, from a place on.
fn units_size(bytes: &[u8], place: usize, size: usize, count: usize) -> usize
    requires near { place < 2 ^ 63 + 2 ^ 36 }
    requires narrow { size < 65536 }
    requires few { count < 65536 }
    ensures is { result ≡ sum_by (λ i. unit_size bytes.now (place + size * i)) (range_with_len 0 count) }
    ensures small { result < 2 ^ 34 }
{
    let mut total = 0;
    for i in 0..count {
        total += unit_size(bytes, place + size * i);
    }
    total
}

/// How many bytes the lookup at a place takes by its format.
#[tactic(auto, unfolding(crate::specs::Room::lookup_size))]
fn lookup_size(bytes: &[u8], place: usize, glyph_count: u16) -> usize
    requires { place < 2 ^ 63 + 2 ^ 35 }
    ensures is { result ≡ lookup_size bytes.now place glyph_count }
    ensures small { result < 2 ^ 35 }
{
    let size = number_at(bytes, place + 2);
    let count = number_at(bytes, place + 4);
    match number_at(bytes, place) {
        0 => 2 + 2 * glyph_count as usize,
        2 => 12 + 6 * count,
        4 => 12 + units_size(bytes, place + 12, size, count),
        6 => 12 + 4 * count,
        8 => 6 + 2 * count,
        _ => 8 + size * number_at(bytes, place + 6),
    }
}

/// What the lookup of an index takes of the room.
#[tactic(auto, unfolding(crate::specs::Room::lookup_cost))]
fn lookup_cost(bytes: &[u8], list: usize, glyph_count: u16, i: usize) -> usize
    requires list { list < 2 ^ 63 + 2 ^ 32 }
    requires index { i < 65536 }
    ensures is { result ≡ lookup_cost bytes.now list glyph_count i }
    ensures small { result < 2 ^ 36 }
{
    match u32_at(bytes, list + 4 * i) {
        None => 8,
        Some(offset) => 8 + lookup_size(bytes, list + offset as usize, glyph_count),
    }
}

/// The first of so many lookups that passes the room.
pub(crate) fn lookup_past_room(
    bytes: &[u8],
    list: usize,
    glyph_count: u16,
    room: usize,
    count: usize,
) -> Option<usize>
    requires list { list < 2 ^ 63 + 2 ^ 32 }
    requires few { count ≤ 65536 }
    requires room { room < 2 ^ 63 }
    ensures first { result ≡ lookup_past_room bytes.now list glyph_count room count }
    ensures below { IfSome result (λ i. i < count) }
{
    let mut used = 0;
    for i in 0..count {
        used += lookup_cost(bytes, list, glyph_count, i);
        if used > room {
            return Some(i);
        }
    }
    None
}
