//! DICTs: keys and their operands.
ghost use Rattle.std.specs.Prelude.{◌≡◌, ◌+◌, ◌<◌, ◌≤◌, IfSome, length, position};
ghost use Rattle.aat_read_charstrings.specs.Dicts.{dict_token_size, ends_real, entry_of, is_key, operand_at, real_size, stepped_on};
ghost use Rattle.aat_read_charstrings.specs.Indexes.{IsInside};

use crate::index::{Span, past};
use crate::integers::{code_at, integer_at, integer_size};
use aat_bytes::{Fault, be32};

/// The last two operands in front of a key, of which one that is missing is 0.
#[derive(Clone, Copy)]
pub(crate) struct Operands {
    pub(crate) before: i32,
    pub(crate) last: i32,
}

/// How far a DICT is read.
#[derive(Clone, Copy)]
struct DictState {
    place: usize,
    operands: Operands,
    /// The operands of the key that is sought.
    found: Option<Operands>,
    /// Whether the key is found, or the DICT is at its end.
    is_done: bool,
}

/// Whether a byte ends a real number: one of its halves is 15.
fn ends_real(byte: u8) -> bool
    ensures { result ≡ ends_real byte }
{
    byte % 16 == 15 || byte / 16 == 15
}

/// The first byte that ends a real number.
fn real_end(bytes: &[u8]) -> Option<usize>
    ensures end { result ≡ position ends_real bytes.now }
    ensures below { IfSome result (λ last. last < length bytes.now) }
{
    bytes.iter().copied().position(ends_real)
}

/// How many bytes a real number takes behind its first one.
fn real_size(bytes: &[u8], place: usize, end: usize) -> usize
    requires ordered { place ≤ end }
    requires inside { end ≤ length bytes.now }
    ensures { result ≡ real_size bytes.now place end }
{
    match real_end(&bytes[place..end]) {
        Some(last) => last + 1,
        None => end - place,
    }
}

/// Whether a key begins with a byte. Else an operand does.
fn is_key(first: u8) -> bool
    ensures { result ≡ is_key first }
{
    first < 28
}

/// How many bytes a key or an operand takes that stands at a place.
fn dict_token_size(bytes: &[u8], place: usize, end: usize) -> usize
    requires ordered { place < end }
    requires inside { end ≤ length bytes.now }
    ensures size { result ≡ dict_token_size bytes.now place end }
    ensures low { result ≤ length bytes.now + 5 }
{
    match bytes[place] {
        12 => 2,
        29 => 5,
        30 => 1 + real_size(bytes, place + 1, end),
        first => integer_size(first),
    }
}

/// The operand at a place. A real number counts as 0.
fn operand_at(bytes: &[u8], place: usize, end: usize) -> i32
    requires ordered { place < end }
    requires inside { end ≤ length bytes.now }
    requires whole { place + dict_token_size bytes.now place end ≤ end }
    ensures { result ≡ operand_at bytes.now place }
{
    match bytes[place] {
        12 | 30 => 0,
        29 => be32(bytes, place + 1).cast_signed(),
        _ => integer_at(bytes, place),
    }
}

/// Behind the next key or operand.
fn stepped_on(bytes: &[u8], end: usize, key: u16, state: DictState) -> Result<DictState, Fault>
    requires { end ≤ length bytes.now }
    ensures { result ≡ stepped_on bytes.now end key state }
{
    let place = state.place;
    if place >= end {
        return Ok(DictState {
            is_done: true,
            ..state
        });
    }
    let next = place + dict_token_size(bytes, place, end);
    if next > end {
        return Err(past(place));
    }
    if !is_key(bytes[place]) {
        let operands = Operands {
            before: state.operands.last,
            last: operand_at(bytes, place, end),
        };
        return Ok(DictState {
            place: next,
            operands,
            ..state
        });
    }
    if code_at(bytes, place) == key {
        return Ok(DictState {
            is_done: true,
            found: Some(state.operands),
            ..state
        });
    }
    let operands = Operands { before: 0, last: 0 };
    Ok(DictState {
        place: next,
        operands,
        ..state
    })
}

/// The operands of a key of a DICT, if it has the key.
pub(crate) fn entry_of(bytes: &[u8], dict: Span, key: u16) -> Result<Option<Operands>, Fault>
    requires { IsInside bytes.now dict }
    ensures { result ≡ entry_of bytes.now dict key }
{
    let mut state = DictState {
        place: dict.start,
        operands: Operands { before: 0, last: 0 },
        is_done: false,
        found: None,
    };
    for _turn in dict.start..dict.end {
        state = stepped_on(bytes, dict.end, key, state)?;
        if state.is_done {
            return Ok(state.found);
        }
    }
    Ok(None)
}
