//! Numbers and operators of a charstring.
ghost use Rattle.std.specs.Prelude.{◌≡◌, ◌+◌, ◌<◌, ◌≤◌, IfSome, length, slice_index};
ghost use Rattle.aat_read_charstrings.specs.Tokens.{number_at, token_end, token_size};

use crate::index::Span;
use crate::integers::{integer_at, integer_size};
use aat_bytes::be32;

/// How many bytes a number or an operator takes that begins with a byte.
fn token_size(first: u8) -> usize
    ensures size { result ≡ token_size first }
    ensures some { 1 ≤ result }
    ensures few { result ≤ 5 }
{
    match first {
        12 => 2,
        255 => 5,
        _ => integer_size(first),
    }
}

/// Where the number or operator ends that stands at the start of a span, if it is there as a whole.
pub(crate) fn token_end(bytes: &[u8], at: Span) -> Option<usize>
    ensures end { result ≡ token_end bytes.now at }
    ensures whole { IfSome result (λ end. end ≡ at.start + token_size (slice_index bytes.now at.start)) }
    ensures inside { IfSome result (λ end. end ≤ length bytes.now) }
{
    if at.end > bytes.len() || at.start >= at.end {
        return None;
    }
    let end = at.start + token_size(bytes[at.start]);
    if end > at.end { None } else { Some(end) }
}

/// The number at a place, in 65536ths.
pub(crate) fn number_at(bytes: &[u8], place: usize) -> i32
    requires some { place + 1 ≤ length bytes.now }
    requires whole { place + token_size (slice_index bytes.now place) ≤ length bytes.now }
    ensures { result ≡ number_at bytes.now place }
{
    if bytes[place] == 255 {
        return be32(bytes, place + 1).cast_signed();
    }
    if bytes[place] == 12 {
        return 0;
    }
    integer_at(bytes, place) * 65536
}
