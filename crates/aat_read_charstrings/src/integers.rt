//! Integers and codes of operators, as DICTs and charstrings write them.
ghost use Rattle.std.specs.Prelude.{◌≡◌, ◌+◌, ◌≤◌, ◌≤ℤ◌, length, negsuc, pos, slice_index};
ghost use Rattle.aat_read_charstrings.specs.Integers.{code_at, integer_above, integer_at, integer_below, integer_size};

use aat_bytes::be16;

/// How many bytes an integer takes that begins with a byte.
pub(crate) fn integer_size(first: u8) -> usize
    ensures size { result ≡ integer_size first }
    ensures some { 1 ≤ result }
    ensures few { result ≤ 3 }
{
    if first == 28 {
        3
    } else if first < 247 {
        1
    } else {
        2
    }
}

/// An integer of two bytes above 107.
fn integer_above(first: u8, second: u8) -> i32
    requires { 247 ≤ first }
    ensures integer { result ≡ integer_above first second }
    ensures low { negsuc 32767 ≤ℤ result }
    ensures high { result ≤ℤ pos 32767 }
{
    (first as i32 - 247) * 256 + second as i32 + 108
}

/// An integer of two bytes below -107.
fn integer_below(first: u8, second: u8) -> i32
    requires { 251 ≤ first }
    ensures integer { result ≡ integer_below first second }
    ensures low { negsuc 32767 ≤ℤ result }
    ensures high { result ≤ℤ pos 32767 }
{
    (251 - first as i32) * 256 - second as i32 - 108
}

/// The integer at a place.
pub(crate) fn integer_at(bytes: &[u8], place: usize) -> i32
    requires some { place + 1 ≤ length bytes.now }
    requires whole { place + integer_size (slice_index bytes.now place) ≤ length bytes.now }
    ensures integer { result ≡ integer_at bytes.now place }
    ensures low { negsuc 32767 ≤ℤ result }
    ensures high { result ≤ℤ pos 32767 }
{
    let first = bytes[place];
    if first == 28 {
        return be16(bytes, place + 1).cast_signed() as i32;
    }
    if first < 247 {
        return first as i32 - 139;
    }
    if first < 251 {
        return integer_above(first, bytes[place + 1]);
    }
    integer_below(first, bytes[place + 1])
}

/// The code of the operator or key at a place. One of two bytes is 256 times 12 and the other one.
pub(crate) fn code_at(bytes: &[u8], place: usize) -> u16
    requires some { place + 1 ≤ length bytes.now }
    requires whole { slice_index bytes.now place ≡ 12 → place + 2 ≤ length bytes.now }
    ensures { result ≡ code_at bytes.now place }
{
    if bytes[place] == 12 {
        return 3072 + bytes[place + 1] as u16;
    }
    bytes[place] as u16
}
