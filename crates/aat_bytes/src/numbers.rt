//! Numbers at places. A place counts bytes from the start of the slice.
ghost use Rattle.std.specs.Prelude.{◌≡◌, ◌+◌, ◌≤◌, length, slice_get, option_map};
ghost use Rattle.aat_bytes.specs.Numbers.{be16, be32, i16_at, tag_at, u16_at, u32_at};

use crate::slices::slice;
use crate::tag::Tag;

/// The number of 16 bits at a place that is known to stand inside.
pub fn be16(bytes: &[u8], place: usize) -> u16
    requires { place + 2 ≤ length bytes.now }
    ensures { result ≡ be16 bytes.now place }
{
    u16::from_be_bytes([bytes[place], bytes[place + 1]])
}

/// The number of 32 bits at a place that is known to stand inside.
pub fn be32(bytes: &[u8], place: usize) -> u32
    requires { place + 4 ≤ length bytes.now }
    ensures { result ≡ be32 bytes.now place }
{
    u32::from_be_bytes([
        bytes[place],
        bytes[place + 1],
        bytes[place + 2],
        bytes[place + 3],
    ])
}

/// The byte at a place, or `None` past the end.
pub fn u8_at(bytes: &[u8], place: usize) -> Option<u8>
    ensures { result ≡ slice_get bytes.now place }
{
    bytes.get(place).copied()
}

/// The number of 16 bits at a place, or `None` if a byte of it lies past the end.
#[tactic(auto, unfolding(crate::specs::Numbers::u16_at))]
pub fn u16_at(bytes: &[u8], place: usize) -> Option<u16>
    ensures { result ≡ u16_at bytes.now place }
{
    if bytes.len() < 2 || place > bytes.len() - 2 {
        return None;
    }
    Some(be16(bytes, place))
}

/// The number of 32 bits at a place, or `None` if a byte of it lies past the end.
#[tactic(auto, unfolding(crate::specs::Numbers::u32_at))]
pub fn u32_at(bytes: &[u8], place: usize) -> Option<u32>
    ensures { result ≡ u32_at bytes.now place }
{
    if bytes.len() < 4 || place > bytes.len() - 4 {
        return None;
    }
    Some(be32(bytes, place))
}

/// The signed number of 16 bits at a place, or `None` if a byte of it lies past the end.
pub fn i16_at(bytes: &[u8], place: usize) -> Option<i16>
    ensures { result ≡ i16_at bytes.now place }
{
    match u16_at(bytes, place) {
        Some(number) => Some(number.cast_signed()),
        None => None,
    }
}

/// The tag at a place, or `None` if a byte of it lies past the end.
pub fn tag_at(bytes: &[u8], place: usize) -> Option<Tag>
    ensures { result ≡ tag_at bytes.now place }
{
    match u32_at(bytes, place) {
        Some(number) => Some(Tag(number)),
        None => None,
    }
}
