//! Lists that reach to the end of the bytes.
ghost use Rattle.std.specs.Prelude.{◌≡◌, IfOk};
ghost use Rattle.aat_read_machine.specs.Lists.{count_from, glyphs_from, numbers16, numbers32};

use aat_bytes::{be16, be32};
use aat_lookup::GlyphId;
use std::alloc::{AllocError, Global};

/// How many elements of two bytes stand from a place on.
fn count_of_pairs(bytes: &[u8], place: usize) -> usize
    ensures { result ≡ count_from bytes.now place 2 }
{
    bytes.len().saturating_sub(place) / 2
}

/// Numbers of 16 bits.
pub(crate) fn numbers16(alloc: Global, bytes: &[u8], place: usize) -> Result<Vec<u16>, AllocError>
    ensures { IfOk result (λ numbers. numbers.items ≡ numbers16 bytes.now place) }
{
    let count = count_of_pairs(bytes, place);
    (0..count)
        .map(|i| be16(bytes, place + 2 * i))
        .collect(alloc)
}

/// Numbers of 32 bits.
pub(crate) fn numbers32(alloc: Global, bytes: &[u8], place: usize) -> Result<Vec<u32>, AllocError>
    ensures { IfOk result (λ numbers. numbers.items ≡ numbers32 bytes.now place) }
{
    let count = bytes.len().saturating_sub(place) / 4;
    (0..count)
        .map(|i| be32(bytes, place + 4 * i))
        .collect(alloc)
}

/// Glyphs of 16 bits.
pub(crate) fn glyphs_from(
    alloc: Global,
    bytes: &[u8],
    place: usize,
) -> Result<Vec<GlyphId>, AllocError>
    ensures { IfOk result (λ glyphs. glyphs.items ≡ glyphs_from bytes.now place) }
{
    let count = count_of_pairs(bytes, place);
    (0..count)
        .map(|i| GlyphId(be16(bytes, place + 2 * i)))
        .collect(alloc)
}
