//! Slices by offset and length.
ghost use Rattle.std.specs.Prelude.{◌≡◌, option_copied};
ghost use Rattle.aat_bytes.specs.Numbers.{slice, slice_from};

/// The slice of so many bytes at an offset, or `None` if it reaches past the end. Offset and length may be any numbers.
#[tactic(auto, unfolding(crate::specs::Numbers::slice))]
pub fn slice(bytes: &[u8], offset: usize, size: usize) -> Option<&[u8]>
    ensures { option_copied result ≡ slice bytes.now offset size }
{
    if offset > bytes.len() || size > bytes.len() - offset {
        return None;
    }
    Some(&bytes[offset..offset + size])
}

/// The bytes from an offset to the end, or `None` if the offset lies past the end.
#[tactic(auto, unfolding(crate::specs::Numbers::slice_from))]
pub fn slice_from(bytes: &[u8], offset: usize) -> Option<&[u8]>
    ensures { option_copied result ≡ slice_from bytes.now offset }
{
    if offset > bytes.len() {
        return None;
    }
    Some(&bytes[offset..])
}
