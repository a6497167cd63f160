//! Tags of features.
ghost use Rattle.std.specs.Prelude.{◌≡◌};
ghost use Rattle.std.specs.Int.{from_be_bytes, w32};

/// A tag of four bytes, read as one big-endian number and ordered as it.
#[derive(Clone, Copy, PartialEq, Eq, PartialOrd, Ord, Debug)]
pub struct hb_tag_t(pub u32);

impl hb_tag_t {
    /// The tag of four bytes, the first of which counts most.
    pub fn from_bytes(bytes: &[u8; 4]) -> hb_tag_t
        ensures { result.0 ≡ from_be_bytes w32 bytes.now }
    {
        hb_tag_t(u32::from_be_bytes(*bytes))
    }
}
