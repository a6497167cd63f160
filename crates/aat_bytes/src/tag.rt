//! Tags of tables.
ghost use Rattle.std.specs.Prelude.{◌≡◌};
ghost use Rattle.std.specs.Int.{from_be_bytes, w32};

use std::fmt;

/// A tag of four bytes, read as one big-endian number and ordered as it. A table's tag is its name in the directory.
#[derive(Clone, Copy, PartialEq, Eq, PartialOrd, Ord, Hash, Debug)]
pub struct Tag(pub u32);

impl Tag {
    /// The tag of four bytes, the first of which counts most.
    pub fn from_bytes(bytes: &[u8; 4]) -> Tag
        ensures { result.0 ≡ from_be_bytes w32 bytes.now }
    {
        Tag(u32::from_be_bytes(*bytes))
    }
}

impl fmt::Display for Tag {
    /// Writes the four bytes as four characters.
    fn fmt<W: fmt::Write>(&self, f: &mut fmt::Formatter<W>) -> fmt::Result {
        let [first, second, third, fourth] = self.0.to_be_bytes();
        write!(
            f,
            "{}{}{}{}",
            first as char, second as char, third as char, fourth as char
        )
    }
}
