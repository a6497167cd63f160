//! Encodings of names.

/// How the bytes of a name are read.
#[derive(Clone, Copy, PartialEq, Eq, Debug)]
pub enum NameEncoding {
    /// UTF-16, the high byte of each unit first.
    Utf16,
    /// Mac Roman: a byte for each character.
    MacRoman,
}
