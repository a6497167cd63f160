//! Names of features and settings.
use aat_face::{NameEncoding, NameText};
use std::alloc::{AllocError, Global};

/// The characters of a name: of UTF-16 with U+FFFD for what is none, of Mac Roman those of ASCII with U+FFFD for the
/// others.
pub(crate) fn text_of(alloc: Global, name: &NameText<'_>) -> Result<String, AllocError> {
    match name.encoding() {
        NameEncoding::Utf16 => utf16_text(alloc, name.bytes()),
        NameEncoding::MacRoman => ascii_text(alloc, name.bytes()),
    }
}

/// The text of units of 16 bits, the high byte first. A last byte alone goes.
fn utf16_text(alloc: Global, bytes: &[u8]) -> Result<String, AllocError> {
    let mut units = Vec::new(alloc);
    for i in 0..bytes.len() / 2 {
        units.push(u16::from_be_bytes([bytes[2 * i], bytes[2 * i + 1]]))?;
    }
    String::from_utf16_lossy(alloc, &units)
}

/// The text of bytes of ASCII.
fn ascii_text(alloc: Global, bytes: &[u8]) -> Result<String, AllocError> {
    let mut text = String::new(alloc);
    for byte in bytes {
        text.push(if byte.is_ascii() {
            *byte as char
        } else {
            '\u{FFFD}'
        })?;
    }
    Ok(text)
}
