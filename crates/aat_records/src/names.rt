//! Names, as they are put into room of C's.
ghost use Rattle.std.specs.Prelude.{◌≡◌, IfOk, encode_utf8_all, length, map};
ghost use Rattle.std.specs.Char.Utf16.{utf16_lossy_chars};
ghost use Rattle.std.specs.String.{string_bytes};
ghost use Rattle.aat_records.specs.Names.{PutsName, ascii_character, name_in_utf8, units_of};

use crate::failure::Failure;
use crate::room::put_bytes;
use aat_face::{NameEncoding, NameText};
use std::alloc::{AllocError, Global};

/// The units of 16 bits of bytes, the high byte first. A last byte alone goes.
#[tactic(auto, using(crate::proofs::NameUnits::one_unit, crate::proofs::NameUnits::no_unit))]
fn units_of(alloc: Global, bytes: &[u8]) -> Result<Vec<u16>, AllocError>
    ensures { IfOk result (λ units. units.items ≡ units_of bytes.now) }
{
    let mut units = Vec::with_capacity(alloc, bytes.len() / 2)?;
    for i in 0..bytes.len() / 2 {
        units.push(u16::from_be_bytes([bytes[2 * i], bytes[2 * i + 1]]))?;
    }
    Ok(units)
}

/// The text of units of 16 bits, the high byte first, with U+FFFD for what is none.
fn utf16_text(alloc: Global, bytes: &[u8]) -> Result<String, AllocError>
    ensures { IfOk result (λ text. string_bytes text ≡ encode_utf8_all (utf16_lossy_chars (units_of bytes.now))) }
{
    let units = units_of(alloc, bytes)?;
    String::from_utf16_lossy(alloc, &units)
}

/// The character of a byte of ASCII, and U+FFFD of others.
fn ascii_character(byte: u8) -> char
    ensures { result ≡ ascii_character byte }
{
    if byte < 128 { byte as char } else { '\u{FFFD}' }
}

/// The text of bytes of ASCII, with U+FFFD for others.
#[tactic(auto, using(crate::proofs::Encoded::one_more_of))]
fn ascii_text(alloc: Global, bytes: &[u8]) -> Result<String, AllocError>
    ensures { IfOk result (λ text. string_bytes text ≡ encode_utf8_all (map ascii_character bytes.now)) }
{
    let mut text = String::with_capacity(alloc, bytes.len())?;
    for byte in bytes {
        text.push(ascii_character(*byte))?;
    }
    Ok(text)
}

/// The text of a name: of UTF-16 with U+FFFD for what is none, of Mac Roman that of ASCII with U+FFFD for the others.
fn text_of_name(alloc: Global, name: &NameText<'_>) -> Result<String, AllocError>
    ensures { IfOk result (λ text. string_bytes text ≡ name_in_utf8 name.now) }
{
    match name.encoding() {
        NameEncoding::Utf16 => utf16_text(alloc, name.bytes()),
        NameEncoding::MacRoman => ascii_text(alloc, name.bytes()),
    }
}

/// Puts the text of a name that is there into room, and answers how many bytes of UTF-8 it has. Refused as `NotThere`
/// where there is none, and as `OutOfMemory`.
pub fn put_name(alloc: Global, name: Option<NameText<'_>>, out: &mut [u8]) -> Result<usize, Failure>
    ensures { PutsName name.entry out.old out.new result }
{
    match name {
        Some(name) => {
            let text = text_of_name(alloc, &name)?;
            put_bytes(text.as_bytes(), out);
            Ok(text.len())
        }
        None => Err(Failure::NotThere),
    }
}
