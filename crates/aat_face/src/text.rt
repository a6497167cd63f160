//! English names.
ghost use Rattle.std.specs.Prelude.{◌≡◌};
ghost use Rattle.aat_face.specs.English.{english_text};

use crate::encoding::NameEncoding;
use aat_read_sfnt::{NameKey, Names};
use std::marker::Model;

/// A text of the table `name`. A contract sees it as the record `Text`.
///
/// Apple's TrueType Reference Manual, "The 'name' table".
#[derive(Drop)]
pub struct NameText<'a> {
    encoding: NameEncoding,
    bytes: &'a [u8],
}

impl<'a> Model for NameText<'a> {
    ghost use Rattle.aat_face.specs.English.{Text};

    ghost Value = { Text };

    ghost view = { λ m. record { encoding = m.encoding; bytes = m.bytes.now } };
}

impl<'a> NameText<'a> {
    /// How the bytes are read.
    pub fn encoding(&self) -> NameEncoding
        ensures { result ≡ self.now.encoding }
    {
        self.encoding
    }

    /// The bytes, which are not tested to be a text of their encoding.
    pub fn bytes(&self) -> &'a [u8]
        ensures { result.now ≡ self.now.bytes }
    {
        self.bytes
    }
}

/// The English text of a name: that of platform 3 with encoding 1 and language 0x409, else that of platform 1 with
/// encoding 0 and language 0.
pub fn english_text<'a>(names: &Names<'a>, name: u16) -> Option<NameText<'a>>
    ensures { result ≡ english_text names.now name }
{
    let windows = NameKey {
        platform: 3,
        encoding: 1,
        language: 0x409,
        name,
    };
    if let Some(bytes) = names.text(windows) {
        let encoding = NameEncoding::Utf16;
        return Some(NameText { encoding, bytes });
    }
    let macintosh = NameKey {
        platform: 1,
        encoding: 0,
        language: 0,
        name,
    };
    match names.text(macintosh) {
        Some(bytes) => Some(NameText {
            encoding: NameEncoding::MacRoman,
            bytes,
        }),
        None => None,
    }
}
