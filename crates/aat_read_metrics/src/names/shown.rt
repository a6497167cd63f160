//! Names that are shown.
ghost use Rattle.std.specs.Prelude.{◌≡◌, option_copied};
ghost use Rattle.std.specs.List.{list_all};
ghost use Rattle.aat_read_metrics.specs.names.Names.{is_shown_byte, shown};

use std::str;

/// Whether a byte is printed by itself, and stands for itself in JSON and XML.
fn is_shown_byte(byte: u8) -> bool
    ensures { result ≡ is_shown_byte byte }
{
    b' ' < byte
        && byte != b'"'
        && byte != b'&'
        && byte != b'<'
        && byte != b'>'
        && byte != b'\\'
        && byte < 0x7F
}

/// Whether each byte of a name is shown.
fn are_shown(name: &[u8]) -> bool
    ensures { result ≡ list_all is_shown_byte name.now }
{
    name.iter().all(|byte| is_shown_byte(*byte))
}

/// A name, if it has a byte and each is shown.
pub(crate) fn shown(name: &[u8]) -> Option<&str>
    ensures { option_copied result ≡ shown name.now }
{
    if name.is_empty() || !are_shown(name) {
        return None;
    }
    match str::from_utf8(name) {
        Ok(text) => Some(text),
        Err(_) => None,
    }
}
