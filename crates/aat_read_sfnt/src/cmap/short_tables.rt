//! Formats 0 and 6 of the character map.
ghost use Rattle.std.specs.Prelude.{◌≡◌};
ghost use Rattle.aat_read_sfnt.specs.ShortTables.{byte_encoding_at, byte_glyph, trimmed_glyph, trimmed_table_at};

use crate::cmap::segment_mapping::present;
use crate::tags::CMAP;
use aat_bytes::{Fault, FaultKind, be16};
use std::marker::Model;

/// A subtable of format 0: a glyph for each of 256 characters. A contract sees it as its bytes.
///
/// Apple's TrueType Reference Manual, "The 'cmap' table", format 0.
#[derive(Drop)]
pub struct ByteEncoding<'a> {
    bytes: &'a [u8],
}

impl<'a> Model for ByteEncoding<'a> {
    ghost use Rattle.std.specs.Prelude.{ℕ, List, ◌≤◌, length};

    ghost Value = { List ℕ };

    ghost view = { λ m. m.bytes.now };

    ghost invariant = { λ m. 262 ≤ length m.bytes.now };
}

impl<'a> ByteEncoding<'a> {
    /// The subtable at the start of bytes, which stand at a place of the table.
    #[tactic(auto, unfolding(crate::specs::ShortTables::byte_encoding_at))]
    pub(crate) fn read(bytes: &'a [u8], place: u32) -> Result<ByteEncoding<'a>, Fault>
        ensures { result ≡ byte_encoding_at bytes.now place }
    {
        if bytes.len() < 262 {
            return Err(Fault::new(CMAP, FaultKind::PastEnd, place as usize));
        }
        Ok(ByteEncoding { bytes })
    }

    /// The glyph of a character.
    pub fn glyph(&self, character: char) -> Option<u16>
        ensures { result ≡ byte_glyph self.now character }
    {
        let character = character as u32;
        if character >= 256 {
            return None;
        }
        present(self.bytes[6 + character as usize] as u16)
    }
}

/// A subtable of format 6: a glyph for each character of one range. A contract sees it as its bytes.
///
/// Apple's TrueType Reference Manual, "The 'cmap' table", format 6.
#[derive(Drop)]
pub struct TrimmedTable<'a> {
    bytes: &'a [u8],
}

impl<'a> Model for TrimmedTable<'a> {
    ghost use Rattle.std.specs.Prelude.{ℕ, List, ◌+◌, ◌*◌, ◌≤◌, length};
    ghost use Rattle.aat_bytes.specs.Numbers.{be16};

    ghost Value = { List ℕ };

    ghost view = { λ m. m.bytes.now };

    ghost invariant = { λ m. 10 + 2 * be16 m.bytes.now 8 ≤ length m.bytes.now };
}

impl<'a> TrimmedTable<'a> {
    /// The subtable at the start of bytes, which stand at a place of the table.
    #[tactic(auto, unfolding(crate::specs::ShortTables::trimmed_table_at))]
    pub(crate) fn read(bytes: &'a [u8], place: u32) -> Result<TrimmedTable<'a>, Fault>
        ensures { result ≡ trimmed_table_at bytes.now place }
    {
        if bytes.len() < 10 {
            return Err(Fault::new(CMAP, FaultKind::PastEnd, place as usize));
        }
        if bytes.len() < 10 + 2 * be16(bytes, 8) as usize {
            return Err(Fault::new(CMAP, FaultKind::PastEnd, place as usize + 10));
        }
        Ok(TrimmedTable { bytes })
    }

    /// The glyph of a character.
    pub fn glyph(&self, character: char) -> Option<u16>
        ensures { result ≡ trimmed_glyph self.now character }
    {
        let character = character as usize;
        let first = be16(self.bytes, 6) as usize;
        if character < first || character >= first + be16(self.bytes, 8) as usize {
            return None;
        }
        present(be16(self.bytes, 10 + 2 * (character - first)))
    }
}
