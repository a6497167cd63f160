//! The table of names.
ghost use Rattle.std.specs.Prelude.{◌≡◌, ◌+◌, ◌<◌, ◌≤◌, IfSome, length, option_copied};
ghost use Rattle.aat_bytes.specs.Numbers.{be16};
ghost use Rattle.aat_read_sfnt.specs.Names.{has_key, has_pair, name_record, names_of, text_of, text_of_record};

use crate::tags::NAME;
use aat_bytes::{Fault, FaultKind, be16, slice};
use std::marker::Model;

/// What a name is listed by. Platform 3 with encoding 1 has texts of UTF-16, and its language 0x409 is English.
/// Platform 1 with encoding 0 has texts of Mac Roman, and its language 0 is English.
#[derive(Clone, Copy, PartialEq, Eq, Debug)]
pub struct NameKey {
    /// The platform.
    pub platform: u16,
    /// The encoding, by platform.
    pub encoding: u16,
    /// The language, by platform.
    pub language: u16,
    /// The number of the name, as the table `feat` has it of a feature or a setting.
    pub name: u16,
}

/// The names of a font. A contract sees them as the bytes of the table.
///
/// Apple's TrueType Reference Manual, "The 'name' table".
#[derive(Drop)]
pub struct Names<'a> {
    bytes: &'a [u8],
}

impl<'a> Model for Names<'a> {
    ghost use Rattle.std.specs.Prelude.{ℕ, List, ◌+◌, ◌*◌, ◌≤◌, length};
    ghost use Rattle.aat_bytes.specs.Numbers.{be16};

    ghost Value = { List ℕ };

    ghost view = { λ m. m.bytes.now };

    ghost invariant = { λ m. 6 + 12 * be16 m.bytes.now 2 ≤ length m.bytes.now };
}

/// Whether two numbers of 16 bits stand at a place.
#[tactic(auto, unfolding(crate::specs::Names::has_pair))]
fn has_pair(bytes: &[u8], place: usize, first: u16, second: u16) -> bool
    requires { place + 4 ≤ length bytes.now }
    ensures { result ≡ has_pair bytes.now place first second }
{
    be16(bytes, place) == first && be16(bytes, place + 2) == second
}

impl<'a> Names<'a> {
    /// The names of the table `name`.
    ///
    /// The first fault in this order: 1, `PastEnd`, a header of 6 bytes that is not there; 2, `UnknownFormat`, a
    /// version that is neither 0 nor 1; 1, records that are not there.
    #[tactic(auto, unfolding(crate::specs::Names::names_of))]
    pub fn read(name: &'a [u8]) -> Result<Names<'a>, Fault>
        ensures { result ≡ names_of name.now }
    {
        if name.len() < 6 {
            return Err(Fault::new(NAME, FaultKind::PastEnd, 0));
        }
        let version = be16(name, 0);
        if version != 0 && version != 1 {
            return Err(Fault::new(NAME, FaultKind::UnknownFormat, 0));
        }
        if name.len() < 6 + 12 * be16(name, 2) as usize {
            return Err(Fault::new(NAME, FaultKind::PastEnd, 6));
        }
        Ok(Names { bytes: name })
    }

    /// Whether the record at an index has a key.
    #[tactic(auto, unfolding(crate::specs::Names::has_key))]
    fn has_key(&self, key: NameKey, i: u16) -> bool
        requires { i < be16 self.now 2 }
        ensures { result ≡ has_key self.now key i }
    {
        let i = i as usize;
        has_pair(self.bytes, 6 + 12 * i, key.platform, key.encoding)
            && has_pair(self.bytes, 10 + 12 * i, key.language, key.name)
    }

    /// The first record that has a key.
    fn name_record(&self, key: NameKey) -> Option<u16>
        ensures first { result ≡ name_record self.now key }
        ensures below { IfSome result (λ i. i < be16 self.now 2) }
    {
        (0..be16(self.bytes, 2)).find(|i| self.has_key(key, *i))
    }

    /// The text of the record at an index.
    fn text_of_record(&self, i: u16) -> Option<&'a [u8]>
        requires { i < be16 self.now 2 }
        ensures { option_copied result ≡ text_of_record self.now i }
    {
        let record = 6 + 12 * i as usize;
        let offset = be16(self.bytes, 4) as usize + be16(self.bytes, record + 10) as usize;
        slice(self.bytes, offset, be16(self.bytes, record + 8) as usize)
    }

    /// The text of a name, in the encoding of its key, or `None` if it is not listed or reaches past the end of the
    /// table. If records share the key, the first counts.
    pub fn text(&self, key: NameKey) -> Option<&'a [u8]>
        ensures { option_copied result ≡ text_of self.now key }
    {
        match self.name_record(key) {
            Some(i) => self.text_of_record(i),
            None => None,
        }
    }
}
