//! The bytes of a glyph.
ghost use Rattle.std.specs.Prelude.{◌≡◌, ◌+◌, ◌<◌, ◌^◌, ◌≤◌, length};

use crate::tags::GLYF;
use aat_bytes::{Fault, FaultKind};
use std::marker::Model;

/// The bytes of a glyph, and where they begin in the table. A contract sees the record of both.
#[derive(Drop)]
pub(crate) struct GlyphBytes<'a> {
    bytes: &'a [u8],
    place: u32,
}

impl<'a> Model for GlyphBytes<'a> {
    ghost use Rattle.std.specs.Prelude.{◌+◌, ◌<◌, ◌^◌, length};
    ghost use Rattle.aat_read_outlines.specs.Glyphs as glyphs;

    ghost Value = { glyphs.GlyphBytes };

    ghost view = { λ m. record { bytes = m.bytes.now; place = m.place } };

    ghost invariant = { λ m. m.place + length m.bytes.now < 2 ^ 64 };
}

impl<'a> GlyphBytes<'a> {
    ghost use Rattle.aat_read_outlines.specs.Glyphs.{fault_in, past};

    /// The bytes that begin at a place.
    pub(crate) fn new(bytes: &'a [u8], place: u32) -> GlyphBytes<'a>
        requires { place + length bytes.now < 2 ^ 64 }
        ensures { result ≡ record { bytes = bytes.now; place = place } }
    {
        GlyphBytes { bytes, place }
    }

    /// The bytes.
    pub(crate) fn bytes(&self) -> &'a [u8]
        ensures { result.now ≡ self.now.bytes }
    {
        self.bytes
    }

    /// The fault at an offset of the bytes.
    pub(crate) fn fault(&self, kind: FaultKind, offset: usize) -> Fault
        requires { offset ≤ length self.now.bytes }
        ensures { result ≡ fault_in self.now kind offset }
    {
        Fault::new(GLYF, kind, self.place as usize + offset)
    }

    /// The fault of what is not there as a whole at an offset.
    pub(crate) fn past(&self, offset: usize) -> Fault
        requires { offset ≤ length self.now.bytes }
        ensures { result ≡ past self.now offset }
    {
        self.fault(FaultKind::PastEnd, offset)
    }
}
