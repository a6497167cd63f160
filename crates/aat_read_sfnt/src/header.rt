//! The maximum profile and the font header.
ghost use Rattle.std.specs.Prelude.{◌≡◌};
ghost use Rattle.aat_read_sfnt.specs.Header.{glyph_count, known_units, units_per_em};

use crate::tags::{HEAD, MAXP};
use aat_bytes::{Fault, FaultKind, be16, be32};

/// The number of glyphs that the table `maxp` names.
///
/// The fault is 1, `PastEnd`, if a field of the version is not there, and 2, `UnknownFormat`, if the version is neither
/// 0.5 nor 1. Apple's TrueType Reference Manual, "The 'maxp' table".
#[tactic(auto, unfolding(crate::specs::Header::glyph_count))]
pub fn glyph_count(maxp: &[u8]) -> Result<u16, Fault>
    ensures { result ≡ glyph_count maxp.now }
{
    if maxp.len() < 6 {
        return Err(Fault::new(MAXP, FaultKind::PastEnd, 0));
    }
    if be16(maxp, 0) == 1 {
        if maxp.len() < 32 {
            return Err(Fault::new(MAXP, FaultKind::PastEnd, 6));
        }
        return Ok(be16(maxp, 4));
    }
    if be32(maxp, 0) != 0x5000 {
        return Err(Fault::new(MAXP, FaultKind::UnknownFormat, 0));
    }
    Ok(be16(maxp, 4))
}

/// Units that are not believed are taken as 1,000.
fn known_units(units: u16) -> u16
    ensures { result ≡ known_units units }
{
    if (16..=16384).contains(&units) {
        units
    } else {
        1000
    }
}

/// The units of the em that the table `head` names, or 1,000 where they are not from 16 to 16,384.
///
/// The fault is 1, `PastEnd`, if a field is not there, and 2, `UnknownFormat`, if the version is not 1, then if the
/// magic number is another one. Apple's TrueType Reference Manual, "The 'head' table".
#[tactic(auto, unfolding(crate::specs::Header::units_per_em))]
pub fn units_per_em(head: &[u8]) -> Result<u16, Fault>
    ensures { result ≡ units_per_em head.now }
{
    if head.len() < 54 {
        return Err(Fault::new(HEAD, FaultKind::PastEnd, 0));
    }
    if be16(head, 0) != 1 {
        return Err(Fault::new(HEAD, FaultKind::UnknownFormat, 0));
    }
    if be32(head, 12) != 0x5F0F3CF5 {
        return Err(Fault::new(HEAD, FaultKind::UnknownFormat, 12));
    }
    Ok(known_units(be16(head, 18)))
}
