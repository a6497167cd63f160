//! What is asked of a font.
ghost use Rattle.std.specs.Prelude.{◌≡◌, ◌<◌, ◌≤◌, IfErr, IfOk, OnOk, slice_get};
ghost use Rattle.aat_records.specs.Names.{PutsName, by_short};
ghost use Rattle.aat_records.specs.Asked.{TellsFeature, directory_fault, glyph_in, told_fault};
ghost use Rattle.aat_records.specs.AskedNames.{setting_by_shorts};
ghost use Rattle.aat_face.specs.Faces.{feature_text, name_of};
ghost use Rattle.aat_read_sfnt.specs.Directory.{directory_of};

use crate::failure::Failure;
use crate::names::put_name;
use crate::records::FaultRecord;
use aat_face::Face;
use aat_font::hb_tag_t;
use aat_read_sfnt::FontFile;
use aat_shaper::Shaper;
use std::alloc::Global;

/// The glyph of a character in a face, 0 where there is none.
pub fn glyph_in(face: &Face<'_>, character: u32) -> u32
    ensures { result ≡ glyph_in character face.now }
{
    match char::from_u32(character) {
        Some(character) => face
            .glyph_of(character)
            .map_or(0, |glyph| u32::from(glyph.0)),
        None => 0,
    }
}

/// Whether a face has a feature.
pub fn has_feature_in(alloc: Global, face: &Face<'_>, tag: u32) -> bool
    ensures { TellsFeature face.now tag result }
{
    Shaper::new(alloc, face.font()).has_feature(hb_tag_t(tag))
}

/// A fault of a face, by its number from 0.
pub fn fault_in(face: &Face<'_>, number: usize) -> Result<FaultRecord, Failure>
    ensures { result ≡ told_fault (slice_get face.now.faults number) }
{
    match face.faults().get(number) {
        Some(fault) => Ok(FaultRecord::of(*fault)),
        None => Err(Failure::NotThere),
    }
}

/// The fault of a file's directory.
pub fn fault_of_file(bytes: &[u8], index: u32) -> Result<FaultRecord, Failure>
    ensures { result ≡ directory_fault (directory_of bytes.now index) }
{
    match FontFile::read(bytes, index) {
        Ok(_) => Err(Failure::NotThere),
        Err(fault) => Ok(FaultRecord::of(fault)),
    }
}

/// A number of 16 bits, of which others are not there.
fn short(number: u32) -> Result<u16, Failure>
    ensures short { IfOk result (λ short. short ≡ number) }
    ensures small { OnOk result (number < 65536) }
    ensures large { IfErr result (λ failure. (failure ≡ Failure.NotThere) × (65536 ≤ number)) }
{
    match u16::try_from(number) {
        Ok(number) => Ok(number),
        Err(_) => Err(Failure::NotThere),
    }
}

/// Puts the name of a face with a number.
pub fn put_name_of(
    alloc: Global,
    face: &Face<'_>,
    name: u32,
    out: &mut [u8],
) -> Result<usize, Failure>
    ensures { PutsName (by_short name (name_of face.now)) out.old out.new result }
{
    let name = short(name)?;
    put_name(alloc, face.name(name), out)
}

/// Puts the name of a feature type of a face.
pub fn put_feature_name(
    alloc: Global,
    face: &Face<'_>,
    kind: u32,
    out: &mut [u8],
) -> Result<usize, Failure>
    ensures { PutsName (by_short kind (feature_text face.now)) out.old out.new result }
{
    let kind = short(kind)?;
    put_name(alloc, face.feature_name(kind), out)
}

/// Puts the name of a setting of a feature type of a face.
pub fn put_setting_name(
    alloc: Global,
    face: &Face<'_>,
    kind: u32,
    setting: u32,
    out: &mut [u8],
) -> Result<usize, Failure>
    ensures { PutsName (setting_by_shorts face.now kind setting) out.old out.new result }
{
    let kind = short(kind)?;
    let setting = short(setting)?;
    put_name(alloc, face.setting_name(kind, setting), out)
}
