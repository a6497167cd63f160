//! The directory of a font, and collections of fonts.
ghost use Rattle.std.specs.Prelude.{◌≡◌, ◌+◌, ◌*◌, ◌≤◌, ◌==◌, ◌<◌, Ok, Err, IfSome, MatchResult, length, option_copied, take};
ghost use Rattle.aat_bytes.specs.Numbers.{be16, be32};
ghost use Rattle.aat_read_sfnt.specs.Directory.{directory_at, directory_place, is_font_version, place_in_collection};

use crate::tags::{SFNT, TTCF};
use aat_bytes::{Fault, FaultKind, Tag, be16, be32, slice, slice_from};
use std::marker::Model;

/// A font of a file. A contract sees it as the record `Directory`.
///
/// Apple's TrueType Reference Manual, "The font directory".
#[derive(Drop)]
pub struct FontFile<'a> {
    file: &'a [u8],
    place: u32,
}

impl<'a> Model for FontFile<'a> {
    ghost use Rattle.std.specs.Prelude.{◌+◌, ◌*◌, ◌≤◌, length};
    ghost use Rattle.aat_bytes.specs.Numbers.{be16};
    ghost use Rattle.aat_read_sfnt.specs.Directory.{Directory};

    ghost Value = { Directory };

    ghost view = { λ m. record { file = m.file.now; place = m.place } };

    ghost invariant = { λ m. m.place + 12 + 16 * be16 m.file.now (m.place + 4) ≤ length m.file.now };
}

/// The first so many bytes, or all where there are fewer.
pub(crate) fn front(bytes: &[u8], size: usize) -> &[u8]
    ensures { result.now ≡ take size bytes.now }
{
    if bytes.len() <= size {
        bytes
    } else {
        &bytes[..size]
    }
}

/// Whether a font may have a version.
fn is_font_version(version: u32) -> bool
    ensures { result ≡ is_font_version version }
{
    version == 0x00010000 || version == 0x74727565 || version == 0x4F54544F || version == 0x74797031
}

/// The place of the directory of the font at an index of a collection.
#[tactic(auto, unfolding(crate::specs::Directory::place_in_collection))]
fn place_in_collection(file: &[u8], index: u32) -> Result<u32, Fault>
    ensures { result ≡ place_in_collection file.now index }
{
    if file.len() < 12 {
        return Err(Fault::new(TTCF, FaultKind::PastEnd, 0));
    }
    let version = be16(file, 4);
    if version != 1 && version != 2 {
        return Err(Fault::new(TTCF, FaultKind::UnknownFormat, 4));
    }
    let count = be32(file, 8);
    if file.len() < 12 + 4 * count as usize {
        return Err(Fault::new(TTCF, FaultKind::PastEnd, 12));
    }
    if index >= count {
        return Err(Fault::new(TTCF, FaultKind::Missing, 8));
    }
    Ok(be32(file, 12 + 4 * index as usize))
}

/// The place of the directory of the font at an index of a file.
#[tactic(auto, unfolding(crate::specs::Directory::directory_place))]
fn directory_place(file: &[u8], index: u32) -> Result<u32, Fault>
    ensures { result ≡ directory_place file.now index }
{
    if file.len() < 4 {
        return Err(Fault::new(SFNT, FaultKind::PastEnd, 0));
    }
    if be32(file, 0) == TTCF.0 {
        return place_in_collection(file, index);
    }
    if index != 0 {
        return Err(Fault::new(SFNT, FaultKind::Missing, 0));
    }
    Ok(0)
}

/// The font whose directory stands at a place.
#[tactic(auto, unfolding(crate::specs::Directory::directory_at))]
fn directory_at(file: &[u8], place: u32) -> Result<FontFile<'_>, Fault>
    ensures { result ≡ directory_at file.now place }
{
    let start = place as usize;
    if file.len() < start + 12 {
        return Err(Fault::new(SFNT, FaultKind::PastEnd, start));
    }
    if !is_font_version(be32(file, start)) {
        return Err(Fault::new(SFNT, FaultKind::UnknownFormat, start));
    }
    if file.len() < start + 12 + 16 * be16(file, start + 4) as usize {
        return Err(Fault::new(SFNT, FaultKind::PastEnd, start + 12));
    }
    Ok(FontFile { file, place })
}

impl<'a> FontFile<'a> {
    ghost use Rattle.aat_read_sfnt.specs.Directory.{directory_of, record_of, record_place, bytes_of_record, cut_table_of, part_of_record, table_of};

    /// The font at an index of a file. A file that is no collection has one font, at index 0.
    ///
    /// The first fault in this order, with its place in the file. Of the table `ttcf`, if the file is a collection: 1,
    /// `PastEnd`, a header of 12 bytes that is not there; 2, `UnknownFormat`, a version that is neither 1 nor 2; 1, a
    /// list of places that is not there; 4, `Missing`, an index that is not listed. Of the table `sfnt`: 1, a file of
    /// less than 4 bytes; 4, an index above 0 of a file that is no collection; 1, a directory of 12 bytes that is not
    /// there; 2, a version that no font has; 1, records that are not there.
    pub fn read(file: &'a [u8], index: u32) -> Result<FontFile<'a>, Fault>
        ensures { result ≡ directory_of file.now index }
    {
        let place = directory_place(file, index)?;
        directory_at(file, place)
    }

    /// Whether the record at an index of the directory has a tag.
    fn has_tag(&self, index: u16, tag: u32) -> bool
        requires { index < be16 self.now.file (self.now.place + 4) }
        ensures { result ≡ (be32 self.now.file (record_place self.now index) == tag) }
    {
        be32(self.file, self.place as usize + 12 + 16 * index as usize) == tag
    }

    /// The index of the first record with a tag.
    fn record_of(&self, tag: u32) -> Option<u16>
        ensures first { result ≡ record_of self.now tag }
        ensures below { IfSome result (λ i. i < be16 self.now.file (self.now.place + 4)) }
    {
        (0..be16(self.file, self.place as usize + 4)).find(|index| self.has_tag(*index, tag))
    }
    /// The bytes that stand at the offset and of the length of a record, if the file has them all.
    fn bytes_of_record(&self, index: u16) -> Option<&'a [u8]>
        requires { index < be16 self.now.file (self.now.place + 4) }
        ensures { option_copied result ≡ bytes_of_record self.now index }
    {
        let record = self.place as usize + 12 + 16 * index as usize;
        let offset = be32(self.file, record + 8) as usize;
        let length = be32(self.file, record + 12) as usize;
        slice(self.file, offset, length)
    }

    /// The bytes at the offset and of the length of a record that the file has.
    fn part_of_record(&self, index: u16) -> &'a [u8]
        requires { index < be16 self.now.file (self.now.place + 4) }
        ensures { result.now ≡ part_of_record self.now index }
    {
        let record = self.place as usize + 12 + 16 * index as usize;
        let offset = be32(self.file, record + 8) as usize;
        let length = be32(self.file, record + 12) as usize;
        match slice_from(self.file, offset) {
            Some(rest) => front(rest, length),
            None => &self.file[..0],
        }
    }

    /// What the file has of a table: as in HarfBuzz, one that reaches past the end of the file is cut there. If records
    /// share the tag, the first counts.
    ///
    /// The fault is 4, `Missing`, if no record has the tag, of the table, at 0.
    pub fn cut_table(&self, tag: Tag) -> Result<&'a [u8], Fault>
        ensures { let table = cut_table_of self.now tag in
            MatchResult result (λ t. table ≡ Ok t.now) (λ e. table ≡ Err e) }
    {
        match self.record_of(tag.0) {
            Some(index) => Ok(self.part_of_record(index)),
            None => Err(Fault::new(tag, FaultKind::Missing, 0)),
        }
    }

    /// The bytes of a table that is there as a whole. If records share the tag, the first counts.
    ///
    /// The fault is 4, `Missing`, if no record has the tag, and 1, `PastEnd`, if the table reaches past the end of the
    /// file; both are the table's, at 0.
    pub fn table(&self, tag: Tag) -> Result<&'a [u8], Fault>
        ensures { let table = table_of self.now tag in MatchResult result (λ t. table ≡ Ok t.now) (λ e. table ≡ Err e) }
    {
        let Some(index) = self.record_of(tag.0) else {
            return Err(Fault::new(tag, FaultKind::Missing, 0));
        };
        match self.bytes_of_record(index) {
            Some(bytes) => Ok(bytes),
            None => Err(Fault::new(tag, FaultKind::PastEnd, 0)),
        }
    }
}
