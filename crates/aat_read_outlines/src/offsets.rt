//! Where the bytes of glyphs stand.
ghost use Rattle.std.specs.Prelude.{◌≡◌, MatchResult, Ok, Err};
ghost use Rattle.aat_read_outlines.specs.Offsets.{long_offsets};

use crate::composites::drawn_at;
use crate::glyph::GlyphBytes;
use crate::outline::Outline;
use crate::tags::{GLYF, LOCA};
use aat_bytes::{Fault, FaultKind, ReadError, be16, u16_at, u32_at};
use aat_read_sfnt::tags::{HEAD, MAXP};
use aat_read_sfnt::{FontFile, glyph_count};
use std::alloc::Allocator;
use std::marker::Model;

/// Whether the offsets of `loca` have 32 bits, as the table `head` says. Else they have 16, and count twice.
///
/// The fault is 1, `PastEnd`, at 0, if a field of the 54 bytes is not there, and 2, `UnknownFormat`, at 50, if the format
/// is neither 0 nor 1. Apple's TrueType Reference Manual, "The 'head' table".
#[tactic(auto, unfolding(crate::specs::Offsets::long_offsets))]
pub fn long_offsets(head: &[u8]) -> Result<bool, Fault>
    ensures { result ≡ long_offsets head.now }
{
    if head.len() < 54 {
        return Err(Fault::new(HEAD, FaultKind::PastEnd, 0));
    }
    match be16(head, 50) {
        0 => Ok(false),
        1 => Ok(true),
        _ => Err(Fault::new(HEAD, FaultKind::UnknownFormat, 50)),
    }
}

/// The outlines of a font. A contract sees them as the record `OutlineTables`.
///
/// Apple's TrueType Reference Manual, "The 'glyf' table" and "The 'loca' table".
#[derive(Drop)]
pub struct Outlines<'a> {
    glyf: &'a [u8],
    loca: &'a [u8],
    is_long: bool,
    glyph_count: u16,
}

impl<'a> Model for Outlines<'a> {
    ghost use Rattle.aat_read_outlines.specs.Offsets.{OutlineTables};

    ghost Value = { OutlineTables };

    ghost view = { λ m. record {
      glyf = m.glyf.now;
      loca = m.loca.now;
      is_long = m.is_long;
      glyph_count = m.glyph_count;
    } };
}

impl<'a> Outlines<'a> {
    ghost use Rattle.aat_read_outlines.specs.Composites.{outline_of};
    ghost use Rattle.aat_read_outlines.specs.Reading.{Gives};
    ghost use Rattle.aat_read_outlines.specs.Offsets.{bytes_between, entry_place, glyph_bytes, offset_at, offset_in, tables_in, tables_of};

    /// The outlines of the tables `glyf` and `loca`, whose offsets are long or not, of a font of so many glyphs.
    pub fn new(glyf: &'a [u8], loca: &'a [u8], is_long: bool, glyph_count: u16) -> Outlines<'a>
        ensures { result ≡ record { glyf = glyf.now; loca = loca.now; is_long = is_long; glyph_count = glyph_count } }
    {
        Outlines {
            glyf,
            loca,
            is_long,
            glyph_count,
        }
    }

    /// The outlines of a font whose data of glyphs is this.
    fn of_data(file: &FontFile<'a>, glyf: &'a [u8]) -> Result<Outlines<'a>, Fault>
        ensures { result ≡ tables_of file.now glyf.now }
    {
        let is_long = long_offsets(file.table(HEAD)?)?;
        let glyph_count = glyph_count(file.table(MAXP)?)?;
        let loca = file.table(LOCA)?;
        Ok(Outlines::new(glyf, loca, is_long, glyph_count))
    }

    /// The outlines of a font file, or `None` where it has no table `glyf`.
    ///
    /// The first fault in this order: that `glyf` reaches past the end of the file, 1, `PastEnd`, at 0; what
    /// `FontFile::table` and `long_offsets` find of `head`; what `FontFile::table` and `aat_read_sfnt::glyph_count` find of
    /// `maxp`; what `FontFile::table` finds of `loca`. A table of these three that is missing is 4, `Missing`, at 0.
    pub fn of_file(file: &FontFile<'a>) -> Result<Option<Outlines<'a>>, Fault>
        ensures { result ≡ tables_in file.now }
    {
        match file.table(GLYF) {
            Ok(glyf) => Ok(Some(Outlines::of_data(file, glyf)?)),
            Err(fault) => match fault.kind {
                FaultKind::Missing => Ok(None),
                _ => Err(fault),
            },
        }
    }

    /// The place of an entry of `loca`.
    fn entry_place(&self, index: u32) -> usize
        ensures { result ≡ entry_place self.now index }
    {
        let size = if self.is_long { 4 } else { 2 };
        size * index as usize
    }

    /// The offset in an entry of `loca`, if the entry is there.
    fn offset_in(&self, index: u32) -> Option<u32>
        ensures { result ≡ offset_in self.now index }
    {
        let place = self.entry_place(index);
        if self.is_long {
            u32_at(self.loca, place)
        } else {
            Some(2 * u16_at(self.loca, place)? as u32)
        }
    }

    /// The offset in an entry of `loca`.
    fn offset_at(&self, index: u32) -> Result<u32, Fault>
        ensures { result ≡ offset_at self.now index }
    {
        match self.offset_in(index) {
            Some(offset) => Ok(offset),
            None => Err(Fault::new(LOCA, FaultKind::PastEnd, self.entry_place(index))),
        }
    }

    /// The bytes from an offset of a glyph up to the next one.
    fn bytes_between(&self, glyph: u16, start: u32, end: u32) -> Result<GlyphBytes<'a>, Fault>
        ensures { result ≡ bytes_between self.now glyph start end }
    {
        if start > end || end as usize > self.glyf.len() {
            let place = self.entry_place(glyph as u32 + 1);
            return Err(Fault::new(LOCA, FaultKind::PastEnd, place));
        }
        Ok(GlyphBytes::new(&self.glyf[start as usize..end as usize], start))
    }

    /// The bytes of a glyph.
    pub(crate) fn glyph_bytes(&self, glyph: u16) -> Result<GlyphBytes<'a>, Fault>
        ensures { result ≡ glyph_bytes self.now glyph }
    {
        if glyph >= self.glyph_count {
            let place = self.entry_place(glyph as u32);
            return Err(Fault::new(LOCA, FaultKind::Missing, place));
        }
        let start = self.offset_at(glyph as u32)?;
        let end = self.offset_at(glyph as u32 + 1)?;
        self.bytes_between(glyph, start, end)
    }

    /// The outline of a glyph, in units of the font. One without data has no contours.
    ///
    /// A composite glyph is the outlines of its components, one behind the other, each under its matrix and its offset
    /// and rounded to the nearest unit, halves up; a coordinate of more than 32 bits counts as the greatest or the least
    /// that they hold. Offsets are not scaled. A component that is placed by matching points is put at offset 0. A
    /// composite glyph within 8 others has no points. Up to 64 components are read in all: of a composite glyph its own
    /// are counted before those within them, and what is past the last one is not read. A component has no points where
    /// the outline would have more than 65,536 with it.
    ///
    /// The first fault in this order, for the glyph and then for the glyph of each component. Of the table `loca`, at the
    /// entry: 4, `Missing`, a glyph that the font does not have; 1, `PastEnd`, an entry that is not there, first that of
    /// the glyph and then that behind it; 1, at the entry behind it, an offset that lies before that of the glyph or past
    /// the end of `glyf`. Of the table `glyf`: 1, a header of 10 bytes that is not there, at its place. Of a glyph with
    /// contours: 1, the last points of contours and the length of instructions that are not all there, at the first; 5,
    /// `NotRising`, the first last point that is not above the one before it, at its place; 1, instructions that are not
    /// there, at their place; 1, a flag that is not there, at the end of the glyph; 1, coordinates that are not all
    /// there, at the first. Of a composite glyph: 1, a component that is not there as a whole, at its place.
    /// `OutOfMemory` comes where the bytes have no fault, or before their first fault is found.
    pub fn outline<A: Allocator + Copy>(
        &self,
        alloc: A,
        glyph: u16,
    ) -> Result<Outline<A>, ReadError>
        ensures { Gives result (outline_of self.now glyph) }
    {
        Ok(drawn_at(alloc, self, 8, 64, glyph)?.outline)
    }
}
