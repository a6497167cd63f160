//! The data of glyphs, and their headers.
ghost use Rattle.std.specs.Prelude.{◌≡◌, ◌<◌, option_copied};
ghost use Rattle.aat_read_sfnt.specs.GlyphData.{data_count, data_of, has_long_offsets, header_of, number_at, offset_at, offset_count};

use crate::header::units_per_em;
use aat_bytes::{be16, be32, slice};
use std::marker::Model;

/// Whether the offsets of `loca` have 32 bits, as the table `head` says. Else they have 16, and count twice. `None` if the
/// format of offsets or of the data is neither 0 nor 1. By a table that is not sound they have 16, as for HarfBuzz.
///
/// Apple's TrueType Reference Manual, "The 'head' table".
#[tactic(auto, unfolding(crate::specs::Header::units_per_em))]
pub fn has_long_offsets(head: &[u8]) -> Option<bool>
    ensures { result ≡ has_long_offsets head.now }
{
    match units_per_em(head) {
        Ok(_) if be16(head, 52) > 1 => None,
        Ok(_) => match be16(head, 50) {
            0 => Some(false),
            1 => Some(true),
            _ => None,
        },
        Err(_) => Some(false),
    }
}

/// The header of a glyph: how many contours it has, below 0 a composite one, and the ends of its box, in units of the
/// font.
#[derive(Clone, Copy)]
pub struct GlyphHeader {
    pub contours: i16,
    pub x_min: i16,
    pub y_min: i16,
    pub x_max: i16,
    pub y_max: i16,
}

/// A number of a header, 0 where there is no header of 10 bytes.
fn number_at(bytes: &[u8], place: usize) -> i16
    requires { place < 9 }
    ensures { result ≡ number_at bytes.now place }
{
    if bytes.len() < 10 {
        return 0;
    }
    be16(bytes, place).cast_signed()
}

impl GlyphHeader {
    /// The header of a glyph of this data. Data of less than 10 bytes has none: then all numbers are 0.
    ///
    /// Apple's TrueType Reference Manual, "The 'glyf' table".
    pub fn of_data(bytes: &[u8]) -> GlyphHeader
        ensures { result ≡ header_of bytes.now }
    {
        GlyphHeader {
            contours: number_at(bytes, 0),
            x_min: number_at(bytes, 2),
            y_min: number_at(bytes, 4),
            x_max: number_at(bytes, 6),
            y_max: number_at(bytes, 8),
        }
    }
}

/// The data of a font's glyphs. A contract sees it as the record `DataTables`.
///
/// Apple's TrueType Reference Manual, "The 'glyf' table" and "The 'loca' table".
#[derive(Drop)]
pub struct GlyphData<'a> {
    glyf: &'a [u8],
    loca: &'a [u8],
    is_long: bool,
    glyph_count: u16,
}

impl<'a> Model for GlyphData<'a> {
    ghost use Rattle.aat_read_sfnt.specs.GlyphData.{DataTables};

    ghost Value = { DataTables };

    ghost view = { λ m. record {
      glyf = m.glyf.now;
      loca = m.loca.now;
      is_long = m.is_long;
      glyph_count = m.glyph_count;
    } };
}

impl<'a> GlyphData<'a> {
    /// The data of the tables `glyf` and `loca`, whose offsets have 32 bits or 16, of a font of so many glyphs.
    pub fn new(glyf: &'a [u8], loca: &'a [u8], is_long: bool, glyph_count: u16) -> GlyphData<'a>
        ensures { result ≡ record { glyf = glyf.now; loca = loca.now; is_long = is_long; glyph_count = glyph_count } }
    {
        GlyphData {
            glyf,
            loca,
            is_long,
            glyph_count,
        }
    }

    /// How many offsets there are.
    fn offset_count(&self) -> usize
        ensures { result ≡ offset_count self.now }
    {
        if self.is_long {
            self.loca.len() / 4
        } else {
            self.loca.len() / 2
        }
    }

    /// How many glyphs of the font have data: one less than there are offsets, or all.
    pub fn count(&self) -> usize
        ensures { result ≡ data_count self.now }
    {
        let located = self.offset_count().saturating_sub(1);
        located.min(self.glyph_count as usize)
    }

    /// An offset that is there.
    fn offset(&self, index: usize) -> usize
        requires { index < offset_count self.now }
        ensures { result ≡ offset_at self.now index }
    {
        if self.is_long {
            be32(self.loca, 4 * index) as usize
        } else {
            2 * be16(self.loca, 2 * index) as usize
        }
    }

    /// The data of a glyph, or `None` where the glyph has none, or its data does not stand in `glyf` as a whole.
    pub fn data(&self, glyph: u16) -> Option<&'a [u8]>
        ensures { option_copied result ≡ data_of self.now glyph }
    {
        if glyph as usize >= self.count() {
            return None;
        }
        let start = self.offset(glyph as usize);
        let end = self.offset(glyph as usize + 1);
        if end < start {
            return None;
        }
        slice(self.glyf, start, end - start)
    }
}
