//! Format 4 of the character map: segments of 16 bits.
ghost use Rattle.std.specs.Prelude.{◌≡◌, ◌<◌, ◌≤◌, IfSome};
ghost use Rattle.aat_read_sfnt.specs.SegmentMapping.{end_code, glyph_in_segment, id_delta, id_range_offset, id_range_offset_place, listed_number, present, segment_count, segment_glyph, segment_of, segments_at, start_code, with_delta, with_lists};

use crate::directory::front;
use crate::tags::CMAP;
use aat_bytes::{Fault, FaultKind, be16, u16_at};
use std::marker::Model;

/// A subtable of format 4. A contract sees it as its bytes.
///
/// Apple's TrueType Reference Manual, "The 'cmap' table", format 4.
#[derive(Drop)]
pub struct SegmentMapping<'a> {
    bytes: &'a [u8],
}

impl<'a> Model for SegmentMapping<'a> {
    ghost use Rattle.std.specs.Prelude.{ℕ, List};
    ghost use Rattle.aat_read_sfnt.specs.SegmentMapping.{AreSegments};

    ghost Value = { List ℕ };

    ghost view = { λ m. m.bytes.now };

    ghost invariant = { λ m. AreSegments m.bytes.now };
}

/// The glyph of a number, if it is not 0.
pub(crate) fn present(glyph: u16) -> Option<u16>
    ensures { result ≡ present glyph }
{
    if glyph == 0 { None } else { Some(glyph) }
}

/// The subtable of these bytes, which stand at a place of the table, if its lists stand inside.
fn with_lists(bytes: &[u8], place: u32) -> Result<SegmentMapping<'_>, Fault>
    ensures { result ≡ with_lists bytes.now place }
{
    if bytes.len() < 16 || bytes.len() < 16 + 8 * (be16(bytes, 6) / 2) as usize {
        return Err(Fault::new(CMAP, FaultKind::ShortLength, place as usize + 2));
    }
    Ok(SegmentMapping { bytes })
}

impl<'a> SegmentMapping<'a> {
    /// The subtable at the start of bytes, which stand at a place of the table.
    #[tactic(auto, unfolding(crate::specs::SegmentMapping::segments_at))]
    pub(crate) fn read(bytes: &'a [u8], place: u32) -> Result<SegmentMapping<'a>, Fault>
        ensures { result ≡ segments_at bytes.now place }
    {
        if bytes.len() < 14 {
            return Err(Fault::new(CMAP, FaultKind::PastEnd, place as usize));
        }
        with_lists(front(bytes, be16(bytes, 2) as usize), place)
    }

    /// The number of segments.
    fn segment_count(&self) -> u16
        ensures { result ≡ segment_count self.now }
    {
        be16(self.bytes, 6) / 2
    }

    /// The last character of a segment.
    fn end_code(&self, i: u16) -> u16
        requires { i < segment_count self.now }
        ensures { result ≡ end_code self.now i }
    {
        be16(self.bytes, 14 + 2 * i as usize)
    }

    /// The first character of a segment.
    fn start_code(&self, i: u16) -> u16
        requires { i < segment_count self.now }
        ensures { result ≡ start_code self.now i }
    {
        be16(
            self.bytes,
            16 + 2 * (self.segment_count() as usize + i as usize),
        )
    }

    /// The delta of a segment.
    fn id_delta(&self, i: u16) -> u16
        requires { i < segment_count self.now }
        ensures { result ≡ id_delta self.now i }
    {
        be16(
            self.bytes,
            16 + 2 * (2 * self.segment_count() as usize + i as usize),
        )
    }

    /// The place of the offset of a segment.
    fn id_range_offset_place(&self, i: u16) -> usize
        requires { i < segment_count self.now }
        ensures place { result ≡ id_range_offset_place self.now i }
    {
        16 + 2 * (3 * self.segment_count() as usize + i as usize)
    }

    /// The segment that a bisection finds for a character. Of two segments in the middle it looks at the lower one, as
    /// HarfBuzz does.
    fn segment_of(&self, character: u16) -> Option<u16>
        ensures is { result ≡ segment_of self.now character }
        ensures has { IfSome result (λ i. (i < segment_count self.now) × (start_code self.now i ≤ character)) }
    {
        let mut from = 0;
        let mut to = self.segment_count() as usize;
        while from < to {
            let middle = (from + (to - 1)) / 2;
            let start = self.start_code(middle as u16);
            let end = self.end_code(middle as u16);
            if end < character {
                from = middle + 1;
            } else if character < start {
                to = middle;
            } else {
                return Some(middle as u16);
            }
        }
        None
    }

    /// A number with the delta of a segment.
    fn with_delta(&self, i: u16, number: u16) -> Option<u16>
        requires { i < segment_count self.now }
        ensures { result ≡ with_delta self.now i number }
    {
        present(number.wrapping_add(self.id_delta(i)))
    }

    /// The number at a place behind the lists.
    fn listed_number(&self, place: usize) -> Option<u16>
        ensures { result ≡ listed_number self.now place }
    {
        if place < 16 + 8 * self.segment_count() as usize {
            return None;
        }
        match u16_at(self.bytes, place) {
            Some(number) => present(number),
            None => None,
        }
    }

    /// The glyph of a character in a segment that has it.
    #[tactic(auto, unfolding(crate::specs::SegmentMapping::glyph_in_segment))]
    fn glyph_in_segment(&self, character: u16, i: u16) -> Option<u16>
        requires below { i < segment_count self.now }
        requires has { start_code self.now i ≤ character }
        ensures { result ≡ glyph_in_segment self.now character i }
    {
        let start = self.start_code(i);
        let place = self.id_range_offset_place(i);
        let offset = be16(self.bytes, place) as usize;
        if offset == 0 {
            return self.with_delta(i, character);
        }
        let listed = self.listed_number(
            place + 2 * (offset / 2) + 2 * (character - start) as usize,
        );
        match listed {
            Some(number) => self.with_delta(i, number),
            None => None,
        }
    }

    /// The glyph of a character. Its segment is found by bisection.
    pub fn glyph(&self, character: char) -> Option<u16>
        ensures { result ≡ segment_glyph self.now character }
    {
        if character > '\u{FFFF}' {
            return None;
        }
        let character = character as u16;
        match self.segment_of(character) {
            Some(i) => self.glyph_in_segment(character, i),
            None => None,
        }
    }
}
