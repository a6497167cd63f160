//! Format 12 of the character map: groups of 32 bits.
ghost use Rattle.std.specs.Prelude.{◌≡◌, ◌+◌, ◌-◌, ◌%◌, ◌<◌, ◌≤◌, ℕ, IfSome, Some};
ghost use Rattle.aat_bytes.specs.Numbers.{be32};
ghost use Rattle.aat_read_sfnt.specs.SegmentedCoverage.{end_char, glyph_in_group, group_glyph, group_of, groups_at, known_glyph, start_char, start_glyph};

use crate::tags::CMAP;
use aat_bytes::{Fault, FaultKind, be32};
use std::marker::Model;

/// A subtable of format 12. A contract sees it as its bytes.
///
/// Apple's TrueType Reference Manual, "The 'cmap' table", format 12.
#[derive(Drop)]
pub struct SegmentedCoverage<'a> {
    bytes: &'a [u8],
}

impl<'a> Model for SegmentedCoverage<'a> {
    ghost use Rattle.std.specs.Prelude.{ℕ, List};
    ghost use Rattle.aat_read_sfnt.specs.SegmentedCoverage.{AreGroups};

    ghost Value = { List ℕ };

    ghost view = { λ m. m.bytes.now };

    ghost invariant = { λ m. AreGroups m.bytes.now };
}

/// The glyph of a number, if it has 16 bits and is not 0.
fn known_glyph(glyph: u64) -> Option<u16>
    ensures { result ≡ known_glyph glyph }
{
    if glyph == 0 || glyph > 65535 {
        None
    } else {
        Some(glyph as u16)
    }
}

impl<'a> SegmentedCoverage<'a> {
    /// The subtable at the start of bytes, which stand at a place of the table.
    #[tactic(auto, unfolding(crate::specs::SegmentedCoverage::groups_at))]
    pub(crate) fn read(bytes: &'a [u8], place: u32) -> Result<SegmentedCoverage<'a>, Fault>
        ensures { result ≡ groups_at bytes.now place }
    {
        if bytes.len() < 16 {
            return Err(Fault::new(CMAP, FaultKind::PastEnd, place as usize));
        }
        if bytes.len() < 16 + 12 * be32(bytes, 12) as usize {
            return Err(Fault::new(CMAP, FaultKind::PastEnd, place as usize + 16));
        }
        Ok(SegmentedCoverage { bytes })
    }

    /// The first character of a group.
    fn start_char(&self, i: u32) -> u32
        requires { i < be32 self.now 12 }
        ensures { result ≡ start_char self.now i }
    {
        be32(self.bytes, 16 + 12 * i as usize)
    }

    /// The last character of a group.
    fn end_char(&self, i: u32) -> u32
        requires { i < be32 self.now 12 }
        ensures { result ≡ end_char self.now i }
    {
        be32(self.bytes, 20 + 12 * i as usize)
    }

    /// The glyph of the first character of a group.
    fn start_glyph(&self, i: u32) -> u32
        requires { i < be32 self.now 12 }
        ensures { result ≡ start_glyph self.now i }
    {
        be32(self.bytes, 24 + 12 * i as usize)
    }

    /// The group that a bisection finds for a character. Of two groups in the middle it looks at the lower one, as
    /// HarfBuzz does.
    fn group_of(&self, character: u32) -> Option<u32>
        ensures is { result ≡ group_of self.now character }
        ensures has { IfSome result (λ i. (i < be32 self.now 12) × (start_char self.now i ≤ character)) }
    {
        let mut from = 0;
        let mut to = be32(self.bytes, 12) as usize;
        while from < to {
            let middle = (from + (to - 1)) / 2;
            let start = self.start_char(middle as u32);
            let end = self.end_char(middle as u32);
            if character < start {
                to = middle;
            } else if end < character {
                from = middle + 1;
            } else {
                return Some(middle as u32);
            }
        }
        None
    }

    /// The number of groups.
    fn group_count(&self) -> u32
        ensures { result ≡ be32 self.now 12 }
    {
        be32(self.bytes, 12)
    }

    /// The group that a bisection finds for a character, and behind which characters from this one on it may find another
    /// one: up to there it takes the same way.
    fn group_until(&self, character: u32) -> (Option<u32>, u64)
        ensures same { (c : ℕ) → character ≤ c → c < result.1 → group_of self.now c ≡ result.0 }
        ensures some { character < result.1 }
        ensures has { IfSome result.0 (λ i. (i < be32 self.now 12) × (start_char self.now i ≤ character)) }
    {
        let mut from = 0;
        let mut to = self.group_count() as usize;
        let mut end: u64 = 0x1_0000_0000;
        while from < to {
            let middle = (from + (to - 1)) / 2;
            let first = self.start_char(middle as u32);
            let last = self.end_char(middle as u32);
            if character < first {
                to = middle;
                end = end.min(first as u64);
            } else if last < character {
                from = middle + 1;
            } else {
                return (Some(middle as u32), end.min(last as u64 + 1));
            }
        }
        (None, end)
    }

    /// The glyph of a character in a group that has it.
    fn glyph_in_group(&self, character: u32, i: u32) -> Option<u16>
        requires below { i < be32 self.now 12 }
        requires has { start_char self.now i ≤ character }
        ensures { result ≡ glyph_in_group self.now character i }
    {
        known_glyph(self.start_glyph(i) as u64 + (character - self.start_char(i)) as u64)
    }

    /// The glyph of a character, or `None` where it has none of 16 bits that is not 0. Its group is found by bisection.
    pub fn glyph(&self, character: char) -> Option<u16>
        ensures { result ≡ group_glyph self.now character }
    {
        let character = character as u32;
        match self.group_of(character) {
            Some(i) => self.glyph_in_group(character, i),
            None => None,
        }
    }

    /// The glyph of a character, and a number above it: where there is a glyph, the characters from this one on and
    /// below that number have those that follow it one by one, modulo 65,536.
    pub(crate) fn row_until(&self, character: char) -> (Option<u16>, u64)
        ensures is { result.0 ≡ group_glyph self.now character }
        ensures row { IfSome result.0 (λ glyph. (c : ℕ) → character ≤ c → c < result.1
            → group_glyph self.now c ≡ Some ((glyph + (c - character)) % 65536)) }
        ensures some { character < result.1 }
    {
        let character = character as u32;
        match self.group_until(character) {
            (Some(i), end) => match self.glyph_in_group(character, i) {
                Some(glyph) => (
                    Some(glyph),
                    end.min(character as u64 + 65536 - glyph as u64),
                ),
                None => (None, end),
            },
            (None, end) => (None, end),
        }
    }
}
