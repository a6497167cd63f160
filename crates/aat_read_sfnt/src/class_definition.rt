//! Classes of glyphs, in two formats.
ghost use Rattle.std.specs.Prelude.{◌≡◌, ℕ, ◌+◌, ◌*◌, ◌<◌, ◌≤◌, IfSome, length};
ghost use Rattle.aat_bytes.specs.Numbers.{be16};
ghost use Rattle.aat_read_sfnt.specs.ClassDefinition.{class_array_at, class_in_array, class_in_ranges, class_of, class_ranges_at, definition_of, fault_of, range_of};

use crate::tags::GDEF;
use aat_bytes::{Fault, FaultKind, be16, slice_from};
use std::marker::Model;

/// Classes of format 1: a class for each glyph of one range. A contract sees them as their bytes.
#[derive(Drop)]
pub struct ClassArray<'a> {
    bytes: &'a [u8],
}

impl<'a> Model for ClassArray<'a> {
    ghost use Rattle.std.specs.Prelude.{ℕ, List, ◌+◌, ◌*◌, ◌≤◌, length};
    ghost use Rattle.aat_bytes.specs.Numbers.{be16};

    ghost Value = { List ℕ };

    ghost view = { λ m. m.bytes.now };

    ghost invariant = { λ m. 6 + 2 * be16 m.bytes.now 4 ≤ length m.bytes.now };
}

impl<'a> ClassArray<'a> {
    /// The classes at the start of bytes, which stand at a place of the table.
    #[tactic(auto, unfolding(crate::specs::ClassDefinition::class_array_at))]
    fn read(bytes: &'a [u8], place: u16) -> Result<ClassArray<'a>, Fault>
        ensures { result ≡ class_array_at bytes.now place }
    {
        if bytes.len() < 6 {
            return Err(Fault::new(GDEF, FaultKind::PastEnd, place as usize));
        }
        if bytes.len() < 6 + 2 * be16(bytes, 4) as usize {
            return Err(Fault::new(GDEF, FaultKind::PastEnd, place as usize + 6));
        }
        Ok(ClassArray { bytes })
    }

    /// The class of a glyph, 0 where none is named.
    pub fn class(&self, glyph: u16) -> u16
        ensures { result ≡ class_in_array self.now glyph }
    {
        let glyph = glyph as usize;
        let first = be16(self.bytes, 2) as usize;
        if glyph < first || glyph >= first + be16(self.bytes, 4) as usize {
            return 0;
        }
        be16(self.bytes, 6 + 2 * (glyph - first))
    }
}

/// The range that a bisection finds for a glyph, if it finds one, and behind which glyphs from this one on it may find
/// another one: up to there it takes the same way. Of two ranges in the middle it looks at the lower one, as HarfBuzz
/// does.
fn range_until(bytes: &[u8], glyph: u16) -> (Option<u16>, u32)
    requires { 4 + 6 * be16 bytes.now 2 ≤ length bytes.now }
    ensures same { (g : ℕ) → glyph ≤ g → g < result.1 → range_of bytes.now g ≡ result.0 }
    ensures some { glyph < result.1 }
    ensures below { IfSome result.0 (λ i. i < be16 bytes.now 2) }
{
    let mut from = 0;
    let mut to = be16(bytes, 2) as usize;
    let mut end = 65536;
    while from < to {
        let middle = (from + (to - 1)) / 2;
        let first = be16(bytes, 4 + 6 * middle);
        let last = be16(bytes, 6 + 6 * middle);
        if glyph < first {
            to = middle;
            end = end.min(first as u32);
        } else if last < glyph {
            from = middle + 1;
        } else {
            return (Some(middle as u16), end.min(last as u32 + 1));
        }
    }
    (None, end)
}

/// Classes of format 2: a class for each of some ranges, which need not rise: a glyph has the class of the range that a
/// bisection finds for it. A contract sees them as their bytes.
#[derive(Drop)]
pub struct ClassRanges<'a> {
    bytes: &'a [u8],
}

impl<'a> Model for ClassRanges<'a> {
    ghost use Rattle.std.specs.Prelude.{ℕ, List, ◌+◌, ◌*◌, ◌≤◌, length};
    ghost use Rattle.aat_bytes.specs.Numbers.{be16};

    ghost Value = { List ℕ };

    ghost view = { λ m. m.bytes.now };

    ghost invariant = { λ m. 4 + 6 * be16 m.bytes.now 2 ≤ length m.bytes.now };
}

impl<'a> ClassRanges<'a> {
    /// The classes at the start of bytes, which stand at a place of the table.
    #[tactic(auto, unfolding(crate::specs::ClassDefinition::class_ranges_at))]
    fn read(bytes: &'a [u8], place: u16) -> Result<ClassRanges<'a>, Fault>
        ensures { result ≡ class_ranges_at bytes.now place }
    {
        if bytes.len() < 4 {
            return Err(Fault::new(GDEF, FaultKind::PastEnd, place as usize));
        }
        if bytes.len() < 4 + 6 * be16(bytes, 2) as usize {
            return Err(Fault::new(GDEF, FaultKind::PastEnd, place as usize + 4));
        }
        Ok(ClassRanges { bytes })
    }

    /// The class of a glyph, 0 where none is named. Its range is found by bisection.
    pub fn class(&self, glyph: u16) -> u16
        ensures { result ≡ class_in_ranges self.now glyph }
    {
        self.class_until(glyph).0
    }

    /// The class of a glyph, and behind which glyphs from this one on it may be another.
    fn class_until(&self, glyph: u16) -> (u16, u32)
        ensures same { (g : ℕ) → glyph ≤ g → g < result.1 → class_in_ranges self.now g ≡ result.0 }
        ensures some { glyph < result.1 }
    {
        match range_until(self.bytes, glyph) {
            (Some(i), end) => (be16(self.bytes, 8 + 6 * i as usize), end),
            (None, end) => (0, end),
        }
    }
}

/// Classes of glyphs.
#[derive(Drop)]
pub enum ClassDefinition<'a> {
    /// No glyph has a class.
    Empty,
    /// Format 1.
    Array(ClassArray<'a>),
    /// Format 2.
    Ranges(ClassRanges<'a>),
    /// No glyph has a class, by this fault.
    Faulty(Fault),
}

impl<'a> ClassDefinition<'a> {
    /// The definition at an offset of the table, or an empty one at offset 0.
    #[tactic(auto, unfolding(crate::specs::ClassDefinition::definition_of, crate::specs::ClassDefinition::definition_at))]
    pub(crate) fn read(gdef: &'a [u8], offset: u16) -> Result<ClassDefinition<'a>, Fault>
        ensures { result ≡ definition_of gdef.now offset }
    {
        if offset == 0 {
            return Ok(ClassDefinition::Empty);
        }
        let Some(bytes) = slice_from(gdef, offset as usize) else {
            return Err(Fault::new(GDEF, FaultKind::PastEnd, offset as usize));
        };
        if bytes.len() < 2 {
            return Err(Fault::new(GDEF, FaultKind::PastEnd, offset as usize));
        }
        match be16(bytes, 0) {
            1 => Ok(ClassDefinition::Array(ClassArray::read(bytes, offset)?)),
            2 => Ok(ClassDefinition::Ranges(ClassRanges::read(bytes, offset)?)),
            _ => Ok(ClassDefinition::Faulty(Fault::new(
                GDEF,
                FaultKind::UnknownFormat,
                offset as usize,
            ))),
        }
    }

    /// The fault by which no glyph has a class.
    pub(crate) fn fault(&self) -> Option<Fault>
        ensures { result ≡ fault_of self.now }
    {
        match self {
            ClassDefinition::Faulty(fault) => Some(*fault),
            ClassDefinition::Empty => None,
            ClassDefinition::Array(_) => None,
            ClassDefinition::Ranges(_) => None,
        }
    }

    /// The class of a glyph, 0 where none is named.
    pub fn class(&self, glyph: u16) -> u16
        ensures { result ≡ class_of self.now glyph }
    {
        match self {
            ClassDefinition::Empty => 0,
            ClassDefinition::Faulty(_) => 0,
            ClassDefinition::Array(array) => array.class(glyph),
            ClassDefinition::Ranges(ranges) => ranges.class(glyph),
        }
    }

    /// The class of a glyph, and behind which glyphs from this one on it may be another.
    pub(crate) fn class_until(&self, glyph: u16) -> (u16, u32)
        ensures same { (g : ℕ) → glyph ≤ g → g < result.1 → class_of self.now g ≡ result.0 }
        ensures some { glyph < result.1 }
    {
        match self {
            ClassDefinition::Empty => (0, 65536),
            ClassDefinition::Faulty(_) => (0, 65536),
            ClassDefinition::Array(array) => (array.class(glyph), glyph as u32 + 1),
            ClassDefinition::Ranges(ranges) => ranges.class_until(glyph),
        }
    }
}
