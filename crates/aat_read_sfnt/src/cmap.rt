//! The character map.
ghost use Rattle.std.specs.Prelude.{◌≡◌, ◌+◌, ◌*◌, ◌-◌, ◌%◌, ◌<◌, ◌≤◌, ◌==◌, ℕ, IfSome, Some, length};
ghost use Rattle.aat_bytes.specs.Numbers.{be16, be32};
ghost use Rattle.aat_read_sfnt.specs.CharacterSets.{mac_glyph, symbol_glyph};
ghost use Rattle.aat_read_sfnt.specs.Characters.{best_encoding, cmap_of, first_encoding, glyph_of, map_of, mapped_glyph, record_place, record_with, sound_encoding, subtable_at, subtable_with};

pub mod character_set;
pub mod segment_mapping;
pub mod segmented_coverage;
pub mod short_tables;

use crate::tags::CMAP;
use aat_bytes::{Fault, FaultKind, be16, be32, slice_from};
use character_set::{CharacterSet, mac_roman_code, private_symbol, set_of};
use segment_mapping::SegmentMapping;
use segmented_coverage::SegmentedCoverage;
use short_tables::{ByteEncoding, TrimmedTable};

/// Platforms and encodings in the order in which they are taken.
const ENCODINGS: [u32; 10] = [0x30000, 0x3000A, 6, 4, 0x30001, 3, 2, 1, 0, 0x10000];

/// A subtable of characters, by its format.
///
/// Apple's TrueType Reference Manual, "The 'cmap' table".
#[derive(Drop)]
pub enum Cmap<'a> {
    /// Format 0.
    ByteEncoding(ByteEncoding<'a>),
    /// Format 4.
    SegmentMapping(SegmentMapping<'a>),
    /// Format 6.
    TrimmedTable(TrimmedTable<'a>),
    /// Format 12.
    SegmentedCoverage(SegmentedCoverage<'a>),
}

/// The map of characters: the subtable that is taken, and under which numbers it has them.
///
/// Apple's TrueType Reference Manual, "The 'cmap' table".
#[derive(Drop)]
pub struct CharacterMap<'a> {
    /// The subtable.
    pub subtable: Cmap<'a>,
    /// Under which numbers it has characters.
    pub character_set: CharacterSet,
}

/// Whether the record at an index has a platform and encoding.
fn has_encoding(cmap: &[u8], index: u16, encoding: u32) -> bool
    requires whole { 4 + 8 * be16 cmap.now 2 ≤ length cmap.now }
    requires below { index < be16 cmap.now 2 }
    ensures { result ≡ (be32 cmap.now (record_place index) == encoding) }
{
    be32(cmap, 4 + 8 * index as usize) == encoding
}

/// The first record of a platform and encoding.
#[tactic(auto, unfolding(crate::specs::Characters::record_with))]
fn record_with(cmap: &[u8], encoding: u32) -> Option<u16>
    requires { 4 + 8 * be16 cmap.now 2 ≤ length cmap.now }
    ensures first { result ≡ record_with cmap.now encoding }
    ensures below { IfSome result (λ i. i < be16 cmap.now 2) }
{
    (0..be16(cmap, 2)).find(|index| has_encoding(cmap, *index, encoding))
}

/// The first of some encodings that has a record.
#[tactic(auto, unfolding(crate::specs::Characters::first_encoding))]
fn first_encoding(cmap: &[u8], among: &[u32]) -> Option<u32>
    requires { 4 + 8 * be16 cmap.now 2 ≤ length cmap.now }
    ensures { result ≡ first_encoding cmap.now among.now }
{
    among
        .iter()
        .copied()
        .find(|encoding| record_with(cmap, *encoding).is_some())
}

/// The subtable at the start of bytes, which stand at a place of the table.
#[tactic(auto, unfolding(crate::specs::Characters::subtable_at))]
fn subtable_at(bytes: &[u8], place: u32) -> Result<Cmap<'_>, Fault>
    ensures { result ≡ subtable_at bytes.now place }
{
    if bytes.len() < 2 {
        return Err(Fault::new(CMAP, FaultKind::PastEnd, place as usize));
    }
    match be16(bytes, 0) {
        0 => Ok(Cmap::ByteEncoding(ByteEncoding::read(bytes, place)?)),
        4 => Ok(Cmap::SegmentMapping(SegmentMapping::read(bytes, place)?)),
        6 => Ok(Cmap::TrimmedTable(TrimmedTable::read(bytes, place)?)),
        12 => Ok(Cmap::SegmentedCoverage(SegmentedCoverage::read(bytes, place)?)),
        _ => Err(Fault::new(CMAP, FaultKind::UnknownFormat, place as usize)),
    }
}

/// The subtable of a platform and encoding.
#[tactic(auto, unfolding(crate::specs::Characters::subtable_of))]
fn subtable_with(cmap: &[u8], encoding: u32) -> Result<Cmap<'_>, Fault>
    requires { 4 + 8 * be16 cmap.now 2 ≤ length cmap.now }
    ensures { result ≡ subtable_with cmap.now encoding }
{
    let Some(index) = record_with(cmap, encoding) else {
        return Err(Fault::new(CMAP, FaultKind::Missing, 4));
    };
    let place = be32(cmap, 4 + 8 * index as usize + 4);
    match slice_from(cmap, place as usize) {
        Some(subtable) => subtable_at(subtable, place),
        None => Err(Fault::new(CMAP, FaultKind::PastEnd, place as usize)),
    }
}

/// The first of some encodings whose subtable has no fault.
#[tactic(auto, unfolding(crate::specs::Characters::sound_encoding))]
fn sound_encoding(cmap: &[u8], among: &[u32]) -> Option<u32>
    requires { 4 + 8 * be16 cmap.now 2 ≤ length cmap.now }
    ensures { result ≡ sound_encoding cmap.now among.now }
{
    among
        .iter()
        .copied()
        .find(|encoding| subtable_with(cmap, *encoding).is_ok())
}

/// The platform and encoding that is taken. HarfBuzz 6.0.0 too goes on to the next one where a subtable has a fault;
/// 12.3.2 drops the table.
fn best_encoding(cmap: &[u8]) -> Option<u32>
    requires { 4 + 8 * be16 cmap.now 2 ≤ length cmap.now }
    ensures { result ≡ best_encoding cmap.now }
{
    match sound_encoding(cmap, &ENCODINGS) {
        Some(encoding) => Some(encoding),
        None => first_encoding(cmap, &ENCODINGS),
    }
}

/// The map of the platform and encoding that is taken.
fn best_map(cmap: &[u8]) -> Result<CharacterMap<'_>, Fault>
    requires { 4 + 8 * be16 cmap.now 2 ≤ length cmap.now }
    ensures { result ≡ map_of cmap.now (best_encoding cmap.now) }
{
    match best_encoding(cmap) {
        Some(encoding) => Ok(CharacterMap {
            subtable: subtable_with(cmap, encoding)?,
            character_set: set_of(encoding),
        }),
        None => Err(Fault::new(CMAP, FaultKind::Missing, 4)),
    }
}

impl<'a> Cmap<'a> {
    /// The glyph of a number, or `None` where it has none that is not 0.
    pub fn glyph(&self, character: char) -> Option<u16>
        ensures { result ≡ glyph_of self.now character }
    {
        match self {
            Cmap::ByteEncoding(subtable) => subtable.glyph(character),
            Cmap::SegmentMapping(subtable) => subtable.glyph(character),
            Cmap::TrimmedTable(subtable) => subtable.glyph(character),
            Cmap::SegmentedCoverage(subtable) => subtable.glyph(character),
        }
    }

    /// The glyph of a number, and a number above it: where there is a glyph, the numbers from this one on and below
    /// that one have those that follow it one by one, modulo 65,536. In another format than 12 it is the next number.
    fn row_until(&self, character: char) -> (Option<u16>, u64)
        ensures is { result.0 ≡ glyph_of self.now character }
        ensures row { IfSome result.0 (λ glyph. (c : ℕ) → character ≤ c → c < result.1
            → glyph_of self.now c ≡ Some ((glyph + (c - character)) % 65536)) }
        ensures some { character < result.1 }
    {
        match self {
            Cmap::SegmentedCoverage(subtable) => subtable.row_until(character),
            _ => (self.glyph(character), character as u64 + 1),
        }
    }
}

impl<'a> CharacterMap<'a> {
    /// The map of the table `cmap`.
    ///
    /// It is that of the first platform and encoding whose subtable has no fault.
    ///
    /// The first fault in this order: 1, `PastEnd`, a header of 4 bytes that is not there; 2, `UnknownFormat`, a
    /// version that is not 0; 1, records that are not there; 4, `Missing`, no record of a platform and encoding that
    /// is read; and where each of their subtables has a fault, of the first one 1, a field that is not there, 2,
    /// another format than 0, 4, 6 and 12, and 3, `ShortLength`, a length of format 4 that does not hold its lists.
    #[tactic(auto, unfolding(crate::specs::Characters::cmap_of))]
    pub fn read(cmap: &'a [u8]) -> Result<CharacterMap<'a>, Fault>
        ensures { result ≡ cmap_of cmap.now }
    {
        if cmap.len() < 4 {
            return Err(Fault::new(CMAP, FaultKind::PastEnd, 0));
        }
        if be16(cmap, 0) != 0 {
            return Err(Fault::new(CMAP, FaultKind::UnknownFormat, 0));
        }
        if cmap.len() < 4 + 8 * be16(cmap, 2) as usize {
            return Err(Fault::new(CMAP, FaultKind::PastEnd, 4));
        }
        best_map(cmap)
    }

    /// The glyph of a character where the subtable has symbols.
    fn symbol_glyph(&self, character: char) -> Option<u16>
        ensures { result ≡ symbol_glyph (glyph_of self.now.subtable) character }
    {
        if let Some(glyph) = self.subtable.glyph(character) {
            return Some(glyph);
        }
        match private_symbol(character) {
            Some(other) => self.subtable.glyph(other),
            None => None,
        }
    }

    /// The glyph of a character where the subtable is of the Macintosh.
    fn mac_glyph(&self, character: char) -> Option<u16>
        ensures { result ≡ mac_glyph (glyph_of self.now.subtable) character }
    {
        if character < '\u{80}' {
            return self.subtable.glyph(character);
        }
        match mac_roman_code(character) {
            Some(code) => self.subtable.glyph(code),
            None => None,
        }
    }

    /// The glyph of a character, or `None` where it has none that is not 0.
    pub fn glyph(&self, character: char) -> Option<u16>
        ensures { result ≡ mapped_glyph self.now character }
    {
        match self.character_set {
            CharacterSet::Unicode => self.subtable.glyph(character),
            CharacterSet::Symbol => self.symbol_glyph(character),
            CharacterSet::MacRoman => self.mac_glyph(character),
        }
    }

    /// The glyph of a character, and a number above it: where there is a glyph, the characters from this one on and
    /// below that number have those that follow it one by one, modulo 65,536. For who asks for those of a row of
    /// characters.
    pub fn row_until(&self, character: char) -> (Option<u16>, u64)
        ensures is { result.0 ≡ mapped_glyph self.now character }
        ensures row { IfSome result.0 (λ glyph. (c : ℕ) → character ≤ c → c < result.1
            → mapped_glyph self.now c ≡ Some ((glyph + (c - character)) % 65536)) }
        ensures some { character < result.1 }
    {
        match self.character_set {
            CharacterSet::Unicode => self.subtable.row_until(character),
            _ => (self.glyph(character), character as u64 + 1),
        }
    }
}
