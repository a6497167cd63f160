//! Where the charstrings of a font and their subroutines stand.
ghost use Rattle.std.specs.Prelude.{◌≡◌, ◌+◌, ◌*◌, ◌<◌, ◌≤◌, IfOk, IfSome, length};
ghost use Rattle.aat_read_charstrings.specs.FontDicts.{font_dict, font_number, index_of_entry, local_subroutines, no_objects, place_of, private_span, range_number, subroutines_of};
ghost use Rattle.aat_read_charstrings.specs.Indexes.{IsInside, IsWhole};

use crate::dict::entry_of;
use crate::index::{Index, Span, fault_of, has, index_at, object_at, past};
use aat_bytes::{Fault, FaultKind, be16};

/// The key of the charstrings in a Top DICT.
pub(crate) const CHAR_STRINGS: u16 = 17;
/// The key of the size and the place of a Private DICT.
pub(crate) const PRIVATE: u16 = 18;
/// The key of the local subroutines in a Private DICT.
pub(crate) const SUBRS: u16 = 19;
/// The key of the type of charstrings in a Top DICT.
pub(crate) const CHARSTRING_TYPE: u16 = 3078;
/// The key of the Font DICTs in a Top DICT.
pub(crate) const FD_ARRAY: u16 = 3108;
/// The key of what says which glyph has which Font DICT, in a Top DICT.
pub(crate) const FD_SELECT: u16 = 3109;

/// The place of an operand. The fault of one below 0 is that of its DICT.
pub(crate) fn place_of(dict: Span, operand: i32) -> Result<usize, Fault>
    ensures { result ≡ place_of dict operand }
{
    if operand < 0 {
        return Err(past(dict.start));
    }
    Ok(operand.unsigned_abs() as usize)
}

/// The INDEX whose place is the operand of a key.
pub(crate) fn index_of_entry(bytes: &[u8], dict: Span, key: u16) -> Result<Index, Fault>
    requires { IsInside bytes.now dict }
    ensures index { result ≡ index_of_entry bytes.now dict key }
    ensures whole { IfOk result (λ index. IsWhole bytes.now index) }
{
    match entry_of(bytes, dict, key)? {
        Some(operands) => index_at(bytes, place_of(dict, operands.last)?),
        None => Err(fault_of(FaultKind::Missing, dict.start)),
    }
}

/// The number of the range of a glyph among ranges of glyphs.
fn range_number(bytes: &[u8], place: usize, count: u16, glyph: u16) -> Option<u16>
    requires { place + 3 + 3 * count + 2 ≤ length bytes.now }
    ensures range { result ≡ range_number bytes.now place count glyph }
    ensures below { IfSome result (λ range. range < count) }
{
    (0..count).find(|range| glyph < be16(bytes, place + 6 + 3 * *range as usize))
}

/// The number of the Font DICT of a glyph.
fn font_number(bytes: &[u8], place: usize, glyph: u16) -> Result<u8, Fault>
    ensures { result ≡ font_number bytes.now place glyph }
{
    if !has(bytes, place, 3) {
        return Err(past(place));
    }
    if bytes[place] == 0 {
        if !has(bytes, place + 1, glyph as usize + 1) {
            return Err(past(place + 1));
        }
        return Ok(bytes[place + 1 + glyph as usize]);
    }
    if bytes[place] != 3 {
        return Err(fault_of(FaultKind::UnknownFormat, place));
    }
    let count = be16(bytes, place + 1);
    if !has(bytes, place + 3, 3 * count as usize + 2) {
        return Err(past(place + 3));
    }
    match range_number(bytes, place, count, glyph) {
        Some(range) => Ok(bytes[place + 5 + 3 * range as usize]),
        None => Err(fault_of(FaultKind::Missing, place)),
    }
}

/// The Font DICT of a glyph: that of the top where there is but one.
fn font_dict(bytes: &[u8], top: Span, glyph: u16) -> Result<Span, Fault>
    requires { IsInside bytes.now top }
    ensures dict { result ≡ font_dict bytes.now top glyph }
    ensures inside { IfOk result (λ dict. IsInside bytes.now dict) }
{
    let Some(operands) = entry_of(bytes, top, FD_SELECT)? else {
        return Ok(top);
    };
    let fonts = index_of_entry(bytes, top, FD_ARRAY)?;
    let number = font_number(bytes, place_of(top, operands.last)?, glyph)?;
    object_at(bytes, fonts, number as u32)
}

/// The Private DICT of a Font DICT, if it has one.
fn private_span(bytes: &[u8], dict: Span) -> Result<Option<Span>, Fault>
    requires { IsInside bytes.now dict }
    ensures span { result ≡ private_span bytes.now dict }
    ensures inside { IfOk result (λ private. IfSome private (λ span. IsInside bytes.now span)) }
{
    let Some(operands) = entry_of(bytes, dict, PRIVATE)? else {
        return Ok(None);
    };
    let size = place_of(dict, operands.before)?;
    let start = place_of(dict, operands.last)?;
    if !has(bytes, start, size) {
        return Err(past(start));
    }
    Ok(Some(Span {
        start,
        end: start + size,
    }))
}

/// The INDEX without objects behind another one's header.
fn no_objects(bytes: &[u8], beside: Index) -> Index
    requires { IsWhole bytes.now beside }
    ensures index { result ≡ no_objects beside }
    ensures whole { IsWhole bytes.now result }
{
    let _ = bytes;
    Index {
        offsets: beside.offsets,
        count: 0,
        size: 0,
    }
}

/// The local subroutines of a Private DICT, from whose start their place counts.
fn subroutines_of(bytes: &[u8], globals: Index, private: Span) -> Result<Index, Fault>
    requires globals { IsWhole bytes.now globals }
    requires private { IsInside bytes.now private }
    ensures index { result ≡ subroutines_of bytes.now globals private }
    ensures whole { IfOk result (λ index. IsWhole bytes.now index) }
{
    match entry_of(bytes, private, SUBRS)? {
        Some(operands) => index_at(bytes, private.start + place_of(private, operands.last)?),
        None => Ok(no_objects(bytes, globals)),
    }
}

/// The local subroutines of a glyph.
pub(crate) fn local_subroutines(
    bytes: &[u8],
    globals: Index,
    top: Span,
    glyph: u16,
) -> Result<Index, Fault>
    requires globals { IsWhole bytes.now globals }
    requires top { IsInside bytes.now top }
    ensures index { result ≡ local_subroutines bytes.now globals top glyph }
    ensures whole { IfOk result (λ index. IsWhole bytes.now index) }
{
    let dict = font_dict(bytes, top, glyph)?;
    match private_span(bytes, dict)? {
        Some(private) => subroutines_of(bytes, globals, private),
        None => Ok(no_objects(bytes, globals)),
    }
}
