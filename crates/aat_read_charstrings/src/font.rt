//! The charstrings of a font.
ghost use Rattle.std.specs.Prelude.{◌≡◌, IfOk, MatchResult};
ghost use Rattle.aat_read_charstrings.specs.Fonts.{index_behind, name_index, type_checked};
ghost use Rattle.aat_read_charstrings.specs.Indexes.{IsInside, IsWhole};

use crate::dict::entry_of;
use crate::font_dict::{CHAR_STRINGS, CHARSTRING_TYPE, index_of_entry, local_subroutines};
use crate::index::{Index, Span, fault_of, has, index_at, index_end, object_at, past};
use crate::machine::{Program, drawn_glyph};
use crate::path::CubicSegment;
use aat_bytes::{Fault, FaultKind, ReadError};
use std::alloc::Allocator;
use std::marker::Model;

/// The charstrings of a font. A contract sees them as the record `CharStringTables`.
///
/// Adobe Technical Notes 5176 and 5177. OpenType, "CFF - Compact Font Format Table".
#[derive(Drop)]
pub struct CharStrings<'a> {
    cff: &'a [u8],
    top: Span,
    charstrings: Index,
    globals: Index,
}

impl<'a> Model for CharStrings<'a> {
    ghost use Rattle.aat_read_charstrings.specs.Fonts.{CharStringTables};
    ghost use Rattle.aat_read_charstrings.specs.Indexes.{IsInside, IsWhole};

    ghost Value = { CharStringTables };

    ghost view = { λ m. record { cff = m.cff.now; top = m.top; charstrings = m.charstrings; globals = m.globals } };

    ghost invariant = { λ m. IsInside m.cff.now m.top × IsWhole m.cff.now m.charstrings × IsWhole m.cff.now m.globals };
}

/// The INDEX behind another one.
fn index_behind(bytes: &[u8], before: Index) -> Result<Index, Fault>
    requires { IsWhole bytes.now before }
    ensures index { result ≡ index_behind bytes.now before }
    ensures whole { IfOk result (λ index. IsWhole bytes.now index) }
{
    index_at(bytes, index_end(bytes, before))
}

/// The INDEX of the names of the fonts, behind the header.
fn name_index(bytes: &[u8]) -> Result<Index, Fault>
    ensures index { result ≡ name_index bytes.now }
    ensures whole { IfOk result (λ index. IsWhole bytes.now index) }
{
    if !has(bytes, 0, 4) {
        return Err(past(0));
    }
    if bytes[0] != 1 {
        return Err(fault_of(FaultKind::UnknownFormat, 0));
    }
    index_at(bytes, bytes[2] as usize)
}

/// Refuses a type of charstrings that is not 2.
fn type_fault(bytes: &[u8], top: Span) -> Result<(), Fault>
    requires { IsInside bytes.now top }
    ensures { result ≡ type_checked bytes.now top }
{
    match entry_of(bytes, top, CHARSTRING_TYPE)? {
        Some(operands) => {
            if operands.last == 2 {
                Ok(())
            } else {
                Err(fault_of(FaultKind::UnknownFormat, top.start))
            }
        }
        None => Ok(()),
    }
}

impl<'a> CharStrings<'a> {
    ghost use Rattle.aat_read_charstrings.specs.Fonts.{charstrings_of, outline_of};
    ghost use Rattle.aat_read_charstrings.specs.Reading.{Refuses};

    /// The charstrings of a table `CFF `.
    ///
    /// The first fault in this order: 1, `PastEnd`, at 0, a header of 4 bytes that is not there; 2, `UnknownFormat`, at
    /// 0, a version that is not 1; what is wrong with the INDEXes of names, of Top DICTs, of strings and of global
    /// subroutines, each behind the one before; that the first Top DICT is not there, 4, `Missing`, or 1, or is not
    /// whole, 1, at its key or operand; 2, at its start, a type of charstrings that is not 2; 4, at its start, that it
    /// has no charstrings; what is wrong with the INDEX of these.
    pub fn new(cff: &'a [u8]) -> Result<CharStrings<'a>, Fault>
        ensures { result ≡ charstrings_of cff.now }
    {
        let names = name_index(cff)?;
        let tops = index_behind(cff, names)?;
        let strings = index_behind(cff, tops)?;
        let globals = index_behind(cff, strings)?;
        let top = object_at(cff, tops, 0)?;
        type_fault(cff, top)?;
        let charstrings = index_of_entry(cff, top, CHAR_STRINGS)?;
        Ok(CharStrings {
            cff,
            top,
            charstrings,
            globals,
        })
    }

    /// What is drawn of a glyph: its contours, one behind the other, in 65536ths of a unit of the font.
    ///
    /// Hints and widths are passed over. A coordinate of more than 32 bits counts as the greatest or the least that they
    /// hold. A contour begins at its first line or curve, and ends at the next move or the end of the glyph. What is left
    /// of the arguments of an operator behind its last whole line or curve is left out.
    ///
    /// The first fault in this order, each of the table `CFF `: 4, `Missing`, at the offsets of charstrings, a glyph that
    /// the font does not have; 1, `PastEnd`, at an offset, a charstring that lies outside; what is wrong with the
    /// FDSelect, the FDArray and the Font DICT of a glyph of a CID font, the Private DICT and the local subroutines; and
    /// then, at the number or operator: 1, one that is not there as a whole, a number where the stack has 48, an operator
    /// whose arguments are not there, more than 96 stems, a call within 10 others; 4, a return from no call; at the
    /// offsets of subroutines 4, one that is not there, and at an offset 1, one that lies outside; 2, `UnknownFormat`, an
    /// operator that is not read (arithmetic, storage and conditional operators, and an `endchar` of two glyphs); 1, at
    /// the start of the charstring, more than 200,000 numbers and operators. `OutOfMemory` comes where the bytes have no
    /// fault, or before their first fault is found.
    pub fn outline<A: Allocator + Copy>(
        &self,
        alloc: A,
        glyph: u16,
    ) -> Result<Vec<CubicSegment, A>, ReadError>
        ensures { MatchResult result
            (λ segments. outline_of self.now glyph ≡ Ok segments.items)
            (λ error. Refuses (outline_of self.now glyph) error) }
    {
        let at = object_at(self.cff, self.charstrings, glyph as u32)?;
        let locals = local_subroutines(self.cff, self.globals, self.top, glyph)?;
        let program = Program {
            cff: self.cff,
            globals: self.globals,
            locals,
        };
        drawn_glyph(alloc, &program, at)
    }
}
