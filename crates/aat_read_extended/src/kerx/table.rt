//! The extended kerning table from bytes.
ghost use Rattle.std.specs.Prelude.{◌≡◌, ◌∷◌, [], ◌++◌, ◌≤◌, length, vec_len, IfOk, OnOk};
ghost use Rattle.std.specs.List.{filter_map};
ghost use Rattle.aat_read_machine.specs.Within.{GivesAs, GivesWithin};
ghost use Rattle.aat_read_extended.specs.kerx.KerxTables.{kerning_of, kerx_of, left_out_of, value_of_parts, value_of_subtables};

use crate::kerx::subtables::{SubtableRead, subtable_at};
use aat_bytes::{Fault, FaultKind, ReadError, be16, be32};
use aat_kerning_tables::{Kerx, KerxSubtable};
use aat_read_pairs::{KERX, LeftOutSubtable};
use std::alloc::{AllocError, Global};
use std::marker::Model;

/// An extended kerning table that is read, and the subtables that are left out. A contract sees it as the record
/// `KerxValue`.
#[derive(Drop)]
pub struct KerxRead {
    /// The table, with each subtable that can kern.
    pub kerx: Kerx,
    /// The subtables that are left out, in their order: those of variations, those of an unknown format, those of
    /// format 4 by control points or coordinates, and those of format 6 with a value that 16 bits do not have.
    pub left_out: Vec<LeftOutSubtable>,
}

impl Model for KerxRead {
    ghost use Rattle.aat_read_extended.specs.kerx.KerxTables.{KerxValue};

    ghost Value = { KerxValue };

    ghost view = { λ m. record { subtables = m.kerx; left_out = m.left_out.items } };
}

/// Keeps a subtable among those that kern, or among those that are left out.
fn keep(
    read: SubtableRead,
    kerning: &mut Vec<KerxSubtable>,
    left_out: &mut Vec<LeftOutSubtable>,
) -> Result<(), AllocError>
    ensures kerning { OnOk result (kerning.new.items ≡ kerning.old.items ++ filter_map kerning_of (read ∷ [])) }
    ensures left_out { OnOk result (left_out.new.items ≡ left_out.old.items ++ filter_map left_out_of (read ∷ [])) }
{
    match read {
        SubtableRead::Kerns(subtable) => kerning.push(subtable)?,
        SubtableRead::LeftOut(subtable) => left_out.push(subtable)?,
    }
    Ok(())
}

/// The subtables that kern, and those that are left out, of so many behind a header of 8 bytes.
fn subtables(
    alloc: Global,
    bytes: &[u8],
    glyph_count: u16,
    count: u32,
) -> Result<(Vec<KerxSubtable>, Vec<LeftOutSubtable>), ReadError>
    requires { 8 ≤ length bytes.now }
    ensures gives { GivesAs value_of_parts result (value_of_subtables bytes.now glyph_count count) }
    ensures few { IfOk result (λ parts. vec_len parts.0 ≤ count) }
{
    let mut kerning = Vec::new(alloc);
    let mut left_out = Vec::new(alloc);
    let mut place = 8;
    for number in 0..count {
        let (read, end) = subtable_at(alloc, bytes, glyph_count, count, number, place)?;
        keep(read, &mut kerning, &mut left_out)?;
        place = end;
    }
    Ok((kerning, left_out))
}

/// Reads the extended kerning table of a font of so many glyphs. Its version is 2, 3 or 4. `bytes` is the whole table.
/// What version 3 and 4 have behind the subtables, the glyphs that each may touch, is passed.
///
/// A subtable stands inside its length, and its lists end there; the last one may reach to the end of the table. A
/// subtable of an unknown format is left out, and so is one whose coverage has the bit for variations, one of format 4
/// with another action type than 1, and one of format 6 with a value that 16 bits do not have: it is no fault, nothing
/// behind what says so is looked at, and `left_out` tells it. So `variable` is false in each subtable that is read.
///
/// The first fault in this order, of the table `kerx`, with its place from the start of the table: 1, `PastEnd`, a
/// header of 8 bytes that is not there, at 0; 2, `UnknownFormat`, another version, at 0; 1, more than 65,535 subtables,
/// at 4. Then for each subtable: 1, a header of 12 bytes that is not there, at its place; 3, `ShortLength`, a length
/// below that of the header, and 1, one that reaches past the end, both at its place; but for one of variations, of
/// formats 0, 2 and 6 the faults of `read_kerx_pairs`, `read_kerx_classes`, `read_kerx_arrays` and
/// `read_kerx_long_arrays`, and of formats 1 and 4: 1, a header of the machine of 20 bytes that is not there, at its
/// place behind that of the subtable, and the faults of `read_machine`. `OutOfMemory` may come before any of these is
/// met.
///
/// Apple's TrueType Reference Manual, "The 'kerx' table".
#[tactic(auto, unfolding(crate::specs::kerx::KerxTables::kerx_of))]
pub fn read_kerx(alloc: Global, bytes: &[u8], glyph_count: u16) -> Result<KerxRead, ReadError>
    ensures { GivesWithin result (kerx_of bytes.now glyph_count) }
{
    if bytes.len() < 8 {
        return Err(ReadError::Fault(Fault::new(KERX, FaultKind::PastEnd, 0)));
    }
    let version = be16(bytes, 0);
    if version != 2 && version != 3 && version != 4 {
        return Err(ReadError::Fault(Fault::new(KERX, FaultKind::UnknownFormat, 0)));
    }
    let count = be32(bytes, 4);
    if count > 65535 {
        return Err(ReadError::Fault(Fault::new(KERX, FaultKind::PastEnd, 4)));
    }
    let (kerning, left_out) = subtables(alloc, bytes, glyph_count, count)?;
    match Kerx::new(kerning) {
        Ok(kerx) => Ok(KerxRead { kerx, left_out }),
        Err(_) => unreachable!(),
    }
}
