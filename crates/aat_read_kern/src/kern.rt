//! The kerning table from bytes.
ghost use Rattle.std.specs.Prelude.{◌≡◌, ◌∷◌, [], ◌++◌, ◌≤◌, length, vec_len, IfOk, OnOk};
ghost use Rattle.std.specs.List.{filter_map};
ghost use Rattle.aat_read_kern.specs.Kern.{kern_of, kerning_of, left_out_of, value_of_parts, value_of_subtables};
ghost use Rattle.aat_read_machine.specs.Within.{GivesAs, GivesWithin};

use crate::header::KernList;
use crate::subtables::{SubtableRead, subtable_at};
use aat_bytes::ReadError;
use aat_kerning_tables::{Kern, KernSubtable};
use aat_read_pairs::LeftOutSubtable;
use std::alloc::{AllocError, Global};
use std::marker::Model;

/// A kerning table that is read, and the subtables that are left out. A contract sees it as the record `KernValue`.
#[derive(Drop)]
pub struct KernRead {
    /// The table, with each subtable that can kern.
    pub kern: Kern,
    /// The subtables that are left out, in their order: those of a format that is not read with the table's header, and
    /// those of variations.
    pub left_out: Vec<LeftOutSubtable>,
}

impl Model for KernRead {
    ghost use Rattle.aat_read_kern.specs.Kern.{KernValue};

    ghost Value = { KernValue };

    ghost view = { λ m. record { subtables = m.kern; left_out = m.left_out.items } };
}

/// Keeps a subtable among those that kern, or among those that are left out.
fn keep(
    read: SubtableRead,
    kerning: &mut Vec<KernSubtable>,
    left_out: &mut Vec<LeftOutSubtable>,
) -> Result<(), AllocError>
    ensures kerning { OnOk result (kerning.new.items ≡ kerning.old.items ++ filter_map kerning_of (read ∷ [])) }
    ensures left_out { OnOk result (left_out.new.items ≡ left_out.old.items ++ filter_map left_out_of (read ∷ [])) }
{
    match read {
        SubtableRead::Kerns(subtable) => kerning.push(subtable)?,
        SubtableRead::LeftOut(subtable) => left_out.push(subtable)?,
    }
    Ok(())
}

/// The subtables of a list that kern, and those that are left out.
fn subtables(
    alloc: Global,
    bytes: &[u8],
    list: KernList,
) -> Result<(Vec<KernSubtable>, Vec<LeftOutSubtable>), ReadError>
    requires { list.place ≤ length bytes.now }
    ensures gives { GivesAs value_of_parts result (value_of_subtables bytes.now list) }
    ensures few { IfOk result (λ parts. vec_len parts.0 ≤ list.count) }
{
    let mut kerning = Vec::new(alloc);
    let mut left_out = Vec::new(alloc);
    let mut place = list.place;
    for number in 0..list.count {
        let (read, end) = subtable_at(alloc, bytes, list, place, list.count - number)?;
        keep(read, &mut kerning, &mut left_out)?;
        place = end;
    }
    Ok((kerning, left_out))
}

/// Reads the kerning table. `bytes` is the whole table. Version 0 has OpenType's headers, and version 1, of which the
/// minor half is passed, Apple's. A subtable reaches to its end by its length, the last one to the end of the table.
/// Formats are 0 and 2, and with Apple's headers 1 and 3. A subtable of another format is left out, and with Apple's
/// headers so is one whose coverage has the bit for variations: it is no fault, nothing behind its header is looked at,
/// and `left_out` tells it. Of the coverage of others the bits for vertical or horizontal text and for values across
/// the line are read, and `variable` is false.
///
/// The first fault in this order, of the table `kern`, with its place from the start of the table: 1, `PastEnd`, 4
/// bytes that are not there, at 0; 2, `UnknownFormat`, another version, at 0; of version 1 also 1, 8 bytes that are not
/// there, at 0, and more than 65,535 subtables, at their number. Then for each subtable: 1, its header of 6 or 8 bytes
/// that is not there, at its place; 3, `ShortLength`, a length below that of the header, and 1, one that reaches past
/// the end, both at the length, also of the last one; then, where it is not left out, those of its format: of
/// `read_kern_pairs`, `read_kern_machine`, `read_kern_classes` and `read_kern_indexes`. `OutOfMemory` may come before
/// any of these is met.
///
/// Apple's TrueType Reference Manual, "The 'kern' table".
pub fn read_kern(alloc: Global, bytes: &[u8]) -> Result<KernRead, ReadError>
    ensures { GivesWithin result (kern_of bytes.now) }
{
    let list = KernList::read(bytes)?;
    let (kerning, left_out) = subtables(alloc, bytes, list)?;
    match Kern::new(kerning) {
        Ok(kern) => Ok(KernRead { kern, left_out }),
        Err(_) => unreachable!(),
    }
}
