//! What a subtable of `morx` does, to bytes.
ghost use Rattle.std.specs.Prelude.{◌≡◌};
ghost use Rattle.aat_write_machine.specs.Lookups.{lookup_written};
ghost use Rattle.aat_write_machine.specs.MorxWriteErrors.{Writes, of_lookup};
ghost use Rattle.aat_write_machine.specs.SubtableKinds.{kind_number, kind_written};

use crate::contextual::write_contextual;
use crate::error::MorxWriteError;
use crate::lists::{write_insertion, write_ligature};
use crate::lookup_bytes::lookup_bytes;
use crate::machine::write_machine;
use aat_lookup::Lookup;
use aat_machine_tables::SubtableKind;
use std::alloc::Global;

/// The number of a kind of subtables: 0 rearrangement, 1 contextual, 2 ligature, 4 noncontextual and 5 insertion.
///
/// Apple's TrueType Reference Manual, "The 'morx' table", metamorphosis subtables.
pub fn kind_number(kind: &SubtableKind) -> u8
    ensures { result ≡ kind_number kind.now }
{
    match kind {
        SubtableKind::Rearrangement(_) => 0,
        SubtableKind::Contextual(_) => 1,
        SubtableKind::Ligature(_) => 2,
        SubtableKind::NonContextual(_) => 4,
        SubtableKind::Insertion(_) => 5,
    }
}

/// Writes a noncontextual subtable behind its header of 12 bytes: the lookup of the values of glyphs, in format 6.
///
/// Refused in this order: 6, `NotRising`, with the place of the first pair that is not above the one before it; 7,
/// `TooManyPairs`, more than 65,534 pairs. 11, `OutOfMemory`, may come before any of these is met.
///
/// The reader reads the pairs again, at any place of a table. Apple's TrueType Reference Manual, "The 'morx' table",
/// noncontextual glyph substitution.
pub fn write_noncontextual(alloc: Global, lookup: &Lookup) -> Result<Vec<u8>, MorxWriteError>
    ensures { Writes result (of_lookup (lookup_written lookup.now)) }
{
    lookup_bytes(alloc, lookup)
}

/// Writes what a subtable of `morx` does, behind its header of 12 bytes, by its kind: `write_machine` for a
/// rearrangement, `write_contextual`, `write_ligature`, `write_noncontextual` or `write_insertion`, with their errors.
///
/// The reader reads the same again, at any place of a table and whatever stands behind it: the lists of a ligature or
/// an insertion subtable, which have no length, begin with those that were written. Apple's TrueType Reference Manual,
/// "The 'morx' table", metamorphosis subtables.
pub fn write_subtable_kind(alloc: Global, kind: &SubtableKind) -> Result<Vec<u8>, MorxWriteError>
    ensures { Writes result (kind_written kind.now) }
{
    match kind {
        SubtableKind::Rearrangement(machine) => write_machine(alloc, machine),
        SubtableKind::Contextual(subtable) => write_contextual(alloc, subtable),
        SubtableKind::Ligature(subtable) => write_ligature(alloc, subtable),
        SubtableKind::NonContextual(lookup) => write_noncontextual(alloc, lookup),
        SubtableKind::Insertion(subtable) => write_insertion(alloc, subtable),
    }
}
