//! What a subtable of `morx` does, from bytes.
ghost use Rattle.std.specs.Prelude.{[], Ok};
ghost use Rattle.aat_machine_tables.specs.declared.morx.SubtableKind.TheVariants.{NonContextual};
ghost use Rattle.aat_read_lookup.specs.Lookups.{Gives};
ghost use Rattle.aat_read_machine.specs.SubtableKinds.{subtable_kind_at};
ghost use Rattle.aat_read_machine.specs.Within.{GivesWithin};

use crate::contextual::read_contextual;
use crate::kinds::{read_insertion, read_ligature};
use crate::machine::read_machine;
use aat_bytes::ReadError;
use aat_bytes::tags::MORX;
use aat_lookup::Lookup;
use aat_machine_tables::SubtableKind;
use aat_read_lookup::read_lookup;
use std::alloc::Global;

/// A subtable that does nothing.
fn nothing(alloc: Global) -> Result<SubtableKind, ReadError>
    ensures { Gives result (Ok (NonContextual [])) }
{
    match Lookup::new(alloc, &[]) {
        Ok(empty) => Ok(SubtableKind::NonContextual(empty)),
        Err(_) => Err(ReadError::OutOfMemory),
    }
}

/// Reads what a subtable of `morx` does, by its kind: 0 rearrangement, 1 contextual, 2 ligature, 4 noncontextual and 5
/// insertion. A subtable of another kind does nothing: it is a noncontextual one without values. `place` is where the
/// subtable goes on behind its header of 12 bytes. `bytes` is the table from its start, up to where
/// the parts of the subtable may reach: what is behind is not there.
///
/// The faults are those of the kind: of `read_machine`, `read_contextual`, `read_ligature`, `read_lookup` and
/// `read_insertion`. `OutOfMemory` may come before any of these is met.
///
/// Apple's TrueType Reference Manual, "The 'morx' table", metamorphosis subtables.
#[tactic(auto, unfolding(crate::specs::SubtableKinds::subtable_kind_at))]
pub fn read_subtable_kind(
    alloc: Global,
    bytes: &[u8],
    place: usize,
    kind: u8,
    glyph_count: u16,
) -> Result<SubtableKind, ReadError>
    ensures { GivesWithin result (subtable_kind_at bytes.now place kind glyph_count) }
{
    match kind {
        0 => Ok(SubtableKind::Rearrangement(read_machine(alloc, MORX, bytes, place, glyph_count)?)),
        1 => Ok(SubtableKind::Contextual(read_contextual(alloc, bytes, place, glyph_count)?)),
        2 => Ok(SubtableKind::Ligature(read_ligature(alloc, bytes, place, glyph_count)?)),
        4 => Ok(SubtableKind::NonContextual(read_lookup(alloc, MORX, bytes, place, glyph_count)?)),
        5 => Ok(SubtableKind::Insertion(read_insertion(alloc, bytes, place, glyph_count)?)),
        _ => nothing(alloc),
    }
}
