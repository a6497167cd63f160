//! Laws of writing as theorems. These calls do nothing: what is proved is their contracts.
ghost use Rattle.aat_write_machine.specs.ChainLaws.{WrittenChainsAreRead};
ghost use Rattle.aat_write_machine.specs.FeatLaws.{WrittenFeatsAreRead};
ghost use Rattle.aat_write_machine.specs.KindLaws.{InsertionsAreRead, LigaturesAreRead};
ghost use Rattle.aat_write_machine.specs.LookupLaws.{WrittenLookupsAreRead};
ghost use Rattle.aat_write_machine.specs.MorxLaws.{WrittenMorxIsRead};
ghost use Rattle.aat_write_machine.specs.SubtableKindLaws.{ContextualsAreRead, SubtableKindsAreRead};
ghost use Rattle.aat_write_machine.specs.MachineLaws.{MachinesAreRead};

use crate::entry_write::EntryWrite;
use aat_machine_tables::{ContextualEntryData, InsertionEntryData};

/// A lookup that is written is read again, at any place of a table.
pub fn written_lookups_are_read()
    ensures { WrittenLookupsAreRead }
{}

/// A feature name table that is written is read again.
pub fn written_feats_are_read()
    ensures { WrittenFeatsAreRead }
{}

/// A machine that is written is read again, at any place of a table.
pub fn machines_are_read<T: EntryWrite>()
    ensures { MachinesAreRead T.SIZE T.extra_at T.words_of }
{
    written_lookups_are_read();
}

/// A subtable of glyph insertion that is written is read again, at any place of a table.
pub fn insertions_are_read()
    ensures { InsertionsAreRead }
{
    machines_are_read::<InsertionEntryData>();
}

/// A subtable of ligature substitution that is written is read again, at any place of a table.
pub fn ligatures_are_read()
    ensures { LigaturesAreRead }
{
    machines_are_read::<u16>();
}

/// A subtable of contextual glyph substitution that is written is read again, at any place of a table.
pub fn contextuals_are_read()
    ensures { ContextualsAreRead }
{
    machines_are_read::<ContextualEntryData>();
    written_lookups_are_read();
}

/// What a subtable does is read again, at any place of a table and whatever stands behind it.
pub fn subtable_kinds_are_read()
    ensures { SubtableKindsAreRead }
{
    written_lookups_are_read();
    machines_are_read::<()>();
    contextuals_are_read();
    ligatures_are_read();
    insertions_are_read();
}

/// Chains that are written are read again, where each kind is known and each body is read at any place of a table.
pub fn written_chains_are_read()
    ensures { WrittenChainsAreRead }
{}

/// A table of chains that is written is read again: the same chains, features, flags and machines in their order, and
/// lists that begin with those that were written.
pub fn written_morx_is_read()
    ensures { WrittenMorxIsRead }
{
    subtable_kinds_are_read();
}
