//! The kinds of subtables of `morx` that have lists, to bytes.
ghost use Rattle.std.specs.Prelude.{◌≡◌, ◌++◌, ◌<◌, ◌≤◌, ◌^◌, length, false, IfOk, OnOk};
ghost use Rattle.aat_write_machine.specs.Kinds.{has_long_list, insertion_written, is_too_long, ligature_bytes, ligature_offsets, ligature_written, list_bytes, machine_end};
ghost use Rattle.aat_write_machine.specs.MorxWriteErrors.{Writes};

use crate::error::MorxWriteError;
use crate::machine::{class_table, machine_bytes};
use crate::numbers::append_glyphs;
use crate::words::{append_longs, append_words};
use aat_machine_tables::{GenericStateEntry, InsertionSubtable, LigatureSubtable};
use std::alloc::{AllocError, Global};

/// How many elements a list may have.
pub(crate) const MOST: usize = 0x0FFF_FFFF;

/// Whether a list has more elements than its offsets have room for.
fn is_too_long<X>(list: &[X]) -> bool
    ensures { result ≡ is_too_long list.now }
{
    list.len() > MOST
}

/// Where a state table ends that has so many further offsets and cells, whose entries have so many bytes beside a state
/// and flags.
pub(crate) fn machine_end(further: u8, size: u8, classes: &[u8], cells: usize) -> u32
    requires few_offsets { further < 4 }
    requires small { size < 5 }
    requires short { length classes.now < 2 ^ 20 }
    requires few_cells { cells ≤ 65536 }
    ensures end { result ≡ machine_end further size classes.now cells }
    ensures near { result < 2 ^ 21 }
{
    let entries = 16 + 4 * further as u32 + classes.len() as u32 + 2 * cells as u32;
    entries + (4 + size as u32) * cells as u32
}

/// Writes a subtable of glyph insertion behind its header of 12 bytes: the machine, and the list of glyphs.
///
/// Refused in this order: 1 to 7 as by `write_machine`; 10, `TooLong`, more than 268,435,455 glyphs. 11, `OutOfMemory`,
/// may come before any of these is met.
///
/// The reader reads the machine again, and glyphs that begin with these, at any place of a table. Apple's TrueType
/// Reference Manual, "The 'morx' table", glyph insertion.
pub fn write_insertion(
    alloc: Global,
    subtable: &InsertionSubtable,
) -> Result<Vec<u8>, MorxWriteError>
    ensures { Writes result (insertion_written subtable.now) }
{
    let rules = subtable.state.to_rules(alloc)?;
    let classes = class_table(alloc, &subtable.state, &rules)?;
    if is_too_long(&subtable.glyphs) {
        return Err(MorxWriteError::TooLong);
    }
    let offset = machine_end(1, 4, &classes, rules.len());
    let mut out = machine_bytes(
        alloc,
        &[offset],
        subtable.state.class_count(),
        &classes,
        &rules,
    )?;
    append_glyphs(&mut out, &subtable.glyphs)?;
    Ok(out)
}

/// Whether a list of a ligature subtable has more elements than its offsets have room for.
fn has_long_list(subtable: &LigatureSubtable) -> bool
    ensures { result ≡ has_long_list subtable.now }
{
    is_too_long(&subtable.ligature_actions)
        || is_too_long(&subtable.components)
        || is_too_long(&subtable.ligatures)
}

/// Where the lists of a ligature subtable start, which has so many rules.
fn ligature_offsets(subtable: &LigatureSubtable, classes: &[u8], cells: usize) -> [u32; 3]
    requires short { length classes.now < 2 ^ 20 }
    requires cells { cells ≡ length subtable.now.state.rules }
    requires few { cells ≤ 65536 }
    requires lists { has_long_list subtable.now ≡ false }
    ensures { result ≡ ligature_offsets classes.now subtable.now }
{
    let end = machine_end(3, 2, classes, cells);
    let components = end + 4 * subtable.ligature_actions.len() as u32;
    let ligatures = components + 2 * subtable.components.len() as u32;
    [end, components, ligatures]
}

/// Appends the lists of a ligature subtable.
fn append_lists(out: &mut Vec<u8>, subtable: &LigatureSubtable) -> Result<(), AllocError>
    ensures { OnOk result (out.new.items ≡ out.old.items ++ list_bytes subtable.now) }
{
    append_longs(out, &subtable.ligature_actions)?;
    append_words(out, &subtable.components)?;
    append_glyphs(out, &subtable.ligatures)
}

/// The bytes of a ligature subtable with the bytes of its class table and its rules.
fn ligature_bytes(
    alloc: Global,
    subtable: &LigatureSubtable,
    classes: &[u8],
    rules: &[(u16, u16, GenericStateEntry<u16>)],
) -> Result<Vec<u8>, AllocError>
    requires short { length classes.now < 2 ^ 20 }
    requires rules { rules.now ≡ subtable.now.state.rules }
    requires few { length rules.now ≤ 65536 }
    requires lists { has_long_list subtable.now ≡ false }
    ensures { IfOk result (λ out. out.items ≡ ligature_bytes classes.now subtable.now) }
{
    let further = ligature_offsets(subtable, classes, rules.len());
    let class_count = subtable.state.class_count();
    let mut out = machine_bytes(alloc, &further, class_count, classes, rules)?;
    append_lists(&mut out, subtable)?;
    Ok(out)
}

/// Writes a subtable of ligature substitution behind its header of 12 bytes: the machine, and the lists of actions, of
/// components and of ligatures.
///
/// Refused in this order: 1 to 7 as by `write_machine`; 10, `TooLong`, a list of more than 268,435,455 elements. 11,
/// `OutOfMemory`, may come before any of these is met.
///
/// The reader reads the machine again, and lists that begin with these, at any place of a table. Apple's TrueType
/// Reference Manual, "The 'morx' table", ligature substitution.
pub fn write_ligature(alloc: Global, subtable: &LigatureSubtable) -> Result<Vec<u8>, MorxWriteError>
    ensures { Writes result (ligature_written subtable.now) }
{
    let rules = subtable.state.to_rules(alloc)?;
    let classes = class_table(alloc, &subtable.state, &rules)?;
    if has_long_list(subtable) {
        return Err(MorxWriteError::TooLong);
    }
    Ok(ligature_bytes(alloc, subtable, &classes, &rules)?)
}
