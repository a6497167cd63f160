//! State tables to bytes.
ghost use Rattle.std.specs.Prelude.{[], ◌∷◌, ◌≡◌, ◌++◌, ◌<◌, ◌≤◌, ◌^◌, length, IfOk, OnOk};
ghost use Rattle.std.specs.List.{flat_map, range_with_len};
ghost use Rattle.aat_write_machine.specs.Lookups.{lookup_written};
ghost use Rattle.aat_write_machine.specs.Words.{long_bytes, word_bytes};
ghost use Rattle.aat_write_machine.specs.EntryWords.{rule_words};
ghost use Rattle.aat_write_machine.specs.MachineRefusals.{rules_refusal};
ghost use Rattle.aat_write_machine.specs.Machines.{class_table_written, header_longs, machine_bytes, machine_written};
ghost use Rattle.aat_write_machine.specs.MorxWriteErrors.{Writes};

use crate::entry_write::EntryWrite;
use crate::error::MorxWriteError;
use crate::lookup_bytes::lookup_bytes;
use crate::refusals::rules_refusal;
use crate::words::{append_longs, append_words};
use aat_machine_tables::{Acting, ExtendedStateTable, GenericStateEntry};
use std::alloc::{AllocError, Allocator};

/// Appends the header of a state table, with further offsets, for a class table of so many bytes and so many cells.
fn append_header<A: Allocator>(
    out: &mut Vec<u8, A>,
    further: &[u32],
    class_count: u16,
    classes: &[u8],
    cells: usize,
) -> Result<(), AllocError>
    requires few_offsets { length further.now < 4 }
    requires short { length classes.now < 2 ^ 20 }
    requires few_cells { cells ≤ 65536 }
    ensures { OnOk result (out.new.items ≡ out.old.items
        ++ long_bytes (header_longs further.now class_count classes.now cells)) }
{
    let class_offset = 16 + 4 * further.len() as u32;
    let state_offset = class_offset + classes.len() as u32;
    let entry_offset = state_offset + 2 * cells as u32;
    append_longs(
        out,
        &[class_count as u32, class_offset, state_offset, entry_offset],
    )?;
    append_longs(out, further)
}

/// Appends the index of a cell.
fn append_index<A: Allocator>(out: &mut Vec<u8, A>, cell: usize) -> Result<(), AllocError>
    requires { cell < 65536 }
    ensures { OnOk result (out.new.items ≡ out.old.items ++ word_bytes (cell ∷ [])) }
{
    append_words(out, &[cell as u16])
}

/// Appends the indexes of so many cells, of which each has an entry of its own.
fn append_rows<A: Allocator>(out: &mut Vec<u8, A>, cells: usize) -> Result<(), AllocError>
    requires { cells ≤ 65536 }
    ensures { OnOk result (out.new.items ≡ out.old.items ++ word_bytes (range_with_len 0 cells)) }
{
    for cell in 0..cells {
        append_index(out, cell)?;
    }
    Ok(())
}

/// Appends the entries of rules.
fn append_entries<T: EntryWrite, A: Allocator>(
    out: &mut Vec<u8, A>,
    rules: &[(u16, u16, GenericStateEntry<T>)],
) -> Result<(), AllocError>
    ensures { OnOk result (out.new.items ≡ out.old.items
        ++ word_bytes (flat_map (rule_words T.words_of) rules.now)) }
{
    for rule in rules {
        append_words(out, &[rule.2.new_state, rule.2.flags])?;
        rule.2.extra.append(out)?;
    }
    Ok(())
}

/// The bytes of a state table with the bytes of its class table.
pub(crate) fn machine_bytes<T: EntryWrite, A: Allocator>(
    alloc: A,
    further: &[u32],
    class_count: u16,
    classes: &[u8],
    rules: &[(u16, u16, GenericStateEntry<T>)],
) -> Result<Vec<u8, A>, AllocError>
    requires few_offsets { length further.now < 4 }
    requires short { length classes.now < 2 ^ 20 }
    requires few_cells { length rules.now ≤ 65536 }
    ensures { IfOk result (λ out. out.items ≡ machine_bytes T.words_of further.now class_count classes.now rules.now) }
{
    let mut out = Vec::new(alloc);
    append_header(&mut out, further, class_count, classes, rules.len())?;
    out.extend_from_slice(classes)?;
    append_rows(&mut out, rules.len())?;
    append_entries(&mut out, rules)?;
    Ok(out)
}

/// Why the rules of a machine are not written.
fn refusal<T: Acting, A: Allocator>(
    machine: &ExtendedStateTable<T, A>,
    rules: &[(u16, u16, GenericStateEntry<T>)],
) -> Option<MorxWriteError>
    requires { rules.now ≡ machine.now.rules }
    ensures { result ≡ rules_refusal machine.now.class_count machine.now.rules }
{
    rules_refusal(machine.class_count(), rules)
}

/// The bytes of the class table of a machine whose rules, which are given, are not refused.
pub(crate) fn class_table<T: EntryWrite, A: Allocator + Copy>(
    alloc: A,
    machine: &ExtendedStateTable<T, A>,
    rules: &[(u16, u16, GenericStateEntry<T>)],
) -> Result<Vec<u8, A>, MorxWriteError>
    requires { rules.now ≡ machine.now.rules }
    ensures writes { Writes result (class_table_written machine.now) }
    ensures short { IfOk result (λ classes. length classes.items < 2 ^ 20) }
    ensures few { OnOk result (length machine.now.rules ≤ 65536) }
{
    if let Some(error) = refusal(machine, rules) {
        return Err(error);
    }
    lookup_bytes(alloc, machine.classes())
}

/// Writes a machine as a state table: the header, the class table as a lookup of format 6, a row for each state, and an
/// entry for each cell. Its rules have to be one for each state and class, by states and then classes, as the reader
/// gives them.
///
/// The number of states is not stored: the reader takes the least one, of 1 or more, whose rows name no other state. So
/// a machine is refused whose last states would not be found.
///
/// Refused in this order: 1, `FewClasses`, fewer than 4 classes; 2, `TooManyRules`, more than 65,536 rules; 3,
/// `OutOfPlace`, with the place of the first rule that is not that of its cell, or with the number of rules where there
/// are none or the last row is cut; 4, `NoRow`, with the place of the first rule whose entry names a state without a
/// row; 5, `NotNamed`, with the first state such that the rows before it name neither it nor one behind it; 6,
/// `NotRising`, with the place of the first class that is not above the one before it; 7, `TooManyPairs`, more than
/// 65,534 classes of glyphs. 11, `OutOfMemory`, may come before any of these is met.
///
/// The reader reads the machine again, at any place of a table. Apple's TrueType Reference Manual, "Font Tables",
/// section on state tables.
pub fn write_machine<T: EntryWrite, A: Allocator + Copy>(
    alloc: A,
    machine: &ExtendedStateTable<T, A>,
) -> Result<Vec<u8, A>, MorxWriteError>
    ensures { Writes result (machine_written T.words_of [] machine.now) }
{
    let rules = machine.to_rules(alloc)?;
    let classes = class_table(alloc, machine, &rules)?;
    Ok(machine_bytes(alloc, &[], machine.class_count(), &classes, &rules)?)
}
