//! Machines with a stack to bytes.
ghost use Rattle.std.specs.Prelude.{◌≡◌, ◌++◌, ◌+◌, ◌*◌, ◌<◌, ◌≤◌, All, length, map, true, IfOk, OnOk, None};
ghost use Rattle.std.specs.List.{flat_map, range_with_len};
ghost use Rattle.aat_machine_tables.specs.Table.{table_value};
ghost use Rattle.aat_write_machine.specs.Words.{word_bytes};
ghost use Rattle.aat_write_truetype.specs.kern.KernWriteErrors.{Writes};
ghost use Rattle.aat_write_truetype.specs.kern.MachineBytes.{KernRule, entry_words, fits_flags, flags_word, machine_bytes, machine_written, rules_refusal};

use crate::kern::dense::first_glyph;
use crate::kern::error::KernWriteError;
use crate::kern::pairs::append_values;
use crate::kern::rules::{KernRule, NO_VALUE, rules_refusal};
use aat_kerning_tables::KernMachine;
use aat_machine_tables::{GenericStateEntry, KernEntryData};
use aat_write_machine::append_words;
use std::alloc::{AllocError, Global};

/// Where the parts of a machine start.
#[derive(Clone, Copy)]
struct Offsets {
    /// The number of classes.
    width: u16,
    /// Where the rows start.
    rows: u16,
    /// Where the values start.
    values: u16,
}

/// Appends the class of each glyph, a byte.
fn append_classes(out: &mut Vec<u8>, classes: &[(u16, u16)]) -> Result<(), AllocError>
    requires { All (λ class. class.1 < 256) classes.now }
    ensures { OnOk result (out.new.items ≡ out.old.items ++ map (λ class. class.1) classes.now) }
{
    for class in classes {
        out.push(class.1 as u8)?;
    }
    Ok(())
}

/// Appends the indexes of so many cells, a byte each, of which each has an entry of its own.
fn append_indexes(out: &mut Vec<u8>, cells: usize) -> Result<(), AllocError>
    requires { cells ≤ 256 }
    ensures { OnOk result (out.new.items ≡ out.old.items ++ range_with_len 0 cells) }
{
    for cell in 0..cells {
        out.push(cell as u8)?;
    }
    Ok(())
}

/// The flags of an entry: its two highest bits, and where its values start.
fn flags_word(values: u16, entry: &GenericStateEntry<KernEntryData>) -> u16
    requires { fits_flags values entry.now ≡ true }
    ensures { result ≡ flags_word values entry.now }
{
    let index = entry.extra.value_index;
    if index == NO_VALUE {
        return entry.flags;
    }
    entry.flags + (values + 2 * index)
}

/// Appends an entry.
fn append_entry(out: &mut Vec<u8>, offsets: Offsets, rule: &KernRule) -> Result<(), AllocError>
    requires near { offsets.rows + rule.now.2.new_state * offsets.width < 65536 }
    requires fits { fits_flags offsets.values rule.now.2 ≡ true }
    ensures { OnOk result (out.new.items
        ≡ out.old.items ++ word_bytes (entry_words offsets.width offsets.rows offsets.values rule.now)) }
{
    let row = offsets.rows + rule.2.new_state * offsets.width;
    append_words(out, &[row, flags_word(offsets.values, &rule.2)])
}

/// Appends entries.
fn append_entries(out: &mut Vec<u8>, offsets: Offsets, rules: &[KernRule]) -> Result<(), AllocError>
    requires near { All (λ rule. offsets.rows + rule.2.new_state * offsets.width < 65536) rules.now }
    requires fit { All (λ rule. fits_flags offsets.values rule.2 ≡ true) rules.now }
    ensures { OnOk result (out.new.items
        ≡ out.old.items ++ word_bytes (flat_map (entry_words offsets.width offsets.rows offsets.values) rules.now)) }
{
    for rule in rules {
        append_entry(out, offsets, rule)?;
    }
    Ok(())
}

/// The bytes of a machine of lists that are not refused.
fn machine_bytes(
    alloc: Global,
    width: u16,
    classes: &[(u16, u16)],
    rules: &[KernRule],
    values: &[i16],
) -> Result<Vec<u8>, AllocError>
    requires { rules_refusal width classes.now rules.now (length values.now) ≡ None }
    ensures { IfOk result (λ out. out.items ≡ machine_bytes
        (record { state_table = table_value width classes.now rules.now; values = values.now })) }
{
    let glyphs = classes.len() as u16;
    let cells = rules.len() as u16;
    let rows = 14 + glyphs;
    let entries = rows + cells;
    let offsets = Offsets {
        width,
        rows,
        values: entries + 4 * cells,
    };
    let mut out = Vec::new(alloc);
    let first = first_glyph(classes);
    append_words(
        &mut out,
        &[width, 10, rows, entries, offsets.values, first, glyphs],
    )?;
    append_classes(&mut out, classes)?;
    append_indexes(&mut out, rules.len())?;
    append_entries(&mut out, offsets, rules)?;
    append_values(&mut out, values)?;
    Ok(out)
}

/// The bytes of a machine of lists, or why it is not written.
fn write_lists(
    alloc: Global,
    width: u16,
    classes: &[(u16, u16)],
    rules: &[KernRule],
    values: &[i16],
) -> Result<Vec<u8>, KernWriteError>
    ensures { Writes result (machine_written
        (record { state_table = table_value width classes.now rules.now; values = values.now })) }
{
    if let Some(error) = rules_refusal(width, classes, rules, values.len()) {
        return Err(error);
    }
    Ok(machine_bytes(alloc, width, classes, rules, values)?)
}

/// The bytes of a machine behind the header of its subtable.
pub(crate) fn write_machine(alloc: Global, machine: &KernMachine) -> Result<Vec<u8>, KernWriteError>
    ensures { Writes result (machine_written machine.now) }
{
    let table = &machine.state_table;
    let classes = table.classes().to_pairs(alloc)?;
    let rules = table.to_rules(alloc)?;
    write_lists(
        alloc,
        table.class_count(),
        &classes,
        &rules,
        &machine.values,
    )
}
