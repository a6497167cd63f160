//! The machines of the extended kerning table to bytes.
ghost use Rattle.std.specs.Prelude.{◌≡◌, ◌+◌, ◌*◌, ◌++◌, ◌<◌, ◌≤◌, ◌^◌, length, map, position, IfErr, IfOk, OnOk, None};
ghost use Rattle.std.specs.List.{flat_map};
ghost use Rattle.aat_write_machine.specs.Lookups.{pair_words};
ghost use Rattle.aat_write_machine.specs.Words.{word_bytes};
ghost use Rattle.aat_write_kerx.specs.KerxWriteErrors.{RefusesWithin, Writes};
ghost use Rattle.aat_write_kerx.specs.MachineBytes.{action_number, anchor_written, is_far, machine_written, stack_written, table_written};
ghost use Rattle.aat_write_kerx.specs.inside.Plain.{IsPlain, numbered, numbered_rule, with_number};

use crate::subtable_error::SubtableWriteError;
use crate::values::append_values;
use aat_kerning_tables::{Subtable1, Subtable4};
use aat_machine_tables::{EntryData, ExtendedStateTable, GenericStateEntry};
use aat_write_machine::{append_longs, append_words, write_machine};
use std::alloc::{AllocError, Global};

/// A rule of a machine of `kerx`.
type KerxRule = (u16, u16, GenericStateEntry<EntryData>);

/// A rule whose entry has what stands for the place of its action.
type NumberedRule = (u16, u16, GenericStateEntry<u16>);

/// What stands for the place of an action: itself, or, where bytes are counted, those before it.
fn action_number(counts_bytes: bool, index: u16) -> u32
    ensures { result ≡ action_number counts_bytes index }
{
    if counts_bytes && index != 0xFFFF {
        2 * index as u32
    } else {
        index as u32
    }
}

/// Whether what stands for the place of a rule's action has more than 16 bits.
fn is_far(counts_bytes: bool, rule: &KerxRule) -> bool
    ensures { result ≡ is_far counts_bytes rule.now }
{
    action_number(counts_bytes, rule.2.extra.action_index) > 65535
}

/// The place of the first rule whose action has no number of 16 bits.
fn first_far(counts_bytes: bool, rules: &[KerxRule]) -> Option<usize>
    ensures { result ≡ position (is_far counts_bytes) rules.now }
{
    rules.iter().position(|rule| is_far(counts_bytes, rule))
}

/// A rule with what stands for the place of its action.
fn numbered_rule(counts_bytes: bool, rule: &KerxRule) -> NumberedRule
    requires { action_number counts_bytes rule.now.2.extra.action_index ≤ 65535 }
    ensures { result ≡ numbered_rule counts_bytes rule.now }
{
    let number = action_number(counts_bytes, rule.2.extra.action_index) as u16;
    let entry = GenericStateEntry {
        new_state: rule.2.new_state,
        flags: rule.2.flags,
        extra: number,
    };
    (rule.0, rule.1, entry)
}

/// Rules with what stands for the places of their actions.
fn numbered_rules(
    alloc: Global,
    counts_bytes: bool,
    rules: &[KerxRule],
) -> Result<Vec<NumberedRule>, AllocError>
    requires { position (is_far counts_bytes) rules.now ≡ None }
    ensures { IfOk result (λ out. out.items ≡ map (numbered_rule counts_bytes) rules.now) }
{
    let mut out = Vec::new(alloc);
    for rule in rules {
        out.push(numbered_rule(counts_bytes, rule))?;
    }
    Ok(out)
}

/// A machine of given rules with what stands for the places of its actions. It is as sound as the machine, so it fails
/// only where it gets no memory.
fn numbered(
    alloc: Global,
    counts_bytes: bool,
    machine: &ExtendedStateTable<EntryData>,
    rules: &[KerxRule],
) -> Result<ExtendedStateTable<u16>, AllocError>
    requires rules { rules.now ≡ machine.now.rules }
    requires near { position (is_far counts_bytes) rules.now ≡ None }
    ensures { IfOk result (λ out. out ≡ numbered counts_bytes machine.now) }
{
    let classes = machine.classes().to_pairs(alloc)?;
    let rules = numbered_rules(alloc, counts_bytes, rules)?;
    match ExtendedStateTable::new(alloc, machine.class_count(), &classes, &rules) {
        Ok(numbered) => Ok(numbered),
        Err(_) => Err(AllocError),
    }
}

/// The bytes of a machine of given rules without further offsets.
fn plain_machine(
    alloc: Global,
    counts_bytes: bool,
    machine: &ExtendedStateTable<EntryData>,
    rules: &[KerxRule],
) -> Result<Vec<u8>, SubtableWriteError>
    requires { rules.now ≡ machine.now.rules }
    ensures is { IfOk result (λ plain. IsPlain counts_bytes machine.now plain.items) }
    ensures refused { IfErr result (RefusesWithin (table_written counts_bytes machine.now)) }
{
    if let Some(place) = first_far(counts_bytes, rules) {
        return Err(SubtableWriteError::NoIndex(place));
    }
    let numbered = numbered(alloc, counts_bytes, machine, rules)?;
    Ok(write_machine(alloc, &numbered)?)
}

/// A machine with a further number in its header, which is flags and the offset of what follows, by its bytes without
/// one and the number of its cells.
fn with_number(
    alloc: Global,
    class_count: u16,
    cells: usize,
    flags: u32,
    plain: &[u8],
) -> Result<Vec<u8>, AllocError>
    requires flags { flags < 2 ^ 31 }
    requires near { length plain.now < 2 ^ 30 }
    requires header { 16 + 8 * cells ≤ length plain.now }
    ensures { IfOk result (λ out. out.items ≡ with_number class_count cells flags plain.now) }
{
    let end = plain.len() as u32 + 4;
    let states = end - 8 * cells as u32;
    let entries = end - 6 * cells as u32;
    let mut out = Vec::new(alloc);
    append_longs(
        &mut out,
        &[class_count as u32, 20, states, entries, flags + end],
    )?;
    out.extend_from_slice(&plain[16..])?;
    Ok(out)
}

/// Writes a machine of given rules whose header ends with flags and the offset of what follows.
fn write_with_rules(
    alloc: Global,
    counts_bytes: bool,
    flags: u32,
    machine: &ExtendedStateTable<EntryData>,
    rules: &[KerxRule],
) -> Result<Vec<u8>, SubtableWriteError>
    requires flags { flags < 2 ^ 31 }
    requires rules { rules.now ≡ machine.now.rules }
    ensures { Writes result (machine_written counts_bytes flags machine.now) }
{
    let plain = plain_machine(alloc, counts_bytes, machine, rules)?;
    let written = with_number(alloc, machine.class_count(), rules.len(), flags, &plain)?;
    Ok(written)
}

/// Writes a machine whose header ends with flags and the offset of what follows.
fn write_with_offset(
    alloc: Global,
    counts_bytes: bool,
    flags: u32,
    machine: &ExtendedStateTable<EntryData>,
) -> Result<Vec<u8>, SubtableWriteError>
    requires { flags < 2 ^ 31 }
    ensures { Writes result (machine_written counts_bytes flags machine.now) }
{
    let rules = machine.to_rules(alloc)?;
    write_with_rules(alloc, counts_bytes, flags, machine, &rules)
}

/// Appends pairs of point indexes.
fn append_point_pairs(out: &mut Vec<u8>, pairs: &[(u16, u16)]) -> Result<(), AllocError>
    ensures { OnOk result (out.new.items ≡ out.old.items ++ word_bytes (flat_map pair_words pairs.now)) }
{
    for pair in pairs {
        append_words(out, &[pair.0, pair.1])?;
    }
    Ok(())
}

/// Writes a subtable of format 1 behind its header of 12 bytes: the machine, and the values.
///
/// Refused in this order: 6, `NoIndex`, with the place of the first rule whose value has no index of 16 bits; 7,
/// `Machine`, with the error of the machine, as by `write_machine`. 8, `OutOfMemory`, may come before any of these is
/// met.
pub(crate) fn write_stack(
    alloc: Global,
    subtable: &Subtable1,
) -> Result<Vec<u8>, SubtableWriteError>
    ensures { Writes result (stack_written subtable.now) }
{
    let mut out = write_with_offset(alloc, true, 0, &subtable.state_table)?;
    append_values(&mut out, &subtable.values)?;
    Ok(out)
}

/// Writes a subtable of format 4 by anchor points behind its header of 12 bytes: the machine, and the pairs of point
/// indexes.
///
/// Refused as 7, `Machine`, with the error of the machine, as by `write_machine`. 8, `OutOfMemory`, may come before it
/// is met.
pub(crate) fn write_anchors(
    alloc: Global,
    subtable: &Subtable4,
) -> Result<Vec<u8>, SubtableWriteError>
    ensures { Writes result (anchor_written subtable.now) }
{
    let mut out = write_with_offset(alloc, false, 0x4000_0000, &subtable.state_table)?;
    append_point_pairs(&mut out, &subtable.anchor_points)?;
    Ok(out)
}
