//! Making the subtables of fonts.

use crate::described::data::{KindData, LigatureData, MachineData, Rule, SubtableData, Value};
use aat_lookup::{GlyphId, Lookup, TableError};
use aat_machine_tables::{
    Acting, ContextualEntryData, ContextualSubtable, Coverage, ExtendedStateTable,
    GenericStateEntry, InsertionEntryData, InsertionSubtable, LigatureSubtable, Subtable,
    SubtableKind,
};
use std::alloc::{AllocError, Global};

/// Adds a value to a list.
pub(crate) fn push<T: Drop>(list: &mut Vec<T>, value: T) -> Result<(), TableError> {
    match list.push(value) {
        Ok(()) => Ok(()),
        Err(_) => Err(TableError::OutOfMemory),
    }
}

/// The entry of a state and a class: the one that is listed, and else one that does nothing.
fn entry_at<T: Copy>(rules: &[Rule<T>], idle: T, state: u16, class: u16) -> GenericStateEntry<T> {
    for rule in rules {
        if rule.0 == state && rule.1 == class {
            return rule.2;
        }
    }
    GenericStateEntry {
        new_state: 0,
        flags: 0,
        extra: idle,
    }
}

/// Adds the rules of a state, one for each class.
fn add_rules<T: Copy>(
    filled: &mut Vec<Rule<T>>,
    machine: &MachineData<T>,
    idle: T,
    state: u16,
) -> Result<(), AllocError> {
    for class in 0..machine.class_count {
        filled.push((state, class, entry_at(machine.rules, idle, state, class)))?;
    }
    Ok(())
}

/// The rules of so many states, one for each class.
fn filled_rules<T: Copy>(
    alloc: Global,
    machine: &MachineData<T>,
    states: u16,
    idle: T,
) -> Result<Vec<Rule<T>>, AllocError> {
    let mut filled = Vec::new(alloc);
    for state in 0..states {
        add_rules(&mut filled, machine, idle, state)?;
    }
    Ok(filled)
}

/// The machine of a description. Refused as its classes and rules are.
pub fn machine_of<T: Acting>(
    alloc: Global,
    machine: &MachineData<T>,
) -> Result<ExtendedStateTable<T>, TableError> {
    let (class_count, classes) = (machine.class_count, machine.classes);
    match machine.idle {
        None => ExtendedStateTable::new(alloc, class_count, classes, machine.rules),
        Some((states, idle)) => {
            let rules = filled_rules(alloc, machine, states, idle)?;
            ExtendedStateTable::new(alloc, class_count, classes, &rules)
        }
    }
}

/// Lookups in their order.
fn lookups_of(alloc: Global, lookups: &[&[Value]]) -> Result<Vec<Lookup>, TableError> {
    let mut made = Vec::new(alloc);
    for values in lookups {
        push(&mut made, Lookup::new(alloc, values)?)?;
    }
    Ok(made)
}

/// A contextual subtable.
fn contextual_of(
    alloc: Global,
    machine: &MachineData<ContextualEntryData>,
    lookups: &[&[Value]],
) -> Result<SubtableKind, TableError> {
    let lookups = lookups_of(alloc, lookups)?;
    let state = machine_of(alloc, machine)?;
    Ok(SubtableKind::Contextual(ContextualSubtable { state, lookups }))
}

/// Adds an action so many times.
fn add_times(made: &mut Vec<u32>, action: u32, times: usize) -> Result<(), AllocError> {
    for _ in 0..times {
        made.push(action)?;
    }
    Ok(())
}

/// Actions in their order, each as often as it is said to stand there.
fn actions_of(alloc: Global, actions: &[(u32, usize)]) -> Result<Vec<u32>, AllocError> {
    let mut made = Vec::new(alloc);
    for (action, times) in actions {
        add_times(&mut made, *action, *times)?;
    }
    Ok(made)
}

/// A ligature subtable.
fn ligature_of(alloc: Global, ligature: &LigatureData) -> Result<SubtableKind, TableError> {
    let ligature_actions = actions_of(alloc, ligature.actions)?;
    let components = Vec::from_slice(alloc, ligature.components)?;
    let ligatures = Vec::from_slice(alloc, ligature.ligatures)?;
    Ok(SubtableKind::Ligature(LigatureSubtable {
        state: machine_of(alloc, &ligature.machine)?,
        ligature_actions,
        components,
        ligatures,
    }))
}

/// An insertion subtable.
fn insertion_of(
    alloc: Global,
    machine: &MachineData<InsertionEntryData>,
    glyphs: &[GlyphId],
) -> Result<SubtableKind, TableError> {
    let glyphs = Vec::from_slice(alloc, glyphs)?;
    let state = machine_of(alloc, machine)?;
    Ok(SubtableKind::Insertion(InsertionSubtable { state, glyphs }))
}

/// What a subtable does.
fn kind_of(alloc: Global, kind: &KindData) -> Result<SubtableKind, TableError> {
    match kind {
        KindData::NonContextual(values) => {
            Ok(SubtableKind::NonContextual(Lookup::new(alloc, values)?))
        }
        KindData::Rearrangement(machine) => {
            Ok(SubtableKind::Rearrangement(machine_of(alloc, machine)?))
        }
        KindData::Contextual(machine, lookups) => contextual_of(alloc, machine, lookups),
        KindData::Ligature(ligature) => ligature_of(alloc, ligature),
        KindData::Insertion(machine, glyphs) => insertion_of(alloc, machine, glyphs),
    }
}

/// The bits of a coverage.
fn coverage_of(bits: &[Coverage]) -> Coverage {
    let mut coverage = Coverage::VERTICAL - Coverage::VERTICAL;
    for bit in bits {
        coverage = coverage | *bit;
    }
    coverage
}

/// The subtable of a description.
fn subtable_of(alloc: Global, subtable: &SubtableData) -> Result<Subtable, TableError> {
    Ok(Subtable {
        kind: kind_of(alloc, &subtable.kind)?,
        coverage: coverage_of(subtable.coverage),
        feature_flags: subtable.feature_flags,
    })
}

/// Subtables in their order.
pub(crate) fn subtables_of(
    alloc: Global,
    subtables: &[SubtableData],
) -> Result<Vec<Subtable>, TableError> {
    let mut made = Vec::new(alloc);
    for subtable in subtables {
        push(&mut made, subtable_of(alloc, subtable)?)?;
    }
    Ok(made)
}
