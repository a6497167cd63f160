//! Classes that a machine does not tell apart.
ghost use Rattle.std.specs.Prelude.{◌≡◌, ◌≢◌, ◌+◌, ◌<◌, ℕ, true, false, IfOk, IfNone, IfSome, OnOk};
ghost use Rattle.aat_machine_tables.specs.Table.{entry_of};
ghost use Rattle.aat_findings.specs.Alike.{AreAlike, AreTwins, IsTwin};
ghost use Rattle.aat_findings.specs.Reached.{state_count};

use crate::same::{Same, is_same_entry};
use crate::states::state_count;
use aat_machine_tables::ExtendedStateTable;
use std::alloc::{AllocError, Global};

/// Whether a state has the same entry for two classes, or none for either.
fn is_same_at<T: Same>(table: &ExtendedStateTable<T>, state: u16, class: u16, other: u16) -> bool
    ensures same { result ≡ true → entry_of table.now state class ≡ entry_of table.now state other }
    ensures other { result ≡ false → entry_of table.now state class ≢ entry_of table.now state other }
{
    match (table.entry(state, class), table.entry(state, other)) {
        (Some(entry), Some(with)) => is_same_entry(&entry, &with),
        (None, None) => true,
        _ => false,
    }
}

/// Whether each state has the same entry for two classes, or none for either.
fn are_alike<T: Same>(table: &ExtendedStateTable<T>, states: usize, class: u16, other: u16) -> bool
    requires states { states ≡ state_count table.now.rules }
    requires few { states < 65537 }
    ensures alike { result ≡ true → AreAlike table.now class other }
    ensures not { result ≡ false → AreAlike table.now class other → ⊥ }
{
    for state in 0..states {
        if !is_same_at(table, state as u16, class, other) {
            return false;
        }
    }
    true
}

/// The first class before one that is alike to it, if there is one.
fn alike_before<T: Same>(table: &ExtendedStateTable<T>, states: usize, class: u16) -> Option<u16>
    requires states { states ≡ state_count table.now.rules }
    requires few { states < 65537 }
    ensures none { IfNone result ((j : ℕ) → j < class → AreAlike table.now j class → ⊥) }
    ensures some { IfSome result (λ j. IsTwin table.now (j, class)) }
{
    for before in 0..class {
        if are_alike(table, states, before, class) {
            return Some(before);
        }
    }
    None
}

/// Adds a class, with the first one before it that is alike, if there is one.
fn add_twin<T: Same>(
    table: &ExtendedStateTable<T>,
    states: usize,
    class: u16,
    pairs: &mut Vec<(u16, u16)>,
) -> Result<(), AllocError>
    requires states { states ≡ state_count table.now.rules }
    requires few { states < 65537 }
    requires pairs { AreTwins table.now pairs.old.items class }
    ensures { OnOk result (AreTwins table.now pairs.new.items (class + 1)) }
{
    match alike_before(table, states, class) {
        Some(before) => {
            pairs.push((before, class))?;
            Ok(())
        }
        None => Ok(()),
    }
}

/// The classes that are alike to one before them, rising, each behind the least class to which it is alike: each state
/// up to the highest with a rule has the same entry for both, or none for either. So no line tells them apart. Two
/// classes are compared state by state, up to the first difference. Fails where memory is wanting.
///
/// Apple's TrueType Reference Manual, "Font Tables", section on state tables.
pub fn classes_alike<T: Same>(
    alloc: Global,
    table: &ExtendedStateTable<T>,
) -> Result<Vec<(u16, u16)>, AllocError>
    ensures { IfOk result (λ pairs. AreTwins table.now pairs.items table.now.class_count) }
{
    let states = state_count(alloc, table)?;
    let mut pairs = Vec::new(alloc);
    for class in 0..table.class_count() {
        add_twin(table, states, class, &mut pairs)?;
    }
    Ok(pairs)
}
