//! Which machines are not written.
ghost use Rattle.std.specs.Prelude.{◌≡◌, ◌<◌, ◌≤◌, length, IsTrue};
ghost use Rattle.aat_write_machine.specs.MachineRefusals.{cell_key, highest_from, is_cut, misplaced_from, no_row, not_named, out_of_place, rules_refusal};

use crate::error::MorxWriteError;
use aat_lookup::keys::Keyed;
use aat_machine_tables::GenericStateEntry;

/// The key of a cell: its state, then its class.
fn cell_key(class_count: u16, cell: usize) -> usize
    requires some { 0 < class_count }
    requires few { cell ≤ 65536 }
    ensures { result ≡ cell_key class_count cell }
{
    let width = class_count as usize;
    cell / width * 65536 + cell % width
}

/// The place of the first rule that is not that of its cell.
fn misplaced<T: Copy>(class_count: u16, rules: &[(u16, u16, GenericStateEntry<T>)]) -> Option<usize>
    requires some { 0 < class_count }
    requires few { length rules.now ≤ 65536 }
    ensures { result ≡ misplaced_from class_count 0 rules.now }
{
    for (cell, rule) in rules.iter().enumerate() {
        if rule.key() as usize != cell_key(class_count, cell) {
            return Some(cell);
        }
    }
    None
}

/// Where the rules are not one for each cell, row by row.
fn out_of_place<T: Copy>(
    class_count: u16,
    rules: &[(u16, u16, GenericStateEntry<T>)],
) -> Option<usize>
    requires some { 0 < class_count }
    requires few { length rules.now ≤ 65536 }
    ensures { result ≡ out_of_place class_count rules.now }
{
    if let Some(place) = misplaced(class_count, rules) {
        return Some(place);
    }
    if rules.is_empty() || rules.len() % class_count as usize > 0 {
        return Some(rules.len());
    }
    None
}

/// The place of the first rule whose entry names a state without a row.
fn no_row<T: Copy>(class_count: u16, rules: &[(u16, u16, GenericStateEntry<T>)]) -> Option<usize>
    requires { 0 < class_count }
    ensures { result ≡ no_row class_count rules.now }
{
    let states = rules.len() / class_count as usize;
    rules
        .iter()
        .position(|rule| states <= rule.2.new_state as usize)
}

/// The highest state that entries of rules name, from one on.
fn highest_from<T: Copy>(most: u16, rules: &[(u16, u16, GenericStateEntry<T>)]) -> u16
    ensures { result ≡ highest_from most rules.now }
{
    let mut highest = most;
    for rule in rules {
        highest = highest.max(rule.2.new_state);
    }
    highest
}

/// The first state such that the rows before it name neither it nor one behind it.
fn not_named<T: Copy>(class_count: u16, rules: &[(u16, u16, GenericStateEntry<T>)]) -> Option<usize>
    requires { 0 < class_count }
    ensures { result ≡ not_named class_count rules.now }
{
    let width = class_count as usize;
    let states = rules.len() / width;
    let mut highest = 0;
    for state in 1..states {
        highest = highest_from(highest, &rules[(state - 1) * width..state * width]);
        if (highest as usize) < state {
            return Some(state);
        }
    }
    None
}

/// The first refusal of rules.
pub(crate) fn rules_refusal<T: Copy>(
    class_count: u16,
    rules: &[(u16, u16, GenericStateEntry<T>)],
) -> Option<MorxWriteError>
    ensures { result ≡ rules_refusal class_count rules.now }
{
    if class_count < 4 {
        return Some(MorxWriteError::FewClasses);
    }
    if rules.len() > 65536 {
        return Some(MorxWriteError::TooManyRules);
    }
    if let Some(place) = out_of_place(class_count, rules) {
        return Some(MorxWriteError::OutOfPlace(place));
    }
    if let Some(place) = no_row(class_count, rules) {
        return Some(MorxWriteError::NoRow(place));
    }
    if let Some(state) = not_named(class_count, rules) {
        return Some(MorxWriteError::NotNamed(state));
    }
    None
}
