//! Which machines are not written.
ghost use Rattle.std.specs.Prelude.{◌≡◌, ◌≤◌, ◌<◌, length};
ghost use Rattle.aat_write_truetype.specs.kern.MachineBytes.{fill_rows, fits_flags, is_at_cell, parts_refusal, rules_refusal, wrong_rule};

use crate::kern::dense::class_gap;
use crate::kern::error::KernWriteError;
use aat_lookup::keys::Keyed;
use aat_machine_tables::{GenericStateEntry, KernEntryData};

/// A rule of a machine of the kerning table.
pub(crate) type KernRule = (u16, u16, GenericStateEntry<KernEntryData>);

/// The index of an entry that names no value.
pub(crate) const NO_VALUE: u16 = 0xFFFF;

/// The two highest bits of flags, which say what a machine does.
const ACTS: u16 = 0xC000;

/// Whether there is a rule for each class of some states, at most 256 together.
fn fill_rows(width: u16, cells: usize) -> bool
    requires { 0 < width }
    ensures { result ≡ fill_rows width cells }
{
    0 < cells && cells < 257 && cells % width as usize == 0
}

/// Whether the flags of an entry are no more than the two highest bits, and its values are near enough for the others.
fn fits_flags(values: u16, entry: &GenericStateEntry<KernEntryData>) -> bool
    ensures { result ≡ fits_flags values entry.now }
{
    let index = entry.extra.value_index;
    entry.flags & ACTS == entry.flags
        && (index == NO_VALUE || values as usize + 2 * (index as usize) < 16384)
}

/// Whether a rule is that of a cell, the rules before it name its state or one behind it, and it names one that has a
/// row.
fn is_at_cell(width: u16, states: usize, cell: usize, highest: u16, rule: &KernRule) -> bool
    requires some { 0 < width }
    requires few { cell < 256 }
    ensures { result ≡ is_at_cell width states cell highest rule.now }
{
    let state = cell / width as usize;
    let key = state * 65536 + cell % width as usize;
    rule.key() as usize == key
        && state < highest as usize + 1
        && (rule.2.new_state as usize) < states
}

/// The first rule that is not the one that is read there.
fn wrong_rule(width: u16, values: u16, rules: &[KernRule]) -> Option<usize>
    requires some { 0 < width }
    requires few { length rules.now ≤ 256 }
    ensures { result ≡ wrong_rule width values rules.now }
{
    let states = rules.len() / width as usize;
    let mut highest = 0;
    for (cell, rule) in rules.iter().enumerate() {
        if !is_at_cell(width, states, cell, highest, rule) || !fits_flags(values, &rule.2) {
            return Some(cell);
        }
        highest = highest.max(rule.2.new_state);
    }
    None
}

/// The first refusal of classes and rules, behind which values start at an offset.
fn parts_refusal(
    width: u16,
    values: u16,
    classes: &[(u16, u16)],
    rules: &[KernRule],
) -> Option<KernWriteError>
    requires some { 0 < width }
    requires few { length rules.now ≤ 256 }
    ensures { result ≡ parts_refusal width values classes.now rules.now }
{
    if let Some(place) = class_gap(256, classes) {
        return Some(KernWriteError::Class(place));
    }
    if let Some(place) = wrong_rule(width, values, rules) {
        return Some(KernWriteError::Rule(place));
    }
    None
}

/// The first refusal of a machine of so many classes, with so many values.
pub(crate) fn rules_refusal(
    width: u16,
    classes: &[(u16, u16)],
    rules: &[KernRule],
    count: usize,
) -> Option<KernWriteError>
    ensures { result ≡ rules_refusal width classes.now rules.now count }
{
    if width < 4 {
        return Some(KernWriteError::ClassCount);
    }
    if !fill_rows(width, rules.len()) {
        return Some(KernWriteError::RuleCount);
    }
    let values = 14 + classes.len().min(65536) + 5 * rules.len();
    if values > 65535 || count > 16384 {
        return Some(KernWriteError::TooLong);
    }
    parts_refusal(width, values as u16, classes, rules)
}
