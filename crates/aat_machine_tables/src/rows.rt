//! Rules that are kept as rows: for each class of each state the index of an entry, as it stands in a font.
ghost use Rattle.std.specs.Prelude.{◌≡◌, ◌+◌, ◌*◌, ◌/◌, ◌%◌, ◌<◌, ◌≤◌, ◌==◌, ◌&&◌, ◌||◌, not, IfOk, Some, length};
ghost use Rattle.aat_lookup.specs.Truth.{is_some_and};
ghost use Rattle.aat_machine_tables.specs.Entries.{goes_on};
ghost use Rattle.aat_machine_tables.specs.Judged.{leads_as};
ghost use Rattle.aat_machine_tables.specs.Rows.{entry_of_cell, index_in, rules_of_rows, NamesEntries};
ghost use Rattle.aat_machine_tables.specs.inside.Grid.{judged, judged_rule, ruled_entry};

use crate::entry_bits::state::START_OF_TEXT;
use crate::judged::{Acting, JudgedEntry};
use crate::state_table::GenericStateEntry;
use std::alloc::{AllocError, Allocator};

/// The index of a cell, which rows have.
#[inline(always)]
fn index_in(rows: &[u8], cell: usize) -> u16
    requires { 2 * cell + 2 ≤ length rows.now }
    ensures { result ≡ index_in rows.now cell }
{
    u16::from_be_bytes([rows[2 * cell], rows[2 * cell + 1]])
}

/// The entry of a cell, which rows have, where it stands.
#[inline(always)]
fn entry_here<'a, T: Copy>(
    entries: &'a [GenericStateEntry<T>],
    rows: &[u8],
    cell: usize,
) -> &'a GenericStateEntry<T>
    requires cell { 2 * cell + 2 ≤ length rows.now }
    requires known { NamesEntries (length entries.now) rows.now }
    ensures { Some result.now ≡ entry_of_cell entries.now rows.now cell }
{
    &entries[index_in(rows, cell) as usize]
}

/// The entry of a cell, if rows have it.
#[inline(always)]
fn entry_of_cell<T: Copy>(
    entries: &[GenericStateEntry<T>],
    rows: &[u8],
    cell: usize,
) -> Option<GenericStateEntry<T>>
    requires { NamesEntries (length entries.now) rows.now }
    ensures { result ≡ entry_of_cell entries.now rows.now cell }
{
    if cell < rows.len() / 2 {
        Some(*entry_here(entries, rows, cell))
    } else {
        None
    }
}

/// The entry of a state and a class, judged. What it is held against is looked for only where it can decide. The test
/// is that of `is_safe_turn`, with nothing asked through a trait: there each entry would be copied.
#[inline(always)]
#[tactic(auto, unfolding(crate::specs::Judged::is_safe_by))]
fn judged_cell<T: Acting>(
    entries: &[GenericStateEntry<T>],
    rows: &[u8],
    class_count: u16,
    state: u16,
    class: u16,
) -> JudgedEntry<T>
    requires { NamesEntries (length entries.now) rows.now }
    ensures { result ≡ judged T.may_act state (entry_of_cell entries.now rows.now (state * class_count + class))
        (entry_of_cell entries.now rows.now class) (entry_of_cell entries.now rows.now (state * class_count)) }
{
    let row = state as usize * class_count as usize;
    let cell = row + class as usize;
    if cell >= rows.len() / 2 {
        return JudgedEntry::Missing;
    }
    let entry = entry_here(entries, rows, cell);
    if !T::acts(entry)
        && restarts_alike(entries, rows, state, class, entry)
        && !T::acts(entry_here(entries, rows, row))
    {
        return JudgedEntry::Safe(*entry);
    }
    JudgedEntry::Unsafe(*entry)
}

/// Whether state 0 leads on as an entry of a state does that does not act: condition 2 of HarfBuzz's test.
#[inline(always)]
fn restarts_alike<T: Acting>(
    entries: &[GenericStateEntry<T>],
    rows: &[u8],
    state: u16,
    class: u16,
    entry: &GenericStateEntry<T>,
) -> bool
    requires cell { 2 * class + 2 ≤ length rows.now }
    requires known { NamesEntries (length entries.now) rows.now }
    ensures { result ≡ (state == 0) || ((not (goes_on entry.now) && (entry.now.new_state == 0))
        || is_some_and (entry_of_cell entries.now rows.now class) (leads_as T.may_act entry.now)) }
{
    if state == START_OF_TEXT || (entry.new_state == START_OF_TEXT && !entry.has_advance()) {
        return true;
    }
    let other = entry_here(entries, rows, class as usize);
    other.new_state == entry.new_state
        && !T::acts(other)
        && other.has_advance() == entry.has_advance()
}

/// The entry of a state and a class of rows.
#[inline(always)]
pub(crate) fn entry_in_rows<T: Copy>(
    entries: &[GenericStateEntry<T>],
    rows: &[u8],
    class_count: u16,
    state: u16,
    class: u16,
) -> Option<GenericStateEntry<T>>
    requires known { NamesEntries (length entries.now) rows.now }
    requires class { class < class_count }
    ensures { result ≡ ruled_entry (rules_of_rows class_count entries.now rows.now) state class }
{
    entry_of_cell(
        entries,
        rows,
        state as usize * class_count as usize + class as usize,
    )
}

/// The entry of a state and a class of rows, judged.
#[inline(always)]
pub(crate) fn judged_in_rows<T: Acting>(
    entries: &[GenericStateEntry<T>],
    rows: &[u8],
    class_count: u16,
    state: u16,
    class: u16,
) -> JudgedEntry<T>
    requires known { NamesEntries (length entries.now) rows.now }
    requires class { class < class_count }
    ensures { result ≡ judged_rule T.may_act (rules_of_rows class_count entries.now rows.now) state class }
{
    judged_cell(entries, rows, class_count, state, class)
}

/// The rules of cells whose rows have so many classes.
pub(crate) fn rules_of_rows<T: Copy, B: Allocator>(
    alloc: B,
    class_count: u16,
    entries: &[GenericStateEntry<T>],
    rows: &[u8],
) -> Result<Vec<(u16, u16, GenericStateEntry<T>), B>, AllocError>
    requires some { 0 < class_count }
    requires few { length rows.now ≤ 131072 * class_count }
    requires known { NamesEntries (length entries.now) rows.now }
    ensures { IfOk result (λ rules. rules.items ≡ rules_of_rows class_count entries.now rows.now) }
{
    let cells = rows.len() / 2;
    let mut rules = Vec::with_capacity(alloc, cells)?;
    for cell in 0..cells {
        if let Some(entry) = entry_of_cell(entries, rows, cell) {
            let rule = rule_at(class_count, cell, &entry);
            rules.push(rule)?;
        }
    }
    Ok(rules)
}

/// The rule of a cell that has an entry.
fn rule_at<T: Copy>(
    class_count: u16,
    cell: usize,
    entry: &GenericStateEntry<T>,
) -> (u16, u16, GenericStateEntry<T>)
    requires some { 0 < class_count }
    requires few { cell < 65536 * class_count }
    ensures { result ≡ (cell / class_count, cell % class_count, entry.now) }
{
    let width = class_count as usize;
    ((cell / width) as u16, (cell % width) as u16, *entry)
}
