//! What the run of a kerning machine finds where it stands, and whether it leaves that place of the line open.
ghost use Rattle.std.specs.Prelude.{◌≡◌, ◌+◌, ◌≤◌, ◌||◌, ℕ, is_some, nat_le, nat_lt, length, not};
ghost use Rattle.aat_buffer.specs.Clusters.{IsSmall};
ghost use Rattle.aat_cut_kinds.specs.KerningClosing.{goes_as_from_start, is_apart, is_none_or, is_same_entry, only_returns};
ghost use Rattle.aat_cut_kinds.specs.inside.OpenRuns.{is_harmless};
ghost use Rattle.aat_cut_kinds.specs.inside.Standings.{found_at};
ghost use Rattle.aat_kerning_machines.specs.Runs.{config};
ghost use Rattle.aat_machine_tables.specs.Table.{entry_of};

use crate::kerning_touches::TouchingDriver;
use aat_buffer::hb_buffer_t;
use aat_kerning_machines::{KerningRun, RunState};
use aat_machine_tables::entry_bits::NO_INDEX;
use aat_machine_tables::entry_bits::class::END_OF_TEXT;
use aat_machine_tables::entry_bits::state::START_OF_TEXT;
use aat_machine_tables::{Acting, ExtendedStateTable, GenericStateEntry};
use aat_run::class_at_cursor;
use std::alloc::Allocator;

/// A run that tells of open places.
#[derive(Drop)]
pub(crate) struct TellingRun<'a, Table, E: Acting> {
    pub run: KerningRun<'a, Table, E>,
    /// Whether state 0 has an entry for the end of the text.
    pub has_first_end: bool,
    ghost first_end: { has_first_end ≡ is_some (entry_of run.state_table.now 0 0) },
}

/// What a run finds where it stands: the class at the cursor, and the entries of its state for that class and for the end
/// of the text.
#[derive(Drop)]
pub(crate) struct Found<E: Copy> {
    class: u16,
    pub entry: Option<GenericStateEntry<E>>,
    pub end: Option<GenericStateEntry<E>>,
}

/// The entry of a state for the end of the text, given that of another.
fn end_of<E: Acting>(
    table: &ExtendedStateTable<E>,
    state: u16,
    other: u16,
    end: Option<GenericStateEntry<E>>,
) -> Option<GenericStateEntry<E>>
    requires { end ≡ entry_of table.now other 0 }
    ensures { result ≡ entry_of table.now state 0 }
{
    if state == other {
        return end;
    }
    table.entry(state, END_OF_TEXT)
}

/// Looks up what a run finds in a state, given the entry of another state for the end of the text, since most turns leave
/// the state as it is.
#[inline(always)]
pub(crate) fn look<E: Acting, A: Allocator + Copy>(
    table: &ExtendedStateTable<E>,
    buffer: &hb_buffer_t<A>,
    state: u16,
    other: u16,
    end: Option<GenericStateEntry<E>>,
) -> Found<E>
    requires ids { IsSmall buffer.now }
    requires end { end ≡ entry_of table.now other 0 }
    ensures { result ≡ found_at table.now state buffer.now }
{
    let class = class_at_cursor(table, buffer);
    Found {
        class,
        entry: table.entry(state, class),
        end: end_of(table, state, other, end),
    }
}

/// Whether a turn is taken: where two glyphs or more are left, if there is an entry for the end of the text.
fn is_turn_taken<A: Allocator + Copy>(has_end: bool, buffer: &hb_buffer_t<A>) -> bool
    ensures { result ≡ (not (nat_lt (buffer.now.cursor + 1) (length buffer.now.line)) || has_end) }
{
    !buffer.has_next() || has_end
}

/// Whether an entry does no more than go back to state 0.
fn only_returns<Table, E: Acting, D: TouchingDriver<Table, E>>(
    driver: &D,
    entry: &GenericStateEntry<E>,
) -> bool
    ensures { (table : Table) (tuple_count : ℕ) → result ≡ only_returns (D.touching table tuple_count) entry.now }
{
    driver.index(entry) == NO_INDEX
        && !entry.has_push()
        && !entry.has_advance()
        && entry.new_state == START_OF_TEXT
}

/// Whether two entries are the same in state, flags and index.
fn is_same_entry<Table, E: Acting, D: TouchingDriver<Table, E>>(
    driver: &D,
    entry: &GenericStateEntry<E>,
    other: &GenericStateEntry<E>,
) -> bool
    ensures { (table : Table) (tuple_count : ℕ)
        → result ≡ is_same_entry (D.touching table tuple_count) entry.now other.now }
{
    entry.new_state == other.new_state
        && entry.flags == other.flags
        && driver.index(entry) == driver.index(other)
}

/// Whether the run goes on as from state 0.
fn goes_as_from_start<Table, E: Acting, D: TouchingDriver<Table, E>, A: Allocator + Copy>(
    telling: &TellingRun<Table, E>,
    driver: &D,
    found: &Found<E>,
    buffer: &hb_buffer_t<A>,
    at: RunState,
) -> bool
    requires { found.now ≡ found_at telling.now.run.state_table.now at.state buffer.now }
    ensures { (table : Table) (tuple_count : ℕ) → result
        ≡ goes_as_from_start (D.touching table tuple_count) telling.now.run.state_table.now
        (config buffer.now driver.now at) }
{
    if at.state == START_OF_TEXT {
        return true;
    }
    let has_ends = telling.has_first_end && found.end.is_some();
    if !is_turn_taken(has_ends, buffer) {
        return false;
    }
    let Some(entry) = &found.entry else {
        return false;
    };
    if only_returns(driver, entry) {
        return true;
    }
    match telling.run.state_table.entry(START_OF_TEXT, found.class) {
        Some(first) => is_same_entry(driver, entry, &first),
        None => false,
    }
}

/// Whether a text that ended before the glyph at the cursor would place nothing more, nor clear.
fn rests_if_over<Table, E: Acting, D: TouchingDriver<Table, E>>(
    driver: &D,
    found: &Found<E>,
) -> bool
    ensures { (table : Table) (tuple_count : ℕ) → result
        ≡ is_none_or found.now.end (λ z. (D.touching table tuple_count).rests_at_end z driver.now) }
{
    match &found.end {
        Some(entry) => driver.rests_at_end(entry),
        None => true,
    }
}

/// Whether the first turn at a place, here, leaves it open.
pub(crate) fn is_harmless<Table, E: Acting, D: TouchingDriver<Table, E>, A: Allocator + Copy>(
    telling: &TellingRun<Table, E>,
    driver: &D,
    found: &Found<E>,
    buffer: &hb_buffer_t<A>,
    at: RunState,
) -> bool
    requires { found.now ≡ found_at telling.now.run.state_table.now at.state buffer.now }
    ensures { (table : Table) (tuple_count : ℕ) → result
        ≡ is_harmless (D.touching table tuple_count) telling.now.run.state_table.now
        (config buffer.now driver.now at) }
{
    goes_as_from_start(telling, driver, found, buffer, at) && rests_if_over(driver, found)
}

/// The least of the places that the turn here touches, and of the cursor.
#[inline(always)]
pub(crate) fn least_touched<Table, E: Acting, D: TouchingDriver<Table, E>, A: Allocator + Copy>(
    telling: &TellingRun<Table, E>,
    driver: &D,
    found: &Found<E>,
    buffer: &hb_buffer_t<A>,
    at: RunState,
) -> usize
    requires { found.now ≡ found_at telling.now.run.state_table.now at.state buffer.now }
    ensures { (q : ℕ) → q ≤ buffer.now.cursor
        → is_apart (D.touching telling.now.run.table.now telling.now.run.tuple_count)
        telling.now.run.state_table.now q (config buffer.now driver.now at) ≡ nat_le q result }
{
    let cursor = buffer.backtrack_len();
    let Some(entry) = &found.entry else {
        return cursor;
    };
    if !is_turn_taken(found.end.is_some(), buffer) {
        return cursor;
    }
    let run = &telling.run;
    driver.least_touched(run.table, run.tuple_count, entry, cursor, buffer.len())
}
