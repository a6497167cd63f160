//! Glyphs that a kerning machine passes in the state for the start of the text: their turns are taken at once.
ghost use Rattle.std.specs.Prelude.{◌≡◌, ◌+◌, ◌<◌, ◌≤◌, ◌^◌, ℕ, Bool, All, true, length};
ghost use Rattle.aat_buffer.specs.Buffer.{Is16Bit, glyph_at, with_cursor};
ghost use Rattle.aat_buffer.specs.Clusters.{IsSmall};
ghost use Rattle.aat_font.specs.Idle.{has_entry};
ghost use Rattle.aat_kerning_machines.specs.KerningMachine.{kerning_turn};
ghost use Rattle.aat_kerning_machines.specs.inside.Passing.{first_entry, first_entry_at, is_passed, is_quiet_at_end, leads_over};
ghost use Rattle.aat_kerning_machines.specs.Runs.{config, machine_over};
ghost use Rattle.aat_run.specs.Budget.{paid, potential, rest};
ghost use Rattle.aat_run.specs.Context.{entry_at};
ghost use Rattle.aat_run.specs.inside.Standing.{HasCome};

use crate::run::KerningRun;
use crate::run_state::RunState;
use crate::state_table_driver::StateTableDriver;
use aat_buffer::{hb_buffer_t, hb_glyph_info_t};
use aat_lookup::GlyphId;
use aat_machine_tables::entry_bits::class::END_OF_TEXT;
use aat_machine_tables::entry_bits::state::START_OF_TEXT;
use aat_machine_tables::{Acting, ExtendedStateTable, GenericStateEntry};
use aat_run::class_at_cursor;
use std::alloc::Allocator;

/// Whether glyphs may be passed: the state for the start of the text has an entry for the end, and that is not
/// actionable. A missing one ends the run while two glyphs or more are left, and an actionable one marks them.
pub(crate) fn may_pass<Table, E: Acting, D: StateTableDriver<Table, E>>(
    run: &KerningRun<Table, E>,
    driver: &D,
) -> bool
    ensures { result ≡ is_quiet_at_end D.actionable run.now.state_table.now }
{
    match run.state_table.entry(START_OF_TEXT, END_OF_TEXT) {
        Some(entry) => !driver.is_actionable(&entry),
        None => false,
    }
}

/// Whether there is an entry, which rests and leads over its glyph to the state for the start of the text. Here and in
/// what a driver says of an entry all parts are asked, since no processor foresees each of them.
fn does_pass<Table, E: Acting, D: StateTableDriver<Table, E>>(
    driver: &D,
    entry: Option<GenericStateEntry<E>>,
) -> bool
    ensures { result ≡ has_entry (leads_over D.resting) entry }
{
    match entry {
        Some(entry) => {
            driver.rests(&entry) & (entry.has_advance() & (entry.new_state == START_OF_TEXT))
        }
        None => false,
    }
}

/// The entry that the state for the start of the text has for a glyph.
fn first_entry<E: Acting>(
    state_table: &ExtendedStateTable<E>,
    glyph: &hb_glyph_info_t,
) -> Option<GenericStateEntry<E>>
    requires { Is16Bit glyph.now }
    ensures { result ≡ first_entry state_table.now glyph.now.glyph_id }
{
    let class = state_table.class_or_out_of_bounds(GlyphId(glyph.glyph_id as u16));
    state_table.entry(START_OF_TEXT, class)
}

/// How many of some glyphs pass before the first one that does not, and the entry that state has for that one, or for
/// the end of the text.
fn passed_count<Table, E: Acting, D: StateTableDriver<Table, E>>(
    run: &KerningRun<Table, E>,
    driver: &D,
    glyphs: &[hb_glyph_info_t],
) -> (usize, Option<GenericStateEntry<E>>)
    requires ids { All Is16Bit glyphs.now }
    ensures within { result.0 ≤ length glyphs.now }
    ensures passed { (i : ℕ) → i < result.0
        → is_passed D.resting run.now.state_table.now (glyph_at glyphs.now i).glyph_id ≡ true }
    ensures entry { result.1 ≡ first_entry_at run.now.state_table.now glyphs.now result.0 }
{
    let mut count = 0;
    for glyph in glyphs {
        let entry = first_entry(run.state_table, glyph);
        if !does_pass(driver, entry) {
            return (count, entry);
        }
        count += 1;
    }
    (count, run.state_table.entry(START_OF_TEXT, END_OF_TEXT))
}

/// Moves the cursor over so many glyphs, and takes as many operations from the budget.
fn pass<A: Allocator + Copy>(buffer: &mut hb_buffer_t<A>, count: usize)
    requires { buffer.old.cursor + count ≤ length buffer.old.line }
    ensures passed { buffer.new ≡ with_cursor (paid count buffer.old) (buffer.old.cursor + count) }
    ensures line { buffer.new.line ≡ buffer.old.line }
    ensures cursor { buffer.new.cursor ≡ buffer.old.cursor + count }
{
    let _length = buffer.len();
    let place = buffer.backtrack_len() + count;
    buffer.move_to(place);
    let max_ops = buffer.max_ops();
    buffer.set_max_ops(max_ops.saturating_sub(count as i32));
}

/// Takes the turns at the glyphs from the cursor on that pass, as long as one after the other does, and finds the entry
/// of the glyph behind them. The machine has to be in the state for the start of the text, and quiet at the end there.
///
/// It stands apart from the turns, so that these stay short.
#[inline(never)]
fn pass_glyphs<Table, E: Acting, D: StateTableDriver<Table, E>, A: Allocator + Copy>(
    run: &KerningRun<Table, E>,
    driver: &D,
    buffer: &mut hb_buffer_t<A>,
    run_state: &mut RunState,
) -> Option<GenericStateEntry<E>>
    requires start { run_state.old.state ≡ 0 }
    requires end { is_quiet_at_end D.actionable run.now.state_table.now ≡ true }
    requires fit { D.fits driver.now buffer.old.cursor (length buffer.old.line) }
    requires ids { IsSmall buffer.old }
    requires turns { run_state.old.turns + rest buffer.old < 2 ^ 64 }
    ensures come { (pays_first : Bool)
        → HasCome (kerning_turn (machine_over run.now D.actionable D.act pays_first)) D.fits
        (config buffer.old driver.now run_state.old) (config buffer.new driver.now run_state.new) }
    ensures entry { result ≡ entry_at run.now.state_table.now run_state.new.state buffer.new }
    ensures line { buffer.new.line ≡ buffer.old.line }
    ensures positions { buffer.new.positions ≡ buffer.old.positions }
    ensures less { potential buffer.new ≤ potential buffer.old }
{
    let (count, entry) = passed_count(run, driver, buffer.from_cursor());
    if count > 0 {
        pass(buffer, count);
        run_state.turns += count as u64;
    }
    entry
}

/// The entry of the state and of the glyph at the cursor, behind the turns at glyphs that are passed, where they may be.
pub(crate) fn next_entry<Table, E: Acting, D: StateTableDriver<Table, E>, A: Allocator + Copy>(
    run: &KerningRun<Table, E>,
    driver: &D,
    may_pass: bool,
    buffer: &mut hb_buffer_t<A>,
    run_state: &mut RunState,
) -> Option<GenericStateEntry<E>>
    requires end { may_pass ≡ true → is_quiet_at_end D.actionable run.now.state_table.now ≡ true }
    requires fit { D.fits driver.now buffer.old.cursor (length buffer.old.line) }
    requires ids { IsSmall buffer.old }
    requires turns { run_state.old.turns + rest buffer.old < 2 ^ 64 }
    ensures come { (pays_first : Bool)
        → HasCome (kerning_turn (machine_over run.now D.actionable D.act pays_first)) D.fits
        (config buffer.old driver.now run_state.old) (config buffer.new driver.now run_state.new) }
    ensures entry { result ≡ entry_at run.now.state_table.now run_state.new.state buffer.new }
    ensures line { buffer.new.line ≡ buffer.old.line }
    ensures positions { buffer.new.positions ≡ buffer.old.positions }
    ensures less { potential buffer.new ≤ potential buffer.old }
{
    let class = class_at_cursor(run.state_table, buffer);
    let entry = run.state_table.entry(run_state.state, class);
    if may_pass && run_state.state == START_OF_TEXT && does_pass(driver, entry) {
        return pass_glyphs(run, driver, buffer, run_state);
    }
    entry
}
