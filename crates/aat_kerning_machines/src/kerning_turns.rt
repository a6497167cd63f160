//! One turn of a kerning machine, by its parts: the marks before the cursor, the look ahead, the act, and what follows
//! it.
ghost use Rattle.std.specs.Prelude.{◌≡◌, ◌+◌, ◌-◌, ◌<◌, ◌^◌, ◌==◌, ◌&&◌, ◌||◌, if◌then◌else◌, Bool, Some, false, length, not, true};
ghost use Rattle.aat_buffer.specs.Buffer.{Buffer};
ghost use Rattle.aat_buffer.specs.Clusters.{IsSmall};
ghost use Rattle.aat_buffer.specs.Marks.{unsafe_to_break};
ghost use Rattle.aat_machine_tables.specs.Entries.{goes_on};
ghost use Rattle.aat_machine_tables.specs.Table.{TableValue};
ghost use Rattle.aat_machine_tables.specs.declared.state_table.GenericStateEntry.{GenericStateEntry};
ghost use Rattle.aat_kerning_machines.specs.KerningMachine.{break_marked_behind, kerning_acted, kerning_by_entry, kerning_machine_with, kerning_marked, kerning_turn, moved_on, stepped};
ghost use Rattle.aat_kerning_machines.specs.Positions.{IsPlaced};
ghost use Rattle.aat_kerning_machines.specs.Runs.{config, machine_over};
ghost use Rattle.aat_kerning_machines.specs.inside.RunStates.{acted_if, behind_marks};
ghost use Rattle.aat_run.specs.Budget.{paid};
ghost use Rattle.aat_run.specs.Context.{Moved, entry_at, is_at_end};
ghost use Rattle.aat_run.specs.Machine.{Ends, Goes};
ghost use Rattle.aat_run.specs.inside.Places.{turn_of};

use crate::run::KerningRun;
use crate::run_state::RunState;
use crate::state_table_driver::StateTableDriver;
use aat_buffer::hb_buffer_t;
use aat_machine_tables::entry_bits::class::END_OF_TEXT;
use aat_machine_tables::entry_bits::state::START_OF_TEXT;
use aat_machine_tables::{Acting, GenericStateEntry};
use std::alloc::Allocator;

/// Takes an operation from the budget.
fn pay<A: Allocator + Copy>(buffer: &mut hb_buffer_t<A>)
    ensures { buffer.new ≡ paid 1 buffer.old }
{
    let max_ops = buffer.max_ops();
    buffer.set_max_ops(max_ops.saturating_sub(1));
}

/// Moves the cursor over a glyph where an entry advances, and where the budget is used up.
fn move_on<A: Allocator + Copy>(buffer: &mut hb_buffer_t<A>, does_advance: bool)
    requires { buffer.old.cursor < length buffer.old.line }
    ensures { buffer.new ≡ moved_on does_advance buffer.old }
{
    if does_advance || buffer.max_ops() <= 0 {
        buffer.next_glyph();
    }
}

/// Moves on from a glyph and pays for the turn, or pays first.
fn step<A: Allocator + Copy>(buffer: &mut hb_buffer_t<A>, does_advance: bool, pays_first: bool)
    requires { buffer.old.cursor < length buffer.old.line }
    ensures { buffer.new ≡ stepped pays_first does_advance buffer.old }
{
    if pays_first {
        pay(buffer);
        move_on(buffer, does_advance);
    } else {
        move_on(buffer, does_advance);
        pay(buffer);
    }
}

/// What follows an act: whether the run goes on.
fn settle<A: Allocator + Copy>(
    buffer: &mut hb_buffer_t<A>,
    does_advance: bool,
    pays_first: bool,
) -> bool
    ensures goes { result ≡ not (is_at_end buffer.old) }
    ensures settled { buffer.new
        ≡ (if is_at_end buffer.old then buffer.old else stepped pays_first does_advance buffer.old) }
    ensures line { buffer.new.line ≡ buffer.old.line }
    ensures positions { buffer.new.positions ≡ buffer.old.positions }
{
    if !buffer.has_current() {
        return false;
    }
    step(buffer, does_advance, pays_first);
    true
}

/// The act of an entry and its state: whether the run goes on.
#[tactic(auto, unfolding(crate::specs::KerningMachine::kerning_acted))]
fn act<Table, E: Acting, D: StateTableDriver<Table, E>, A: Allocator + Copy>(
    run: &KerningRun<Table, E>,
    pays_first: bool,
    driver: &mut D,
    buffer: &mut hb_buffer_t<A>,
    entry: &GenericStateEntry<E>,
    run_state: &mut RunState,
) -> bool
    requires fit { D.fits driver.old buffer.old.cursor (length buffer.old.line) }
    requires ids { IsSmall buffer.old }
    requires placed { IsPlaced buffer.old }
    ensures turn { kerning_acted (machine_over run.now D.actionable D.act pays_first) entry.now
        (config buffer.old driver.old run_state.old)
        ≡ turn_of result (config buffer.new driver.new run_state.new) }
    ensures ids { IsSmall buffer.new }
    ensures placed { IsPlaced buffer.new }
{
    driver.transition(
        run.table,
        entry,
        run.has_cross_stream,
        run.tuple_count,
        run.plan,
        buffer,
    );
    run_state.state = entry.new_state;
    settle(buffer, entry.has_advance(), pays_first)
}

/// Marks the glyphs from one place up to another as unsafe to break between.
fn mark<A: Allocator + Copy>(buffer: &mut hb_buffer_t<A>, start: usize, end: usize)
    requires ids { IsSmall buffer.old }
    ensures marked { buffer.new ≡ unsafe_to_break buffer.old (Some start) (Some end) }
    ensures length { length buffer.new.line ≡ length buffer.old.line }
    ensures cursor { buffer.new.cursor ≡ buffer.old.cursor }
    ensures positions { buffer.new.positions ≡ buffer.old.positions }
    ensures ids { IsSmall buffer.new }
{
    buffer.unsafe_to_break(Some(start), Some(end));
}

/// Marks the glyphs before and at the cursor as unsafe to break between, without asking how long the span is.
fn mark_at_cursor<A: Allocator + Copy>(buffer: &mut hb_buffer_t<A>)
    requires ids { IsSmall buffer.old }
    requires before { 0 < buffer.old.cursor }
    requires current { buffer.old.cursor < length buffer.old.line }
    ensures marked { buffer.new ≡ unsafe_to_break buffer.old
        (Some (buffer.old.cursor - 1)) (Some (buffer.old.cursor + 1)) }
    ensures length { length buffer.new.line ≡ length buffer.old.line }
    ensures cursor { buffer.new.cursor ≡ buffer.old.cursor }
    ensures positions { buffer.new.positions ≡ buffer.old.positions }
    ensures ids { IsSmall buffer.new }
{
    buffer.unsafe_to_break_at_cursor();
}

/// Marks the glyphs at the cursor and behind it.
fn mark_behind<A: Allocator + Copy>(buffer: &mut hb_buffer_t<A>)
    requires ids { IsSmall buffer.old }
    ensures marked { buffer.new ≡ break_marked_behind buffer.old }
    ensures length { length buffer.new.line ≡ length buffer.old.line }
    ensures cursor { buffer.new.cursor ≡ buffer.old.cursor }
    ensures positions { buffer.new.positions ≡ buffer.old.positions }
    ensures ids { IsSmall buffer.new }
{
    let _length = buffer.len();
    let p = buffer.backtrack_len();
    mark(buffer, p, p + 2);
}

/// Whether the state tells that what stood before the cursor matters to an entry. The registers, which outlive state 0,
/// are not asked. All parts of the test are, since no processor foresees each of them.
fn depends_on_before<Table, E: Acting, D: StateTableDriver<Table, E>>(
    driver: &D,
    entry: &GenericStateEntry<E>,
    state: u16,
) -> bool
    ensures { result ≡ (not (state == 0)
        && (D.actionable entry.now || (not (entry.now.new_state == 0) || goes_on entry.now))) }
{
    let has_effect = driver.is_actionable(entry)
        | ((entry.new_state != START_OF_TEXT) | entry.has_advance());
    (state != START_OF_TEXT) & has_effect
}

/// Marks the glyphs before and at the cursor where the state tells that what stood before matters.
#[tactic(auto, unfolding(crate::specs::KerningMachine::kerning_marked))]
fn mark_before<Table, E: Acting, D: StateTableDriver<Table, E>, A: Allocator + Copy>(
    driver: &D,
    buffer: &mut hb_buffer_t<A>,
    entry: &GenericStateEntry<E>,
    run_state: RunState,
)
    requires ids { IsSmall buffer.old }
    ensures marked { (pays_first : Bool) (table : TableValue (GenericStateEntry E))
        (act : GenericStateEntry E → D → Buffer → Moved D) →
        let m = kerning_machine_with pays_first table D.actionable act in
        buffer.new ≡ kerning_marked m entry.now (config buffer.old driver.now run_state) }
    ensures length { length buffer.new.line ≡ length buffer.old.line }
    ensures cursor { buffer.new.cursor ≡ buffer.old.cursor }
    ensures positions { buffer.new.positions ≡ buffer.old.positions }
    ensures ids { IsSmall buffer.new }
{
    if 0 < buffer.backtrack_len() && buffer.has_current() {
        if depends_on_before(driver, entry, run_state.state) {
            mark_at_cursor(buffer);
        }
    }
}

/// The look at the end of the text, where two glyphs or more are left: whether the run goes on to the act of an entry.
#[tactic(auto, unfolding(crate::specs::KerningMachine::looked_ahead))]
fn look_ahead<Table, E: Acting, D: StateTableDriver<Table, E>, A: Allocator + Copy>(
    run: &KerningRun<Table, E>,
    driver: &D,
    buffer: &mut hb_buffer_t<A>,
    run_state: RunState,
) -> bool
    requires ids { IsSmall buffer.old }
    ensures turn { (pays_first : Bool) (act : GenericStateEntry E → D → Buffer → Moved D)
        (e : GenericStateEntry E) →
        let m = kerning_machine_with pays_first run.now.state_table.now D.actionable act in
        behind_marks m e (config buffer.old driver.now run_state)
        ≡ acted_if m e (config buffer.new driver.now run_state) result }
    ensures length { length buffer.new.line ≡ length buffer.old.line }
    ensures cursor { buffer.new.cursor ≡ buffer.old.cursor }
    ensures positions { buffer.new.positions ≡ buffer.old.positions }
    ensures ids { IsSmall buffer.new }
{
    if !buffer.has_next() {
        return true;
    }
    let Some(at_end) = run.state_table.entry(run_state.state, END_OF_TEXT) else {
        return false;
    };
    if driver.is_actionable(&at_end) {
        mark_behind(buffer);
    }
    true
}

/// What an entry does: the marks before the cursor, the look ahead, and then the act.
#[tactic(auto, unfolding(crate::specs::KerningMachine::kerning_by_entry))]
fn take_entry<Table, E: Acting, D: StateTableDriver<Table, E>, A: Allocator + Copy>(
    run: &KerningRun<Table, E>,
    pays_first: bool,
    driver: &mut D,
    buffer: &mut hb_buffer_t<A>,
    entry: &GenericStateEntry<E>,
    run_state: &mut RunState,
) -> bool
    requires fit { D.fits driver.old buffer.old.cursor (length buffer.old.line) }
    requires ids { IsSmall buffer.old }
    requires placed { IsPlaced buffer.old }
    ensures turn { kerning_by_entry (machine_over run.now D.actionable D.act pays_first) (Some entry.now)
        (config buffer.old driver.old run_state.old)
        ≡ turn_of result (config buffer.new driver.new run_state.new) }
    ensures ids { IsSmall buffer.new }
    ensures placed { IsPlaced buffer.new }
{
    mark_before(&*driver, buffer, entry, *run_state);
    if !look_ahead(run, &*driver, buffer, *run_state) {
        return false;
    }
    act(run, pays_first, driver, buffer, entry, run_state)
}

/// Takes one turn of a run, as [`drive_kerning`](crate::drive_kerning) has it, by the entry of its state for the glyph at
/// the cursor, or for the end of the text there. Answers whether the run goes on; else it has ended.
///
/// The entry has to be that one, the registers have to fit, each glyph id has to be at most 0xFFFF, each glyph has to have
/// its position, and fewer than 2^64 - 1 turns have been taken. It takes a bounded number of steps but for its act and a
/// look-up. It is never refused, and takes no memory.
///
/// Apple's TrueType Reference Manual, "State tables" in "Font Tables".
// two runs take it, of which one tells of open places; a turn of either needs no call
#[inline(always)]
#[tactic(auto, unfolding(crate::specs::KerningMachine::kerning_turn, crate::specs::KerningMachine::kerning_by_entry))]
pub fn turn_once<Table, E: Acting, D: StateTableDriver<Table, E>, A: Allocator + Copy>(
    run: &KerningRun<Table, E>,
    pays_first: bool,
    driver: &mut D,
    buffer: &mut hb_buffer_t<A>,
    entry: Option<GenericStateEntry<E>>,
    run_state: &mut RunState,
) -> bool
    requires fit { D.fits driver.old buffer.old.cursor (length buffer.old.line) }
    requires ids { IsSmall buffer.old }
    requires placed { IsPlaced buffer.old }
    requires entry { entry ≡ entry_at run.now.state_table.now run_state.old.state buffer.old }
    requires turns { run_state.old.turns + 1 < 2 ^ 64 }
    ensures goes { result ≡ true → kerning_turn (machine_over run.now D.actionable D.act pays_first)
        (config buffer.old driver.old run_state.old) ≡ Goes (config buffer.new driver.new run_state.new) }
    ensures ends { result ≡ false → kerning_turn (machine_over run.now D.actionable D.act pays_first)
        (config buffer.old driver.old run_state.old) ≡ Ends (config buffer.new driver.new run_state.new) }
    ensures ids { IsSmall buffer.new }
    ensures placed { IsPlaced buffer.new }
{
    run_state.turns += 1;
    match entry {
        Some(entry) => take_entry(run, pays_first, driver, buffer, &entry, run_state),
        None => false,
    }
}
