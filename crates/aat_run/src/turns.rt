//! One turn of the driver, by its parts: the class at the cursor, the test whether the line is marked before it, the
//! mark, the act, and what follows it.
ghost use Rattle.std.specs.Prelude.{◌≡◌, ◌+◌, ◌<◌, ◌^◌, ◌==◌, ◌&&◌, if◌then◌else◌, ℕ, Bool, true, Option, Some, length, not, OnOk, OnErr, IfOk, IfErr};
ghost use Rattle.aat_buffer.specs.Clusters.{IsSmall};
ghost use Rattle.aat_font.specs.Idle.{has_entry};
ghost use Rattle.aat_machine_tables.specs.Judged.{is_safe_by};
ghost use Rattle.aat_machine_tables.specs.Table.{TableValue, class_of, entry_of};
ghost use Rattle.aat_machine_tables.specs.declared.state_table.GenericStateEntry.{GenericStateEntry};
ghost use Rattle.aat_run.specs.Context.{Machine, machine_with, is_at_end, class_at, cluster_seen, entry_at};
ghost use Rattle.aat_run.specs.Driven.{IsRefusal, IsRefused};
ghost use Rattle.aat_run.specs.Laws.{SameSettings};
ghost use Rattle.aat_run.specs.Machine.{left_by, stepped, marked, acted, by_entry, off, turn};
ghost use Rattle.aat_run.specs.Ranges.{IsGapless, is_driven_on};
ghost use Rattle.aat_run.specs.Safe.{is_safe};
ghost use Rattle.aat_run.specs.inside.Places.{config, turn_of};

use crate::driver_context::driver_context_t;
use crate::error::AatError;
use crate::ranges::{is_driven_on, range_flags_t};
use crate::run_state::RunState;
use aat_buffer::{hb_buffer_t, hb_mask_t};
use aat_lookup::GlyphId;
use aat_machine_tables::entry_bits::class::END_OF_TEXT;
use aat_machine_tables::entry_bits::state::START_OF_TEXT;
use aat_machine_tables::{Acting, ExtendedStateTable, GenericStateEntry, Turns, is_safe_turn};
use std::alloc::Allocator;

/// The class at the cursor: 0, `END_OF_TEXT`, at the end, and 1, `OUT_OF_BOUNDS`, of a glyph without a class. Each
/// glyph id has to be at most 0xFFFF. Besides the search of the class it takes a bounded number of steps.
///
/// It stands apart from the turns, so that these stay short.
#[inline(never)]
pub fn class_at_cursor<T: Acting, A: Allocator + Copy>(
    machine: &ExtendedStateTable<T>,
    buffer: &hb_buffer_t<A>,
) -> u16
    requires { IsSmall buffer.now }
    ensures { result ≡ class_at (class_of machine.now) buffer.now }
{
    if buffer.has_current() {
        machine.class_or_out_of_bounds(GlyphId(buffer.cur().glyph_id as u16))
    } else {
        END_OF_TEXT
    }
}

/// Counts a turn, and looks at the cluster at the cursor.
fn count<A: Allocator + Copy>(buffer: &hb_buffer_t<A>, run_state: &mut RunState)
    requires { run_state.old.turns + 1 < 2 ^ 64 }
    ensures { run_state.new ≡ record {
      state = run_state.old.state;
      last_cluster = cluster_seen buffer.now run_state.old.last_cluster;
      turns = run_state.old.turns + 1;
    } }
{
    run_state.turns += 1;
    if buffer.has_current() {
        run_state.last_cluster = buffer.cur().cluster;
    }
}

/// What the entries of a machine do by the registers, the cursor and the length of the line as they are here.
#[derive(Drop)]
struct TurnsHere<'m, 'c, 'b, T: Acting, C: driver_context_t<T>, A: Allocator + Copy> {
    machine: &'m ExtendedStateTable<T>,
    context: &'c C,
    buffer: &'b hb_buffer_t<A>,
}

impl<'m, 'c, 'b, T: Acting, C: driver_context_t<T>, A: Allocator + Copy> Turns<T>
    for TurnsHere<'m, 'c, 'b, T, C, A> {
    ghost use Rattle.std.specs.Prelude.{length};
    ghost use Rattle.aat_machine_tables.specs.Table.{entry_of};

    ghost acting = { λ s e. C.actionable e s.context.now s.buffer.now.cursor (length s.buffer.now.line) };

    ghost advancing = { λ _ e. C.advances e };

    ghost entry_at = { λ s state class. entry_of s.machine.now state class };

    fn acts(&self, entry: &GenericStateEntry<T>) -> bool {
        self.context.is_actionable(entry, self.buffer)
    }

    fn advances(&self, entry: &GenericStateEntry<T>) -> bool {
        self.context.can_advance(entry)
    }

    fn entry(&self, state: u16, class: u16) -> Option<GenericStateEntry<T>> {
        self.machine.entry(state, class)
    }
}

/// Whether the line gets no mark before the cursor, by HarfBuzz's test over the registers as they are here. Where it
/// gets none the two parts may still come out differently: `specs/Safe.antt` says what the mark tells.
#[tactic(auto, unfolding(crate::specs::Safe::is_safe))]
fn is_safe<T: Acting, C: driver_context_t<T>, A: Allocator + Copy>(
    machine: &ExtendedStateTable<T>,
    context: &C,
    buffer: &hb_buffer_t<A>,
    entry: &GenericStateEntry<T>,
    class: u16,
    run_state: RunState,
) -> bool
    ensures { (on : ℕ → Bool) → result ≡ is_safe (machine_with on machine.now C.advances C.actionable C.act) entry.now
        (entry_of machine.now 0 class) (entry_of machine.now run_state.state 0)
        (config buffer.now context.now run_state) }
{
    let turns = TurnsHere {
        machine,
        context,
        buffer,
    };
    is_safe_turn(&turns, run_state.state, class, entry)
}

/// Whether the line gets no mark before the cursor: as `judged_entry` says, where the context acts by entries, and
/// else by `is_safe`.
#[tactic(auto, using(crate::specs::facts::SafeBranches::safe_by_entries))]
fn is_safe_at_cursor<T: Acting, C: driver_context_t<T>, A: Allocator + Copy>(
    machine: &ExtendedStateTable<T>,
    context: &C,
    buffer: &hb_buffer_t<A>,
    entry: &GenericStateEntry<T>,
    is_judged_safe: bool,
    class: u16,
    run_state: RunState,
) -> bool
    requires judged { is_judged_safe ≡ is_safe_by T.may_act run_state.state entry.now
        (entry_of machine.now 0 class) (entry_of machine.now run_state.state 0) }
    ensures { (on : ℕ → Bool) → result ≡ is_safe (machine_with on machine.now C.advances C.actionable C.act) entry.now
        (entry_of machine.now 0 class) (entry_of machine.now run_state.state 0)
        (config buffer.now context.now run_state) }
{
    if context.acts_by_entries(buffer) {
        return is_judged_safe;
    }
    is_safe(machine, context, buffer, entry, class, run_state)
}

/// Marks the line before the cursor as unsafe to break, unless `is_safe` holds there.
#[tactic(auto, unfolding(crate::specs::Machine::marked))]
fn mark_unsafe<T: Acting, C: driver_context_t<T>, A: Allocator + Copy>(
    machine: &ExtendedStateTable<T>,
    context: &C,
    buffer: &mut hb_buffer_t<A>,
    entry: &GenericStateEntry<T>,
    is_judged_safe: bool,
    class: u16,
    run_state: RunState,
)
    requires ids { IsSmall buffer.old }
    requires class { class ≡ class_at (class_of machine.now) buffer.old }
    requires judged { is_judged_safe ≡ is_safe_by T.may_act run_state.state entry.now
        (entry_of machine.now 0 class) (entry_of machine.now run_state.state 0) }
    ensures marked { (on : ℕ → Bool)
        → buffer.new ≡ marked (machine_with on machine.now C.advances C.actionable C.act) entry.now
        (config buffer.old context.now run_state) }
    ensures ids { IsSmall buffer.new }
    ensures cursor { buffer.new.cursor ≡ buffer.old.cursor }
    ensures length { length buffer.new.line ≡ length buffer.old.line }
    ensures settings { SameSettings buffer.old buffer.new }
{
    if 0 < buffer.backtrack_len() && buffer.has_current() {
        if !is_safe_at_cursor(
            machine,
            context,
            buffer,
            entry,
            is_judged_safe,
            class,
            run_state,
        ) {
            buffer.unsafe_to_break_at_cursor();
        }
    }
}

/// What follows an act: whether the run goes on, from the next glyph, or from the same one, which is paid for.
fn settle<A: Allocator + Copy>(buffer: &mut hb_buffer_t<A>, does_advance: bool) -> bool
    ensures goes { result ≡ not (is_at_end buffer.old) }
    ensures settled { buffer.new ≡ (if is_at_end buffer.old then buffer.old else stepped does_advance buffer.old) }
    ensures line { buffer.new.line ≡ buffer.old.line }
{
    if !buffer.has_current() {
        return false;
    }
    if does_advance {
        buffer.next_glyph();
        return true;
    }
    let max_ops = buffer.max_ops();
    if max_ops <= 0 {
        buffer.next_glyph();
    }
    buffer.set_max_ops(max_ops.saturating_sub(1));
    true
}

/// The mark, the act and the new state of an entry: whether the run goes on.
#[tactic(auto, using(crate::specs::facts::Settings::refused_behind), unfolding(crate::specs::Machine::acted))]
fn act<T: Acting, C: driver_context_t<T>, A: Allocator + Copy>(
    machine: &ExtendedStateTable<T>,
    context: &mut C,
    buffer: &mut hb_buffer_t<A>,
    entry: &GenericStateEntry<T>,
    is_judged_safe: bool,
    class: u16,
    run_state: &mut RunState,
) -> Result<bool, AatError>
    requires fit { C.fits context.old buffer.old.cursor (length buffer.old.line) }
    requires ids { IsSmall buffer.old }
    requires class { class ≡ class_at (class_of machine.now) buffer.old }
    requires judged { is_judged_safe ≡ is_safe_by T.may_act run_state.old.state entry.now
        (entry_of machine.now 0 class) (entry_of machine.now run_state.old.state 0) }
    ensures turn { (on : ℕ → Bool) → IfOk result (λ goes.
        acted (machine_with on machine.now C.advances C.actionable C.act) entry.now
        (config buffer.old context.old run_state.old)
        ≡ turn_of goes (config buffer.new context.new run_state.new)) }
    ensures ids { OnOk result (IsSmall buffer.new) }
    ensures reason { (on : ℕ → Bool) → IfErr result (IsRefusal buffer.old (left_by
        (acted (machine_with on machine.now C.advances C.actionable C.act) entry.now
        (config buffer.old context.old run_state.old))).buffer) }
    ensures refused { OnErr result (IsRefused buffer.old buffer.new) }
{
    mark_unsafe(
        machine,
        &*context,
        buffer,
        entry,
        is_judged_safe,
        class,
        *run_state,
    );
    context.transition(entry, buffer)?;
    run_state.state = entry.new_state;
    Ok(settle(buffer, context.can_advance(entry)))
}

/// What the entry at a state and the cursor does; a missing one ends the run.
#[tactic(auto, unfolding(crate::specs::Machine::by_entry))]
fn act_by_entry<T: Acting, C: driver_context_t<T>, A: Allocator + Copy>(
    machine: &ExtendedStateTable<T>,
    context: &mut C,
    buffer: &mut hb_buffer_t<A>,
    run_state: &mut RunState,
) -> Result<bool, AatError>
    requires fit { C.fits context.old buffer.old.cursor (length buffer.old.line) }
    requires ids { IsSmall buffer.old }
    ensures turn { (on : ℕ → Bool) → IfOk result (λ goes.
        by_entry (machine_with on machine.now C.advances C.actionable C.act)
        (entry_at machine.now run_state.old.state buffer.old)
        (config buffer.old context.old run_state.old)
        ≡ turn_of goes (config buffer.new context.new run_state.new)) }
    ensures ids { OnOk result (IsSmall buffer.new) }
    ensures reason { (on : ℕ → Bool) → IfErr result (IsRefusal buffer.old (left_by
        (by_entry (machine_with on machine.now C.advances C.actionable C.act)
        (entry_at machine.now run_state.old.state buffer.old)
        (config buffer.old context.old run_state.old))).buffer) }
    ensures refused { OnErr result (IsRefused buffer.old buffer.new) }
{
    let class = class_at_cursor(machine, buffer);
    let judged = machine.judged_entry(run_state.state, class);
    match judged.entry() {
        Some(entry) => act(
            machine,
            context,
            buffer,
            &entry,
            judged.is_safe(),
            class,
            run_state,
        ),
        None => Ok(false),
    }
}

/// Whether the state for the start of the text has an entry for the end, and that rests.
pub(crate) fn rests_at_end<T: Acting, C: driver_context_t<T>>(
    machine: &ExtendedStateTable<T>,
    context: &C,
) -> bool
    ensures { result ≡ has_entry C.resting (entry_of machine.now 0 0) }
{
    match machine.entry(START_OF_TEXT, END_OF_TEXT) {
        Some(entry) => context.rests(&entry),
        None => false,
    }
}

/// One turn: whether the run goes on.
#[tactic(auto, unfolding(crate::specs::Machine::turn, crate::specs::Machine::off))]
pub(crate) fn turn_once<T: Acting, C: driver_context_t<T>, A: Allocator + Copy>(
    machine: &ExtendedStateTable<T>,
    context: &mut C,
    buffer: &mut hb_buffer_t<A>,
    ranges: &[range_flags_t],
    feature_flags: hb_mask_t,
    last_range: &mut usize,
    run_state: &mut RunState,
) -> Result<bool, AatError>
    requires fit { C.fits context.old buffer.old.cursor (length buffer.old.line) }
    requires ids { IsSmall buffer.old }
    requires gapless { IsGapless ranges.now }
    requires turns { run_state.old.turns + 1 < 2 ^ 64 }
    ensures turn { IfOk result (λ goes.
        turn (machine_with (is_driven_on ranges.now feature_flags) machine.now C.advances C.actionable C.act)
        (config buffer.old context.old run_state.old)
        ≡ turn_of goes (config buffer.new context.new run_state.new)) }
    ensures ids { OnOk result (IsSmall buffer.new) }
    ensures reason { IfErr result (IsRefusal buffer.old (left_by
        (turn (machine_with (is_driven_on ranges.now feature_flags) machine.now C.advances C.actionable C.act)
        (config buffer.old context.old run_state.old))).buffer) }
    ensures refused { OnErr result (IsRefused buffer.old buffer.new) }
{
    count(buffer, run_state);
    if is_driven_on(ranges, feature_flags, last_range, run_state.last_cluster) {
        act_by_entry(machine, context, buffer, run_state)
    } else if buffer.has_current() {
        run_state.state = START_OF_TEXT;
        buffer.next_glyph();
        Ok(true)
    } else {
        Ok(false)
    }
}
