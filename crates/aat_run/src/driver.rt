//! The driver: runs a state table over a line, in any context.
//!
//! Here and in the crates of substitution the driver is the loop that takes the turns, and a context is what is plugged
//! in. In `aat_kerning_machines` a driver is what is plugged in, as in the crate `rustybuzz`.
ghost use Rattle.std.specs.Prelude.{◌≡◌, ◌+◌, ◌-◌, ◌<◌, ◌≤◌, ◌^◌, if◌then◌else◌, ℕ, Bool, true, length, IsOk, OnOk, OnErr, IfOk, IfErr, IfSome};
ghost use Rattle.aat_buffer.specs.Buffer.{with_cursor, without_positions};
ghost use Rattle.aat_buffer.specs.Clusters.{IsSmall};
ghost use Rattle.aat_font.specs.Idle.{has_entry};
ghost use Rattle.aat_machine_tables.specs.Table.{entry_of};
ghost use Rattle.aat_run.specs.Budget.{potential, rest};
ghost use Rattle.aat_run.specs.Context.{is_at_end, machine_with};
ghost use Rattle.aat_run.specs.Driven.{IsRefusal, IsRefused, driven_registers, driven_run, driven_through, driven_to_end, outcome_of, positions_behind};
ghost use Rattle.aat_run.specs.Laws.{IsBounded, SameSettings};
ghost use Rattle.aat_run.specs.Outcome.{IsOutcome};
ghost use Rattle.aat_run.specs.Ranges.{IsGapless, is_driven_on, ranges_of};
ghost use Rattle.aat_run.specs.Machine.{turn};
ghost use Rattle.aat_run.specs.Waking.{PassesOthers};
ghost use Rattle.aat_run.specs.inside.Places.{IsRun, config};
ghost use Rattle.aat_run.specs.inside.Standing.{HasCome};

use crate::aat_layout_common::hb_aat_apply_context_t;
use crate::driver_context::driver_context_t;
use crate::error::AatError;
use crate::ranges::{is_nowhere_on, range_flags_t, ranges_to_ask};
use crate::run_state::RunState;
use crate::turns::{rests_at_end, turn_once};
use crate::wakers::{Wakers, pass_asleep};
use aat_buffer::{hb_buffer_t, hb_mask_t};
use aat_machine_tables::entry_bits::state::START_OF_TEXT;
use aat_machine_tables::{Acting, ExtendedStateTable};
use std::alloc::Allocator;

/// What a run of a state table answers.
#[derive(Clone, Copy, PartialEq, Eq, Debug)]
pub struct MachineRun {
    /// How many turns it took.
    pub turns: u64,
    /// Whether it came to the end of the line: a missing entry may end it before.
    pub is_through: bool,
}

/// Whether glyphs may be passed: the machine is on everywhere, since it has fewer than two ranges, and at rest at the end.
fn may_pass<T: Acting, C: driver_context_t<T>>(
    machine: &ExtendedStateTable<T>,
    context: &C,
    ranges: &[range_flags_t],
) -> bool
    ensures end { result ≡ true → has_entry C.resting (entry_of machine.now 0 0) ≡ true }
    ensures on { (feature_flags x : ℕ) → result ≡ true → is_driven_on ranges.now feature_flags x ≡ true }
{
    ranges.len() < 2 && rests_at_end(machine, context)
}

/// Takes the turns at glyphs that do not wake the machine, where these are known and may be passed. It does so only where
/// the last turn began and ended in the state for the start of the text: behind another turn there are seldom glyphs to
/// pass.
fn pass_on<T: Acting, C: driver_context_t<T>, A: Allocator + Copy>(
    machine: &ExtendedStateTable<T>,
    wakers: Option<Wakers>,
    context: &C,
    buffer: &mut hb_buffer_t<A>,
    does_pass: bool,
    was_at_start: bool,
    run_state: &mut RunState,
)
    requires others { IfSome wakers (PassesOthers C.advances C.resting machine.now) }
    requires end { does_pass ≡ true → has_entry C.resting (entry_of machine.now 0 0) ≡ true }
    requires fit { C.fits context.now buffer.old.cursor (length buffer.old.line) }
    requires ids { IsSmall buffer.old }
    requires turns { run_state.old.turns + rest buffer.old < 2 ^ 64 }
    ensures come { (on : ℕ → Bool) → (does_pass ≡ true → (x : ℕ) → on x ≡ true)
        → HasCome (turn (machine_with on machine.now C.advances C.actionable C.act)) C.fits
        (config buffer.old context.now run_state.old) (config buffer.new context.now run_state.new) }
    ensures ids { IsSmall buffer.new }
    ensures settings { SameSettings buffer.old buffer.new }
    ensures length { length buffer.new.line ≡ length buffer.old.line }
    ensures less { potential buffer.new ≤ potential buffer.old }
{
    let Some(wakers) = wakers else {
        return;
    };
    if does_pass && was_at_start && run_state.state == START_OF_TEXT {
        pass_asleep(wakers, buffer, run_state);
    }
}

/// Takes turns until one ends, and answers their number and whether they came to the end of the line.
#[tactic(auto, using(crate::specs::facts::Settings::refused_behind))]
fn run_turns<T: Acting, C: driver_context_t<T>, A: Allocator + Copy>(
    machine: &ExtendedStateTable<T>,
    wakers: Option<Wakers>,
    context: &mut C,
    buffer: &mut hb_buffer_t<A>,
    ranges: &[range_flags_t],
    feature_flags: hb_mask_t,
) -> Result<MachineRun, AatError>
    requires others { IfSome wakers (PassesOthers C.advances C.resting machine.now) }
    requires fit { C.fits context.old buffer.old.cursor (length buffer.old.line) }
    requires ids { IsSmall buffer.old }
    requires gapless { IsGapless ranges.now }
    ensures run { IfOk result (λ o. IsRun (driven_to_end ranges.now feature_flags machine.now
        C.advances C.actionable C.act buffer.old context.old) buffer.new context.new o.turns) }
    ensures through { IfOk result (λ o. o.is_through ≡ is_at_end (driven_to_end ranges.now feature_flags machine.now
        C.advances C.actionable C.act buffer.old context.old).buffer) }
    ensures few { IfOk result (λ o. o.turns ≤ potential buffer.old + 1) }
    ensures ids { OnOk result (IsSmall buffer.new) }
    ensures reason { IfErr result (IsRefusal buffer.old (driven_to_end ranges.now feature_flags machine.now
        C.advances C.actionable C.act buffer.old context.old).buffer) }
    ensures refused { OnErr result (IsRefused buffer.old buffer.new) }
{
    let _length = buffer.len();
    let _budget = buffer.max_ops();
    let mut last_range = 0;
    let mut run_state = RunState {
        state: START_OF_TEXT,
        last_cluster: 0,
        turns: 0,
    };
    let does_pass = may_pass(machine, &*context, ranges);
    let mut was_at_start = true;
    while turn_once(
        machine,
        context,
        buffer,
        ranges,
        feature_flags,
        &mut last_range,
        &mut run_state,
    )? {
        pass_on(
            machine,
            wakers,
            &*context,
            buffer,
            does_pass,
            was_at_start,
            &mut run_state,
        );
        was_at_start = run_state.state == START_OF_TEXT;
    }
    Ok(MachineRun {
        turns: run_state.turns,
        is_through: !buffer.has_current(),
    })
}

/// Puts the cursor at the front. A context that is not in place drops the positions.
fn begin<A: Allocator + Copy>(buffer: &mut hb_buffer_t<A>, in_place: bool)
    ensures { buffer.new ≡ with_cursor (if in_place then buffer.old else without_positions buffer.old) 0 }
{
    if !in_place {
        buffer.drop_positions();
    }
    buffer.sync();
}

/// Takes turns from the front until one ends, and answers as `run_turns` does. Where there are two ranges or more and
/// none switches the machine on, each turn would pass a glyph: then there is one for each glyph and one more, and the
/// line is passed over.
fn take_turns<T: Acting, C: driver_context_t<T>, A: Allocator + Copy>(
    machine: &ExtendedStateTable<T>,
    wakers: Option<Wakers>,
    context: &mut C,
    buffer: &mut hb_buffer_t<A>,
    ranges: &[range_flags_t],
    feature_flags: hb_mask_t,
) -> Result<MachineRun, AatError>
    requires others { IfSome wakers (PassesOthers C.advances C.resting machine.now) }
    requires front { buffer.old.cursor ≡ 0 }
    requires fit { C.fits context.old 0 (length buffer.old.line) }
    requires ids { IsSmall buffer.old }
    requires gapless { IsGapless ranges.now }
    ensures run { IfOk result (λ o. IsOutcome (outcome_of (driven_to_end ranges.now feature_flags machine.now
        C.advances C.actionable C.act buffer.old context.old)) (with_cursor buffer.new 0) o.turns) }
    ensures through { IfOk result (λ o. o.is_through ≡ is_at_end (driven_to_end ranges.now feature_flags machine.now
        C.advances C.actionable C.act buffer.old context.old).buffer) }
    ensures registers { OnOk result (context.new ≡ (driven_to_end ranges.now feature_flags machine.now
        C.advances C.actionable C.act buffer.old context.old).registers) }
    ensures few { IfOk result (λ o. o.turns ≤ potential buffer.old + 1) }
    ensures ids { OnOk result (IsSmall buffer.new) }
    ensures reason { IfErr result (IsRefusal buffer.old (driven_to_end ranges.now feature_flags machine.now
        C.advances C.actionable C.act buffer.old context.old).buffer) }
    ensures refused { OnErr result (IsRefused buffer.old buffer.new) }
{
    if ranges.len() > 1 && is_nowhere_on(ranges, feature_flags) {
        return Ok(MachineRun {
            turns: buffer.len() as u64 + 1,
            is_through: true,
        });
    }
    let asked = ranges_to_ask(ranges, feature_flags);
    run_turns(machine, wakers, context, buffer, asked, feature_flags)
}

/// Does as `run_machine`, and answers besides the number of turns whether the run came to the end of the line.
#[tactic(auto, unfolding(crate::specs::Driven::machine_run, crate::specs::Driven::comes_to_end, crate::specs::Driven::registers_behind))]
pub fn run_machine_through<T: Acting, C: driver_context_t<T>, A: Allocator + Copy>(
    machine: &ExtendedStateTable<T>,
    wakers: Option<Wakers>,
    context: &mut C,
    buffer: &mut hb_buffer_t<A>,
    ranges: &[range_flags_t],
    feature_flags: hb_mask_t,
) -> Result<MachineRun, AatError>
    requires others { IfSome wakers (PassesOthers C.advances C.resting machine.now) }
    requires fit { C.fits context.old 0 (length buffer.old.line) }
    requires ids { IsSmall buffer.old }
    requires gapless { IsGapless ranges.now }
    ensures run { IfOk result (λ o. IsOutcome (driven_run ranges.now feature_flags machine.now C.stays_in_place
        C.advances C.actionable C.act context.old buffer.old) buffer.new o.turns) }
    ensures through { IfOk result (λ o. o.is_through ≡ driven_through ranges.now feature_flags machine.now
        C.stays_in_place C.advances C.actionable C.act context.old buffer.old) }
    ensures registers { OnOk result (context.new ≡
        driven_registers ranges.now feature_flags machine.now C.stays_in_place
        C.advances C.actionable C.act context.old buffer.old) }
    ensures bounded { IfOk result (λ o. IsBounded buffer.old (record { buffer = buffer.new; turns = o.turns })) }
    ensures few { IfOk result (λ o. o.turns < 2 ^ 62) }
    ensures ids { OnOk result (IsSmall buffer.new) }
    ensures settings { OnOk result (SameSettings buffer.old buffer.new) }
    ensures positions { OnOk result (buffer.new.positions ≡ positions_behind C.stays_in_place buffer.old) }
    ensures longer { OnErr result (length buffer.old.line < length
        (driven_run ranges.now feature_flags machine.now C.stays_in_place
        C.advances C.actionable C.act context.old buffer.old).buffer.line) }
    ensures reason { IfErr result (IsRefusal buffer.old
        (driven_run ranges.now feature_flags machine.now C.stays_in_place
        C.advances C.actionable C.act context.old buffer.old).buffer) }
    ensures refused { OnErr result (IsRefused buffer.old buffer.new) }
    ensures in_place { C.stays_in_place ≡ true → IsOk result }
    ensures kept { C.keeps_length ≡ true → IsOk result }
{
    let _most = buffer.max_len();
    let _budget = buffer.max_ops();
    begin(buffer, context.in_place());
    match take_turns(machine, wakers, context, buffer, ranges, feature_flags) {
        Ok(outcome) => {
            buffer.sync();
            Ok(outcome)
        }
        Err(error) => Err(error),
    }
}

/// Runs a state table over a line in a context, from the front, and answers the number of turns. `drive` has the
/// rules.
///
/// The ranges have to follow one another from 0 without a gap. With fewer than two of them the machine is on at each
/// cluster. Where it is said which glyphs may wake the machine, it has to pass each other one in state 0, and need not
/// be asked at them.
pub fn run_machine<T: Acting, C: driver_context_t<T>, A: Allocator + Copy>(
    machine: &ExtendedStateTable<T>,
    wakers: Option<Wakers>,
    context: &mut C,
    buffer: &mut hb_buffer_t<A>,
    ranges: &[range_flags_t],
    feature_flags: hb_mask_t,
) -> Result<u64, AatError>
    requires others { IfSome wakers (PassesOthers C.advances C.resting machine.now) }
    requires fit { C.fits context.old 0 (length buffer.old.line) }
    requires ids { IsSmall buffer.old }
    requires gapless { IsGapless ranges.now }
    ensures run { IfOk result (IsOutcome (driven_run ranges.now feature_flags machine.now C.stays_in_place
        C.advances C.actionable C.act context.old buffer.old) buffer.new) }
    ensures registers { OnOk result (context.new ≡
        driven_registers ranges.now feature_flags machine.now C.stays_in_place
        C.advances C.actionable C.act context.old buffer.old) }
    ensures bounded { IfOk result (λ turns. IsBounded buffer.old (record { buffer = buffer.new; turns = turns })) }
    ensures few { IfOk result (λ turns. turns < 2 ^ 62) }
    ensures ids { OnOk result (IsSmall buffer.new) }
    ensures settings { OnOk result (SameSettings buffer.old buffer.new) }
    ensures positions { OnOk result (buffer.new.positions ≡ positions_behind C.stays_in_place buffer.old) }
    ensures longer { OnErr result (length buffer.old.line < length
        (driven_run ranges.now feature_flags machine.now C.stays_in_place
        C.advances C.actionable C.act context.old buffer.old).buffer.line) }
    ensures reason { IfErr result (IsRefusal buffer.old
        (driven_run ranges.now feature_flags machine.now C.stays_in_place
        C.advances C.actionable C.act context.old buffer.old).buffer) }
    ensures refused { OnErr result (IsRefused buffer.old buffer.new) }
    ensures in_place { C.stays_in_place ≡ true → IsOk result }
    ensures kept { C.keeps_length ≡ true → IsOk result }
{
    match run_machine_through(machine, wakers, context, buffer, ranges, feature_flags) {
        Ok(outcome) => Ok(outcome.turns),
        Err(error) => Err(error),
    }
}

/// The ranges that a run carries along, none at first.
fn ranges_in(range_flags: Option<&[range_flags_t]>) -> &[range_flags_t]
    ensures { result.now ≡ ranges_of range_flags.entry }
{
    match range_flags {
        Some(ranges) => ranges,
        None => &[],
    }
}

/// Runs a state table over the line of `c` in a context, from the front, in state 0 and with the registers that it
/// is handed, and adds the number of turns to those of `c`.
///
/// Each turn looks at the glyph at the cursor, or at the end of the text. Where the subtable is off at its cluster,
/// the cursor passes it in state 0, and registers and budget stay; at the end the run ends. Else the entry at the
/// state and the glyph's class is taken: the line gets the mark before the cursor, unless the turn passes HarfBuzz's
/// test of three conditions, the context does its act, and the entry's state is the new one. At the end of the line the
/// run ends then; else the cursor moves on where the entry advances, and where it stays one operation is paid for, and
/// the cursor moves on in spite of it once the budget is used up. A missing entry ends the run. The cursor is at the
/// front afterwards.
///
/// A turn that leaves no mark passed that test, and no more. Registers outlive state 0, so that the two parts of the
/// line, shaped apart, may come out differently there: `specs/Safe.antt` says what the mark tells.
///
/// The subtable is on where its feature flags share a bit with those of the range that holds the cluster; with
/// fewer than two ranges, or with none, it is on everywhere. At the end of the text the cluster is that of the last
/// glyph that was looked at, 0 where there was none.
///
/// The context has to fit at the front, each glyph id has to be at most 0xFFFF, which `all_glyphs_16` tells, the
/// ranges have to follow one another from 0 without a gap, and the turns so far have to be at most 2^62.
///
/// A context in place keeps the positions; another drops them. A context that is in place, or that keeps the number of
/// glyphs, is never refused. Another is refused as 2, `TooLong`, only where the run would leave a line longer than the
/// buffer's `max_len`, and as 3, `OutOfMemory`, only where it would leave a longer line than it found, and the line was
/// shorter than `max_len`: a line of that length is always refused as 2. Of a shorter one that would be too long either
/// may come, since memory can be wanting before. After a refusal the buffer has failed, its line is some line of 16-bit
/// glyphs that has at most its greatest length, all but line, cursor, positions and budget is as before, the registers
/// are any, and no turns are added. A buffer that had failed before is run as any other.
///
/// What follows of its steps is not proved. A turn takes a bounded number of them but for its act, the look-ups in the
/// table, which search by bisection where it has no array, pages, grid or rows, or the state is above the grid, and the
/// search for the range of a cluster that lies neither in the range that was found last nor in one beside it, which
/// bisects ranges that end at the last cluster there can be and walks through others. Where there are two ranges or
/// more and none switches the machine on the line is passed over at once, and where each does and they end at the last
/// cluster there can be no turn asks for a range. No memory is taken but by the act.
///
/// Apple's TrueType Reference Manual, "The 'morx' table", and the section on state tables in "Font Tables".
pub fn drive<T: Acting, C: driver_context_t<T>, A: Allocator + Copy>(
    machine: &ExtendedStateTable<T>,
    context: &mut C,
    c: &mut hb_aat_apply_context_t<A>,
) -> Result<(), AatError>
    requires fit { C.fits context.old 0 (length c.old.buffer.now.line) }
    requires ids { IsSmall c.old.buffer.now }
    requires gapless { IsGapless (ranges_of c.old.range_flags) }
    requires turns { c.old.turns ≤ 2 ^ 62 }
    ensures run { OnOk result (IsOutcome (driven_run (ranges_of c.old.range_flags) c.old.subtable_flags machine.now
        C.stays_in_place C.advances C.actionable C.act context.old c.old.buffer.now)
        c.new.buffer.now (c.new.turns - c.old.turns)) }
    ensures registers { OnOk result (context.new ≡
        driven_registers (ranges_of c.old.range_flags) c.old.subtable_flags machine.now
        C.stays_in_place C.advances C.actionable C.act context.old c.old.buffer.now) }
    ensures bounded { OnOk result (IsBounded c.old.buffer.now
        (record { buffer = c.new.buffer.now; turns = c.new.turns - c.old.turns })) }
    ensures counted { c.old.turns ≤ c.new.turns }
    ensures ids { OnOk result (IsSmall c.new.buffer.now) }
    ensures settings { OnOk result (SameSettings c.old.buffer.now c.new.buffer.now) }
    ensures positions { OnOk result (c.new.buffer.now.positions ≡ positions_behind C.stays_in_place c.old.buffer.now) }
    ensures longer { OnErr result (length c.old.buffer.now.line < length
        (driven_run (ranges_of c.old.range_flags) c.old.subtable_flags machine.now
        C.stays_in_place C.advances C.actionable C.act context.old c.old.buffer.now).buffer.line) }
    ensures reason { IfErr result (IsRefusal c.old.buffer.now
        (driven_run (ranges_of c.old.range_flags) c.old.subtable_flags machine.now
        C.stays_in_place C.advances C.actionable C.act context.old c.old.buffer.now).buffer) }
    ensures refused { OnErr result (IsRefused c.old.buffer.now c.new.buffer.now) }
    ensures uncounted { OnErr result (c.new.turns ≡ c.old.turns) }
    ensures in_place { C.stays_in_place ≡ true → IsOk result }
    ensures kept { C.keeps_length ≡ true → IsOk result }
    ensures ranges { c.new.range_flags ≡ c.old.range_flags }
    ensures flags { c.new.subtable_flags ≡ c.old.subtable_flags }
    ensures face { c.new.face ≡ c.old.face }
    ensures same { c.new.buffer.ghost_name ≡ c.old.buffer.ghost_name }
{
    let feature_flags = c.subtable_flags;
    let ranges = ranges_in(c.range_flags);
    let buffer = &mut *c.buffer;
    match run_machine(machine, None, context, buffer, ranges, feature_flags) {
        Ok(turns) => {
            c.turns += turns;
            Ok(())
        }
        Err(error) => Err(error),
    }
}
