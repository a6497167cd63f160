//! The run of a kerning machine over a line, by any driver.
//!
//! The driver is here what is plugged into the run, as `StateTableDriver` is in `rustybuzz`. In `aat_run` the driver is
//! the loop, and what is plugged in is a context.
ghost use Rattle.std.specs.Prelude.{◌≡◌, ◌+◌, ◌<◌, ◌≤◌, ◌^◌, false, true, length};
ghost use Rattle.aat_buffer.specs.Clusters.{IsSmall};
ghost use Rattle.aat_kerning_machines.specs.KerningMachine.{driver_run, kerning_whole, registers_left};
ghost use Rattle.aat_kerning_machines.specs.Positions.{IsPlaced};
ghost use Rattle.aat_kerning_machines.specs.Runs.{driver_over, machine_over};
ghost use Rattle.aat_run.specs.Budget.{operations_left, potential};
ghost use Rattle.aat_run.specs.Context.{first_config};
ghost use Rattle.aat_run.specs.inside.Places.{IsRun};

use crate::kerning_turns::turn_once;
use crate::passing::{may_pass, next_entry};
use crate::run::KerningRun;
use crate::run_state::RunState;
use crate::state_table_driver::StateTableDriver;
use aat_buffer::hb_buffer_t;
use aat_machine_tables::Acting;
use aat_machine_tables::entry_bits::state::START_OF_TEXT;
use std::alloc::Allocator;

/// Takes turns until one ends, and answers their number.
fn run_turns<Table, E: Acting, D: StateTableDriver<Table, E>, A: Allocator + Copy>(
    run: &KerningRun<Table, E>,
    pays_first: bool,
    driver: &mut D,
    buffer: &mut hb_buffer_t<A>,
) -> u64
    requires fit { D.fits driver.old buffer.old.cursor (length buffer.old.line) }
    requires ids { IsSmall buffer.old }
    requires placed { IsPlaced buffer.old }
    ensures run { IsRun (kerning_whole (machine_over run.now D.actionable D.act pays_first)
        (first_config buffer.old driver.old)) buffer.new driver.new result }
    ensures paid { result + operations_left buffer.new.max_ops ≤ potential buffer.old + 1 }
    ensures ids { IsSmall buffer.new }
    ensures placed { IsPlaced buffer.new }
{
    let _length = buffer.len();
    let _budget = buffer.max_ops();
    let mut run_state = RunState {
        state: START_OF_TEXT,
        turns: 0,
    };
    let may_pass = may_pass(run, &*driver);
    loop {
        let entry = next_entry(run, &*driver, may_pass, buffer, &mut run_state);
        if !turn_once(run, pays_first, driver, buffer, entry, &mut run_state) {
            return run_state.turns;
        }
    }
}

/// Runs a machine of a kerning subtable over a line from the front, in state 0 and with the registers that its driver
/// has, and answers the number of turns. Machines of `kern` pay for a turn before the cursor moves, and those of `kerx`
/// behind that: `pays_first` tells which, and they differ in nothing else.
///
/// Each turn takes the entry at the state and the class of the glyph at the cursor: class 1 for a glyph without one,
/// and class 0 at the end of the line. A missing entry ends the run. Behind the first glyph and before the end, where
/// the state is not 0, an entry that is actionable, goes to a state that is not 0 or advances marks the glyphs before
/// and at the cursor as unsafe to break between; the registers, which outlive state 0, are not asked, so that a line
/// without that mark may depend on what they hold. Where two glyphs or more are left, the entry at the
/// state and class 0 is looked at: a missing one ends the run, and one that is actionable marks the glyph at the
/// cursor and the one behind it. Then the driver does the act of the turn's entry, whose state is the new one. At the
/// end of the line the run ends then; else one operation is paid for where the machine pays first, the cursor moves on
/// where the entry advances or what is left of the budget is 0 or less, and one operation is paid for where it does not
/// pay first. The cursor is at the front afterwards, and the driver is left with the registers of the last turn.
///
/// The driver has to fit at the front, each glyph id has to be at most 0xFFFF, which `all_glyphs_16` tells, and each
/// glyph has to have its position, as `has_positions` tells. It is never refused, and a buffer that had failed before
/// is run as any other.
///
/// A turn takes a bounded number of steps but for its act and the look-ups in the table, which search by bisection
/// where it has no array, pages, grid or rows, or the state is above the grid. Each turn beyond the number of glyphs and
/// one more has been paid for from the budget. No memory is taken.
///
/// Apple's TrueType Reference Manual, "The 'kerx' table", formats 1 and 4, "The 'kern' table", format 1, and the
/// section on state tables in "Font Tables".
#[tactic(auto, unfolding(crate::specs::KerningMachine::driver_run, crate::specs::KerningMachine::registers_left))]
pub fn drive_kerning<Table, E: Acting, D: StateTableDriver<Table, E>, A: Allocator + Copy>(
    run: &KerningRun<Table, E>,
    pays_first: bool,
    driver: &mut D,
    buffer: &mut hb_buffer_t<A>,
) -> u64
    requires fit { D.fits driver.old 0 (length buffer.old.line) }
    requires ids { IsSmall buffer.old }
    requires placed { IsPlaced buffer.old }
    ensures run { record { buffer = buffer.new; turns = result }
        ≡ driver_run pays_first run.now.state_table.now
        (driver_over run.now D.actionable D.act driver.old) buffer.old }
    ensures registers { driver.new
        ≡ registers_left pays_first run.now.state_table.now
        (driver_over run.now D.actionable D.act driver.old) buffer.old }
    ensures paid { result + operations_left buffer.new.max_ops
        ≤ length buffer.old.line + 1 + operations_left buffer.old.max_ops }
    ensures few { result < 2 ^ 32 }
    ensures ids { IsSmall buffer.new }
    ensures placed { IsPlaced buffer.new }
{
    let _length = buffer.len();
    let _budget = buffer.max_ops();
    buffer.sync();
    let turns = run_turns(run, pays_first, driver, buffer);
    buffer.sync();
    turns
}
