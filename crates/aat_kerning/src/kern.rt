//! Kerning by the kerning table.
ghost use Rattle.std.specs.Prelude.{◌≡◌, ◌<◌, ◌^◌, ◌+◌, ◌*◌, ◌≤◌, ◌↔◌, All, bit_and, false, true, IfErr, IfOk, IsErrOf, IsNone, IsTrue, IsSome, length, map, OnErr, OnOk};
ghost use Rattle.aat_buffer.specs.Clusters.{IsSmall};
ghost use Rattle.aat_font.specs.Face.{tables_of};
ghost use Rattle.aat_kerning.specs.Advances.{KernSumsAdvances};
ghost use Rattle.aat_kerning.specs.FontKerning.{KernCanBeCut, KernCanBeCutAlike, kern_subtables, kerned_by_kern};
ghost use Rattle.aat_kerning.specs.KerningLawful.{KernPaysForStaying};
ghost use Rattle.aat_kerning_machines.specs.KerningLaws.{IsKernedFrom};
ghost use Rattle.aat_kerning_machines.specs.KerningMachine.{driver_run};
ghost use Rattle.aat_kerning.specs.PairKerning.{pair_kerning};
ghost use Rattle.aat_kerning.specs.Pairs.{kern_skips};
ghost use Rattle.aat_kerning.specs.Positioning.{AreKernPairs, is_kern_pairs, kerning_of_kern_subtable, line_marked, run_of_kern_subtable};
ghost use Rattle.aat_kerning_machines.specs.Positions.{IsPlaced};
ghost use Rattle.aat_kerning_machines.specs.Stack.{kern_driver};
ghost use Rattle.aat_kerning.specs.Values.{values_of};
ghost use Rattle.aat_run.specs.Budget.{operations_left};

use crate::kerning_subtable::{KerningSubtable, kern_by_subtables};
use crate::pair_kerning::PairRun;
use crate::pair_values::PairValues;
use crate::positioning::{is_for_text, kern_line};
use crate::solid::KERN_SKIPS;
use aat_buffer::{Direction, hb_buffer_t};
use aat_font::{hb_font_t, hb_ot_shape_plan_t};
use aat_kerning_machines::{KerningRun, StateMachineDriver, drive_kerning};
use aat_kerning_tables::{Ankr, KernKind, KernMachine, KernSubtable};
use aat_run::AatError;
use std::alloc::Allocator;

/// Runs a machine of the `kern` table over a line in processing order, and answers its turns.
fn run_kern_machine<A: Allocator + Copy>(
    plan: &hb_ot_shape_plan_t,
    has_cross_stream: bool,
    machine: &KernMachine,
    buffer: &mut hb_buffer_t<A>,
) -> u64
    requires ids { IsSmall buffer.old }
    requires placed { IsPlaced buffer.old }
    ensures run { record { buffer = buffer.new; turns = result }
        ≡ driver_run true machine.now.state_table
        (kern_driver has_cross_stream plan.now.kern_mask machine.now.values) buffer.old }
    ensures few { result < 2 ^ 32 }
    ensures ids { IsSmall buffer.new }
    ensures placed { IsPlaced buffer.new }
{
    let run = KerningRun {
        state_table: &machine.state_table,
        table: machine,
        has_cross_stream,
        tuple_count: 1,
        plan,
    };
    let mut driver = StateMachineDriver::new();
    let pays_first = true;
    drive_kerning(&run, pays_first, &mut driver, buffer)
}

/// Kerns by the pairs of a `kern` subtable.
fn kern_by_pairs<A: Allocator + Copy>(
    plan: &hb_ot_shape_plan_t,
    subtable: &KernSubtable,
    values: PairValues,
    buffer: &mut hb_buffer_t<A>,
)
    requires ids { IsSmall buffer.old }
    requires placed { IsPlaced buffer.old }
    ensures kerned { buffer.new
        ≡ pair_kerning kern_skips plan.now.kern_mask subtable.now.has_cross_stream (values_of values.entry)
        (line_marked true buffer.old) }
    ensures ids { IsSmall buffer.new }
    ensures placed { IsPlaced buffer.new }
{
    let run = PairRun {
        values,
        skips: KERN_SKIPS,
        kern_mask: plan.kern_mask,
        is_cross_stream: subtable.has_cross_stream,
    };
    kern_line(&run, true, buffer);
}

/// Kerns by a `kern` subtable, and answers the turns of a machine, which are 0 of pairs.
fn run_kern_subtable<A: Allocator + Copy>(
    plan: &hb_ot_shape_plan_t,
    subtable: &KernSubtable,
    buffer: &mut hb_buffer_t<A>,
) -> u64
    requires ids { IsSmall buffer.old }
    requires placed { IsPlaced buffer.old }
    ensures run { record { buffer = buffer.new; turns = result }
        ≡ run_of_kern_subtable plan.now.kern_mask subtable.now.has_cross_stream subtable.now.kind buffer.old }
    ensures few { result < 2 ^ 32 }
    ensures ids { IsSmall buffer.new }
    ensures placed { IsPlaced buffer.new }
{
    match &subtable.kind {
        KernKind::Pairs(pairs) => {
            kern_by_pairs(plan, subtable, PairValues::Listed(pairs), buffer);
            0
        }
        KernKind::Classes(pairs) => {
            kern_by_pairs(plan, subtable, PairValues::Classes(pairs), buffer);
            0
        }
        KernKind::Machine(machine) => {
            run_kern_machine(plan, subtable.has_cross_stream, machine, buffer)
        }
    }
}

/// Whether a `kern` subtable is of pairs.
fn is_of_kern_pairs(subtable: &KernSubtable) -> bool
    ensures { result ≡ is_kern_pairs subtable.now.kind }
{
    match &subtable.kind {
        KernKind::Pairs(_) => true,
        KernKind::Classes(_) => true,
        KernKind::Machine(_) => false,
    }
}

impl KerningSubtable for KernSubtable {
    ghost use Rattle.aat_kerning.specs.Positioning as positioning;

    ghost kerning = { λ kern_mask points. positioning.kerning_of_kern_subtable kern_mask };

    fn is_for_text(&self, direction: Direction) -> bool {
        is_for_text(self.horizontal, self.variable, direction)
    }

    fn has_cross_stream(&self) -> bool {
        self.has_cross_stream
    }

    fn is_of_pairs(&self) -> bool {
        is_of_kern_pairs(self)
    }

    fn run<A: Allocator + Copy>(
        &self,
        plan: &hb_ot_shape_plan_t,
        _ankr: Option<&Ankr>,
        buffer: &mut hb_buffer_t<A>,
    ) -> u64 {
        run_kern_subtable(plan, self, buffer)
    }
}

/// Whether all subtables of a font's kerning table are of pairs, as they are without the table. Then a line that
/// `hb_ot_layout_kern` kerns can be cut as it says. In as many steps as there are subtables.
pub fn has_kern_pairs_alone(face: &hb_font_t) -> bool
    ensures { IsTrue result ↔ AreKernPairs (kern_subtables face.now) }
{
    face.kern_subtables()
        .iter()
        .all(|subtable| is_of_kern_pairs(subtable))
}

/// Kerns a line by the kerning table of a font, and answers the number of turns that its machines took, which is 0 of
/// pairs. Without the table nothing changes, and there are no turns.
///
/// What it does, where a line can be cut, and how the sum of the advances changes is as with `hb_aat_layout_position`,
/// but the line is marked against joining by each subtable of pairs that kerns, of the glyphs with properties marks
/// alone are skipped (`KERN_SKIPS`), and machines run as `drive_kerning` does, with `StateMachineDriver`.
///
/// HarfBuzz marks the whole line against joining for each subtable of the `kern` table, for machines too and where
/// kerning is not requested. Here a machine does not, nor do pairs where kerning is not requested.
///
/// K subtables over n glyphs with a budget of M operations, 0 where it is negative, take at most K(n + 1) + M turns,
/// and each one beyond K(n + 1) is paid for with an operation. A turn that goes on and leaves the cursor where it was
/// took one and left some, so a machine cannot stay for ever.
///
/// Each glyph id has to be at most 0xFFFF, which `all_glyphs_16` tells, and positions have to stand, which
/// `has_positions` tells. They stand afterwards too, one for each glyph.
///
/// Refused as 4, `BufferFailed`, where a call of the buffer was refused before, and nothing changes then; never else.
/// It takes no memory.
///
/// Apple's TrueType Reference Manual, "The 'kern' table".
#[tactic(auto, using(crate::proofs::Staying::kern_pays_for_staying))]
pub fn hb_ot_layout_kern<A: Allocator + Copy>(
    plan: &hb_ot_shape_plan_t,
    face: &hb_font_t,
    buffer: &mut hb_buffer_t<A>,
) -> Result<u64, AatError>
    requires ids { IsSmall buffer.old }
    requires positions { IsSome buffer.old.positions }
    ensures failed { IsErrOf result AatError.BufferFailed ↔ (buffer.old.successful ≡ false) }
    ensures reason { IfErr result (λ error. error ≡ AatError.BufferFailed) }
    ensures unchanged { OnErr result (buffer.new ≡ buffer.old) }
    ensures positioned { IfOk result (λ turns.
        record { buffer = buffer.new; turns = turns } ≡ kerned_by_kern plan.now face.now buffer.old) }
    ensures without_table { IsNone (tables_of face.now).kern →
        IfOk result (λ turns. (turns ≡ 0) × (buffer.new ≡ buffer.old)) }
    ensures cut { bit_and plan.now.kern_mask 7 ≡ 0 →
        OnOk result (KernCanBeCut plan.now face.now buffer.old buffer.new) }
    ensures cut_alike { OnOk result (KernCanBeCutAlike plan.now face.now buffer.old buffer.new) }
    ensures summed { IsTrue plan.now.requested_kerning → bit_and plan.now.kern_mask 7 ≡ 0 →
        OnOk result (KernSumsAdvances plan.now.kern_mask (kern_subtables face.now) buffer.old buffer.new) }
    ensures placed { OnOk result (IsPlaced buffer.new) }
    ensures paid { IfOk result (λ turns. turns + operations_left buffer.new.max_ops
        ≤ length (kern_subtables face.now) * (length buffer.old.line + 1) + operations_left buffer.old.max_ops) }
    ensures staying { All (KernPaysForStaying plan.now.kern_mask) (kern_subtables face.now) }
    ensures kept { OnOk result (IsKernedFrom buffer.old buffer.new) }
{
    if !buffer.is_successful() {
        return Err(AatError::BufferFailed);
    }
    let _placed = buffer.has_positions();
    Ok(kern_by_subtables(plan, None, face.kern_subtables(), buffer))
}
