//! Kerning by the extended kerning table.
ghost use Rattle.std.specs.Prelude.{◌≡◌, ◌<◌, ◌^◌, ◌+◌, ◌*◌, ◌≤◌, ◌↔◌, All, bit_and, false, IfErr, IfOk, IsErrOf, IsNone, IsTrue, IsSome, length, map, OnErr, OnOk, None, option_copied};
ghost use Rattle.aat_buffer.specs.Clusters.{IsSmall};
ghost use Rattle.aat_buffer.specs.Marks.{unsafe_to_concat};
ghost use Rattle.aat_font.specs.Face.{tables_of};
ghost use Rattle.aat_kerning.specs.Advances.{KerxSumsAdvances};
ghost use Rattle.aat_kerning.specs.FontKerning.{KerxCanBeCut, KerxCanBeCutAlike, kerned_by_kerx, kerx_subtables};
ghost use Rattle.aat_kerning_machines.specs.Anchors.{anchor_driver};
ghost use Rattle.aat_kerning.specs.KerningLawful.{KerxPaysForStaying};
ghost use Rattle.aat_kerning_machines.specs.KerningLaws.{IsKernedFrom};
ghost use Rattle.aat_kerning_machines.specs.KerningMachine.{driver_run};
ghost use Rattle.aat_kerning.specs.Positioning.{AreKerxPairs, is_kerx_pairs, is_turned_round, kerning_of_kerx_subtable, run_of_kerx_subtable};
ghost use Rattle.aat_kerning_machines.specs.Positions.{IsPlaced};
ghost use Rattle.aat_kerning_machines.specs.Stack.{kerx_driver};
ghost use Rattle.aat_run.specs.Budget.{operations_left};

use crate::kerning_subtable::{KerningSubtable, kern_by_subtables};
use crate::pair_kerning::PairRun;
use crate::pair_values::PairValues;
use crate::positioning::{is_for_text, kern_line, mark_line, turn_round};
use crate::solid::KERX_SKIPS;
use aat_buffer::{Direction, hb_buffer_t, hb_mask_t};
use aat_font::{hb_font_t, hb_ot_shape_plan_t};
use aat_kerning_machines::{Driver1, Driver4, KerningRun, drive_kerning};
use aat_kerning_tables::{Ankr, KerxFormat, KerxSubtable, Subtable1, Subtable4};
use aat_run::AatError;
use std::alloc::Allocator;

/// How the pairs of a `kerx` subtable are kerned.
fn pairs_of<'a>(
    kern_mask: hb_mask_t,
    subtable: &KerxSubtable,
    values: PairValues<'a>,
) -> PairRun<'a>
    ensures values { result.values ≡ values.entry }
    ensures skips { result.skips ≡ 0x000E }
    ensures mask { result.kern_mask ≡ kern_mask }
    ensures across { result.is_cross_stream ≡ subtable.now.has_cross_stream }
{
    PairRun {
        values,
        skips: KERX_SKIPS,
        kern_mask,
        is_cross_stream: subtable.has_cross_stream,
    }
}

/// Runs a stack machine of the `kerx` table over a line in the order of the machine, and answers its turns.
fn run_stack<A: Allocator + Copy>(
    plan: &hb_ot_shape_plan_t,
    subtable: &KerxSubtable,
    machine: &Subtable1,
    buffer: &mut hb_buffer_t<A>,
) -> u64
    requires ids { IsSmall buffer.old }
    requires placed { IsPlaced buffer.old }
    ensures run { record { buffer = buffer.new; turns = result }
        ≡ driver_run false machine.now.state_table
        (kerx_driver subtable.now.has_cross_stream plan.now.kern_mask subtable.now.tuple_count
        machine.now.values) buffer.old }
    ensures few { result < 2 ^ 32 }
    ensures ids { IsSmall buffer.new }
    ensures placed { IsPlaced buffer.new }
{
    let run = KerningRun {
        state_table: &machine.state_table,
        table: machine,
        has_cross_stream: subtable.has_cross_stream,
        tuple_count: subtable.tuple_count,
        plan,
    };
    let mut driver = Driver1::new();
    let pays_first = false;
    drive_kerning(&run, pays_first, &mut driver, buffer)
}

/// Runs an anchor machine of the `kerx` table over a line in the order of the machine, and answers its turns.
fn run_anchors<A: Allocator + Copy>(
    plan: &hb_ot_shape_plan_t,
    ankr: Option<&Ankr>,
    subtable: &KerxSubtable,
    machine: &Subtable4,
    buffer: &mut hb_buffer_t<A>,
) -> u64
    requires ids { IsSmall buffer.old }
    requires placed { IsPlaced buffer.old }
    ensures run { record { buffer = buffer.new; turns = result }
        ≡ driver_run false machine.now.state_table
        (anchor_driver (option_copied ankr.entry) machine.now.anchor_points) buffer.old }
    ensures few { result < 2 ^ 32 }
    ensures ids { IsSmall buffer.new }
    ensures placed { IsPlaced buffer.new }
{
    let run = KerningRun {
        state_table: &machine.state_table,
        table: machine,
        has_cross_stream: subtable.has_cross_stream,
        tuple_count: subtable.tuple_count,
        plan,
    };
    let mut driver = Driver4::new(ankr);
    let pays_first = false;
    drive_kerning(&run, pays_first, &mut driver, buffer)
}

/// Kerns by a `kerx` subtable, on a line in its order, and answers the turns of a machine, which are 0 of pairs.
fn run_kerx_subtable<A: Allocator + Copy>(
    plan: &hb_ot_shape_plan_t,
    ankr: Option<&Ankr>,
    subtable: &KerxSubtable,
    buffer: &mut hb_buffer_t<A>,
) -> u64
    requires ids { IsSmall buffer.old }
    requires placed { IsPlaced buffer.old }
    ensures run { record { buffer = buffer.new; turns = result }
        ≡ run_of_kerx_subtable plan.now.kern_mask (option_copied ankr.entry)
        subtable.now.has_cross_stream subtable.now.tuple_count subtable.now.format buffer.old }
    ensures few { result < 2 ^ 32 }
    ensures ids { IsSmall buffer.new }
    ensures placed { IsPlaced buffer.new }
{
    let kern_mask = plan.kern_mask;
    match &subtable.format {
        KerxFormat::Format0(pairs) => {
            let values = PairValues::Listed(pairs);
            kern_line(&pairs_of(kern_mask, subtable, values), false, buffer);
            0
        }
        KerxFormat::Format1(machine) => run_stack(plan, subtable, machine, buffer),
        KerxFormat::Format2(pairs) => {
            let values = PairValues::Listed(pairs);
            kern_line(&pairs_of(kern_mask, subtable, values), true, buffer);
            0
        }
        KerxFormat::Format2Classes(pairs) => {
            let values = PairValues::Classes(pairs);
            kern_line(&pairs_of(kern_mask, subtable, values), true, buffer);
            0
        }
        KerxFormat::Format4(machine) => run_anchors(plan, ankr, subtable, machine, buffer),
        KerxFormat::Format6(pairs) => {
            let values = PairValues::Listed(pairs);
            kern_line(&pairs_of(kern_mask, subtable, values), false, buffer);
            0
        }
        KerxFormat::Format6Classes(pairs) => {
            let values = PairValues::Classes(pairs);
            kern_line(&pairs_of(kern_mask, subtable, values), false, buffer);
            0
        }
    }
}

/// Whether a `kerx` subtable is of pairs: of format 0, 2 or 6.
fn is_of_kerx_pairs(subtable: &KerxSubtable) -> bool
    ensures { result ≡ is_kerx_pairs subtable.now.format }
{
    match &subtable.format {
        KerxFormat::Format0(_) => true,
        KerxFormat::Format1(_) => false,
        KerxFormat::Format2(_) => true,
        KerxFormat::Format2Classes(_) => true,
        KerxFormat::Format4(_) => false,
        KerxFormat::Format6(_) => true,
        KerxFormat::Format6Classes(_) => true,
    }
}

/// Whether a `kerx` subtable takes the line turned round: a machine from last to first does.
fn takes_turned_line(subtable: &KerxSubtable) -> bool
    ensures { result ≡ is_turned_round subtable.now.is_last_to_first subtable.now.format }
{
    !is_of_kerx_pairs(subtable) && subtable.is_last_to_first
}

/// Kerns by a `kerx` subtable, on a line in processing order that is turned round for it where it asks for that.
fn run_in_its_order<A: Allocator + Copy>(
    plan: &hb_ot_shape_plan_t,
    ankr: Option<&Ankr>,
    subtable: &KerxSubtable,
    buffer: &mut hb_buffer_t<A>,
) -> u64
    requires ids { IsSmall buffer.old }
    requires placed { IsPlaced buffer.old }
    ensures run { record { buffer = buffer.new; turns = result }
        ≡ (kerning_of_kerx_subtable plan.now.kern_mask (option_copied ankr.entry) subtable.now).run buffer.old }
    ensures few { result < 2 ^ 32 }
    ensures ids { IsSmall buffer.new }
    ensures placed { IsPlaced buffer.new }
{
    let is_turned = takes_turned_line(subtable);
    turn_round(is_turned, buffer);
    let turns = run_kerx_subtable(plan, ankr, subtable, buffer);
    turn_round(is_turned, buffer);
    turns
}

impl KerningSubtable for KerxSubtable {
    ghost use Rattle.aat_kerning.specs.Positioning as positioning;

    ghost kerning = { positioning.kerning_of_kerx_subtable };

    fn is_for_text(&self, direction: Direction) -> bool {
        is_for_text(self.horizontal, self.variable, direction)
    }

    fn has_cross_stream(&self) -> bool {
        self.has_cross_stream
    }

    fn is_of_pairs(&self) -> bool {
        is_of_kerx_pairs(self)
    }

    fn run<A: Allocator + Copy>(
        &self,
        plan: &hb_ot_shape_plan_t,
        ankr: Option<&Ankr>,
        buffer: &mut hb_buffer_t<A>,
    ) -> u64 {
        run_in_its_order(plan, ankr, self, buffer)
    }
}

/// The anchor points of a font, if it has them.
fn anchor_points(face: &hb_font_t) -> Option<&Ankr>
    ensures { option_copied result ≡ (tables_of face.now).ankr }
{
    face.tables().ankr.as_ref()
}

/// Whether all subtables of a font's extended kerning table are of pairs, as they are without the table. Then a line
/// that `hb_aat_layout_position` kerns can be cut as it says. In as many steps as there are subtables.
pub fn has_kerx_pairs_alone(face: &hb_font_t) -> bool
    ensures { IsTrue result ↔ AreKerxPairs (kerx_subtables face.now) }
{
    face.kerx_subtables()
        .iter()
        .all(|subtable| is_of_kerx_pairs(subtable))
}

/// Kerns a line by the extended kerning table of a font, and answers the number of turns that its machines took, which
/// is 0 of pairs and without the table.
///
/// The whole line gets the mark against joining, where the buffer asks for it, also without the table. Then the
/// subtables follow in their order, on a backward line from its last glyph on: those that are variable, or of the
/// other orientation, have no effect, and the first of the others with cross-stream attaches every glyph cursively.
/// Where the plan requests kerning, the pairs of each change positions, in units of the font, and are marked unsafe to
/// break. Machines run in any case, as `drive_kerning` does, with `Driver1` or, over the font's `ankr` table, `Driver4`:
/// they change positions, mark unsafe to break, and may set the scratch flag `HAS_GPOS_ATTACHMENT`. Glyphs, clusters
/// and their order stay. A machine from last to first (`is_last_to_first`) takes the glyphs in the other order: of a
/// forward line from its last glyph on, of a backward one from its first. Pairs take no notice of that.
///
/// The attach chain that `Driver4` writes is counted in the order in which it takes the glyphs. Where that is the
/// opposite of the line's, the chain points the other way in the end. Where glyphs are removed later, a chain may lead
/// past the line.
///
/// Where each subtable that is for the text is of pairs, as `has_kerx_pairs_alone` tells of all, and the kern mask has
/// none of the bits of `glyph_flag`, a line can be cut before a glyph, in processing order, that is not skipped, as
/// `is_solid` tells with `KERX_SKIPS`, and begins a cluster, unless of it and the glyph before it the one with the
/// greater cluster is left marked unsafe to break: the positions that are left are those of the two parts, each kerned
/// by the same plan and font. It can so be cut by every kern mask where the parts' buffers have the flags of this one.
///
/// Where kerning is requested, the kern mask has none of those bits, and each subtable that is for the text is of
/// pairs in the stream, the advances along the line, of 32 bits, change in sum by the values, of 16 bits, of all pairs
/// of the line, as those subtables give them, modulo 2^32.
///
/// K subtables over n glyphs with a budget of M operations, 0 where it is negative, take at most K(n + 1) + M turns,
/// and each one beyond K(n + 1) is paid for with an operation. A turn that goes on and leaves the cursor where it was
/// began with operations left and took one, so a machine cannot stay for ever.
///
/// A subtable of pairs takes as many steps as the line is long, a search of its pairs for each pair of the line, and
/// the marks; a machine its turns, each with a look-up of a class and one of an entry, and with at most eight values or
/// look-ups of two glyphs' anchor points.
///
/// Each glyph id has to be at most 0xFFFF, which `all_glyphs_16` tells, and positions have to stand, which
/// `has_positions` tells. They stand afterwards too, one for each glyph.
///
/// Refused as 4, `BufferFailed`, where a call of the buffer was refused before, and nothing changes then; never else.
/// It takes no memory.
///
/// Apple's TrueType Reference Manual, "The 'kerx' table" and "The 'ankr' table".
#[tactic(auto, using(crate::proofs::Staying::kerx_pays_for_staying))]
pub fn hb_aat_layout_position<A: Allocator + Copy>(
    plan: &hb_ot_shape_plan_t,
    face: &hb_font_t,
    buffer: &mut hb_buffer_t<A>,
) -> Result<u64, AatError>
    requires ids { IsSmall buffer.old }
    requires positions { IsSome buffer.old.positions }
    ensures failed { IsErrOf result AatError.BufferFailed ↔ (buffer.old.successful ≡ false) }
    ensures reason { IfErr result (λ error. error ≡ AatError.BufferFailed) }
    ensures unchanged { OnErr result (buffer.new ≡ buffer.old) }
    ensures positioned { IfOk result (λ turns.
        record { buffer = buffer.new; turns = turns } ≡ kerned_by_kerx plan.now face.now buffer.old) }
    ensures without_table { IsNone (tables_of face.now).kerx →
        IfOk result (λ turns. (turns ≡ 0) × (buffer.new ≡ unsafe_to_concat buffer.old None None)) }
    ensures cut { bit_and plan.now.kern_mask 7 ≡ 0 →
        OnOk result (KerxCanBeCut plan.now face.now buffer.old buffer.new) }
    ensures cut_alike { OnOk result (KerxCanBeCutAlike plan.now face.now buffer.old buffer.new) }
    ensures summed { IsTrue plan.now.requested_kerning → bit_and plan.now.kern_mask 7 ≡ 0 →
        OnOk result (KerxSumsAdvances plan.now.kern_mask (kerx_subtables face.now) buffer.old buffer.new) }
    ensures placed { OnOk result (IsPlaced buffer.new) }
    ensures paid { IfOk result (λ turns. turns + operations_left buffer.new.max_ops
        ≤ length (kerx_subtables face.now) * (length buffer.old.line + 1) + operations_left buffer.old.max_ops) }
    ensures staying { All (KerxPaysForStaying plan.now.kern_mask (tables_of face.now).ankr) (kerx_subtables face.now) }
    ensures kept { OnOk result (IsKernedFrom buffer.old buffer.new) }
{
    if !buffer.is_successful() {
        return Err(AatError::BufferFailed);
    }
    let _placed = buffer.has_positions();
    mark_line(true, buffer);
    Ok(kern_by_subtables(plan, anchor_points(face), face.kerx_subtables(), buffer))
}
