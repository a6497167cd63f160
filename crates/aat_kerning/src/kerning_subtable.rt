//! Kerning by all subtables of a table: the same for both kerning tables.
ghost use Rattle.std.specs.Prelude.{◌≡◌, ℕ, ◌+◌, ◌<◌, ◌≤◌, ◌^◌, length, map, option_copied};
ghost use Rattle.aat_buffer.specs.Clusters.{IsSmall};
ghost use Rattle.aat_kerning.specs.Positioning.{Positioned, positioned, positioning};
ghost use Rattle.aat_kerning_machines.specs.Positions.{IsPlaced};

use crate::positioning::{attach_once, is_left_out, reorder};
use aat_buffer::{Direction, hb_buffer_t};
use aat_font::hb_ot_shape_plan_t;
use aat_kerning_tables::Ankr;
use std::alloc::Allocator;

/// A subtable of a kerning table: when it is for a text, and what it does to a line.
pub(crate) trait KerningSubtable {
    ghost use Rattle.std.specs.Prelude.{ℕ, Option};
    ghost use Rattle.aat_kerning_tables.specs.AnchorPoints.{Points};
    ghost use Rattle.aat_kerning.specs.Positioning.{Kerning, is_for_direction};

    /// The subtable as kerning sees it, by the kern mask of a plan and the anchor points of a font.
    ghost kerning: { ℕ → Option Points → Self → Kerning };

    /// Whether it is for a text of a direction: it is not variable, and of the text's orientation.
    fn is_for_text(&self, direction: Direction) -> bool
        ensures { (kern_mask : ℕ) (points : Option Points)
            → result ≡ is_for_direction (kerning kern_mask points self.now) direction };

    /// Whether its values go across the line.
    fn has_cross_stream(&self) -> bool
        ensures { (kern_mask : ℕ) (points : Option Points)
            → result ≡ (kerning kern_mask points self.now).has_cross_stream };

    /// Whether it is of pairs.
    fn is_of_pairs(&self) -> bool
        ensures { (kern_mask : ℕ) (points : Option Points)
            → result ≡ (kerning kern_mask points self.now).is_pairs };

    /// Kerns by it, on a line in processing order, and answers the turns of a machine, which are 0 of pairs.
    fn run<A: Allocator + Copy>(
        &self,
        plan: &hb_ot_shape_plan_t,
        ankr: Option<&Ankr>,
        buffer: &mut hb_buffer_t<A>,
    ) -> u64
        requires ids { IsSmall buffer.old }
        requires placed { IsPlaced buffer.old }
        ensures run { record { buffer = buffer.new; turns = result }
            ≡ (kerning plan.now.kern_mask (option_copied ankr.entry) self.now).run buffer.old }
        ensures few { result < 2 ^ 32 }
        ensures ids { IsSmall buffer.new }
        ensures placed { IsPlaced buffer.new };
}

/// Kerns by one subtable, on a line in processing order. Answers the turns that its machine took.
fn kern_by_subtable<S: KerningSubtable, A: Allocator + Copy>(
    plan: &hb_ot_shape_plan_t,
    ankr: Option<&Ankr>,
    subtable: &S,
    is_attached: &mut bool,
    buffer: &mut hb_buffer_t<A>,
) -> u64
    requires ids { IsSmall buffer.old }
    requires placed { IsPlaced buffer.old }
    ensures positioned { (turns : ℕ) →
        record { buffer = buffer.new; turns = turns + result; is_attached = is_attached.new }
        ≡ positioned plan.now.requested_kerning
        (S.kerning plan.now.kern_mask (option_copied ankr.entry) subtable.now)
        (record { buffer = buffer.old; turns = turns; is_attached = is_attached.old }) }
    ensures few { result < 2 ^ 32 }
    ensures ids { IsSmall buffer.new }
    ensures placed { IsPlaced buffer.new }
{
    if !subtable.is_for_text(buffer.direction()) {
        return 0;
    }
    attach_once(subtable.has_cross_stream(), is_attached, buffer);
    if is_left_out(subtable.is_of_pairs(), plan.requested_kerning) {
        return 0;
    }
    subtable.run(plan, ankr, buffer)
}

/// Kerns by the subtables of a table in their order, and answers the turns of the machines.
pub(crate) fn kern_by_subtables<S: KerningSubtable, A: Allocator + Copy>(
    plan: &hb_ot_shape_plan_t,
    ankr: Option<&Ankr>,
    subtables: &[S],
    buffer: &mut hb_buffer_t<A>,
) -> u64
    requires few { length subtables.now ≤ 65535 }
    requires ids { IsSmall buffer.old }
    requires placed { IsPlaced buffer.old }
    ensures { record { buffer = buffer.new; turns = result }
        ≡ positioning plan.now.requested_kerning
        (map (S.kerning plan.now.kern_mask (option_copied ankr.entry)) subtables.now) buffer.old }
{
    reorder(buffer);
    let mut is_attached = false;
    let mut turns = 0;
    for subtable in subtables {
        turns += kern_by_subtable(plan, ankr, subtable, &mut is_attached, buffer);
    }
    reorder(buffer);
    turns
}
