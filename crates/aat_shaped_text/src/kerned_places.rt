//! Kerning of a line by all subtables in one run, which tells where it leaves the line open.
ghost use Rattle.std.specs.Prelude.{◌≡◌, ◌<◌, ◌&&◌, List, OnOk, false, length, map};
ghost use Rattle.aat_buffer.specs.Clusters.{IsSmall};
ghost use Rattle.aat_cut_kinds.specs.KernedTables.{runs_over};
ghost use Rattle.aat_cut_kinds.specs.KerningCuts.{kerned_by_all};
ghost use Rattle.aat_font.specs.declared.plan.Feature.{Feature};
ghost use Rattle.aat_font.specs.Face.{tables_of};
ghost use Rattle.aat_kerning_machines.specs.Positions.{IsPlaced};
ghost use Rattle.aat_shaped_text.specs.TextFeatures.{requests_kerning};
ghost use Rattle.aat_shaped_text.specs.inside.KernedRuns.{ClosesKerned, Kerns, all_runs, is_attached_behind, runs_of};
ghost use Rattle.aat_layout.specs.Shaping.{kerned_by_font};

use crate::kerned_subtables::{OpenKerning, TextKerning};
use crate::open_line::turn;
use aat_buffer::hb_buffer_t;
use aat_kerning::{attach_once, mark_line};
use std::alloc::{AllocError, Allocator};

/// Kerns by one subtable, on a line in processing order, and closes the places that it does not leave open.
fn kern_by_subtable<S: OpenKerning, A: Allocator + Copy, H: Allocator + Copy>(
    alloc: H,
    kerning: &TextKerning,
    subtable: &S,
    is_attached: &mut bool,
    buffer: &mut hb_buffer_t<A>,
    places: &mut [bool],
) -> Result<(), AllocError>
    requires ids { IsSmall buffer.old }
    requires placed { IsPlaced buffer.old }
    requires count { length places.old ≡ length buffer.old.line }
    requires mask { kerning.now.plan.now.kern_mask ≡ 8 }
    ensures kerned { OnOk result (Kerns (kerned_by_all (runs_of kerning.now.plan.now.requested_kerning
        buffer.old.direction is_attached.old (S.kerned (tables_of kerning.now.face.now).ankr subtable.now)))
        buffer.old places.old buffer.new places.new) }
    ensures noted { OnOk result (is_attached.new ≡ is_attached_behind buffer.old.direction is_attached.old
        (S.kerned (tables_of kerning.now.face.now).ankr subtable.now)) }
    ensures ids { IsSmall buffer.new }
    ensures placed { IsPlaced buffer.new }
{
    if !subtable.is_for_text(buffer.direction()) {
        return Ok(());
    }
    attach_once(subtable.has_cross_stream(), is_attached, buffer);
    if subtable.is_of_pairs() && !kerning.plan.requested_kerning {
        return Ok(());
    }
    subtable.kern_openly(alloc, kerning, buffer, places)
}

/// Kerns by the subtables of a table in their order, on a line in processing order, and closes the places that some of
/// them does not leave open.
fn kern_by_subtables<S: OpenKerning, A: Allocator + Copy, H: Allocator + Copy>(
    alloc: H,
    kerning: &TextKerning,
    subtables: &[S],
    buffer: &mut hb_buffer_t<A>,
    places: &mut [bool],
) -> Result<(), AllocError>
    requires ids { IsSmall buffer.old }
    requires placed { IsPlaced buffer.old }
    requires count { length places.old ≡ length buffer.old.line }
    requires mask { kerning.now.plan.now.kern_mask ≡ 8 }
    ensures kerned { OnOk result (Kerns (kerned_by_all (runs_over kerning.now.plan.now.requested_kerning
        buffer.old.direction false (map (S.kerned (tables_of kerning.now.face.now).ankr) subtables.now)))
        buffer.old places.old buffer.new places.new) }
{
    let mut is_attached = false;
    for subtable in subtables {
        kern_by_subtable(alloc, kerning, subtable, &mut is_attached, buffer, places)?;
    }
    Ok(())
}

/// Kerns by the subtables of the kerning table in use, on a line in processing order, and closes the places that some of
/// them does not leave open.
fn kern_ordered<A: Allocator + Copy, H: Allocator + Copy>(
    alloc: H,
    kerning: &TextKerning,
    buffer: &mut hb_buffer_t<A>,
    places: &mut [bool],
) -> Result<(), AllocError>
    requires ids { IsSmall buffer.old }
    requires placed { IsPlaced buffer.old }
    requires count { length places.old ≡ length buffer.old.line }
    requires mask { kerning.now.plan.now.kern_mask ≡ 8 }
    ensures kerned { OnOk result (Kerns (all_runs kerning.now.plan.now.requested_kerning buffer.old.direction
        kerning.now.face.now) buffer.old places.old buffer.new places.new) }
{
    let face = kerning.face;
    if face.tables().kerx.is_some() {
        kern_by_subtables(alloc, kerning, face.kerx_subtables(), buffer, places)
    } else {
        kern_by_subtables(alloc, kerning, face.kern_subtables(), buffer, places)
    }
}

/// Kerns a line, which stands in reading order, by the extended kerning table where the font has it, and else by the
/// kerning table, and closes those of its places in drawing order that kerning does not leave open.
///
/// Each subtable that is for the text kerns the line as `hb_aat_layout_position` and `hb_ot_layout_kern` of `aat_kerning`
/// tell, and tells which places it leaves open, a machine in the same run. It takes what these take, a search of pairs once more for
/// each pair of the line, and some steps a glyph for each subtable. It takes some bytes of memory a glyph at a time, and
/// fails where it gets none: how the line is left then is not said.
///
/// Apple's TrueType Reference Manual, "The 'kerx' table" and "The 'kern' table".
pub(crate) fn kern_openly<A: Allocator + Copy, H: Allocator + Copy>(
    alloc: H,
    kerning: &TextKerning,
    buffer: &mut hb_buffer_t<A>,
    places: &mut [bool],
) -> Result<(), AllocError>
    requires ids { IsSmall buffer.old }
    requires placed { IsPlaced buffer.old }
    requires count { length places.old ≡ length buffer.old.line }
    requires mask { kerning.now.plan.now.kern_mask ≡ 8 }
    ensures kerned { OnOk result (buffer.new
        ≡ (kerned_by_font kerning.now.plan.now kerning.now.face.now buffer.old).buffer) }
    ensures closed { (features : List Feature) → requests_kerning features ≡ kerning.now.plan.now.requested_kerning →
        OnOk result (ClosesKerned kerning.now.face.now features buffer.old places.old places.new) }
{
    mark_line(kerning.face.tables().kerx.is_some(), buffer);
    turn(buffer);
    kern_ordered(alloc, kerning, buffer, places)?;
    turn(buffer);
    Ok(())
}
