//! The subtables of kerning, each of which kerns a line and closes the places that it does not leave open.
ghost use Rattle.std.specs.Prelude.{◌≡◌, ◌<◌, ◌-◌, ◌&&◌, ℕ, IfOk, OnOk, false, get_or, if◌then◌else◌, length};
ghost use Rattle.aat_buffer.specs.Clusters.{IsSmall};
ghost use Rattle.aat_cut_kinds.specs.KernedTables.{by_kern_kind, by_kerx_format, of_kern, of_kerx};
ghost use Rattle.aat_cut_kinds.specs.OpenPlaces.{KernsOpenly};
ghost use Rattle.aat_font.specs.Face.{tables_of};
ghost use Rattle.aat_kerning.specs.Positioning.{is_turned_round};
ghost use Rattle.aat_kerning_machines.specs.Positions.{IsPlaced};
ghost use Rattle.aat_shaped_text.specs.inside.KernedRuns.{Kerns};

use crate::font::{is_kern_for, is_kerx_for, is_of_kern_pairs, is_of_kerx_pairs};
use crate::pair_places::{KERN_MASK, kern_by_pairs};
use aat_buffer::hb_buffer_t;
use aat_cut_kinds::{kern_by_anchors, kern_by_machine, kern_by_stack};
use aat_font::{hb_font_t, hb_ot_shape_plan_t};
use aat_glyph::Direction;
use aat_kerning::{KERN_SKIPS, KERX_SKIPS, PairRun, PairValues, turn_round};
use aat_kerning_tables::{KernKind, KernSubtable, KerxFormat, KerxSubtable};
use std::alloc::{AllocError, Allocator};

/// What a text is kerned by.
#[derive(Clone, Copy)]
pub(crate) struct TextKerning<'a> {
    pub plan: &'a hb_ot_shape_plan_t,
    pub face: &'a hb_font_t,
}

/// A subtable of a kerning table: when it is for a text, and what it does to a line and tells of its places.
pub(crate) trait OpenKerning {
    ghost use Rattle.std.specs.Prelude.{◌≡◌, Option, OnOk, length};
    ghost use Rattle.aat_cut_kinds.specs.KernedTables.{KernedSubtable};
    ghost use Rattle.aat_kerning.specs.Positioning.{is_for_direction};
    ghost use Rattle.aat_kerning_tables.specs.AnchorPoints.{Points};

    /// The subtable as kerning sees it, with its run, by the anchor points of a font.
    ghost kerned: { Option Points → Self → KernedSubtable };

    /// Whether it is for a text of a direction: it is not variable, and of the text's orientation.
    fn is_for_text(&self, direction: Direction) -> bool
        ensures { (points : Option Points) → result ≡ is_for_direction (kerned points self.now).kerning direction };

    /// Whether its values go across the line.
    fn has_cross_stream(&self) -> bool
        ensures { (points : Option Points) → result ≡ (kerned points self.now).kerning.has_cross_stream };

    /// Whether it is of pairs.
    fn is_of_pairs(&self) -> bool
        ensures { (points : Option Points) → result ≡ (kerned points self.now).kerning.is_pairs };

    /// Kerns by it, on a line in processing order, and closes the places that it does not leave open.
    fn kern_openly<A: Allocator + Copy, H: Allocator + Copy>(
        &self,
        alloc: H,
        kerning: &TextKerning,
        buffer: &mut hb_buffer_t<A>,
        places: &mut [bool],
    ) -> Result<(), AllocError>
        requires ids { IsSmall buffer.old }
        requires placed { IsPlaced buffer.old }
        requires count { length places.old ≡ length buffer.old.line }
        requires mask { kerning.now.plan.now.kern_mask ≡ 8 }
        ensures kerned { OnOk result (Kerns (kerned (tables_of kerning.now.face.now).ankr self.now).run
            buffer.old places.old buffer.new places.new) }
        ensures ids { IsSmall buffer.new }
        ensures placed { IsPlaced buffer.new };
}

/// Whether a subtable of the extended kerning table takes the line turned round: a machine from last to first does.
fn takes_turned_line(subtable: &KerxSubtable) -> bool
    ensures { result ≡ is_turned_round subtable.now.is_last_to_first subtable.now.format }
{
    !is_of_kerx_pairs(subtable) && subtable.is_last_to_first
}

/// Closes the places of a line that are not told open too, of the line as it stands or turned round.
fn close_places(opens: &mut [bool], told: &[bool], is_turned: bool)
    requires count { length told.now ≡ length opens.old }
    ensures long { length opens.new ≡ length opens.old }
    ensures first { get_or opens.new 0 false ≡ get_or opens.old 0 false }
    ensures closed { (q : ℕ) → 0 < q → q < length opens.old → get_or opens.new q false
        ≡ (get_or opens.old q false && get_or told.now (if is_turned then length opens.old - q else q) false) }
{
    for i in 1..opens.len() {
        let asked = if is_turned { opens.len() - i } else { i };
        // both are read, whatever the first is, so that many places are closed at a time
        opens[i] = opens[i] & told[asked];
    }
}

/// How the pairs of a subtable of the extended kerning table are kerned.
fn pairs_of_kerx<'a>(subtable: &KerxSubtable, values: PairValues<'a>) -> PairRun<'a>
    ensures values { result.values ≡ values.entry }
    ensures skips { result.skips ≡ 0x000E }
    ensures mask { result.kern_mask ≡ 8 }
    ensures across { result.is_cross_stream ≡ subtable.now.has_cross_stream }
{
    PairRun {
        values,
        skips: KERX_SKIPS,
        kern_mask: KERN_MASK,
        is_cross_stream: subtable.has_cross_stream,
    }
}

/// The same of a subtable of the kerning table.
fn pairs_of_kern<'a>(subtable: &KernSubtable, values: PairValues<'a>) -> PairRun<'a>
    ensures values { result.values ≡ values.entry }
    ensures skips { result.skips ≡ 0x0008 }
    ensures mask { result.kern_mask ≡ 8 }
    ensures across { result.is_cross_stream ≡ subtable.now.has_cross_stream }
{
    PairRun {
        values,
        skips: KERN_SKIPS,
        kern_mask: KERN_MASK,
        is_cross_stream: subtable.has_cross_stream,
    }
}

/// Kerns a line in its order by a subtable of the extended kerning table, and tells which places it leaves open.
fn kern_by_kerx<A: Allocator + Copy, H: Allocator>(
    alloc: H,
    kerning: &TextKerning,
    subtable: &KerxSubtable,
    buffer: &mut hb_buffer_t<A>,
) -> Result<Vec<bool, H>, AllocError>
    requires ids { IsSmall buffer.old }
    requires placed { IsPlaced buffer.old }
    requires mask { kerning.now.plan.now.kern_mask ≡ 8 }
    ensures kerned { IfOk result (λ told. KernsOpenly (by_kerx_format 8 (tables_of kerning.now.face.now).ankr
        subtable.now.has_cross_stream subtable.now.tuple_count subtable.now.format) buffer.old buffer.new told.items) }
    ensures ids { IsSmall buffer.new }
    ensures placed { IsPlaced buffer.new }
{
    let plan = kerning.plan;
    let has_cross_stream = subtable.has_cross_stream;
    match &subtable.format {
        KerxFormat::Format0(pairs) => {
            let run = pairs_of_kerx(subtable, PairValues::Listed(pairs));
            kern_by_pairs(alloc, &run, false, buffer)
        }
        KerxFormat::Format1(machine) => {
            let tuple_count = subtable.tuple_count;
            kern_by_stack(alloc, plan, has_cross_stream, tuple_count, machine, buffer)
        }
        KerxFormat::Format2(pairs) => {
            let run = pairs_of_kerx(subtable, PairValues::Listed(pairs));
            kern_by_pairs(alloc, &run, true, buffer)
        }
        KerxFormat::Format2Classes(pairs) => {
            let run = pairs_of_kerx(subtable, PairValues::Classes(pairs));
            kern_by_pairs(alloc, &run, true, buffer)
        }
        KerxFormat::Format4(machine) => {
            let ankr = kerning.face.tables().ankr.as_ref();
            kern_by_anchors(alloc, plan, ankr, machine, buffer)
        }
        KerxFormat::Format6(pairs) => {
            let run = pairs_of_kerx(subtable, PairValues::Listed(pairs));
            kern_by_pairs(alloc, &run, false, buffer)
        }
        KerxFormat::Format6Classes(pairs) => {
            let run = pairs_of_kerx(subtable, PairValues::Classes(pairs));
            kern_by_pairs(alloc, &run, false, buffer)
        }
    }
}

/// The same by a subtable of the kerning table.
fn kern_by_kern<A: Allocator + Copy, H: Allocator>(
    alloc: H,
    kerning: &TextKerning,
    subtable: &KernSubtable,
    buffer: &mut hb_buffer_t<A>,
) -> Result<Vec<bool, H>, AllocError>
    requires ids { IsSmall buffer.old }
    requires placed { IsPlaced buffer.old }
    requires mask { kerning.now.plan.now.kern_mask ≡ 8 }
    ensures kerned { IfOk result (λ told. KernsOpenly
        (by_kern_kind 8 subtable.now.has_cross_stream subtable.now.kind) buffer.old buffer.new told.items) }
    ensures ids { IsSmall buffer.new }
    ensures placed { IsPlaced buffer.new }
{
    match &subtable.kind {
        KernKind::Machine(machine) => {
            let has_cross_stream = subtable.has_cross_stream;
            kern_by_machine(alloc, kerning.plan, has_cross_stream, machine, buffer)
        }
        KernKind::Pairs(pairs) => {
            let run = pairs_of_kern(subtable, PairValues::Listed(pairs));
            kern_by_pairs(alloc, &run, true, buffer)
        }
        KernKind::Classes(pairs) => {
            let run = pairs_of_kern(subtable, PairValues::Classes(pairs));
            kern_by_pairs(alloc, &run, true, buffer)
        }
    }
}

/// Kerns a line in processing order by a subtable of the extended kerning table, and closes the places that it does not
/// leave open.
fn kern_kerx<A: Allocator + Copy, H: Allocator + Copy>(
    alloc: H,
    kerning: &TextKerning,
    subtable: &KerxSubtable,
    buffer: &mut hb_buffer_t<A>,
    places: &mut [bool],
) -> Result<(), AllocError>
    requires ids { IsSmall buffer.old }
    requires placed { IsPlaced buffer.old }
    requires count { length places.old ≡ length buffer.old.line }
    requires mask { kerning.now.plan.now.kern_mask ≡ 8 }
    ensures kerned { OnOk result (Kerns (of_kerx 8 (tables_of kerning.now.face.now).ankr subtable.now).run
        buffer.old places.old buffer.new places.new) }
    ensures ids { IsSmall buffer.new }
    ensures placed { IsPlaced buffer.new }
{
    let is_turned = takes_turned_line(subtable);
    turn_round(is_turned, buffer);
    let told = kern_by_kerx(alloc, kerning, subtable, buffer);
    turn_round(is_turned, buffer);
    close_places(places, &told?, is_turned);
    Ok(())
}

/// The same by a subtable of the kerning table.
fn kern_kern<A: Allocator + Copy, H: Allocator + Copy>(
    alloc: H,
    kerning: &TextKerning,
    subtable: &KernSubtable,
    buffer: &mut hb_buffer_t<A>,
    places: &mut [bool],
) -> Result<(), AllocError>
    requires ids { IsSmall buffer.old }
    requires placed { IsPlaced buffer.old }
    requires count { length places.old ≡ length buffer.old.line }
    requires mask { kerning.now.plan.now.kern_mask ≡ 8 }
    ensures kerned { OnOk result (Kerns (of_kern 8 subtable.now).run
        buffer.old places.old buffer.new places.new) }
    ensures ids { IsSmall buffer.new }
    ensures placed { IsPlaced buffer.new }
{
    let told = kern_by_kern(alloc, kerning, subtable, buffer)?;
    close_places(places, &told, false);
    Ok(())
}

impl OpenKerning for KerxSubtable {
    ghost use Rattle.aat_cut_kinds.specs.KernedTables as tables;

    ghost kerned = { tables.of_kerx 8 };

    fn is_for_text(&self, direction: Direction) -> bool {
        is_kerx_for(direction, self)
    }

    fn has_cross_stream(&self) -> bool {
        self.has_cross_stream
    }

    fn is_of_pairs(&self) -> bool {
        is_of_kerx_pairs(self)
    }

    fn kern_openly<A: Allocator + Copy, H: Allocator + Copy>(
        &self,
        alloc: H,
        kerning: &TextKerning,
        buffer: &mut hb_buffer_t<A>,
        places: &mut [bool],
    ) -> Result<(), AllocError> {
        kern_kerx(alloc, kerning, self, buffer, places)
    }
}

impl OpenKerning for KernSubtable {
    ghost use Rattle.aat_cut_kinds.specs.KernedTables as tables;

    ghost kerned = { λ points. tables.of_kern 8 };

    fn is_for_text(&self, direction: Direction) -> bool {
        is_kern_for(direction, self)
    }

    fn has_cross_stream(&self) -> bool {
        self.has_cross_stream
    }

    fn is_of_pairs(&self) -> bool {
        is_of_kern_pairs(self)
    }

    fn kern_openly<A: Allocator + Copy, H: Allocator + Copy>(
        &self,
        alloc: H,
        kerning: &TextKerning,
        buffer: &mut hb_buffer_t<A>,
        places: &mut [bool],
    ) -> Result<(), AllocError> {
        kern_kern(alloc, kerning, self, buffer, places)
    }
}
