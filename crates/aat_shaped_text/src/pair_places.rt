//! Kerning by pairs, and which places of a line it leaves open.
ghost use Rattle.std.specs.Prelude.{◌≡◌, ◌<◌, ◌+◌, ℕ, IfOk, false, get_or, length};
ghost use Rattle.aat_buffer.specs.Clusters.{IsSmall};
ghost use Rattle.aat_cut_kinds.specs.KernedTables.{by_marked_pairs, by_pairs};
ghost use Rattle.aat_cut_kinds.specs.OpenPlaces.{KernsOpenly};
ghost use Rattle.aat_kerning.specs.Pairs.{left_of};
ghost use Rattle.aat_kerning.specs.Values.{values_of};
ghost use Rattle.aat_kerning_machines.specs.Positions.{IsPlaced};

use aat_buffer::hb_buffer_t;
use aat_kerning::{PairRun, PairValues, is_solid, kern_line, value_of};
use aat_kerning_machines::meets;
use std::alloc::{AllocError, Allocator};

/// The bit of a glyph's mask at which it is kerned.
pub(crate) const KERN_MASK: u32 = 8;

/// Whether kerning by pairs leaves a place open, where `left` is the left glyph of the pair whose right glyph stands
/// there, if it is one.
fn leaves_open<A: Allocator + Copy>(
    values: PairValues,
    skips: u16,
    left: Option<usize>,
    place: usize,
    buffer: &hb_buffer_t<A>,
) -> bool
    requires ids { IsSmall buffer.now }
    requires inside { place < length buffer.now.line }
    requires found { left ≡ left_of skips 8 buffer.now.line place }
    ensures { result ≡ (by_pairs skips 8 false (values_of values.entry)).opens place buffer.now }
{
    let glyph = *buffer.info(place);
    if !is_solid(&glyph, skips) {
        return false;
    }
    if !meets(glyph.mask, KERN_MASK) {
        return true;
    }
    match left {
        Some(left) => value_of(values, buffer.info(left).glyph_id, glyph.glyph_id) == 0,
        None => true,
    }
}

/// The left glyph of the pair whose right glyph stands at the next place, where `left` is that of the pair whose right
/// glyph stands at this one.
fn left_behind<A: Allocator + Copy>(
    skips: u16,
    left: Option<usize>,
    place: usize,
    buffer: &hb_buffer_t<A>,
) -> Option<usize>
    requires inside { place < length buffer.now.line }
    requires found { left ≡ left_of skips 8 buffer.now.line place }
    ensures { result ≡ left_of skips 8 buffer.now.line (place + 1) }
{
    let glyph = *buffer.info(place);
    let own = meets(glyph.mask, KERN_MASK).then_some(place);
    if is_solid(&glyph, skips) {
        return own;
    }
    left.or(own)
}

/// Tells of each place of a line whether kerning by pairs leaves it open.
fn tell_pairs<A: Allocator + Copy>(
    values: PairValues,
    skips: u16,
    buffer: &hb_buffer_t<A>,
    opens: &mut [bool],
)
    requires ids { IsSmall buffer.now }
    requires long { length opens.old ≡ length buffer.now.line }
    ensures long { length opens.new ≡ length opens.old }
    ensures told { (q : ℕ) → q < length buffer.now.line → get_or opens.new q false
        ≡ (by_pairs skips 8 false (values_of values.entry)).opens q buffer.now }
{
    let mut left = None;
    for place in 0..opens.len() {
        opens[place] = leaves_open(values, skips, left, place, buffer);
        left = left_behind(skips, left, place, buffer);
    }
}

/// Kerns a line in processing order by the pairs of a subtable, marks it against joining first where asked, and tells
/// which places the pairs leave open: those whose glyph is not skipped, and which no pair with a value other than 0 has as
/// its right glyph. Whether the values go across the line, and whether the line is marked, make no difference to that.
///
/// It takes what [`kern_line`] takes and a search of the pairs for each pair of the line once more, and a byte of memory a
/// glyph. It fails where it gets none, and nothing changes then.
pub(crate) fn kern_by_pairs<A: Allocator + Copy, H: Allocator>(
    alloc: H,
    run: &PairRun,
    marks_line: bool,
    buffer: &mut hb_buffer_t<A>,
) -> Result<Vec<bool, H>, AllocError>
    requires ids { IsSmall buffer.old }
    requires placed { IsPlaced buffer.old }
    requires mask { run.now.kern_mask ≡ 8 }
    ensures kerned { IfOk result (λ told. KernsOpenly
        (by_marked_pairs marks_line run.now.skips 8 run.now.is_cross_stream (values_of run.now.values))
        buffer.old buffer.new told.items) }
    ensures ids { IsSmall buffer.new }
    ensures placed { IsPlaced buffer.new }
{
    let mut is_open = vec![in alloc; false; buffer.len()]?;
    tell_pairs(run.values, run.skips, buffer, &mut is_open);
    kern_line(run, marks_line, buffer);
    Ok(is_open)
}
