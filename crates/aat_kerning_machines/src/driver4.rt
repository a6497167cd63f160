//! The driver of anchor subtables: it attaches the current glyph to the marked one, so that their anchor points meet.
ghost use Rattle.std.specs.Prelude.{◌≡◌, ◌-ℤ◌, ◌<◌, ◌≤◌, false, length, None, option_copied, pos, slice_get, Some, unsigned_abs};
ghost use Rattle.std.specs.Bool.{OnTrue};
ghost use Rattle.std.specs.Int.{int_rem_euclid, int_wrap, w16};
ghost use Rattle.aat_buffer.specs.Clusters.{IsSmall};
ghost use Rattle.aat_kerning_tables.specs.AnchorPoints.{point_of};
ghost use Rattle.aat_kerning_machines.specs.Anchors.{anchored, attached_to_mark, held_act, held_fit, held_fresh};
ghost use Rattle.aat_kerning_machines.specs.Positions.{IsPlaced};

use crate::attachment::note_attachment;
use crate::state_table_driver::StateTableDriver;
use aat_buffer::hb_buffer_t;
use aat_font::hb_ot_shape_plan_t;
use aat_kerning_tables::{Ankr, Point, Subtable4};
use aat_lookup::GlyphId;
use aat_machine_tables::entry_bits::NO_INDEX;
use aat_machine_tables::{EntryData, GenericStateEntry};
use std::alloc::Allocator;
use std::marker::Model;

/// The attach type of a glyph that is attached to another one as a mark.
const MARK: u8 = 1;

/// The registers of an anchor machine, the marked place, if one was marked, over the anchor points of a font.
///
/// A contract sees it as the record `Held`.
///
/// Apple's TrueType Reference Manual, "The 'kerx' table", format 4, and "The 'ankr' table".
#[derive(Drop)]
pub struct Driver4<'a> {
    ankr: Option<&'a Ankr>,
    mark: Option<usize>,
}

impl<'a> Model for Driver4<'a> {
    ghost use Rattle.std.specs.Prelude.{option_copied};
    ghost use Rattle.aat_kerning_machines.specs.Anchors.{Held};

    ghost Value = { Held };

    ghost view = { λ m. record { points = option_copied m.ankr; mark = m.mark } };
}

impl<'a> Driver4<'a> {
    /// No marked place, over the anchor points of a font, where it has them.
    pub fn new(ankr: Option<&'a Ankr>) -> Driver4<'a>
        ensures { result ≡ held_fresh (option_copied ankr.entry) }
    {
        Driver4 { ankr, mark: None }
    }

    /// The marked place, if one was marked.
    pub fn mark(&self) -> Option<usize>
        ensures { result ≡ self.now.mark }
    {
        self.mark
    }

    /// Moves the glyph at the cursor so that its point meets the marked glyph's, by the pair of points that an index
    /// names. Without anchor points all stays. Answers whether there is such a pair, or are no anchor points.
    fn anchor<A: Allocator + Copy>(
        &self,
        aat: &Subtable4,
        index: u16,
        mark: usize,
        buffer: &mut hb_buffer_t<A>,
    ) -> bool
        requires marked { mark < length buffer.old.line }
        requires inside { buffer.old.cursor < length buffer.old.line }
        requires ids { IsSmall buffer.old }
        requires placed { IsPlaced buffer.old }
        ensures standing { OnTrue result
            (anchored self.now.points aat.now.anchor_points index mark buffer.old ≡ Some buffer.new) }
        ensures missing { result ≡ false
            → (anchored self.now.points aat.now.anchor_points index mark buffer.old ≡ None)
            × (buffer.new ≡ buffer.old) }
        ensures line { buffer.new.line ≡ buffer.old.line }
        ensures cursor { buffer.new.cursor ≡ buffer.old.cursor }
        ensures placed { IsPlaced buffer.new }
    {
        match self.ankr {
            Some(ankr) => meet_points(ankr, &aat.anchor_points, index, mark, buffer),
            None => true,
        }
    }

    /// Does what an entry says. Where a place is marked and the entry has an index, the glyph at the cursor is attached
    /// to the marked one; a missing pair of points ends the act. Then the entry may mark the cursor.
    #[tactic(auto, unfolding(crate::specs::Anchors::anchor_act))]
    fn act<A: Allocator + Copy>(
        &mut self,
        aat: &Subtable4,
        entry: &GenericStateEntry<EntryData>,
        buffer: &mut hb_buffer_t<A>,
    )
        requires fit { held_fit self.old buffer.old.cursor (length buffer.old.line) }
        requires ids { IsSmall buffer.old }
        requires placed { IsPlaced buffer.old }
        ensures { record { registers = self.new; buffer = buffer.new }
            ≡ held_act aat.now.anchor_points entry.now self.old buffer.old }
    {
        let place = buffer.backtrack_len();
        let index = entry.extra.action_index;
        if let Some(mark) = self.mark {
            if index != NO_INDEX && place < buffer.len() {
                if !self.anchor(aat, index, mark, buffer) {
                    return;
                }
                attach_to_mark(mark, buffer);
            }
        }
        if entry.has_mark() {
            self.mark = Some(place);
        }
    }
}

impl<'a> StateTableDriver<Subtable4, EntryData> for Driver4<'a> {
    ghost use Rattle.aat_kerning_machines.specs.Anchors as anchors;
    ghost use Rattle.aat_kerning_machines.specs.KerningMachine as machine;
    ghost use Rattle.aat_kerning_machines.specs.facts.AnchorHeld as laws;
    ghost use Rattle.aat_kerning_machines.specs.facts.Resting as alone;

    ghost fits = { anchors.held_fit };

    ghost actionable = { machine.has_action };

    ghost resting = { anchors.anchor_rests };

    ghost act = { λ table is_cross kern_mask tuple_count. anchors.held_act table.anchor_points };

    fn is_actionable(&self, entry: &GenericStateEntry<EntryData>) -> bool {
        entry.extra.action_index != NO_INDEX
    }

    fn rests(&self, entry: &GenericStateEntry<EntryData>) -> bool {
        !entry.has_mark() & (entry.extra.action_index == NO_INDEX)
    }

    /// Does what the entry says. Where a place is marked and the entry has an index, the glyph at the cursor is
    /// attached to the marked one; a missing pair of points ends the act. Then the entry may mark the cursor. The
    /// line's direction, the cross-stream, the tuple count and the plan do not matter.
    fn transition<A: Allocator + Copy>(
        &mut self,
        aat: &Subtable4,
        entry: &GenericStateEntry<EntryData>,
        _has_cross_stream: bool,
        _tuple_count: u32,
        _plan: &hb_ot_shape_plan_t,
        buffer: &mut hb_buffer_t<A>,
    ) {
        self.act(aat, entry, buffer);
    }

    ghost rests_alone = { λ table is_cross kern_mask tuple_count. alone.held_rest table.anchor_points };

    ghost keeps_fit = { λ table is_cross kern_mask tuple_count. laws.keeps_fit table.anchor_points };

    ghost passes_fit = { laws.passes_fit };

    ghost positions_alone = { λ table is_cross kern_mask tuple_count. laws.positions_alone table.anchor_points };
}

/// Moves the glyph at the cursor so that its point meets the marked glyph's, by the pair of points that an index names.
/// Answers whether there is such a pair; else all stays.
fn meet_points<A: Allocator + Copy>(
    ankr: &Ankr,
    pairs: &[(u16, u16)],
    index: u16,
    mark: usize,
    buffer: &mut hb_buffer_t<A>,
) -> bool
    requires marked { mark < length buffer.old.line }
    requires inside { buffer.old.cursor < length buffer.old.line }
    requires ids { IsSmall buffer.old }
    requires placed { IsPlaced buffer.old }
    ensures standing { OnTrue result (anchored (Some ankr.now) pairs.now index mark buffer.old ≡ Some buffer.new) }
    ensures missing { result ≡ false
        → (anchored (Some ankr.now) pairs.now index mark buffer.old ≡ None) × (buffer.new ≡ buffer.old) }
    ensures line { buffer.new.line ≡ buffer.old.line }
    ensures cursor { buffer.new.cursor ≡ buffer.old.cursor }
    ensures placed { IsPlaced buffer.new }
{
    let Some(pair) = pair_at(pairs, index) else {
        return false;
    };
    let place = buffer.backtrack_len();
    let marked = point_of(ankr, buffer.info(mark).glyph_id, pair.0);
    let current = point_of(ankr, buffer.info(place).glyph_id, pair.1);
    let position = buffer.pos_mut(place);
    position.x_offset = way_between(current.x, marked.x);
    position.y_offset = way_between(current.y, marked.y);
    true
}

/// The pair of points that an index names, if there is one: the index of a point of the marked glyph, and that of a
/// point of the current one.
fn pair_at(pairs: &[(u16, u16)], index: u16) -> Option<(u16, u16)>
    ensures { result ≡ slice_get pairs.now index }
{
    pairs.get(index as usize).copied()
}

/// The point of a glyph at an index, and the origin where none is listed.
fn point_of(ankr: &Ankr, glyph: u32, index: u16) -> Point
    requires { glyph ≤ 65535 }
    ensures { result ≡ point_of ankr.now glyph index }
{
    ankr.point(GlyphId(glyph as u16), index)
        .unwrap_or(Point { x: 0, y: 0 })
}

/// The way from one coordinate to another, in units of the font.
fn way_between(from: i16, to: i16) -> i32
    ensures { result ≡ to -ℤ from }
{
    to as i32 - from as i32
}

/// The way from one place to another, in places, of which the low 16 bits are kept.
#[tactic(auto, using(crate::proofs::LowBits::low_bits_wrap))]
fn chain_between(from: usize, to: usize) -> i16
    requires from_small { from ≤ 0x3FFFFFFF }
    requires to_small { to ≤ 0x3FFFFFFF }
    ensures { result ≡ int_wrap w16 (pos to -ℤ pos from) }
{
    low_bits(to as i64 - from as i64).cast_signed()
}

/// The low 16 bits of a number.
fn low_bits(number: i64) -> u16
    ensures { result ≡ unsigned_abs (int_rem_euclid number (pos 65536)) }
{
    number.rem_euclid(65536) as u16
}

/// Attaches the glyph at the cursor to the marked one as a mark, and notes in the buffer that glyphs are attached.
/// The chain is counted in the order of the line as it stands, which is that of the machine. Whoever turns the line back
/// afterwards leaves the chain as it is, so that it points the other way; and where glyphs are removed later, it may
/// lead to another glyph or past the line.
fn attach_to_mark<A: Allocator + Copy>(mark: usize, buffer: &mut hb_buffer_t<A>)
    requires marked { mark < length buffer.old.line }
    requires inside { buffer.old.cursor < length buffer.old.line }
    requires placed { IsPlaced buffer.old }
    ensures { buffer.new ≡ attached_to_mark mark buffer.old }
{
    let _length = buffer.len();
    let place = buffer.backtrack_len();
    let attach_chain = chain_between(place, mark);
    let position = buffer.pos_mut(place);
    position.attach_type = MARK;
    position.attach_chain = attach_chain;
    note_attachment(buffer);
}
