//! The machine of the extended kerning table that gives values to the glyphs of a stack.
ghost use Rattle.std.specs.Prelude.{◌≡◌, ◌≤◌, [], length, max, reverse, if◌then◌else◌};
ghost use Rattle.aat_buffer.specs.Clusters.{IsSmall};
ghost use Rattle.aat_machine_tables.specs.Entries.{has_flag};
ghost use Rattle.aat_run.specs.Laws.{FitsAlways};
ghost use Rattle.aat_kerning_machines.specs.Positions.{IsPlaced};
ghost use Rattle.aat_kerning_machines.specs.Stack.{kerx_act, kerx_value, popped, pushed_by};
ghost use Rattle.aat_run.specs.inside.Places.{left_with};

use crate::stack::Stack;
use crate::stack_values::ValueList;
use crate::state_table_driver::StateTableDriver;
use aat_buffer::hb_buffer_t;
use aat_font::hb_ot_shape_plan_t;
use aat_kerning_tables::Subtable1;
use aat_machine_tables::entry_bits::NO_INDEX;
use aat_machine_tables::{EntryData, GenericStateEntry};
use std::alloc::Allocator;
use std::marker::Model;

/// The largest tuple count at which an entry takes values.
const MAX_TUPLE_COUNT: u32 = 65535;

/// The registers of a stack machine of the `kerx` table: at most eight places of the line whose glyphs wait for values.
///
/// An entry may empty the stack, 0x2000, and then push the cursor, 0x8000, where a push at eight places empties the
/// stack instead. Where it has an index, and the tuple count is at most 65535, it takes values: each place, from the
/// newest down, is popped and gets the next one, by steps of the tuple count, or of 1 where that is 0. A place at or
/// beyond the length uses its value up; an odd value is the last of its list, and loses its lowest bit; a missing value
/// ends the list too, and so does one behind which the next index would pass 65535.
///
/// Along the line a value is added to the advance and the offset of each glyph whose mask meets the kern mask of the
/// plan, in vertical text only where the glyph has no offset yet. Across the line -0x8000 takes the glyph back to the
/// line, and another value is added to the offset of a glyph that is attached, with the scratch flag
/// `HAS_GPOS_ATTACHMENT`. Values are in units of the font.
///
/// A contract sees it as the list of the places, the newest first. It fits everywhere, and takes no memory.
///
/// Apple's TrueType Reference Manual, "The 'kerx' table", format 1.
#[derive(Drop)]
pub struct Driver1 {
    stack: Stack,
}

impl Model for Driver1 {
    ghost use Rattle.std.specs.Prelude.{ℕ, List};

    ghost Value = { List ℕ };

    ghost view = { λ m. m.stack };
}

impl Driver1 {
    /// An empty stack.
    pub fn new() -> Driver1
        ensures { result ≡ [] }
    {
        Driver1 {
            stack: Stack::new(),
        }
    }

    /// The places that wait for values, at most eight, the newest last.
    pub fn places(&self) -> &[usize]
        ensures places { reverse result.now ≡ self.now }
        ensures count { length result.now ≡ length self.now }
        ensures few { length result.now ≤ 8 }
    {
        self.stack.places()
    }

    /// Empties the stack, and then pushes a place, as the entry says.
    fn prepare(&mut self, entry: &GenericStateEntry<EntryData>, place: usize)
        ensures { self.new ≡ pushed_by entry.now place (if has_flag entry.now 0x2000 then [] else self.old) }
    {
        if entry.has_reset() {
            self.stack.clear();
        }
        self.stack.push_if(place, entry.has_push());
    }

    /// Does what an entry says.
    #[tactic(auto, unfolding(crate::specs::Stack::kerx_act))]
    fn act<A: Allocator + Copy>(
        &mut self,
        aat: &Subtable1,
        entry: &GenericStateEntry<EntryData>,
        has_cross_stream: bool,
        tuple_count: u32,
        plan: &hb_ot_shape_plan_t,
        buffer: &mut hb_buffer_t<A>,
    )
        requires { IsPlaced buffer.old }
        ensures { left_with self.new buffer.new
            ≡ kerx_act has_cross_stream plan.now.kern_mask tuple_count aat.now.values entry.now self.old buffer.old }
    {
        self.prepare(entry, buffer.backtrack_len());
        let first = entry.extra.action_index;
        if first == NO_INDEX || tuple_count > MAX_TUPLE_COUNT {
            return;
        }
        give_listed(
            &mut self.stack,
            aat,
            first,
            has_cross_stream,
            tuple_count,
            plan,
            buffer,
        );
    }
}

/// Gives the places of a stack the values from an index on. It stands apart, so that a turn that gives none stays
/// short.
#[inline(never)]
fn give_listed<A: Allocator + Copy>(
    stack: &mut Stack,
    aat: &Subtable1,
    first: u16,
    has_cross_stream: bool,
    tuple_count: u32,
    plan: &hb_ot_shape_plan_t,
    buffer: &mut hb_buffer_t<A>,
)
    requires placed { IsPlaced buffer.old }
    requires few { tuple_count ≤ 65535 }
    ensures { let step = max tuple_count 1 in
        left_with stack.new buffer.new
        ≡ popped has_cross_stream plan.now.kern_mask (kerx_value aat.now.values step) step stack.old first buffer.old }
{
    let list = ValueList {
        values: &aat.values,
        step: tuple_count.max(1) as usize,
        ends_at_missing: true,
        kern_mask: plan.kern_mask,
        is_cross_stream: has_cross_stream,
    };
    list.give_all(first, stack, buffer);
}

impl StateTableDriver<Subtable1, EntryData> for Driver1 {
    ghost use Rattle.aat_kerning_machines.specs.KerningMachine.{has_action};
    ghost use Rattle.aat_kerning_machines.specs.Stack as stack;
    ghost use Rattle.aat_kerning_machines.specs.facts.Resting as alone;
    ghost use Rattle.aat_kerning_machines.specs.facts.StackLaws as laws;

    ghost fits = { FitsAlways };

    ghost actionable = { has_action };

    ghost resting = { stack.kerx_rests };

    ghost act = { λ t is_cross kern_mask tuple_count. stack.kerx_act is_cross kern_mask tuple_count t.values };

    fn is_actionable(&self, entry: &GenericStateEntry<EntryData>) -> bool {
        entry.extra.action_index != NO_INDEX
    }

    fn rests(&self, entry: &GenericStateEntry<EntryData>) -> bool {
        !entry.has_push() & (!entry.has_reset() & (entry.extra.action_index == NO_INDEX))
    }

    /// Does what the entry says. Each glyph has to have its position. In at most eight steps, with no memory.
    fn transition<A: Allocator + Copy>(
        &mut self,
        aat: &Subtable1,
        entry: &GenericStateEntry<EntryData>,
        has_cross_stream: bool,
        tuple_count: u32,
        plan: &hb_ot_shape_plan_t,
        buffer: &mut hb_buffer_t<A>,
    )
        requires fit { FitsAlways self.old buffer.old.cursor (length buffer.old.line) }
        requires ids { IsSmall buffer.old }
        requires placed { IsPlaced buffer.old }
        ensures act { record { registers = self.new; buffer = buffer.new }
            ≡ kerx_act has_cross_stream plan.now.kern_mask tuple_count aat.now.values entry.now self.old buffer.old }
    {
        self.act(aat, entry, has_cross_stream, tuple_count, plan, buffer);
    }

    ghost rests_alone = { λ t is_cross kern_mask tuple_count.
        alone.kerx_rest is_cross kern_mask tuple_count t.values };

    ghost keeps_fit = { λ t is_cross kern_mask tuple_count.
        (laws.kerx_is_lawful is_cross kern_mask tuple_count t.values).keeps_fit };

    ghost passes_fit = { λ r p n fit below. tt };

    ghost positions_alone = { λ t is_cross kern_mask tuple_count.
        laws.kerx_keeps_place is_cross kern_mask tuple_count t.values };
}
