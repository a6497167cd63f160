//! The machine of the kerning table that gives values to the glyphs of a stack.
ghost use Rattle.std.specs.Prelude.{◌≡◌, ◌≤◌, [], length, reverse};
ghost use Rattle.aat_buffer.specs.Clusters.{IsSmall};
ghost use Rattle.aat_run.specs.Laws.{FitsAlways};
ghost use Rattle.aat_kerning_machines.specs.Positions.{IsPlaced};
ghost use Rattle.aat_kerning_machines.specs.Stack.{kern_act, pushed_by};
ghost use Rattle.aat_run.specs.inside.Places.{left_with};

use crate::stack::Stack;
use crate::stack_values::ValueList;
use crate::state_table_driver::StateTableDriver;
use aat_buffer::hb_buffer_t;
use aat_font::hb_ot_shape_plan_t;
use aat_kerning_tables::KernMachine;
use aat_machine_tables::entry_bits::NO_INDEX;
use aat_machine_tables::{GenericStateEntry, KernEntryData};
use std::alloc::Allocator;
use std::marker::Model;

/// The registers of a machine of the `kern` table: at most eight places of the line whose glyphs wait for values.
///
/// An entry may push the cursor, 0x8000, where a push at eight places empties the stack instead. Where it has an index,
/// it takes values: where the first is missing the stack is emptied, and else each place, from the newest down, is
/// popped and gets the next one, 0 where it is missing. A place at or beyond the length uses its value up, and an odd
/// value is the last of its list, and loses its lowest bit.
///
/// What a value does to a glyph, along the line and across it, is told at `Driver1`. The tuple count plays no part.
///
/// A contract sees it as the list of the places, the newest first. It fits everywhere, and takes no memory.
///
/// Apple's TrueType Reference Manual, "The 'kern' table", format 1.
#[derive(Drop)]
pub struct StateMachineDriver {
    stack: Stack,
}

impl Model for StateMachineDriver {
    ghost use Rattle.std.specs.Prelude.{ℕ, List};

    ghost Value = { List ℕ };

    ghost view = { λ m. m.stack };
}

impl StateMachineDriver {
    /// An empty stack.
    pub fn new() -> StateMachineDriver
        ensures { result ≡ [] }
    {
        StateMachineDriver {
            stack: Stack::new(),
        }
    }

    /// The places that wait for values, at most eight, the newest last.
    pub fn places(&self) -> &[usize]
        ensures places { reverse result.now ≡ self.now }
        ensures count { length result.now ≡ length self.now }
        ensures few { length result.now ≤ 8 }
    {
        self.stack.places()
    }

    /// Pushes a place, where the entry says so.
    fn prepare(&mut self, entry: &GenericStateEntry<KernEntryData>, place: usize)
        ensures { self.new ≡ pushed_by entry.now place self.old }
    {
        self.stack.push_if(place, entry.has_push());
    }

    /// Does what an entry says.
    #[tactic(auto, unfolding(crate::specs::Stack::kern_act))]
    fn act<A: Allocator + Copy>(
        &mut self,
        aat: &KernMachine,
        entry: &GenericStateEntry<KernEntryData>,
        has_cross_stream: bool,
        plan: &hb_ot_shape_plan_t,
        buffer: &mut hb_buffer_t<A>,
    )
        requires { IsPlaced buffer.old }
        ensures { left_with self.new buffer.new
            ≡ kern_act has_cross_stream plan.now.kern_mask aat.now.values entry.now self.old buffer.old }
    {
        self.prepare(entry, buffer.backtrack_len());
        let first = entry.extra.value_index;
        if first == NO_INDEX {
            return;
        }
        if usize::from(first) >= aat.values.len() {
            self.stack.clear();
            return;
        }
        let list = ValueList {
            values: &aat.values,
            step: 1,
            ends_at_missing: false,
            kern_mask: plan.kern_mask,
            is_cross_stream: has_cross_stream,
        };
        list.give_all(first, &mut self.stack, buffer);
    }
}

impl StateTableDriver<KernMachine, KernEntryData> for StateMachineDriver {
    ghost use Rattle.aat_machine_tables.specs.Entries.{is_present};
    ghost use Rattle.aat_kerning_machines.specs.Stack as stack;
    ghost use Rattle.aat_kerning_machines.specs.facts.Resting as alone;
    ghost use Rattle.aat_kerning_machines.specs.facts.StackLaws as laws;

    ghost fits = { FitsAlways };

    ghost actionable = { λ e. is_present e.extra.value_index };

    ghost resting = { stack.kern_rests };

    ghost act = { λ t is_cross kern_mask tuple_count. stack.kern_act is_cross kern_mask t.values };

    fn is_actionable(&self, entry: &GenericStateEntry<KernEntryData>) -> bool {
        entry.extra.value_index != NO_INDEX
    }

    fn rests(&self, entry: &GenericStateEntry<KernEntryData>) -> bool {
        !entry.has_push() & (entry.extra.value_index == NO_INDEX)
    }

    /// Does what the entry says. Each glyph has to have its position. In at most eight steps, with no memory.
    fn transition<A: Allocator + Copy>(
        &mut self,
        aat: &KernMachine,
        entry: &GenericStateEntry<KernEntryData>,
        has_cross_stream: bool,
        _tuple_count: u32,
        plan: &hb_ot_shape_plan_t,
        buffer: &mut hb_buffer_t<A>,
    )
        requires fit { FitsAlways self.old buffer.old.cursor (length buffer.old.line) }
        requires ids { IsSmall buffer.old }
        requires placed { IsPlaced buffer.old }
        ensures act { record { registers = self.new; buffer = buffer.new }
            ≡ kern_act has_cross_stream plan.now.kern_mask aat.now.values entry.now self.old buffer.old }
    {
        self.act(aat, entry, has_cross_stream, plan, buffer);
    }

    ghost rests_alone = { λ t is_cross kern_mask tuple_count. alone.kern_rest is_cross kern_mask t.values };

    ghost keeps_fit = { λ t is_cross kern_mask tuple_count.
        (laws.kern_is_lawful is_cross kern_mask t.values).keeps_fit };

    ghost passes_fit = { λ r p n fit below. tt };

    ghost positions_alone = { λ t is_cross kern_mask tuple_count. laws.kern_keeps_place is_cross kern_mask t.values };
}
