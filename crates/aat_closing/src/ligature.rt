//! What an act of ligatures looks at: the components that it may take.
ghost use Rattle.std.specs.Prelude.{◌≡◌, ◌+◌, ◌-◌, ◌<◌, ◌≤◌, ◌^◌, length, min};
ghost use Rattle.aat_lookup.specs.Truth.{is_some_and};
ghost use Rattle.aat_machine_tables.specs.Entries.{has_flag};
ghost use Rattle.aat_buffer.specs.Clusters.{IsSmall};
ghost use Rattle.aat_run.specs.Context.{entry_at};
ghost use Rattle.aat_kinds.specs.Ligature.{component, with_component};
ghost use Rattle.aat_closing.specs.Closing.{are_in_order, oldest_of_newest, steps_of};

use crate::closes::Closes;
use aat_buffer::hb_buffer_t;
use aat_kinds::LigatureCtx;
use aat_machine_tables::entry_bits::ligature::{LIG_ACTION_LAST, PERFORM_ACTION};
use aat_machine_tables::entry_bits::state::START_OF_TEXT;
use aat_machine_tables::{ExtendedStateTable, GenericStateEntry, LigatureSubtable};
use aat_run::{class_at_cursor, driver_context_t};
use std::alloc::Allocator;
use std::marker::Model;

/// The components that a context holds behind the push of an entry. A contract sees them as the record `Registers`.
/// That the context's slots fit in memory is known where it is at hand, and kept with it.
#[derive(Drop)]
struct Pushed<'a, 'b, const SLOTS: usize> {
    context: &'a LigatureCtx<'b, SLOTS>,
    cursor: usize,
    is_pushed: bool,
}

impl<'a, 'b, const SLOTS: usize> Model for Pushed<'a, 'b, SLOTS> {
    ghost use Rattle.std.specs.Prelude.{◌≡◌, ◌+◌, ◌%◌, ◌<◌, ◌^◌, length, slice_set, if◌then◌else◌};
    ghost use Rattle.aat_kinds.specs.Ligature.{Registers};

    ghost Value = { Registers };

    ghost view = { λ m.
        let r = m.context.now.registers in
        if m.is_pushed
        then record { count = r.count + 1; slots = slice_set r.slots (r.count % length r.slots) m.cursor }
        else r };

    ghost invariant = { λ m. (length m.context.now.registers.slots ≡ SLOTS) × (SLOTS + 2 < 2 ^ 60) };
}

impl<'a, 'b, const SLOTS: usize> Pushed<'a, 'b, SLOTS> {
    /// Those behind the push of an entry at the cursor. The cursor is no component twice.
    fn new(
        context: &'a LigatureCtx<'b, SLOTS>,
        entry: &GenericStateEntry<u16>,
        cursor: usize,
    ) -> Pushed<'a, 'b, SLOTS>
        requires { 0 < length context.now.registers.slots }
        ensures { result ≡ with_component entry.now context.now.registers cursor }
    {
        let count = context.component_count();
        let is_held = count > 0 && context.component(count - 1) == cursor;
        Pushed {
            context,
            cursor,
            is_pushed: entry.has_push() && !is_held,
        }
    }

    fn count(&self) -> usize
        requires { self.now.count < 2 ^ 63 }
        ensures count { result ≡ self.now.count }
        ensures slots { length self.now.slots ≡ SLOTS }
    {
        self.context.component_count() + usize::from(self.is_pushed)
    }

    fn component(&self, j: usize) -> usize
        requires { 0 < length self.now.slots }
        ensures { result ≡ component self.now j }
    {
        if self.is_pushed && j % SLOTS == self.context.component_count() % SLOTS {
            self.cursor
        } else {
            self.context.component(j)
        }
    }

    /// Whether component `first` stands before the next one, and so do the `n - 1` behind it.
    fn are_in_order(&self, first: usize, n: usize) -> bool
        requires some { 0 < length self.now.slots }
        requires few { first + n < 2 ^ 63 }
        ensures { result ≡ are_in_order self.now first n }
    {
        let mut i = first;
        let mut left = n;
        while left > 0 {
            if self.component(i) >= self.component(i + 1) {
                return false;
            }
            i += 1;
            left -= 1;
        }
        true
    }

    /// The place of the oldest of the `m` newest; the first place of the line where as many are not held, or not all of
    /// them can be in their slots.
    fn oldest_of_newest(&self, m: usize) -> usize
        requires some { 0 < length self.now.slots }
        requires few { self.now.count < 2 ^ 62 }
        requires more { 0 < m }
        ensures { result ≡ oldest_of_newest self.now m }
    {
        let count = self.count();
        if count < m || SLOTS < m || !self.are_in_order(count - m, m - 1) {
            return 0;
        }
        self.component(count - m)
    }
}

/// How many components an act takes at most by the actions from an index, but at most one more than are held.
fn steps_of(actions: &[u32], first: u16, held: usize) -> usize
    requires { held < 2 ^ 62 }
    ensures { result ≡ min (steps_of actions.now first) (held + 1) }
{
    let mut n = 0;
    while n < held {
        let Some(action) = actions.get(usize::from(first) + n) else {
            return n + 1;
        };
        n += 1;
        if action & LIG_ACTION_LAST != 0 {
            return n;
        }
    }
    n + 1
}

/// Whether the entry of state 0 for the glyph at the cursor holds it as a component.
fn holds_from_start<A: Allocator + Copy>(
    machine: &ExtendedStateTable<u16>,
    buffer: &hb_buffer_t<A>,
) -> bool
    requires { IsSmall buffer.now }
    ensures { result ≡ is_some_and (entry_at machine.now 0 buffer.now) (λ f. has_flag f 0x8000) }
{
    match machine.entry(START_OF_TEXT, class_at_cursor(machine, buffer)) {
        Some(entry) => entry.has_push(),
        None => false,
    }
}

impl<'a, const SLOTS: usize> Closes<u16, LigatureSubtable> for LigatureCtx<'a, SLOTS> {
    ghost use Rattle.aat_kinds.specs.Ligature.{held_actionable};
    ghost use Rattle.aat_closing.specs.Held.{held_ligature_from};
    ghost use Rattle.aat_closing.specs.facts.RestOpen.{ligature_rests_open};

    ghost from = { held_ligature_from };

    ghost acting = { held_actionable };

    fn closed_from<A: Allocator + Copy>(
        &self,
        subtable: &LigatureSubtable,
        entry: &GenericStateEntry<u16>,
        buffer: &hb_buffer_t<A>,
    ) -> usize {
        let cursor = buffer.backtrack_len();
        if entry.flags & PERFORM_ACTION != 0 {
            if cursor >= buffer.len() {
                return cursor;
            }
            let pushed = Pushed::new(self, entry, cursor);
            let steps = steps_of(&subtable.ligature_actions, entry.extra, pushed.count());
            return pushed.oldest_of_newest(steps);
        }
        if !entry.has_push() {
            return cursor;
        }
        if entry.has_advance() && holds_from_start(&subtable.state, buffer) {
            return cursor;
        }
        cursor.saturating_sub(1)
    }

    fn may_act<A: Allocator + Copy>(
        &self,
        entry: &GenericStateEntry<u16>,
        buffer: &hb_buffer_t<A>,
    ) -> bool {
        self.is_actionable(entry, buffer)
    }

    fn may_act_by_entries<A: Allocator + Copy>(&self, buffer: &hb_buffer_t<A>) -> bool {
        self.acts_by_entries(buffer)
    }

    ghost rests_open = { ligature_rests_open };
}
