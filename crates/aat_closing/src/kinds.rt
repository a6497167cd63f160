//! What the acts of each kind look at.
ghost use Rattle.std.specs.Prelude.{◌≡◌};

use crate::closes::Closes;
use aat_buffer::hb_buffer_t;
use aat_kinds::{ContextualCtx, InsertionCtx, RearrangementCtx};
use aat_machine_tables::entry_bits::rearrangement::{MARK_FIRST, MARK_LAST, VERB};
use aat_machine_tables::{
    ContextualEntryData, ContextualSubtable, ExtendedStateTable, GenericStateEntry,
    InsertionEntryData, InsertionSubtable,
};
use aat_run::driver_context_t;
use std::alloc::Allocator;

/// The index of no lookup, and of no run of glyphs.
const NONE: u16 = 0xFFFF;

impl<'a> Closes<ContextualEntryData, ContextualSubtable> for ContextualCtx<'a> {
    ghost use Rattle.aat_kinds.specs.Contextual.{held_actionable};
    ghost use Rattle.aat_closing.specs.Held.{held_contextual_from};
    ghost use Rattle.aat_closing.specs.facts.RestOpen.{contextual_rests_open};

    ghost from = { held_contextual_from };

    ghost acting = { held_actionable };

    fn closed_from<A: Allocator + Copy>(
        &self,
        _subtable: &ContextualSubtable,
        entry: &GenericStateEntry<ContextualEntryData>,
        buffer: &hb_buffer_t<A>,
    ) -> usize {
        let names_mark = entry.extra.mark_index != NONE;
        if buffer.has_current() {
            if names_mark {
                return self.marked_place();
            }
        } else if names_mark || entry.extra.current_index != NONE {
            return self.marked_place().saturating_sub(1);
        }
        buffer.backtrack_len()
    }

    fn may_act<A: Allocator + Copy>(
        &self,
        entry: &GenericStateEntry<ContextualEntryData>,
        buffer: &hb_buffer_t<A>,
    ) -> bool {
        self.is_actionable(entry, buffer)
    }

    fn may_act_by_entries<A: Allocator + Copy>(&self, buffer: &hb_buffer_t<A>) -> bool {
        self.acts_by_entries(buffer)
    }

    ghost rests_open = { contextual_rests_open };
}

impl<const LONGEST: usize> Closes<(), ExtendedStateTable<()>> for RearrangementCtx<LONGEST> {
    ghost use Rattle.aat_machine_tables.specs.Judged.{rearrangement_acts};
    ghost use Rattle.aat_closing.specs.Held.{held_rearrangement_from};
    ghost use Rattle.aat_closing.specs.facts.RestOpen.{rearrangement_rests_open};

    ghost from = { held_rearrangement_from };

    ghost acting = { λ e r p n. rearrangement_acts e };

    fn closed_from<A: Allocator + Copy>(
        &self,
        _subtable: &ExtendedStateTable<()>,
        entry: &GenericStateEntry<()>,
        buffer: &hb_buffer_t<A>,
    ) -> usize {
        let cursor = buffer.backtrack_len();
        let length = buffer.len();
        if entry.flags & VERB == 0 {
            return cursor;
        }
        let (start, end) = self.span();
        let first = if entry.flags & MARK_FIRST != 0 {
            cursor
        } else {
            start
        };
        let last = if entry.flags & MARK_LAST != 0 {
            (cursor + 1).min(length).saturating_sub(1)
        } else {
            end.saturating_sub(2)
        };
        first.min(last)
    }

    fn may_act<A: Allocator + Copy>(
        &self,
        entry: &GenericStateEntry<()>,
        _buffer: &hb_buffer_t<A>,
    ) -> bool {
        entry.flags & VERB != 0
    }

    fn may_act_by_entries<A: Allocator + Copy>(&self, _buffer: &hb_buffer_t<A>) -> bool {
        true
    }

    ghost rests_open = { rearrangement_rests_open };
}

impl<'a> Closes<InsertionEntryData, InsertionSubtable> for InsertionCtx<'a> {
    ghost use Rattle.aat_closing.specs.Closing.{insertion_may_act};
    ghost use Rattle.aat_closing.specs.Held.{held_insertion_from};
    ghost use Rattle.aat_closing.specs.facts.RestOpen.{insertion_rests_open};

    ghost from = { held_insertion_from };

    ghost acting = { λ e r p n. insertion_may_act e };

    fn closed_from<A: Allocator + Copy>(
        &self,
        _subtable: &InsertionSubtable,
        _entry: &GenericStateEntry<InsertionEntryData>,
        buffer: &hb_buffer_t<A>,
    ) -> usize {
        buffer.backtrack_len()
    }

    fn may_act<A: Allocator + Copy>(
        &self,
        entry: &GenericStateEntry<InsertionEntryData>,
        _buffer: &hb_buffer_t<A>,
    ) -> bool {
        entry.extra.current_insert_index != NONE || entry.extra.marked_insert_index != NONE
    }

    fn may_act_by_entries<A: Allocator + Copy>(&self, _buffer: &hb_buffer_t<A>) -> bool {
        false
    }

    ghost rests_open = { insertion_rests_open };
}
