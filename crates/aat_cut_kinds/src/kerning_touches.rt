//! What the acts of kerning machines touch: asked of their drivers before each act.
ghost use Rattle.std.specs.Prelude.{◌≡◌, ◌*◌, ◌≤◌, ◌&&◌, length, nat_lt, not};
ghost use Rattle.aat_kerning_machines.specs.Stack.{is_odd};
ghost use Rattle.aat_kerning_machines.specs.inside.StackValues.{value_at};
ghost use Rattle.aat_cut_kinds.specs.KerningClosing.{taken_by};
ghost use Rattle.aat_cut_kinds.specs.inside.OpenRuns.{least_of};
ghost use Rattle.aat_machine_tables.specs.Entries.{is_present};

use crate::kerning_stack::{Places, STACK_SIZE};
use aat_kerning_machines::{Driver1, Driver4, StateMachineDriver, StateTableDriver};
use aat_kerning_tables::{KernMachine, Subtable1, Subtable4};
use aat_machine_tables::entry_bits::NO_INDEX;
use aat_machine_tables::{Acting, EntryData, GenericStateEntry, KernEntryData};

/// The largest tuple count at which an entry takes values.
const MAX_TUPLE_COUNT: u32 = 65535;

/// The last index that a `kerx` machine may go on to.
const LAST_INDEX: usize = 65535;

/// A driver of a kerning machine that tells what its acts touch.
pub(crate) trait TouchingDriver<Table, E: Acting>: StateTableDriver<Table, E> {
    ghost use Rattle.std.specs.Prelude.{ℕ, Bool};
    ghost use Rattle.aat_cut_kinds.specs.KerningClosing.{Touching};
    ghost use Rattle.aat_kerning_machines.specs.KerningLaws.{ChangesPositionsAlone};
    ghost use Rattle.aat_run.specs.Laws.{FitsAlways};

    /// What the kind is asked, by the subtable and the tuple count.
    ghost touching: { Table → ℕ → Touching Self E };

    /// The index of an entry.
    fn index(&self, entry: &GenericStateEntry<E>) -> u16
        ensures { (table : Table) (tuple_count : ℕ) → result ≡ (touching table tuple_count).index entry.now.extra };

    /// Whether an entry for the end of the text places no glyph, and clears none.
    fn rests_at_end(&self, entry: &GenericStateEntry<E>) -> bool
        ensures { (table : Table) (tuple_count : ℕ)
            → result ≡ (touching table tuple_count).rests_at_end entry.now self.now };

    /// The least of the places that the act of an entry at a cursor touches, over a line of a length, and of the cursor.
    fn least_touched(
        &self,
        aat: &Table,
        tuple_count: u32,
        entry: &GenericStateEntry<E>,
        cursor: usize,
        len: usize,
    ) -> usize
        ensures { result ≡ least_of ((touching aat.now tuple_count).touched entry.now self.now cursor len) cursor };

    /// An act changes positions alone, whatever the registers.
    ghost places_alone: { (table : Table) (is_cross : Bool) (kern_mask tuple_count : ℕ)
        → ChangesPositionsAlone (Self.act table is_cross kern_mask tuple_count) FitsAlways };
}

/// The values of a subtable, and which of them a list takes.
#[derive(Drop)]
struct Values<'a> {
    values: &'a [i16],
    /// How far apart two values of a list stand, from 1 to 65535.
    step: usize,
    /// Whether a missing value ends a list, and one whose next index is above 65535 is missing too. If not, a missing
    /// value is 0.
    ends_at_missing: bool,
}

/// Whether an entry touches no place that waits on a stack of so many: it has no index, and does not clear the stack.
fn touches_nothing(index: u16, does_push: bool, count: usize) -> bool
    ensures { result ≡ (not (is_present index) && not (does_push && not (nat_lt count 8))) }
{
    index == NO_INDEX && !(does_push && count >= STACK_SIZE)
}

/// Whether the lowest bit of a value is set.
fn is_odd(value: i16) -> bool
    ensures { result ≡ is_odd value }
{
    value.unsigned_abs() % 2 == 1
}

impl<'a> Values<'a> {
    /// The value at an index, if there is one.
    fn at(&self, index: usize) -> Option<i16>
        requires index { index ≤ 65535 * 9 }
        requires step { self.now.step ≤ 65535 }
        ensures { result ≡ value_at self.now.ends_at_missing self.now.values.now self.now.step index }
    {
        if self.ends_at_missing && index + self.step > LAST_INDEX {
            return None;
        }
        let value = self.values.get(index).copied();
        if self.ends_at_missing {
            value
        } else {
            Some(value.unwrap_or(0))
        }
    }

    /// The least of the places that the values from an index on take off a stack, over a line of a length, and of one
    /// more. In at most eight steps.
    fn least_taken(&self, first: u16, mut stack: Places, len: usize, most: usize) -> usize
        requires step { self.now.step ≤ 65535 }
        ensures { result
            ≡ least_of (taken_by (value_at self.now.ends_at_missing self.now.values.now self.now.step) self.now.step
            len stack first) most }
    {
        let _count = stack.len();
        let mut least = most;
        let mut index = usize::from(first);
        while let Some(place) = stack.pop() {
            least = least.min(place);
            let Some(value) = self.at(index) else {
                return least;
            };
            if is_odd(value) && place < len {
                return least;
            }
            index += self.step;
        }
        least
    }
}

impl TouchingDriver<KernMachine, KernEntryData> for StateMachineDriver {
    ghost use Rattle.aat_cut_kinds.specs.KerningClosing.{kern_touching};
    ghost use Rattle.aat_kerning_machines.specs.facts.StackLaws.{kern_keeps_place};

    ghost touching = { λ t tuple_count. kern_touching t.values };

    fn index(&self, entry: &GenericStateEntry<KernEntryData>) -> u16 {
        entry.extra.value_index
    }

    fn rests_at_end(&self, entry: &GenericStateEntry<KernEntryData>) -> bool {
        let count = self.places().len();
        (entry.extra.value_index == NO_INDEX || count == 0)
            && !(entry.has_push() && count >= STACK_SIZE)
    }

    fn least_touched(
        &self,
        aat: &KernMachine,
        _tuple_count: u32,
        entry: &GenericStateEntry<KernEntryData>,
        cursor: usize,
        len: usize,
    ) -> usize {
        let first = entry.extra.value_index;
        let count = self.places().len();
        if touches_nothing(first, entry.has_push(), count) {
            return cursor;
        }
        let mut stack = Places::of(self.places());
        let least = stack.push_if(cursor, entry.has_push());
        if first == NO_INDEX || usize::from(first) >= aat.values.len() {
            return least;
        }
        let values = Values {
            values: &aat.values,
            step: 1,
            ends_at_missing: false,
        };
        values.least_taken(first, stack, len, least)
    }

    ghost places_alone = { λ t is_cross kern_mask tuple_count. kern_keeps_place is_cross kern_mask t.values };
}

impl TouchingDriver<Subtable1, EntryData> for Driver1 {
    ghost use Rattle.aat_cut_kinds.specs.KerningClosing.{kerx_touching};
    ghost use Rattle.aat_kerning_machines.specs.facts.StackLaws.{kerx_keeps_place};

    ghost touching = { λ t tuple_count. kerx_touching tuple_count t.values };

    fn index(&self, entry: &GenericStateEntry<EntryData>) -> u16 {
        entry.extra.action_index
    }

    fn rests_at_end(&self, entry: &GenericStateEntry<EntryData>) -> bool {
        if entry.has_reset() {
            return true;
        }
        let count = self.places().len();
        (entry.extra.action_index == NO_INDEX || count == 0)
            && !(entry.has_push() && count >= STACK_SIZE)
    }

    fn least_touched(
        &self,
        aat: &Subtable1,
        tuple_count: u32,
        entry: &GenericStateEntry<EntryData>,
        cursor: usize,
        len: usize,
    ) -> usize {
        let first = entry.extra.action_index;
        let count = self.places().len();
        if touches_nothing(first, entry.has_push(), count) {
            return cursor;
        }
        let mut stack = Places::new();
        if !entry.has_reset() {
            stack = Places::of(self.places());
        }
        let least = stack.push_if(cursor, entry.has_push());
        if first == NO_INDEX || tuple_count > MAX_TUPLE_COUNT {
            return least;
        }
        let values = Values {
            values: &aat.values,
            step: tuple_count.max(1) as usize,
            ends_at_missing: true,
        };
        values.least_taken(first, stack, len, least)
    }

    ghost places_alone = { λ t is_cross kern_mask tuple_count. kerx_keeps_place is_cross kern_mask tuple_count t.values };
}

impl<'a> TouchingDriver<Subtable4, EntryData> for Driver4<'a> {
    ghost use Rattle.aat_cut_kinds.specs.inside.OpenRuns.{held_touching};
    ghost use Rattle.aat_cut_kinds.specs.facts.HeldAnchors.{held_keeps_places};

    ghost touching = { λ t tuple_count. held_touching };

    fn index(&self, entry: &GenericStateEntry<EntryData>) -> u16 {
        entry.extra.action_index
    }

    fn rests_at_end(&self, _entry: &GenericStateEntry<EntryData>) -> bool {
        true
    }

    #[tactic(auto, unfolding(crate::specs::inside::OpenRuns::least_of))]
    fn least_touched(
        &self,
        _aat: &Subtable4,
        _tuple_count: u32,
        entry: &GenericStateEntry<EntryData>,
        cursor: usize,
        len: usize,
    ) -> usize {
        if entry.extra.action_index == NO_INDEX || cursor >= len {
            return cursor;
        }
        match self.mark() {
            Some(place) => cursor.min(place),
            None => cursor,
        }
    }

    ghost places_alone = { λ t is_cross kern_mask tuple_count. held_keeps_places t.anchor_points };
}
