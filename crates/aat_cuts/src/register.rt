//! The registers of machines, and what entries do to them.
ghost use Rattle.std.specs.Prelude.{◌≡◌, ◌==◌, ◌&&◌, ◌||◌, ℕ, Bool, IfOk, List, Option, Some, None, map, nat_lt, not};
ghost use Rattle.aat_machine_tables.specs.Entries.{goes_on};
ghost use Rattle.aat_machine_tables.specs.Table.{entry_of};
ghost use Rattle.aat_cuts.specs.Labels.{AreLabels};
ghost use Rattle.aat_cuts.specs.Reached.{AreReached, is_labelled};
ghost use Rattle.aat_cuts.specs.Settled.{Register, is_answered};
ghost use Rattle.aat_cuts.specs.inside.Steps.{AreClasses, IsFoundIn, differs, is_same, step_of};

use crate::cells::Cell;
use crate::reached::Reached;
use crate::steps::{Step, Trouble, find_trouble};
use aat_machine_tables::entry_bits::{NO_INDEX, rearrangement};
use aat_machine_tables::{Acting, ContextualEntryData, ExtendedStateTable, GenericStateEntry};
use std::alloc::{AllocError, Global};

/// A register of a machine.
pub(crate) trait MachineRegister<T: Copy> {
    ghost use Rattle.aat_cuts.specs.Settled.{Register};

    /// What it is to entries.
    ghost means: { Self → Register T };

    /// Whether the entry uses what the register was before.
    fn uses(&self, entry: &GenericStateEntry<T>) -> bool
        ensures { result ≡ (means self.now).uses entry.now };

    /// Whether the entry does so at the end of the text.
    fn uses_at_end(&self, entry: &GenericStateEntry<T>) -> bool
        ensures { result ≡ (means self.now).uses_at_end entry.now };

    /// Whether the entry sets the register.
    fn sets(&self, entry: &GenericStateEntry<T>) -> bool
        ensures { result ≡ (means self.now).sets entry.now };

    /// Whether the act of the entry may be nothing.
    fn may_idle(&self, entry: &GenericStateEntry<T>) -> bool
        ensures { result ≡ (means self.now).may_idle entry.now };
}

/// The mark of a contextual machine with so many lookups.
#[derive(Clone, Copy)]
pub(crate) struct Mark {
    /// How many lookups there are.
    pub(crate) lookups: usize,
}

impl Mark {
    /// Whether an index names no lookup, or one that is there.
    fn is_answered(&self, index: u16) -> bool
        ensures { result ≡ is_answered self.now.lookups index }
    {
        index == NO_INDEX || (index as usize) < self.lookups
    }
}

impl MachineRegister<ContextualEntryData> for Mark {
    ghost use Rattle.aat_cuts.specs.Settled.{the_mark};

    ghost means = { λ m. the_mark m.lookups };

    fn uses(&self, entry: &GenericStateEntry<ContextualEntryData>) -> bool {
        entry.extra.mark_index != NO_INDEX
    }

    fn uses_at_end(&self, entry: &GenericStateEntry<ContextualEntryData>) -> bool {
        entry.extra.current_index != NO_INDEX
    }

    fn sets(&self, entry: &GenericStateEntry<ContextualEntryData>) -> bool {
        entry.has_mark()
            && self.is_answered(entry.extra.mark_index)
            && self.is_answered(entry.extra.current_index)
    }

    fn may_idle(&self, entry: &GenericStateEntry<ContextualEntryData>) -> bool {
        entry.extra.mark_index == NO_INDEX && entry.extra.current_index == NO_INDEX
    }
}

/// The start or the end of the span of a rearrangement, by the flag that sets it.
#[derive(Clone, Copy)]
pub(crate) struct SpanEnd {
    /// The flag.
    pub(crate) flag: u16,
}

impl MachineRegister<()> for SpanEnd {
    ghost use Rattle.aat_cuts.specs.Settled.{the_end_set_by};

    ghost means = { λ m. the_end_set_by m.flag };

    fn uses(&self, entry: &GenericStateEntry<()>) -> bool {
        entry.flags & rearrangement::VERB != 0 && entry.flags & self.flag == 0
    }

    fn uses_at_end(&self, _entry: &GenericStateEntry<()>) -> bool {
        false
    }

    fn sets(&self, entry: &GenericStateEntry<()>) -> bool {
        entry.flags & self.flag != 0
    }

    fn may_idle(&self, _entry: &GenericStateEntry<()>) -> bool {
        true
    }
}

/// Whether an entry and that of state 0 for its class may be taken for one, and set a register differently.
fn differs<T: Copy, R: MachineRegister<T>>(
    register: &R,
    entry: &GenericStateEntry<T>,
    first: Option<GenericStateEntry<T>>,
) -> bool
    ensures { result ≡ differs (R.means register.now) entry.now first }
{
    let Some(first) = first else {
        return false;
    };
    register.may_idle(entry)
        && register.may_idle(&first)
        && entry.new_state == first.new_state
        && entry.has_advance() == first.has_advance()
        && register.sets(entry) != register.sets(&first)
}

/// What an entry does to a register.
fn step_of<T: Acting, R: MachineRegister<T>>(
    register: &R,
    table: &ExtendedStateTable<T>,
    classes: &[u8],
    cell: Cell<T>,
) -> Step
    requires { AreLabels classes.now }
    ensures { result ≡ step_of (R.means register.now) table.now classes.now cell }
{
    let (state, class, entry) = cell;
    let is_of_glyph = classes[class as usize] > 0;
    Step {
        state,
        class,
        next: entry.new_state,
        uses: register.uses(&entry) || (class == 0 && register.uses_at_end(&entry)),
        keeps: is_of_glyph && !register.sets(&entry),
        differs: is_of_glyph && differs(register, &entry, table.entry(0, class)),
    }
}

/// What entries do to a register.
pub(crate) fn steps_of<T: Acting, R: MachineRegister<T>>(
    alloc: Global,
    register: &R,
    table: &ExtendedStateTable<T>,
    classes: &[u8],
    cells: &[Cell<T>],
) -> Result<Vec<Step>, AllocError>
    requires { AreLabels classes.now }
    ensures { IfOk result (λ steps. steps.items
        ≡ map (step_of (R.means register.now) table.now classes.now) cells.now) }
{
    cells
        .iter()
        .map(|cell| step_of(register, table, classes, *cell))
        .collect(alloc)
}

/// Finds an entry that uses a register of a machine that may not be set, or else one that is taken for that of state
/// 0, which sets it differently, where it may be used behind them.
pub(crate) fn find_in_register<T: Acting, R: MachineRegister<T>>(
    alloc: Global,
    register: &R,
    table: &ExtendedStateTable<T>,
    reached: &Reached<T>,
    classes: &[u8],
) -> Result<Option<Trouble>, AllocError>
    requires reached { AreReached table.now reached.now.labels.items reached.now.cells.items }
    requires labels { AreLabels classes.now }
    requires classes { AreClasses table.now classes.now }
    ensures { IfOk result (IsFoundIn table.now (R.means register.now) (is_labelled reached.now.labels.items)) }
{
    let cells = reached.cells.as_slice();
    let steps = steps_of(alloc, register, table, classes, cells)?;
    let found = find_trouble(alloc, &steps)?;
    Ok(found)
}
