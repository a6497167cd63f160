//! Whether a ligature machine takes only components that are surely held.
ghost use Rattle.std.specs.Prelude.{◌≡◌, ◌≤◌, ◌<◌, ◌==◌, ◌&&◌, ℕ, Bool, true, false, IfOk, IfSome, IfNone, List, Option, None, Some, map, nat_lt, not, min, drop, length};
ghost use Rattle.std.specs.List.{All, Contains};
ghost use Rattle.aat_machine_tables.specs.Table.{Rule, entry_of};
ghost use Rattle.aat_machine_tables.specs.declared.state_table.GenericStateEntry.{GenericStateEntry};
ghost use Rattle.aat_cuts.specs.Held.{action_count, taken_by};
ghost use Rattle.aat_cuts.specs.Kinds.{IsVerdictOnLigature};
ghost use Rattle.aat_cuts.specs.Labels.{AreLabels, AreLeast};
ghost use Rattle.aat_cuts.specs.Reached.{AreReached};
ghost use Rattle.aat_cuts.specs.inside.HeldSteps.{AreEnough, IsLacking, differs_in_push, held_edge, held_step_of, here_edge, is_over, is_taken};

use crate::cells::Cell;
use crate::classes::glyph_classes;
use crate::labels::{Asked, Edge, STATES};
use crate::least::least_labels;
use crate::reached::{Reach, Reached, find_reached};
use crate::unsettled::{Unsettled, UsedRegister};
use aat_machine_tables::entry_bits::ligature;
use aat_machine_tables::{ExtendedStateTable, GenericStateEntry};
use std::alloc::{AllocError, Global};

/// The number that stands for each number of components that is above 65.
const MORE_THAN_FIT: u8 = 66;

/// The number of slots for components.
const SLOTS: u8 = 64;

/// What an entry does to the components.
#[derive(Clone, Copy, PartialEq, Eq, Debug)]
pub(crate) struct HeldStep {
    /// The state that has the entry.
    pub(crate) state: u16,
    /// The class for which it has it.
    pub(crate) class: u16,
    /// The state that follows.
    pub(crate) next: u16,
    /// Whether some glyph has the class.
    pub(crate) is_of_glyph: bool,
    /// Whether it holds the glyph at the cursor.
    pub(crate) pushes: bool,
    /// Whether the cursor stays.
    pub(crate) stays: bool,
    /// How many components its action takes, up to 66; 0 without an action.
    pub(crate) taken: u8,
    /// Whether it may be taken for the entry of state 0, and one of the two alone pushes.
    pub(crate) differs: bool,
}

/// How many components a list of actions takes: one for each through the last, or one more than there are. Up to 66.
fn action_count(actions: &[u32]) -> u8
    ensures { result ≡ min 66 (action_count actions.now) }
{
    let mut count = 1;
    for action in actions {
        if *action & ligature::LIG_ACTION_LAST != 0 || count == MORE_THAN_FIT {
            return count;
        }
        count += 1;
    }
    count
}

/// How many components an entry takes, up to 66; 0 without an action.
fn taken_by(actions: &[u32], entry: &GenericStateEntry<u16>) -> u8
    ensures { result ≡ min 66 (taken_by actions.now entry.now) }
{
    if entry.flags & ligature::PERFORM_ACTION == 0 {
        return 0;
    }
    let start = (entry.extra as usize).min(actions.len());
    action_count(&actions[start..])
}

/// Whether an entry may be taken for that of state 0, and one of the two alone pushes.
fn differs_in_push(entry: &GenericStateEntry<u16>, first: Option<GenericStateEntry<u16>>) -> bool
    ensures { result ≡ differs_in_push entry.now first }
{
    let Some(first) = first else {
        return false;
    };
    entry.flags & ligature::PERFORM_ACTION == 0
        && first.flags & ligature::PERFORM_ACTION == 0
        && entry.new_state == first.new_state
        && entry.has_advance() == first.has_advance()
        && entry.has_push() != first.has_push()
}

/// What an entry does to the components.
fn held_step_of(
    table: &ExtendedStateTable<u16>,
    actions: &[u32],
    classes: &[u8],
    cell: Cell<u16>,
) -> HeldStep
    requires { AreLabels classes.now }
    ensures { result ≡ held_step_of table.now actions.now classes.now cell }
{
    let (state, class, entry) = cell;
    HeldStep {
        state,
        class,
        next: entry.new_state,
        is_of_glyph: classes[class as usize] > 0,
        pushes: entry.has_push(),
        stays: !entry.has_advance(),
        taken: taken_by(actions, &entry),
        differs: differs_in_push(&entry, table.entry(0, class)),
    }
}

/// What entries do to the components.
pub(crate) fn held_steps(
    alloc: Global,
    table: &ExtendedStateTable<u16>,
    actions: &[u32],
    classes: &[u8],
    cells: &[Cell<u16>],
) -> Result<Vec<HeldStep>, AllocError>
    requires { AreLabels classes.now }
    ensures { IfOk result (λ steps. steps.items ≡ map (held_step_of table.now actions.now classes.now) cells.now) }
{
    cells
        .iter()
        .map(|cell| held_step_of(table, actions, classes, *cell))
        .collect(alloc)
}

/// Where the newest component may be the glyph at the cursor behind an entry.
fn here_edge(step: HeldStep) -> Edge
    ensures { result ≡ here_edge step }
{
    let asked = if !(step.is_of_glyph && step.stays) {
        Asked::Nothing
    } else if step.pushes {
        Asked::One
    } else {
        Asked::Same
    };
    Edge {
        from: step.next,
        to: step.state,
        asked,
    }
}

/// How many components an entry asks for.
fn held_edge(here: &[u8], step: HeldStep) -> Edge
    requires { AreLabels here.now }
    ensures { result ≡ held_edge here.now step }
{
    let asked = if step.is_of_glyph {
        Asked::Held(step.pushes, here[step.state as usize] > 0, step.taken)
    } else {
        Asked::Nothing
    };
    Edge {
        from: step.state,
        to: step.next,
        asked,
    }
}

/// The edges along which the newest component stays the glyph at the cursor.
fn here_edges(alloc: Global, steps: &[HeldStep]) -> Result<Vec<Edge>, AllocError>
    ensures { IfOk result (λ edges. edges.items ≡ map here_edge steps.now) }
{
    steps.iter().map(|step| here_edge(*step)).collect(alloc)
}

/// The edges along which components are asked for.
fn held_edges(alloc: Global, here: &[u8], steps: &[HeldStep]) -> Result<Vec<Edge>, AllocError>
    requires { AreLabels here.now }
    ensures { IfOk result (λ edges. edges.items ≡ map (held_edge here.now) steps.now) }
{
    steps
        .iter()
        .map(|step| held_edge(here, *step))
        .collect(alloc)
}

/// Labels above 0 of the states where the newest component may be the glyph at the cursor.
pub(crate) fn here_labels(alloc: Global, steps: &[HeldStep]) -> Result<Vec<u8>, AllocError>
    ensures { IfOk result (λ labels. AreLeast (map here_edge steps.now) labels.items) }
{
    let edges = here_edges(alloc, steps)?;
    let labels = least_labels(alloc, &edges)?;
    Ok(labels)
}

/// The numbers of components that have to be held in states, up to 65.
pub(crate) fn held_labels(
    alloc: Global,
    here: &[u8],
    steps: &[HeldStep],
) -> Result<Vec<u8>, AllocError>
    requires { AreLabels here.now }
    ensures { IfOk result (λ labels. AreLeast (map (held_edge here.now) steps.now) labels.items) }
{
    let edges = held_edges(alloc, here, steps)?;
    let labels = least_labels(alloc, &edges)?;
    Ok(labels)
}

impl HeldStep {
    /// Whether the entry is taken for that of state 0, which pushes otherwise, where components have to be held behind
    /// it.
    fn is_taken(self, held: &[u8]) -> bool
        requires { AreLabels held.now }
        ensures { result ≡ is_taken held.now self }
    {
        self.is_of_glyph && self.differs && held[self.next as usize] > 0
    }
}

/// Whether a state is reached, and more components have to be held in it than there are slots.
fn is_over(reached: &[u8], held: &[u8], state: usize) -> bool
    requires reached { AreLabels reached.now }
    requires held { AreLabels held.now }
    requires state { state < 65536 }
    ensures { result ≡ is_over reached.now held.now state }
{
    reached[state] > 0 && held[state] > SLOTS
}

/// The first state that is reached, and in which more components have to be held than there are slots.
fn first_over(reached: &[u8], held: &[u8]) -> Option<u16>
    requires reached { AreLabels reached.now }
    requires held { AreLabels held.now }
    ensures none { IfNone result ((s : ℕ) → s < 65536 → is_over reached.now held.now s ≡ false) }
    ensures some { IfSome result (λ s. is_over reached.now held.now s ≡ true) }
{
    for state in 0..STATES {
        let over = is_over(reached, held, state);
        if over {
            return Some(state as u16);
        }
    }
    None
}

/// The first entry that is taken for that of state 0, which pushes otherwise.
fn first_taken(steps: &[HeldStep], held: &[u8]) -> Option<HeldStep>
    requires { AreLabels held.now }
    ensures none { IfNone result (All (λ s. is_taken held.now s ≡ false) steps.now) }
    ensures some { IfSome result (λ s. Contains steps.now s × (is_taken held.now s ≡ true)) }
{
    for step in steps {
        let taken = step.is_taken(held);
        if taken {
            return Some(*step);
        }
    }
    None
}

/// Why numbers of components do not suit, if they do not.
pub(crate) fn find_lacking(reached: &[u8], held: &[u8], steps: &[HeldStep]) -> Option<Unsettled>
    requires reached { AreLabels reached.now }
    requires held { AreLabels held.now }
    ensures none { IfNone result (AreEnough reached.now held.now steps.now) }
    ensures some { IfSome result (IsLacking reached.now held.now steps.now) }
{
    if held[0] > 0 {
        return Some(Unsettled::TooFewComponents(0));
    }
    if let Some(state) = first_over(reached, held) {
        return Some(Unsettled::TooFewComponents(state));
    }
    let step = first_taken(steps, held)?;
    Some(Unsettled::TakenForOne(UsedRegister::Components, step.state, step.class))
}

/// Why a ligature machine with these actions is not settled, where its states were found.
fn find_in_components(
    alloc: Global,
    table: &ExtendedStateTable<u16>,
    actions: &[u32],
    reached: &Reached<u16>,
) -> Result<Option<Unsettled>, AllocError>
    requires reached { AreReached table.now reached.now.labels.items reached.now.cells.items }
    ensures { IfOk result (IsVerdictOnLigature table.now actions.now) }
{
    let classes = glyph_classes(alloc, table)?;
    let of_classes = classes.as_slice();
    let of_cells = reached.cells.as_slice();
    let steps = held_steps(alloc, table, actions, of_classes, of_cells)?;
    let of_steps = steps.as_slice();
    let here = here_labels(alloc, of_steps)?;
    let of_here = here.as_slice();
    let held = held_labels(alloc, of_here, of_steps)?;
    let of_held = held.as_slice();
    let of_states = reached.labels.as_slice();
    let found = find_lacking(of_states, of_held, of_steps);
    Ok(found)
}

/// Why a ligature machine with these actions is not settled, if it is not.
pub(crate) fn find_in_ligature(
    alloc: Global,
    table: &ExtendedStateTable<u16>,
    actions: &[u32],
) -> Result<Option<Unsettled>, AllocError>
    ensures { IfOk result (IsVerdictOnLigature table.now actions.now) }
{
    let reach = find_reached(alloc, table)?;
    match reach {
        Reach::Missing(state, class) => Ok(Some(Unsettled::MissingEntry(state, class))),
        Reach::Complete(reached) => {
            let found = find_in_components(alloc, table, actions, &reached)?;
            Ok(found)
        }
    }
}
