//! The states that a run may reach, with their entries.
ghost use Rattle.std.specs.Prelude.{◌≡◌, ◌≢◌, ◌≤◌, ◌<◌, ◌∷◌, ℕ, None, Some, true, Bool, IfOk, IfSome, IfNone, OnOk, map, filter, nat_lt};
ghost use Rattle.std.specs.List.{All};
ghost use Rattle.aat_machine_tables.specs.Table.{entry_of};
ghost use Rattle.aat_cuts.specs.Labels.{AreLabels, IsMet, label_in};
ghost use Rattle.aat_cuts.specs.Reached.{AreGathered, AreReachLabels, IsFound, IsWhole, follow_edge, is_labelled};

use crate::cells::{Cell, cells_of, missing_class};
use crate::labels::{Asked, Edge, START, STATES};
use crate::least::least_labels;
use aat_machine_tables::{Acting, ExtendedStateTable};
use std::alloc::{AllocError, Global};

/// The states that a run may reach, and their entries.
#[derive(Drop)]
pub(crate) struct Reached<T: Copy> {
    /// A label above 0 for each state that a run may reach.
    pub(crate) labels: Vec<u8>,
    /// A state, a class and their entry, of each of these states.
    pub(crate) cells: Vec<Cell<T>>,
}

/// What was found of the states of a table.
#[derive(Drop)]
pub(crate) enum Reach<T: Copy> {
    /// Each state that a run may reach has an entry for each class.
    Complete(Reached<T>),
    /// A state that a run may reach has no entry for a class.
    Missing(u16, u16),
}

/// The label of a state asks for the same one at the state that an entry goes to.
fn follow_edge<T: Copy>(cell: &Cell<T>) -> Edge
    ensures { result ≡ follow_edge cell.now }
{
    Edge {
        from: cell.2.new_state,
        to: cell.0,
        asked: Asked::Same,
    }
}

/// The edges along which a run goes from state to state.
fn follow_edges<T: Copy>(alloc: Global, cells: &[Cell<T>]) -> Result<Vec<Edge>, AllocError>
    ensures { IfOk result (λ edges. edges.items ≡ map follow_edge cells.now) }
{
    cells.iter().map(|cell| follow_edge(cell)).collect(alloc)
}

/// A label above 0 for each state that a run may reach by entries.
fn reach_labels<T: Copy>(alloc: Global, cells: &[Cell<T>]) -> Result<Vec<u8>, AllocError>
    ensures { IfOk result (λ labels. AreReachLabels cells.now labels.items) }
{
    let mut edges = follow_edges(alloc, cells)?;
    edges.push(START)?;
    let labels = least_labels(alloc, &edges)?;
    Ok(labels)
}

/// The first state with a label above 0, and the first class for which it has no entry, if there is one.
fn missing_entry<T: Acting>(table: &ExtendedStateTable<T>, labels: &[u8]) -> Option<(u16, u16)>
    requires labels { AreLabels labels.now }
    ensures none { IfNone result ((s : ℕ) → s < 65536 → is_labelled labels.now s ≡ true → IsWhole table.now s) }
    ensures some { IfSome result (λ place. (is_labelled labels.now place.0 ≡ true)
        × (entry_of table.now place.0 place.1 ≡ None)) }
{
    for state in 0..STATES {
        if labels[state] > 0
            && let Some(class) = missing_class(table, state as u16)
        {
            return Some((state as u16, class));
        }
    }
    None
}

/// The entries of states with a label above 0.
fn labelled_cells<T: Copy>(
    alloc: Global,
    cells: &[Cell<T>],
    labels: &[u8],
) -> Result<Vec<Cell<T>>, AllocError>
    requires labels { AreLabels labels.now }
    ensures { IfOk result (λ found. found.items ≡ filter (λ c. is_labelled labels.now c.0) cells.now) }
{
    cells
        .iter()
        .filter(|cell| labels[cell.0 as usize] > 0)
        .copied()
        .collect(alloc)
}

/// What was found of a table by the labels of its states: an entry that is missing, or the entries of these states.
fn reach_by<T: Acting>(
    alloc: Global,
    table: &ExtendedStateTable<T>,
    cells: &[Cell<T>],
    labels: Vec<u8>,
) -> Result<Reach<T>, AllocError>
    requires cells { AreGathered table.now cells.now 65536 }
    requires labels { AreReachLabels cells.now labels.items }
    ensures { IfOk result (IsFound table.now) }
{
    let of_states = labels.as_slice();
    if let Some((state, class)) = missing_entry(table, of_states) {
        return Ok(Reach::Missing(state, class));
    }
    let cells = labelled_cells(alloc, cells, of_states)?;
    Ok(Reach::Complete(Reached { labels, cells }))
}

/// Finds the states that a run may reach, up to one that lacks an entry.
pub(crate) fn find_reached<T: Acting>(
    alloc: Global,
    table: &ExtendedStateTable<T>,
) -> Result<Reach<T>, AllocError>
    ensures { IfOk result (IsFound table.now) }
{
    let cells = cells_of(alloc, table)?;
    let of_cells = cells.as_slice();
    let labels = reach_labels(alloc, of_cells)?;
    reach_by(alloc, table, of_cells, labels)
}
