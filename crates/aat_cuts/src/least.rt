//! The least labels of states that meet edges.
ghost use Rattle.std.specs.Prelude.{◌≡◌, ◌*◌, ◌≤◌, ◌∷◌, ◌++◌, ℕ, [], length, IfOk, OnOk};
ghost use Rattle.std.specs.List.{All};
ghost use Rattle.aat_cuts.specs.Labels.{AreBelow, AreLabels, AreLeast, IsMet, label_in};
ghost use Rattle.aat_cuts.specs.inside.Waiting.{AreEdgesPaid, AreLinksOf, ArePaid, IsMetOrWaits, KeepsMet, count_to};

use crate::labels::{Edge, STATES, zeros};
use crate::links::{Links, links_of};
use std::alloc::{AllocError, Global};

/// Raises the label of a state to what an edge asks for. A state whose label rises waits.
fn raise(labels: &mut [u8], waiting: &mut Vec<u16>, edge: Edge) -> Result<(), AllocError>
    requires labels { AreLabels labels.old }
    ensures labels { OnOk result (AreLabels labels.new) }
    ensures met { OnOk result (IsMetOrWaits labels.new waiting.new.items edge) }
    ensures kept { OnOk result (KeepsMet labels.old waiting.old.items labels.new waiting.new.items) }
    ensures paid { OnOk result (ArePaid labels.old waiting.old.items labels.new waiting.new.items) }
    ensures looks { OnOk result (AreEdgesPaid labels.old waiting.old.items labels.new waiting.new.items) }
    ensures least { OnOk result ((label : ℕ → ℕ) → IsMet label edge → AreBelow labels.old label
        → AreBelow labels.new label) }
{
    let asked = edge.asked.by(labels[edge.to as usize]);
    if asked <= labels[edge.from as usize] {
        return Ok(());
    }
    waiting.push(edge.from)?;
    labels[edge.from as usize] = asked;
    Ok(())
}

/// Raises labels along each edge once.
fn raise_each(labels: &mut [u8], waiting: &mut Vec<u16>, edges: &[Edge]) -> Result<(), AllocError>
    requires labels { AreLabels labels.old }
    ensures labels { OnOk result (AreLabels labels.new) }
    ensures met { OnOk result (All (IsMetOrWaits labels.new waiting.new.items) edges.now) }
    ensures looks { OnOk result (AreEdgesPaid labels.old waiting.old.items labels.new waiting.new.items) }
    ensures least { OnOk result ((label : ℕ → ℕ) → All (IsMet label) edges.now → AreBelow labels.old label
        → AreBelow labels.new label) }
{
    for edge in edges {
        raise(labels, waiting, *edge)?;
    }
    Ok(())
}

/// Raises labels along each edge that looks at a state, and counts these.
fn raise_to(
    labels: &mut [u8],
    waiting: &mut Vec<u16>,
    edges: &[Edge],
    links: &Links,
    state: u16,
) -> Result<usize, AllocError>
    requires labels { AreLabels labels.old }
    requires links { AreLinksOf edges.now links.now }
    requires met { All (IsMetOrWaits labels.old (waiting.old.items ++ state ∷ [])) edges.now }
    ensures labels { OnOk result (AreLabels labels.new) }
    ensures met { OnOk result (All (IsMetOrWaits labels.new waiting.new.items) edges.now) }
    ensures paid { OnOk result (ArePaid labels.old waiting.old.items labels.new waiting.new.items) }
    ensures looks { OnOk result (AreEdgesPaid labels.old waiting.old.items labels.new waiting.new.items) }
    ensures count { IfOk result (λ count. count ≡ count_to edges.now state) }
    ensures least { OnOk result ((label : ℕ → ℕ) → All (IsMet label) edges.now → AreBelow labels.old label
        → AreBelow labels.new label) }
{
    let mut count = 0;
    let mut link = links.last[state as usize];
    while link > 0 {
        let place = link - 1;
        raise(labels, waiting, edges[place])?;
        count += 1;
        link = links.before[place];
    }
    Ok(count)
}

/// Raises labels until each edge is met. Edges are looked at again where the label that they look at has risen. Answers
/// how often an edge was looked at, which may not fit 64 bits.
fn settle(alloc: Global, labels: &mut [u8], edges: &[Edge]) -> Result<u128, AllocError>
    requires labels { AreLabels labels.old }
    ensures labels { OnOk result (AreLabels labels.new) }
    ensures met { OnOk result (All (IsMet (label_in labels.new)) edges.now) }
    ensures least { OnOk result ((label : ℕ → ℕ) → All (IsMet label) edges.now → AreBelow labels.old label
        → AreBelow labels.new label) }
    ensures looks { IfOk result (λ looks. looks ≤ 66 * length edges.now) }
{
    let links = links_of(alloc, edges)?;
    let mut waiting = Vec::new(alloc);
    raise_each(labels, &mut waiting, edges)?;
    let mut looks = edges.len() as u128;
    while let Some(state) = waiting.pop() {
        let count = raise_to(labels, &mut waiting, edges, &links, state)?;
        looks += count as u128;
    }
    Ok(looks)
}

/// The least labels that meet each edge, up to 65.
pub(crate) fn least_labels(alloc: Global, edges: &[Edge]) -> Result<Vec<u8>, AllocError>
    ensures { IfOk result (λ labels. AreLeast edges.now labels.items) }
{
    let mut labels = zeros(alloc, STATES)?;
    let _looks = settle(alloc, &mut labels, edges)?;
    Ok(labels)
}
