//! Whether one register of a machine is set before it is used, also where an entry is taken for that of state 0.
ghost use Rattle.std.specs.Prelude.{◌≡◌, ◌≢◌, ◌≤◌, ◌<◌, ◌∷◌, ◌++◌, ℕ, [], None, Some, true, false, Bool, IfOk, IfSome, IfNone, OnOk, map, filter, find, nat_lt, ◌&&◌, not};
ghost use Rattle.std.specs.List.{All, Contains};
ghost use Rattle.aat_cuts.specs.Labels.{AreLabels, AreLeast};
ghost use Rattle.aat_cuts.specs.Reached.{is_labelled, start_edge};
ghost use Rattle.aat_cuts.specs.inside.Steps.{AreFit, IsFoundOf, IsTrouble, live_edge, unset_edge};

use crate::labels::{Asked, Edge, START};
use crate::least::least_labels;
use std::alloc::{AllocError, Global};

/// What an entry does to a register.
#[derive(Clone, Copy, PartialEq, Eq, Debug)]
pub(crate) struct Step {
    /// The state that has the entry.
    pub(crate) state: u16,
    /// The class for which it has it.
    pub(crate) class: u16,
    /// The state that follows.
    pub(crate) next: u16,
    /// Whether it uses what the register was before.
    pub(crate) uses: bool,
    /// Whether a run goes on behind it with what the register was before.
    pub(crate) keeps: bool,
    /// Whether it may be taken for the entry of state 0, which sets the register differently.
    pub(crate) differs: bool,
}

/// Why no labelling goes with entries: the state and the class of one.
#[derive(Clone, Copy, PartialEq, Eq, Debug)]
pub(crate) enum Trouble {
    /// It uses the register, which may not be set.
    Unset(u16, u16),
    /// It is taken for that of state 0, which sets the register differently, and the register may be used behind it.
    Taken(u16, u16),
}

/// Where the register may not be set behind an entry.
fn unset_edge(step: Step) -> Edge
    ensures { result ≡ unset_edge step }
{
    Edge {
        from: step.next,
        to: step.state,
        asked: if step.keeps {
            Asked::Same
        } else {
            Asked::Nothing
        },
    }
}

/// Where the register may be used before it is set, from the state of an entry on.
fn live_edge(step: Step) -> Edge
    ensures { result ≡ live_edge step }
{
    let asked = if step.uses {
        Asked::One
    } else if step.keeps {
        Asked::Same
    } else {
        Asked::Nothing
    };
    Edge {
        from: step.state,
        to: step.next,
        asked,
    }
}

/// The edges along which the register may not be set.
fn unset_edges(alloc: Global, steps: &[Step]) -> Result<Vec<Edge>, AllocError>
    ensures { IfOk result (λ edges. edges.items ≡ map unset_edge steps.now) }
{
    steps.iter().map(|step| unset_edge(*step)).collect(alloc)
}

/// The edges along which the register may be used before it is set.
fn live_edges(alloc: Global, steps: &[Step]) -> Result<Vec<Edge>, AllocError>
    ensures { IfOk result (λ edges. edges.items ≡ map live_edge steps.now) }
{
    steps.iter().map(|step| live_edge(*step)).collect(alloc)
}

/// Labels above 0 of the states in which the register may not be set.
fn unset_labels(alloc: Global, steps: &[Step]) -> Result<Vec<u8>, AllocError>
    ensures { IfOk result (λ labels. AreLeast (map unset_edge steps.now ++ start_edge ∷ []) labels.items) }
{
    let mut edges = unset_edges(alloc, steps)?;
    edges.push(START)?;
    let labels = least_labels(alloc, &edges)?;
    Ok(labels)
}

/// Labels above 0 of the states from which the register may be used before it is set.
fn live_labels(alloc: Global, steps: &[Step]) -> Result<Vec<u8>, AllocError>
    ensures { IfOk result (λ labels. AreLeast (map live_edge steps.now) labels.items) }
{
    let edges = live_edges(alloc, steps)?;
    let labels = least_labels(alloc, &edges)?;
    Ok(labels)
}

impl Step {
    /// Whether the entry uses the register in a state with a label above 0, where it may not be set.
    fn is_unset_at(self, labels: &[u8]) -> bool
        requires { AreLabels labels.now }
        ensures { result ≡ (self.uses && is_labelled labels.now self.state) }
    {
        self.uses && labels[self.state as usize] > 0
    }

    /// Whether the entry sets the register otherwise than that of state 0, and goes to a state with a label above 0,
    /// from which it may be used.
    fn is_taken_at(self, labels: &[u8]) -> bool
        requires { AreLabels labels.now }
        ensures { result ≡ (self.differs && is_labelled labels.now self.next) }
    {
        self.differs && labels[self.next as usize] > 0
    }
}

/// The first entry that uses the register in a state where it may not be set.
fn first_unset(steps: &[Step], labels: &[u8]) -> Option<Step>
    requires { AreLabels labels.now }
    ensures none { IfNone result (All (λ s. (s.uses && is_labelled labels.now s.state) ≡ false) steps.now) }
    ensures some { IfSome result (λ s. Contains steps.now s × ((s.uses && is_labelled labels.now s.state) ≡ true)) }
{
    for step in steps {
        let is_unset = step.is_unset_at(labels);
        if is_unset {
            return Some(*step);
        }
    }
    None
}

/// The first entry that sets the register otherwise than that of state 0, where it is used behind it.
fn first_taken(steps: &[Step], labels: &[u8]) -> Option<Step>
    requires { AreLabels labels.now }
    ensures none { IfNone result (All (λ s. (s.differs && is_labelled labels.now s.next) ≡ false) steps.now) }
    ensures some { IfSome result (λ s. Contains steps.now s × ((s.differs && is_labelled labels.now s.next) ≡ true)) }
{
    for step in steps {
        let is_taken = step.is_taken_at(labels);
        if is_taken {
            return Some(*step);
        }
    }
    None
}

/// Finds an entry that uses a register that may not be set, or else one that is taken for that of state 0, which sets
/// it differently, where it may be used behind them.
pub(crate) fn find_trouble(alloc: Global, steps: &[Step]) -> Result<Option<Trouble>, AllocError>
    ensures { IfOk result (IsFoundOf steps.now) }
{
    let unset = unset_labels(alloc, steps)?;
    let of_unset = unset.as_slice();
    if let Some(step) = first_unset(steps, of_unset) {
        return Ok(Some(Trouble::Unset(step.state, step.class)));
    }
    let live = live_labels(alloc, steps)?;
    let of_live = live.as_slice();
    if let Some(step) = first_taken(steps, of_live) {
        return Ok(Some(Trouble::Taken(step.state, step.class)));
    }
    Ok(None)
}
