//! Labels of states, and edges that ask for them.
ghost use Rattle.std.specs.Prelude.{◌≡◌, ◌≤◌, ℕ, length, IfOk};
ghost use Rattle.aat_cuts.specs.Labels.{asked_by, before_action, before_push, label_in};

use std::alloc::{AllocError, Allocator};

/// How many states a table can have.
pub(crate) const STATES: usize = 65536;

/// A label that is above each that counts.
const TOO_MANY: u8 = 65;

/// Which label an edge asks for at its own state, by the label of the state that it looks at.
#[derive(Clone, Copy, PartialEq, Eq, Debug)]
pub(crate) enum Asked {
    /// None: 0.
    Nothing,
    /// The same label.
    Same,
    /// The label 1.
    One,
    /// So many components that as many are held behind an entry: whether it pushes, whether the newest component may
    /// be the glyph at the cursor before, and how many its action takes, 0 without one.
    Held(bool, bool, u8),
}

impl Asked {
    /// The label that is asked for, no more than 65.
    #[tactic(auto, unfolding(crate::specs::Labels::asked_by))]
    pub(crate) fn by(self, label: u8) -> u8
        requires low { label ≤ 65 }
        ensures asked { result ≡ asked_by self label }
        ensures low { result ≤ 65 }
    {
        match self {
            Asked::Nothing => 0,
            Asked::Same => label,
            Asked::One => 1,
            Asked::Held(pushes, here, taken) => {
                before_push(pushes, here, before_action(taken, label)).min(TOO_MANY as u16) as u8
            }
        }
    }
}

/// How many components have to be held behind a push, so that an action leaves so many.
fn before_action(taken: u8, held: u8) -> u16
    ensures asked { result ≡ before_action taken held }
    ensures low { result ≤ 510 }
{
    if taken == 0 {
        held as u16
    } else {
        (taken as u16).max(held as u16 + taken as u16 - 1)
    }
}

/// How many components have to be held before a push, so that so many are held behind it.
fn before_push(pushes: bool, here: bool, held: u16) -> u16
    ensures { result ≡ before_push pushes here held }
{
    match (pushes, here) {
        (true, true) if held <= 1 => 0,
        (true, false) => held.saturating_sub(1),
        _ => held,
    }
}

/// That a state has at least the label that is asked for by that of another one.
#[derive(Clone, Copy, PartialEq, Eq, Debug)]
pub(crate) struct Edge {
    /// The state that is asked.
    pub(crate) from: u16,
    /// The state whose label counts.
    pub(crate) to: u16,
    /// What is asked.
    pub(crate) asked: Asked,
}

/// The edge that asks for the label 1 at state 0.
pub(crate) const START: Edge = Edge {
    from: 0,
    to: 0,
    asked: Asked::One,
};

/// So many labels of 0.
pub(crate) fn zeros<A: Allocator>(alloc: A, count: usize) -> Result<Vec<u8, A>, AllocError>
    ensures long { IfOk result (λ labels. length labels.items ≡ count) }
    ensures zero { IfOk result (λ labels. (state : ℕ) → label_in labels.items state ≡ 0) }
{
    vec![in alloc; 0u8; count]
}
