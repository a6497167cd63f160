//! How far a run is, beside its buffer and its registers.

/// The state of a run, and the turns so far.
#[derive(Clone, Copy)]
pub struct RunState {
    /// The state, by whose entries the next turn goes.
    pub state: u16,
    /// How many turns have been taken.
    pub turns: u64,
}
