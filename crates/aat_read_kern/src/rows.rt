//! The rows of a machine whose states are numbered anew.

/// Rows of states, of which the first is that of the first state.
#[derive(Clone, Copy)]
pub(crate) struct Rows {
    /// How many there are from the first state on.
    pub(crate) behind: usize,
    /// How many there are before it.
    pub(crate) before: usize,
}
