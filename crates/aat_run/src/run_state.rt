//! Where a run stands, beside its buffer and its registers.

/// The state, the last cluster that was looked at, and the turns so far.
#[derive(Clone, Copy)]
pub(crate) struct RunState {
    pub state: u16,
    pub last_cluster: u32,
    pub turns: u64,
}
