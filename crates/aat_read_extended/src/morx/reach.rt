//! How far the subtables of a chain may reach.
ghost use Rattle.std.specs.Prelude.{◌≡◌, ◌≤◌, ◌*◌, take};
ghost use Rattle.aat_read_extended.specs.morx.Reaches.{allowance};

/// How far the subtables of a chain may reach.
#[derive(Clone, Copy)]
pub(crate) struct Reach {
    /// Where the chain ends, and so no subtable later.
    pub(crate) end: usize,
    /// How many bytes behind its own end a subtable may use.
    pub(crate) allowance: usize,
}

/// How many bytes behind its own end a subtable may use, in a chain of a size with so many subtables.
#[tactic(auto, unfolding(crate::specs::morx::Reaches::allowance))]
pub(crate) fn allowance(size: usize, subtable_count: u32) -> usize
    ensures is { result ≡ allowance size subtable_count }
    ensures small { result ≤ size }
{
    if subtable_count == 0 {
        return 0;
    }
    size / (4 * subtable_count as usize)
}

/// The bytes up to an end, or all of them if it lies behind them.
pub(crate) fn up_to(bytes: &[u8], end: usize) -> &[u8]
    ensures { result.now ≡ take end bytes.now }
{
    if end < bytes.len() {
        &bytes[..end]
    } else {
        bytes
    }
}
