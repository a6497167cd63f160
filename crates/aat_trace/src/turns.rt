//! Acts as those of turns, one behind another.
ghost use Rattle.std.specs.Prelude.{◌≡◌, true};
ghost use Rattle.aat_trace.specs.Acts.{AreApart, AreOfTurns, IsChange, IsOfTurn};

use crate::traced::TracedAct;

/// Whether an act takes or puts an id, and where it does both, those that it takes and those that it puts begin and end
/// with other ids.
fn is_change(act: &TracedAct) -> bool
    ensures { result ≡ true → IsChange act.now }
{
    act.taken.first().copied() != act.put.first().copied()
        && act.taken.last().copied() != act.put.last().copied()
}

/// Whether an act is of one of so many turns, over a line that is at most so long.
fn is_of_turn(act: &TracedAct, turns: u64, length: usize) -> bool
    ensures { result ≡ true → IsOfTurn turns length act.now }
{
    act.transition > 0 && act.transition <= turns && act.cursor <= length && is_change(act)
}

/// Whether each act is of a transition behind that of the one before it.
fn are_apart(acts: &[TracedAct]) -> bool
    ensures { result ≡ true → AreApart acts.now }
{
    for i in 1..acts.len() {
        if acts[i].transition <= acts[i - 1].transition {
            return false;
        }
    }
    true
}

/// Whether acts are those of turns, one behind another: each is of one of so many turns, over a line that is at most so
/// long.
pub(crate) fn are_of_turns(acts: &[TracedAct], turns: u64, length: usize) -> bool
    ensures { result ≡ true → AreOfTurns turns length acts.now }
{
    are_apart(acts) && acts.iter().all(|act| is_of_turn(act, turns, length))
}
