//! The states of a table that no line reaches.
ghost use Rattle.std.specs.Prelude.{◌≡◌, ◌≤◌, ◌<◌, ◌++◌, ◌∷◌, [], ℕ, true, if◌then◌else◌, IfOk, OnOk, length};
ghost use Rattle.aat_findings.specs.Reached.{AreExactly, IsUnreached, state_count};
ghost use Rattle.aat_findings.specs.inside.Marks.{is_unmarked};

use crate::reached::reach_marks;
use aat_machine_tables::{Acting, ExtendedStateTable};
use std::alloc::{AllocError, Global};

/// The number of states of a table: up to the highest that a rule has. Fails where memory is wanting.
#[tactic(auto, using(crate::proofs::Reaching::count_more))]
pub(crate) fn state_count<T: Acting>(
    alloc: Global,
    table: &ExtendedStateTable<T>,
) -> Result<usize, AllocError>
    ensures count { IfOk result (λ count. count ≡ state_count table.now.rules) }
    ensures few { IfOk result (λ count. count ≤ 65536) }
{
    let rules = table.to_rules(alloc)?;
    let mut count = 0;
    for rule in &rules {
        count = count.max(rule.0 as usize + 1);
    }
    Ok(count)
}

/// Puts a number behind others where it is wanted.
pub(crate) fn push_where(
    numbers: &mut Vec<u16>,
    number: u16,
    wanted: bool,
) -> Result<(), AllocError>
    ensures { OnOk result (numbers.new.items
        ≡ (if wanted then numbers.old.items ++ number ∷ [] else numbers.old.items)) }
{
    if wanted {
        numbers.push(number)?;
        return Ok(());
    }
    Ok(())
}

/// The first states without a mark, up to a number of them.
fn unmarked(alloc: Global, marks: &[u8], count: usize) -> Result<Vec<u16>, AllocError>
    requires long { length marks.now ≡ 65536 }
    requires few { count ≤ 65536 }
    ensures { IfOk result (λ states. AreExactly (λ s. (s < count) × (is_unmarked marks.now s ≡ true)) states.items) }
{
    let mut states = Vec::new(alloc);
    for state in 0..count {
        push_where(&mut states, state as u16, marks[state] == 0)?;
    }
    Ok(states)
}

/// The states that no line reaches, rising, of those up to the highest with a rule. Lines begin in state 0 or 1, and go
/// by entries for any classes from there. Fails where memory is wanting.
///
/// Apple's TrueType Reference Manual, "Font Tables", section on state tables.
pub fn unreached_states<T: Acting>(
    alloc: Global,
    table: &ExtendedStateTable<T>,
) -> Result<Vec<u16>, AllocError>
    ensures { IfOk result (λ states. AreExactly (IsUnreached table.now) states.items) }
{
    let marks = reach_marks(alloc, table)?;
    let of_marks = marks.as_slice();
    let count = state_count(alloc, table)?;
    let states = unmarked(alloc, of_marks, count)?;
    Ok(states)
}
