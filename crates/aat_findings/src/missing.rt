//! A reached state without an entry for a class.
ghost use Rattle.std.specs.Prelude.{◌≡◌, ◌≢◌, ◌<◌, ℕ, None, true, IfOk, IfNone, IfSome};
ghost use Rattle.aat_machine_tables.specs.Table.{entry_of};
ghost use Rattle.aat_findings.specs.Reached.{IsReached, width};
ghost use Rattle.aat_findings.specs.inside.Marks.{AreReachMarks, is_marked};

use crate::reached::{STATES, reach_marks, width};
use aat_machine_tables::{Acting, ExtendedStateTable};
use std::alloc::{AllocError, Global};

/// The first class for which a state has no entry, if there is one.
fn missing_class<T: Acting>(table: &ExtendedStateTable<T>, state: u16) -> Option<u16>
    ensures none { IfNone result ((k : ℕ) → k < width table.now → entry_of table.now state k ≢ None) }
    ensures some { IfSome result (λ class. entry_of table.now state class ≡ None) }
{
    for class in 0..width(table) {
        if table.entry(state, class).is_none() {
            return Some(class);
        }
    }
    None
}

/// The first marked state that has no entry for a class, and the first such class, if there is one.
fn missing_marked<T: Acting>(table: &ExtendedStateTable<T>, marks: &[u8]) -> Option<(u16, u16)>
    requires { AreReachMarks table.now marks.now }
    ensures none { IfNone result ((s : ℕ) → s < 65536 → is_marked marks.now s ≡ true
        → (k : ℕ) → k < width table.now → entry_of table.now s k ≢ None) }
    ensures some { IfSome result (λ place. (is_marked marks.now place.0 ≡ true)
        × (entry_of table.now place.0 place.1 ≡ None)) }
{
    for state in 0..STATES {
        if marks[state] > 0
            && let Some(class) = missing_class(table, state as u16)
        {
            return Some((state as u16, class));
        }
    }
    None
}

/// Finds a state that some line reaches and a class for which it has no entry, the first by state and then by class.
/// `None` says that each state that a line reaches has an entry for each class. Fails where memory is wanting.
///
/// Apple's TrueType Reference Manual, "Font Tables", section on state tables.
pub fn missing_reached<T: Acting>(
    alloc: Global,
    table: &ExtendedStateTable<T>,
) -> Result<Option<(u16, u16)>, AllocError>
    ensures none { IfOk result (λ found. IfNone found ((s k : ℕ) → IsReached table.now s
        → entry_of table.now s k ≢ None)) }
    ensures some { IfOk result (λ found. IfSome found (λ place. IsReached table.now place.0
        × (entry_of table.now place.0 place.1 ≡ None))) }
{
    let marks = reach_marks(alloc, table)?;
    let of_marks = marks.as_slice();
    match missing_marked(table, of_marks) {
        Some(place) => Ok(Some(place)),
        None => Ok(None),
    }
}
