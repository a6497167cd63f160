//! The states that lines reach.
ghost use Rattle.std.specs.Prelude.{◌≡◌, ◌⊎◌, ◌≤◌, ◌<◌, ◌++◌, ◌∷◌, ℕ, [], true, Some, IfOk, OnOk, length, slice_index};
ghost use Rattle.aat_findings.specs.Reached.{IsReached, next_state, width};
ghost use Rattle.aat_findings.specs.inside.Marks.{AreAllReached, AreFollowed, AreKept, AreMarks, AreReachMarks, IsFollowed, IsLonger, is_marked};

use aat_machine_tables::{Acting, ExtendedStateTable};
use std::alloc::{AllocError, Global};

/// How many states a table can have.
pub(crate) const STATES: usize = 65536;

/// How many classes are looked at: all, and at least 2, since a class that is not below their number is taken as 1.
pub(crate) fn width<T: Acting>(table: &ExtendedStateTable<T>) -> u16
    ensures { result ≡ width table.now }
{
    table.class_count().max(2)
}

/// So many marks of 0.
pub(crate) fn no_marks(alloc: Global, count: usize) -> Result<Vec<u8>, AllocError>
    ensures long { IfOk result (λ marks. length marks.items ≡ count) }
    ensures zero { IfOk result (λ marks. (state : ℕ) → slice_index marks.items state ≡ 0) }
{
    vec![in alloc; 0u8; count]
}

/// Marks a state, unless it is marked, and puts it behind the others.
fn mark(marks: &mut [u8], order: &mut Vec<u16>, state: u16) -> Result<(), AllocError>
    requires marks { AreMarks marks.old order.old.items }
    ensures marks { OnOk result (AreMarks marks.new order.new.items) }
    ensures kept { OnOk result (AreKept marks.old marks.new) }
    ensures longer { OnOk result (IsLonger order.old.items order.new.items) }
    ensures here { OnOk result (is_marked marks.new state ≡ true) }
    ensures only { OnOk result ((s : ℕ) → is_marked marks.new s ≡ true
        → (is_marked marks.old s ≡ true) ⊎ (s ≡ state)) }
{
    if marks[state as usize] > 0 {
        return Ok(());
    }
    order.push(state)?;
    marks[state as usize] = 1;
    Ok(())
}

/// Marks the state to which the entry of a state and a class leads, if there is one.
fn mark_next<T: Acting>(
    table: &ExtendedStateTable<T>,
    marks: &mut [u8],
    order: &mut Vec<u16>,
    state: u16,
    class: u16,
) -> Result<(), AllocError>
    requires marks { AreMarks marks.old order.old.items }
    ensures marks { OnOk result (AreMarks marks.new order.new.items) }
    ensures kept { OnOk result (AreKept marks.old marks.new) }
    ensures longer { OnOk result (IsLonger order.old.items order.new.items) }
    ensures here { OnOk result ((s : ℕ) → next_state table.now state class ≡ Some s → is_marked marks.new s ≡ true) }
    ensures sound { OnOk result (IsReached table.now state → AreAllReached table.now marks.old
        → AreAllReached table.now marks.new) }
{
    match table.entry(state, class) {
        Some(entry) => {
            mark(marks, order, entry.new_state)?;
            Ok(())
        }
        None => Ok(()),
    }
}

/// Marks the states to which the entries of a state lead.
fn mark_row<T: Acting>(
    table: &ExtendedStateTable<T>,
    marks: &mut [u8],
    order: &mut Vec<u16>,
    state: u16,
) -> Result<(), AllocError>
    requires marks { AreMarks marks.old order.old.items }
    ensures marks { OnOk result (AreMarks marks.new order.new.items) }
    ensures kept { OnOk result (AreKept marks.old marks.new) }
    ensures longer { OnOk result (IsLonger order.old.items order.new.items) }
    ensures row { OnOk result (IsFollowed table.now marks.new state (width table.now)) }
    ensures sound { OnOk result (IsReached table.now state → AreAllReached table.now marks.old
        → AreAllReached table.now marks.new) }
{
    for class in 0..width(table) {
        mark_next(table, marks, order, state, class)?;
    }
    Ok(())
}

/// Marks the states that lines reach from the marked ones.
fn mark_each<T: Acting>(
    table: &ExtendedStateTable<T>,
    marks: &mut [u8],
    order: &mut Vec<u16>,
) -> Result<(), AllocError>
    requires marks { AreMarks marks.old order.old.items }
    requires sound { AreAllReached table.now marks.old }
    ensures long { OnOk result (length marks.new ≡ 65536) }
    ensures kept { OnOk result (AreKept marks.old marks.new) }
    ensures sound { OnOk result (AreAllReached table.now marks.new) }
    ensures followed { OnOk result ((s : ℕ) → is_marked marks.new s ≡ true
        → IsFollowed table.now marks.new s (width table.now)) }
{
    for place in 0..STATES {
        if place >= order.len() {
            return Ok(());
        }
        let state = order[place];
        mark_row(table, marks, order, state)?;
    }
    Ok(())
}

/// Marks the states that lines reach.
fn mark_all<T: Acting>(
    alloc: Global,
    table: &ExtendedStateTable<T>,
    marks: &mut [u8],
) -> Result<(), AllocError>
    requires long { length marks.old ≡ 65536 }
    requires zero { (state : ℕ) → slice_index marks.old state ≡ 0 }
    ensures { OnOk result (AreReachMarks table.now marks.new) }
{
    let mut order = Vec::new(alloc);
    mark(marks, &mut order, 0)?;
    mark(marks, &mut order, 1)?;
    mark_each(table, marks, &mut order)?;
    Ok(())
}

/// Marks of the states that lines reach.
pub(crate) fn reach_marks<T: Acting>(
    alloc: Global,
    table: &ExtendedStateTable<T>,
) -> Result<Vec<u8>, AllocError>
    ensures { IfOk result (λ marks. AreReachMarks table.now marks.items) }
{
    let mut marks = no_marks(alloc, STATES)?;
    mark_all(alloc, table, &mut marks)?;
    Ok(marks)
}
