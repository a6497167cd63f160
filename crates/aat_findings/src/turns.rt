//! Entries that stay at a glyph for ever.
ghost use Rattle.std.specs.Prelude.{◌≡◌, ◌+◌, ◌<◌, ℕ, true, IfOk, IfNone, IfSome, length, slice_index};
ghost use Rattle.aat_findings.specs.Reached.{IsReached};
ghost use Rattle.aat_findings.specs.Stays.{IsCycle, MovesOn, stay_next};
ghost use Rattle.aat_findings.specs.inside.Marks.{AreReachMarks, is_marked};
ghost use Rattle.aat_findings.specs.inside.Walks.{AreEnded};

use crate::reached::{STATES, reach_marks};
use aat_machine_tables::{Acting, ExtendedStateTable};
use std::alloc::{AllocError, Global};

/// The state to which the entry of a state and a class leads that stays at the glyph, if there is one.
fn stay_next<T: Acting>(table: &ExtendedStateTable<T>, state: u16, class: u16) -> Option<u16>
    ensures { result ≡ stay_next table.now class state }
{
    match table.entry(state, class) {
        Some(entry) if !entry.has_advance() => Some(entry.new_state),
        _ => None,
    }
}

/// No walks, of so many states.
fn no_walks(alloc: Global, count: usize) -> Result<Vec<u32>, AllocError>
    ensures long { IfOk result (λ walks. length walks.items ≡ count) }
    ensures zero { IfOk result (λ walks. (state : ℕ) → slice_index walks.items state ≡ 0) }
{
    vec![in alloc; 0u32; count]
}

/// Follows entries that stay from a state on, and notes the number of this walk at each state that no walk has come to.
/// Answers a state that it comes to twice, if there is one.
fn walk<T: Acting>(
    table: &ExtendedStateTable<T>,
    class: u16,
    walks: &mut [u32],
    start: u16,
    number: u32,
) -> Option<u16>
    requires number { 0 < number }
    requires walks { AreEnded table.now class walks.old number }
    requires reached { IsReached table.now start }
    ensures none { IfNone result (AreEnded table.now class walks.new (number + 1)) }
    ensures start { IfNone result (0 < slice_index walks.new start) }
    ensures kept { (s : ℕ) → 0 < slice_index walks.old s → 0 < slice_index walks.new s }
    ensures some { IfSome result (λ state. IsReached table.now state × IsCycle table.now class state) }
{
    let mut state = start;
    'turns: while walks[state as usize] == 0 {
        walks[state as usize] = number;
        match stay_next(table, state, class) {
            Some(next) => state = next,
            None => return None,
        }
    }
    if walks[state as usize] == number {
        return Some(state);
    }
    None
}

/// Follows entries that stay from a state on, where it is marked, as [`walk`] does.
fn walk_marked<T: Acting>(
    table: &ExtendedStateTable<T>,
    class: u16,
    marks: &[u8],
    walks: &mut [u32],
    state: u16,
) -> Option<u16>
    requires marks { AreReachMarks table.now marks.now }
    requires walks { AreEnded table.now class walks.old (state + 1) }
    ensures none { IfNone result (AreEnded table.now class walks.new (state + 1 + 1)) }
    ensures here { IfNone result (is_marked marks.now state ≡ true → 0 < slice_index walks.new state) }
    ensures kept { (s : ℕ) → 0 < slice_index walks.old s → 0 < slice_index walks.new s }
    ensures some { IfSome result (λ found. IsReached table.now found × IsCycle table.now class found) }
{
    if marks[state as usize] == 0 {
        return None;
    }
    match walk(table, class, walks, state, state as u32 + 1) {
        Some(found) => Some(found),
        None => None,
    }
}

/// Finds a marked state from which entries that stay lead back to it at a glyph of a class, if there is one.
fn cycle_in<T: Acting>(
    table: &ExtendedStateTable<T>,
    class: u16,
    marks: &[u8],
    walks: &mut [u32],
) -> Option<u16>
    requires marks { AreReachMarks table.now marks.now }
    requires long { length walks.old ≡ 65536 }
    requires clear { (state : ℕ) → slice_index walks.old state ≡ 0 }
    ensures none { IfNone result ((s : ℕ) → IsReached table.now s → MovesOn table.now class s) }
    ensures some { IfSome result (λ found. IsReached table.now found × IsCycle table.now class found) }
{
    for state in 0..STATES {
        if let Some(found) = walk_marked(table, class, marks, walks, state as u16) {
            return Some(found);
        }
    }
    None
}

/// Finds a marked state from which entries that stay lead back to it at a glyph of a class, if there is one. Fails
/// where memory is wanting for the walks.
fn cycle_of<T: Acting>(
    alloc: Global,
    table: &ExtendedStateTable<T>,
    class: u16,
    marks: &[u8],
) -> Result<Option<u16>, AllocError>
    requires marks { AreReachMarks table.now marks.now }
    ensures none { IfOk result (λ found. IfNone found ((s : ℕ) → IsReached table.now s → MovesOn table.now class s)) }
    ensures some { IfOk result (λ found. IfSome found (λ state. IsReached table.now state
        × IsCycle table.now class state)) }
{
    let mut walks = no_walks(alloc, STATES)?;
    match cycle_in(table, class, marks, &mut walks) {
        Some(found) => Ok(Some(found)),
        None => Ok(None),
    }
}

/// Finds a state that some line reaches and a class at which the machine stays for ever: entries for the class that do
/// not advance lead from the state back to it, so that a machine that comes to the state at a glyph of the class uses
/// up its budget. `None` says that from each state that a line reaches a glyph of each class is left after some turns.
/// Class 0 is not asked: at the end of the text a run ends whatever its entry says. Whether some glyph has the class is
/// not asked. Fails where memory is wanting for two numbers of each of 65,536 states.
///
/// Apple's TrueType Reference Manual, "Font Tables", section on state tables.
pub fn stays<T: Acting>(
    alloc: Global,
    table: &ExtendedStateTable<T>,
) -> Result<Option<(u16, u16)>, AllocError>
    ensures none { IfOk result (λ found. IfNone found ((s k : ℕ) → 0 < k → k < table.now.class_count
        → IsReached table.now s → MovesOn table.now k s)) }
    ensures some { IfOk result (λ found. IfSome found (λ place. IsReached table.now place.0
        × IsCycle table.now place.1 place.0)) }
{
    let marks = reach_marks(alloc, table)?;
    let of_marks = marks.as_slice();
    for class in 1..table.class_count() {
        let found = cycle_of(alloc, table, class, of_marks)?;
        if let Some(state) = found {
            return Ok(Some((state, class)));
        }
    }
    Ok(None)
}
