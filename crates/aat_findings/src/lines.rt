//! Where a line leads.
ghost use Rattle.std.specs.Prelude.{◌≡◌};
ghost use Rattle.aat_findings.specs.Reached.{next_state, state_after};

use aat_machine_tables::{Acting, ExtendedStateTable};

/// The state to which the entry of a state and a class leads, if there is one.
fn next_state<T: Acting>(table: &ExtendedStateTable<T>, state: u16, class: u16) -> Option<u16>
    ensures { result ≡ next_state table.now state class }
{
    match table.entry(state, class) {
        Some(entry) => Some(entry.new_state),
        None => None,
    }
}

/// The state to which the classes of a line lead from a state, by one entry after another, if there is one for each: so
/// a line that shows a state can be tried.
///
/// Apple's TrueType Reference Manual, "Font Tables", section on state tables.
pub fn state_after<T: Acting>(
    table: &ExtendedStateTable<T>,
    start: u16,
    line: &[u16],
) -> Option<u16>
    ensures { result ≡ state_after table.now start line.now }
{
    let mut state = start;
    for class in line {
        match next_state(table, state, *class) {
            Some(next) => state = next,
            None => return None,
        }
    }
    Some(state)
}
