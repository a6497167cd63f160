//! The entries that no line takes.
ghost use Rattle.std.specs.Prelude.{◌≡◌, IfOk, filter, length};
ghost use Rattle.aat_findings.specs.Reached.{ArePicked, IsUnused};
ghost use Rattle.aat_findings.specs.inside.Marks.{is_unmarked};

use crate::reached::reach_marks;
use aat_machine_tables::{Acting, ExtendedStateTable, GenericStateEntry};
use std::alloc::{AllocError, Global};

/// The rules of states without a mark.
fn unmarked_rules<T: Copy>(
    alloc: Global,
    rules: &[(u16, u16, GenericStateEntry<T>)],
    marks: &[u8],
) -> Result<Vec<(u16, u16, GenericStateEntry<T>)>, AllocError>
    requires { length marks.now ≡ 65536 }
    ensures { IfOk result (λ found. found.items ≡ filter (λ r. is_unmarked marks.now r.0) rules.now) }
{
    rules
        .iter()
        .filter(|rule| marks[rule.0 as usize] == 0)
        .copied()
        .collect(alloc)
}

/// The rules, each of a state, a class and an entry, that no line comes to, in their order: those of states that no
/// line reaches. Lines begin in state 0 or 1, and go by entries for any classes from there. Fails where memory is
/// wanting.
///
/// Apple's TrueType Reference Manual, "Font Tables", section on state tables.
pub fn unused_entries<T: Acting>(
    alloc: Global,
    table: &ExtendedStateTable<T>,
) -> Result<Vec<(u16, u16, GenericStateEntry<T>)>, AllocError>
    ensures { IfOk result (λ rules. ArePicked (IsUnused table.now) table.now.rules rules.items) }
{
    let marks = reach_marks(alloc, table)?;
    let of_marks = marks.as_slice();
    let rules = table.to_rules(alloc)?;
    let found = unmarked_rules(alloc, &rules, of_marks)?;
    Ok(found)
}
