//! The entries of a state table as a list.
ghost use Rattle.std.specs.Prelude.{◌≡◌, ◌≢◌, ◌≤◌, ◌<◌, ℕ, None, Some, IfOk, IfSome, IfNone, OnOk, max};
ghost use Rattle.std.specs.List.{All, Contains};
ghost use Rattle.aat_machine_tables.specs.Table.{Rule, entry_of};
ghost use Rattle.aat_cuts.specs.Reached.{AreGathered, HasRow, IsCell, IsWhole, width};

use crate::labels::STATES;
use aat_machine_tables::{Acting, ExtendedStateTable, GenericStateEntry};
use std::alloc::{AllocError, Global};

/// A state, a class, and their entry.
pub(crate) type Cell<T> = (u16, u16, GenericStateEntry<T>);

/// How many classes are looked at: all, and at least 2, since a class that is not below their number is taken as 1.
pub(crate) fn width<T: Acting>(table: &ExtendedStateTable<T>) -> u16
    ensures { result ≡ width table.now }
{
    table.class_count().max(2)
}

/// The first class for which a state has no entry, if there is one.
pub(crate) fn missing_class<T: Acting>(table: &ExtendedStateTable<T>, state: u16) -> Option<u16>
    ensures none { IfNone result (IsWhole table.now state) }
    ensures some { IfSome result (λ class. entry_of table.now state class ≡ None) }
{
    for class in 0..width(table) {
        if table.entry(state, class).is_none() {
            return Some(class);
        }
    }
    None
}

/// Adds the entries of a state, before the first class for which it has none.
fn gather_row<T: Acting>(
    table: &ExtendedStateTable<T>,
    state: u16,
    cells: &mut Vec<Cell<T>>,
) -> Result<(), AllocError>
    requires sound { All (IsCell table.now) cells.old.items }
    ensures sound { OnOk result (All (IsCell table.now) cells.new.items) }
    ensures kept { OnOk result ((c : Rule (GenericStateEntry T)) → Contains cells.old.items c
        → Contains cells.new.items c) }
    ensures row { OnOk result (IsWhole table.now state → HasRow table.now cells.new.items state) }
{
    for class in 0..width(table) {
        let Some(entry) = table.entry(state, class) else {
            return Ok(());
        };
        cells.push((state, class, entry))?;
    }
    Ok(())
}

/// The entries of each state, of each before the first class for which it has none.
pub(crate) fn cells_of<T: Acting>(
    alloc: Global,
    table: &ExtendedStateTable<T>,
) -> Result<Vec<Cell<T>>, AllocError>
    ensures { IfOk result (λ cells. AreGathered table.now cells.items 65536) }
{
    let mut cells = Vec::new(alloc);
    for state in 0..STATES {
        gather_row(table, state as u16, &mut cells)?;
    }
    Ok(cells)
}
