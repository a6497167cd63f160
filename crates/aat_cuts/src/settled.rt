//! Whether a subtable is settled.
ghost use Rattle.std.specs.Prelude.{◌≡◌, ◌==◌, ◌&&◌, ℕ, Bool, true, false, IfOk, IfSome, IfNone, None, length};
ghost use Rattle.std.specs.List.{All, Contains};
ghost use Rattle.aat_machine_tables.specs.Table.{Rule};
ghost use Rattle.aat_machine_tables.specs.declared.state_table.GenericStateEntry.{GenericStateEntry};
ghost use Rattle.aat_cuts.specs.Labels.{AreLabels};
ghost use Rattle.aat_cuts.specs.Reached.{AreReached, is_labelled};
ghost use Rattle.aat_cuts.specs.Settled.{the_mark, the_end_set_by};
ghost use Rattle.aat_cuts.specs.inside.Steps.{AreClasses, IsFoundIn};
ghost use Rattle.aat_cuts.specs.Kinds.{IsVerdictOnContextual, IsVerdictOnInsertion, IsVerdictOnRearrangement, moves_and_ends, reason_of};

use crate::cells::Cell;
use crate::classes::glyph_classes;
use crate::reached::{Reach, Reached, find_reached};
use crate::register::{Mark, SpanEnd, find_in_register};
use crate::steps::Trouble;
use crate::unsettled::{Unsettled, UsedRegister};
use aat_lookup::Lookup;
use aat_machine_tables::entry_bits::{class, rearrangement};
use aat_machine_tables::{ContextualEntryData, ExtendedStateTable, InsertionEntryData};
use std::alloc::{AllocError, Global};

/// Why a machine is not settled, by what was found of one of its registers.
fn reason_of(register: UsedRegister, trouble: Trouble) -> Unsettled
    ensures { result ≡ reason_of register trouble }
{
    match trouble {
        Trouble::Unset(state, class) => Unsettled::UsedBeforeSet(register, state, class),
        Trouble::Taken(state, class) => Unsettled::TakenForOne(register, state, class),
    }
}

/// Why a contextual machine is not settled, where its states were found.
fn find_in_mark(
    alloc: Global,
    table: &ExtendedStateTable<ContextualEntryData>,
    lookups: &[Lookup],
    reached: &Reached<ContextualEntryData>,
) -> Result<Option<Unsettled>, AllocError>
    requires { AreReached table.now reached.now.labels.items reached.now.cells.items }
    ensures { IfOk result (IsVerdictOnContextual table.now (length lookups.now)) }
{
    let count = lookups.len();
    let classes = glyph_classes(alloc, table)?;
    let mark = Mark { lookups: count };
    let found = find_in_register(alloc, &mark, table, reached, &classes)?;
    match found {
        None => Ok(None),
        Some(trouble) => Ok(Some(reason_of(UsedRegister::Mark, trouble))),
    }
}

/// Why a contextual machine with these lookups is not settled, if it is not.
pub(crate) fn find_in_contextual(
    alloc: Global,
    table: &ExtendedStateTable<ContextualEntryData>,
    lookups: &[Lookup],
) -> Result<Option<Unsettled>, AllocError>
    ensures { IfOk result (IsVerdictOnContextual table.now (length lookups.now)) }
{
    let reach = find_reached(alloc, table)?;
    match reach {
        Reach::Missing(state, class) => Ok(Some(Unsettled::MissingEntry(state, class))),
        Reach::Complete(reached) => {
            let found = find_in_mark(alloc, table, lookups, &reached)?;
            Ok(found)
        }
    }
}

/// Why an insertion machine is not settled, if it is not.
pub(crate) fn find_in_insertion(
    alloc: Global,
    table: &ExtendedStateTable<InsertionEntryData>,
) -> Result<Option<Unsettled>, AllocError>
    ensures { IfOk result (IsVerdictOnInsertion table.now) }
{
    let reach = find_reached(alloc, table)?;
    match reach {
        Reach::Missing(state, class) => Ok(Some(Unsettled::MissingEntry(state, class))),
        Reach::Complete(_reached) => Ok(None),
    }
}

/// The state of the first entry for the end of the text that sets the end of the span and has a verb.
fn moving_end(cells: &[Cell<()>]) -> Option<u16>
    ensures none { IfNone result (All (λ c. (c.1 == 0 && moves_and_ends c.2) ≡ false) cells.now) }
    ensures some { IfSome result (λ state. (c : Rule (GenericStateEntry (Unit {0}))) × Contains cells.now c
        × (c.0 ≡ state) × ((c.1 == 0 && moves_and_ends c.2) ≡ true)) }
{
    for cell in cells {
        let moves = is_moving_end(cell);
        if moves {
            return Some(cell.0);
        }
    }
    None
}

/// Whether an entry is for the end of the text, sets the end of the span, and has a verb.
fn is_moving_end(cell: &Cell<()>) -> bool
    ensures { result ≡ (cell.now.1 == 0 && moves_and_ends cell.now.2) }
{
    cell.1 == class::END_OF_TEXT
        && cell.2.flags & rearrangement::VERB != 0
        && cell.2.flags & rearrangement::MARK_LAST != 0
}

/// An entry that uses one end of the span of a rearrangement where it may not be set, or else one that is taken for
/// that of state 0, which sets it differently, where it may be used behind them.
fn find_in_end(
    alloc: Global,
    table: &ExtendedStateTable<()>,
    reached: &Reached<()>,
    flag: u16,
) -> Result<Option<Trouble>, AllocError>
    requires { AreReached table.now reached.now.labels.items reached.now.cells.items }
    ensures { IfOk result (IsFoundIn table.now (the_end_set_by flag) (is_labelled reached.now.labels.items)) }
{
    let classes = glyph_classes(alloc, table)?;
    let found = find_in_register(alloc, &SpanEnd { flag }, table, reached, &classes)?;
    Ok(found)
}

/// Why a rearrangement is not settled, where its states were found.
fn find_in_ends(
    alloc: Global,
    table: &ExtendedStateTable<()>,
    reached: &Reached<()>,
) -> Result<Option<Unsettled>, AllocError>
    requires { AreReached table.now reached.now.labels.items reached.now.cells.items }
    ensures { IfOk result (IsVerdictOnRearrangement table.now) }
{
    let cells = reached.cells.as_slice();
    if let Some(state) = moving_end(cells) {
        return Ok(Some(Unsettled::MovesAtEnd(state)));
    }
    let start = find_in_end(alloc, table, reached, rearrangement::MARK_FIRST)?;
    if let Some(trouble) = start {
        return Ok(Some(reason_of(UsedRegister::SpanStart, trouble)));
    }
    let end = find_in_end(alloc, table, reached, rearrangement::MARK_LAST)?;
    if let Some(trouble) = end {
        return Ok(Some(reason_of(UsedRegister::SpanEnd, trouble)));
    }
    Ok(None)
}

/// Why a rearrangement is not settled, if it is not.
pub(crate) fn find_in_rearrangement(
    alloc: Global,
    table: &ExtendedStateTable<()>,
) -> Result<Option<Unsettled>, AllocError>
    ensures { IfOk result (IsVerdictOnRearrangement table.now) }
{
    let reach = find_reached(alloc, table)?;
    match reach {
        Reach::Missing(state, class) => Ok(Some(Unsettled::MissingEntry(state, class))),
        Reach::Complete(reached) => {
            let found = find_in_ends(alloc, table, &reached)?;
            Ok(found)
        }
    }
}
