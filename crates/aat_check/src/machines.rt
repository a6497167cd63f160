//! The machines of subtables.

use crate::fact::Fact;
use crate::finding::{Finding, Place, add_fact, push_fact};
use crate::lines::{Order, line_to, shown_classes};
use crate::search::{Search, staying_state};
use aat_findings::{Same, classes_alike, missing_reached, stays, unreached_states, unused_entries};
use aat_machine_tables::ExtendedStateTable;
use aat_machine_tables::entry_bits::state::START_OF_LINE;
use aat_machine_tables::entry_bits::{DONT_ADVANCE, class};
use std::alloc::{AllocError, Global};

/// What is known of a machine beside its table.
#[derive(Clone, Copy)]
pub(crate) struct Machine {
    /// Where its subtable is.
    pub(crate) place: Place,
    /// The font has the glyphs below this number.
    pub(crate) glyph_count: u32,
    /// How the subtable goes over a line.
    pub(crate) order: Order,
    /// Whether its entries may change glyphs.
    pub(crate) changes_glyphs: bool,
    /// Why it is not settled, if it is not.
    pub(crate) unsettled: Option<Fact>,
    /// The lookups that its entries do not name, if there are any.
    pub(crate) unnamed: Option<Fact>,
    /// A state and a class at which it stays, whatever it does to the glyph, if there are any.
    pub(crate) turning: Option<(u16, u16)>,
    /// A state and a class at which it puts glyphs in without end, if there are any.
    pub(crate) growing: Option<(u16, u16)>,
}

impl Machine {
    /// A machine that kerns.
    pub(crate) fn of_kerning(place: Place, glyph_count: u32, order: Order) -> Machine {
        Machine {
            place,
            glyph_count,
            order,
            changes_glyphs: false,
            unsettled: None,
            unnamed: None,
            turning: None,
            growing: None,
        }
    }

    /// A state and a class of it.
    fn cell(&self, state: u16, class: u16) -> Place {
        Place {
            state: Some(state),
            class: Some(class),
            ..self.place
        }
    }
}

/// Adds what is found at a state and a class, with the line that leads there.
fn add_cell<T: Same>(
    alloc: Global,
    table: &ExtendedStateTable<T>,
    machine: Machine,
    cell: Option<(u16, u16)>,
    fact: Fact,
    found: &mut Vec<Finding>,
) -> Result<(), AllocError> {
    let Some((state, class)) = cell else {
        return Ok(());
    };
    let place = machine.cell(state, class);
    let line = line_to(
        alloc,
        table,
        machine.glyph_count,
        machine.order,
        (state, class),
    )?;
    found.push(Finding { fact, place, line })?;
    Ok(())
}

/// Of the cells at which a machine stays, in a table in which it rests there, the one to which a shortest line leads,
/// if it is among those that are noted; else one of them, if there is one.
fn nearest_cell<T: Same>(
    alloc: Global,
    table: &ExtendedStateTable<T>,
    resting: &ExtendedStateTable<T>,
    glyph_count: u32,
) -> Result<Option<(u16, u16)>, AllocError> {
    let first = stays(alloc, resting)?;
    if first.is_none() {
        return Ok(None);
    }
    let shown = shown_classes(alloc, table, &[], 0, glyph_count)?;
    let search = Search::everywhere(alloc, table, &shown, None)?;
    let mut cells = search.staying.iter().copied();
    Ok(
        cells
            .find(|cell| staying_state(resting, cell.0, cell.1).is_some())
            .or(first),
    )
}

/// A cell at which a machine stays: the one that is given of a contextual machine, which may change the glyph, else one
/// where the glyphs stay as they are, if there is one.
fn resting_cell<T: Same>(
    alloc: Global,
    table: &ExtendedStateTable<T>,
    machine: Machine,
    staying: Option<(u16, u16)>,
) -> Result<Option<(u16, u16)>, AllocError> {
    if staying.is_none() || machine.turning.is_some() {
        return Ok(machine.turning);
    }
    if !machine.changes_glyphs {
        return nearest_cell(alloc, table, table, machine.glyph_count);
    }
    // entries that may act advance in it
    let mut rules = table.to_rules(alloc)?;
    for rule in rules.iter_mut() {
        if T::acts(&rule.2) {
            rule.2.flags &= !DONT_ADVANCE;
        }
    }
    match ExtendedStateTable::new(alloc, table.class_count(), &[], &rules) {
        Ok(resting) => nearest_cell(alloc, table, &resting, machine.glyph_count),
        Err(_) => Err(AllocError),
    }
}

/// The first cell that is missing, unless it is one of state 1, where lines begin, and no entry leads there: no run here
/// begins in it, and the readers read no row for it then.
fn missing_cell<T: Same>(
    alloc: Global,
    table: &ExtendedStateTable<T>,
) -> Result<Option<(u16, u16)>, AllocError> {
    let missing = missing_reached(alloc, table)?;
    let Some((START_OF_LINE, _)) = missing else {
        return Ok(missing);
    };
    let rules = table.to_rules(alloc)?;
    let leads = rules.iter().any(|rule| rule.2.new_state == START_OF_LINE);
    Ok(if leads { missing } else { None })
}

/// Adds the first state that no line reaches.
fn check_states<T: Same>(
    alloc: Global,
    table: &ExtendedStateTable<T>,
    machine: Machine,
    found: &mut Vec<Finding>,
) -> Result<(), AllocError> {
    let states = unreached_states(alloc, table)?;
    let Some(first) = states.first().copied() else {
        return Ok(());
    };
    let place = Place {
        state: Some(first),
        ..machine.place
    };
    let count = states.len();
    push_fact(found, place, Fact::UnreachedState { count })
}

/// Adds the first rule that no line comes to.
fn check_rules<T: Same>(
    alloc: Global,
    table: &ExtendedStateTable<T>,
    machine: Machine,
    found: &mut Vec<Finding>,
) -> Result<(), AllocError> {
    let rules = unused_entries(alloc, table)?;
    let Some(first) = rules.first().copied() else {
        return Ok(());
    };
    let place = machine.cell(first.0, first.1);
    let count = rules.len();
    push_fact(found, place, Fact::UnusedRule { count })
}

/// Adds the first class of the font's own that no rule tells from one before it, if that is one of these too, or what is
/// out of bounds is alike to it.
fn check_classes<T: Same>(
    alloc: Global,
    table: &ExtendedStateTable<T>,
    machine: Machine,
    found: &mut Vec<Finding>,
) -> Result<(), AllocError> {
    let pairs = classes_alike(alloc, table)?;
    let out = match pairs.first() {
        Some((least, class::OUT_OF_BOUNDS)) => *least,
        _ => class::OUT_OF_BOUNDS,
    };
    let mut own = pairs.iter().copied().filter(|(other, class)| {
        *class > class::END_OF_LINE && (*other > class::END_OF_LINE || *other == out)
    });
    let Some((other, class)) = own.next() else {
        return Ok(());
    };
    let place = Place {
        class: Some(class),
        ..machine.place
    };
    // the least class that is alike to out of bounds stands for it
    let other = other.max(class::OUT_OF_BOUNDS);
    let count = own.count().saturating_add(1);
    push_fact(found, place, Fact::ClassesAlike { other, count })
}

/// Adds what is found in a machine.
pub(crate) fn check_machine<T: Same>(
    alloc: Global,
    table: &ExtendedStateTable<T>,
    machine: Machine,
    found: &mut Vec<Finding>,
) -> Result<(), AllocError> {
    let staying = stays(alloc, table)?;
    let resting = resting_cell(alloc, table, machine, staying)?;
    add_cell(alloc, table, machine, resting, Fact::Stays, found)?;
    let missing = missing_cell(alloc, table)?;
    add_cell(alloc, table, machine, missing, Fact::MissingEntry, found)?;
    add_fact(machine.place, machine.unsettled, found)?;
    check_states(alloc, table, machine, found)?;
    check_rules(alloc, table, machine, found)?;
    check_classes(alloc, table, machine, found)?;
    add_fact(machine.place, machine.unnamed, found)?;
    let growing = machine.growing;
    let acting = match (resting, growing) {
        (None, None) => staying,
        _ => None,
    };
    add_cell(alloc, table, machine, acting, Fact::MayStay, found)?;
    add_cell(alloc, table, machine, growing, Fact::Grows, found)
}
