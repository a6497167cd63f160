//! The machines of a description.

use crate::classes::Classes;
use crate::entries::{Extra, nothing};
use crate::known::Known;
use crate::values::{Members, Told, at, items, need, object};
use aat_machine_tables::{ExtendedStateTable, GenericStateEntry};
use anyhow::{Context, Result, bail};
use serde_json::Value;

/// The key of the entry that a state has at classes that it does not name.
const ELSE: &str = "else";

/// Puts in the entry of a class.
fn put<T: Extra>(
    known: &mut Known,
    entries: &mut [GenericStateEntry<T>],
    class: u16,
    value: &Value,
) -> Result<()> {
    let count = entries.len();
    match entries.get_mut(class as usize) {
        Some(entry) => *entry = GenericStateEntry::of(known, value)?,
        None => bail!("there are {count} classes"),
    }
    Ok(())
}

/// The entries of a state, one for each of so many classes. At a class that is not named it is the one for such classes,
/// or else one that goes to state 0 and does nothing.
fn entries<T: Extra>(
    known: &mut Known,
    classes: &Classes,
    count: u16,
    row: &Members,
) -> Result<Vec<GenericStateEntry<T>>> {
    let other = at(known, row, ELSE, nothing::<T>())?;
    let mut entries = vec![in known.alloc; other; count as usize]?;
    for (key, value) in row {
        if key.as_str() != ELSE {
            let class = classes.number(key.as_str())?;
            put(known, &mut entries, class, value).context(format_args!("{key}"))?;
        }
    }
    Ok(entries)
}

/// A rule of a machine.
type Rule<T> = (u16, u16, GenericStateEntry<T>);

/// Appends the rules of a state.
fn append_rules<T: Extra>(
    rules: &mut Vec<Rule<T>>,
    state: u16,
    entries: &[GenericStateEntry<T>],
) -> Result<()> {
    for (class, entry) in entries.iter().enumerate() {
        rules.push((state, class.min(65535) as u16, *entry))?;
    }
    Ok(())
}

/// The rules of the states of a machine with these classes.
fn rules<T: Extra>(
    known: &mut Known,
    classes: &Classes,
    count: u16,
    states: &Value,
) -> Result<Vec<Rule<T>>> {
    let mut rules = Vec::new(known.alloc);
    for (state, row) in items(states)?.iter().enumerate() {
        let entries = entries(known, classes, count, object(row)?).context(format_args!(
            "[{state}]"
        ))?;
        append_rules(&mut rules, state.min(65535) as u16, &entries)?;
    }
    Ok(rules)
}

/// The machine of an object with classes and states.
pub(crate) fn machine<T: Extra>(
    known: &mut Known,
    members: &Members,
) -> Result<ExtendedStateTable<T>> {
    let classes: Classes = need(known, members, "classes")?;
    let count = at(known, members, "class_count", classes.count())?;
    let states = members.get("states").context("states is missing")?;
    let rules = rules(known, &classes, count, states).context("states")?;
    Ok(ExtendedStateTable::new(known.alloc, count, &classes.glyphs, &rules)?)
}
