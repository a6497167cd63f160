//! State tables.
use crate::tables_text::Names;
use crate::tables_text::entries::EntryText;
use crate::tables_text::lookups::{Given, write_lookup};
use aat_machine_tables::{ExtendedStateTable, GenericStateEntry};
use std::alloc::Global;
use std::io::{self, Write};

/// The most rules of a machine that are written.
const MOST_RULES: usize = 1000;

/// Writes a rule: the entry at a state and a class.
fn write_rule<T: EntryText, W: Write>(
    out: &mut W,
    rule: &(u16, u16, GenericStateEntry<T>),
) -> io::Result<()> {
    let (state, class, entry) = rule;
    let to = entry.new_state;
    let flags = entry.flags;
    write!(
        out,
        "  state {state} class {class} to {to} flags {flags:#06x}"
    )?;
    entry.extra.write_text(out)?;
    writeln!(out)
}

/// Writes a machine: how many classes it has, the class of each glyph, and the entry at each state and class, up to
/// 1,000 of them.
pub(crate) fn write_machine<T: EntryText, W: Write>(
    alloc: Global,
    out: &mut W,
    names: Names<'_, '_>,
    machine: &ExtendedStateTable<T>,
) -> io::Result<()> {
    writeln!(out, "  classes {}", machine.class_count())?;
    write_lookup(alloc, out, names, machine.classes(), Given::Class("class"))?;
    let rules = machine.to_rules(alloc)?;
    for rule in rules.iter().take(MOST_RULES) {
        write_rule(out, rule)?;
    }
    if rules.len() > MOST_RULES {
        writeln!(out, "  and {} rules more", rules.len() - MOST_RULES)?;
    }
    Ok(())
}
