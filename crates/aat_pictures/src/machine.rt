//! Machines of `morx` as a picture shows them.

use crate::glyph_text::write_glyph;
use crate::machine_entries::{Deeds, DrawnEntry, NOTHING, add_deeds};
use crate::machine_marks::write_marks;
use crate::rows::place_of;
use aat_lookup::Lookup;
use aat_machine_tables::entry_bits::state::{START_OF_LINE, START_OF_TEXT};
use aat_machine_tables::{Chain, ExtendedStateTable, SubtableKind};
use aat_read_metrics::GlyphNames;
use std::alloc::{AllocError, Global};
use std::io::{self, Write};

/// A rule that is shown: its state, the state that follows, what its entry does, and its class.
pub(crate) type Step = (u16, u16, Deeds, u16);

/// A machine as a picture shows it.
#[derive(Drop)]
pub(crate) struct Machine<'a> {
    /// What its subtable does.
    kind: &'a SubtableKind,
    /// Its states, which rise strictly, 0 and 1 first.
    pub(crate) states: Vec<u16>,
    /// Its rules, which rise, without those that lead to state 0 and do nothing, and those of `likes`.
    pub(crate) steps: Vec<Step>,
    /// The states behind 0 and the classes at which they have the entry of state 0, and it is no entry that is left out,
    /// which rise.
    pub(crate) likes: Vec<(u16, u16)>,
    /// The glyphs of its classes: a class and a glyph each, which rise.
    members: Vec<(u16, u16)>,
    /// The names of glyphs, where they are told.
    names: Option<&'a GlyphNames<'a>>,
}

/// The names of the classes that every machine has.
const NAMES: [&str; 4] = ["end of text", "out of bounds", "deleted", "end of line"];

/// So many glyphs of a class are told.
const TOLD_GLYPHS: usize = 3;

/// The glyphs of classes: a class and a glyph each, which rise.
fn members_of(alloc: Global, classes: &Lookup) -> Result<Vec<(u16, u16)>, AllocError> {
    let mut members = classes.to_pairs(alloc)?;
    for member in members.iter_mut() {
        *member = (member.1, member.0);
    }
    members.sort()?;
    Ok(members)
}

/// Whether state 0 has an entry at a class that leads to a state by such deeds.
fn is_first<T: DrawnEntry>(
    table: &ExtendedStateTable<T>,
    class: u16,
    next: u16,
    deeds: Deeds,
) -> bool {
    match table.entry(START_OF_TEXT, class) {
        Some(first) => first.new_state == next && T::deeds(&first) == deeds,
        None => false,
    }
}

/// Adds a class to a text: by its name where every machine has it, else by its first glyphs, or by its number where it has
/// none.
fn add_class(text: &mut String, machine: &Machine<'_>, class: u16) -> Result<(), AllocError> {
    if let Some(name) = NAMES.get(class as usize) {
        return text.push_str(*name);
    }
    let first = place_of(&machine.members, &(class, 0));
    let mut told = 0usize;
    for (of_class, glyph) in machine.members.iter().skip(first) {
        if *of_class != class {
            break;
        }
        if told >= TOLD_GLYPHS {
            return text.push_str(" ..");
        }
        let before = if told == 0 { "" } else { " " };
        text.push_str(before)?;
        write_glyph(text, machine.names, *glyph)?;
        told = told.saturating_add(1);
    }
    if told == 0 {
        write!(text, "class {class}")?;
    }
    Ok(())
}

/// Adds the class of a number to a text that has those before it, of which at most so many are told.
fn add_next_class(
    text: &mut String,
    machine: &Machine<'_>,
    class: u16,
    (number, most_classes): (usize, usize),
) -> Result<(), AllocError> {
    if number > most_classes {
        return Ok(());
    }
    text.push_str(if number == 0 { " " } else { ", " })?;
    if number == most_classes {
        return text.push_str("..");
    }
    add_class(text, machine, class)
}

impl Machine<'_> {
    /// Takes the rules and the classes of a table.
    ///
    /// Fails where they get no memory. A part may be taken then.
    fn take<T: DrawnEntry>(
        &mut self,
        alloc: Global,
        table: &ExtendedStateTable<T>,
    ) -> Result<(), AllocError> {
        self.members = members_of(alloc, table.classes())?;
        self.states
            .extend_from_slice(&[START_OF_TEXT, START_OF_LINE])?;
        for (state, class, entry) in &table.to_rules(alloc)? {
            let (next, deeds) = (entry.new_state, T::deeds(entry));
            self.states.extend_from_slice(&[*state, next])?;
            if next == START_OF_TEXT && deeds == NOTHING {
                continue;
            }
            if *state != START_OF_TEXT && is_first(table, *class, next, deeds) {
                self.likes.push((*state, *class))?;
            } else {
                self.steps.push((*state, next, deeds, *class))?;
            }
        }
        self.states.sort()?;
        self.states.dedup();
        self.steps.sort()?;
        Ok(self.likes.sort()?)
    }

    /// Whether a state has the entry of state 0 at a class.
    pub(crate) fn has_likes(&self, state: u16) -> bool {
        let first = place_of(&self.likes, &(state, 0));
        match self.likes.get(first) {
            Some(like) => like.0 == state,
            None => false,
        }
    }

    /// Up to so many of the classes at which a state has the entry of state 0.
    ///
    /// Fails where the text gets no memory.
    pub(crate) fn text_of_likes(
        &self,
        alloc: Global,
        state: u16,
        most_classes: usize,
    ) -> Result<String, AllocError> {
        let mut text = String::from_str(alloc, "as 0 at")?;
        let first = place_of(&self.likes, &(state, 0));
        for (number, (of_state, class)) in self.likes.iter().skip(first).enumerate() {
            if *of_state != state {
                break;
            }
            add_next_class(&mut text, self, *class, (number, most_classes))?;
        }
        Ok(text)
    }

    /// What steps do that have the same states and deeds: these, and up to so many of the classes at which they are done.
    /// Nothing in it is escaped in XML.
    ///
    /// Fails where the text gets no memory.
    pub(crate) fn text_of(
        &self,
        alloc: Global,
        steps: &[Step],
        most_classes: usize,
    ) -> Result<String, AllocError> {
        let mut text = String::new(alloc);
        if let Some((_, _, deeds, _)) = steps.first() {
            add_deeds(&mut text, self.kind, *deeds)?;
        }
        text.push_str("at")?;
        for (number, (_, _, _, class)) in steps.iter().enumerate() {
            add_next_class(&mut text, self, *class, (number, most_classes))?;
        }
        Ok(text)
    }
}

/// What came of a picture of a machine.
#[derive(Clone, Copy)]
pub enum MachinePicture {
    /// It is written.
    Written,
    /// The subtable is noncontextual, so it has no machine. Nothing is written.
    NoMachine,
    /// There is no subtable of that number. Nothing is written.
    NoSubtable,
}

/// Writes a picture of the machine of a subtable of a kind.
fn write_machine_of<W: Write>(
    alloc: Global,
    out: &mut W,
    kind: &SubtableKind,
    names: Option<&GlyphNames<'_>>,
) -> io::Result<MachinePicture> {
    let mut machine = Machine {
        kind,
        states: Vec::new(alloc),
        steps: Vec::new(alloc),
        likes: Vec::new(alloc),
        members: Vec::new(alloc),
        names,
    };
    let taken = match kind {
        SubtableKind::Rearrangement(table) => machine.take(alloc, table),
        SubtableKind::Contextual(tables) => machine.take(alloc, &tables.state),
        SubtableKind::Ligature(tables) => machine.take(alloc, &tables.state),
        SubtableKind::Insertion(tables) => machine.take(alloc, &tables.state),
        SubtableKind::NonContextual(_) => return Ok(MachinePicture::NoMachine),
    };
    taken?;
    write_marks(alloc, out, &machine)?;
    Ok(MachinePicture::Written)
}

/// Writes a picture of the machine of a subtable as a file of SVG. The number is that of the subtable through all chains,
/// from 0.
///
/// States are circles with their numbers, in columns by their distance from state 0: 0 and 1 in the first, in the next those
/// to which these lead, and so on, and in the last one, grey, those that no line reaches. Beside a state is a line for each
/// state that follows it and what its entries do there, with the classes at which they do it, by their first three glyphs:
/// by names where they are given, else by numbers. An arrow leads along a line to a state of the next column. Behind `action`,
/// `verb`, `by lookup` and `inserts N at` stands the index of the entry, the verb, or the place in the list of glyphs; `stays`
/// is of an entry that does not go on to the next glyph. A last line has the classes at which the entry is that of state 0.
/// Entries that lead to state 0 and do nothing are left out. A long line is cut and ends in `..`; the whole is its title. A
/// colour is for every eighth state.
///
/// An error is that of the writer, or `OutOfMemory`: it takes some bytes for each rule, state and glyph that has a class. A
/// part of the picture may be written then.
pub fn write_machine<W: Write>(
    alloc: Global,
    out: &mut W,
    chains: &[Chain],
    names: Option<&GlyphNames<'_>>,
    number: usize,
) -> io::Result<MachinePicture> {
    let mut left = number;
    for chain in chains {
        if let Some(subtable) = chain.subtables.get(left) {
            return write_machine_of(alloc, out, &subtable.kind, names);
        }
        left = left.saturating_sub(chain.subtables.len());
    }
    Ok(MachinePicture::NoSubtable)
}
