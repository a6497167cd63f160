//! What an entry of a machine has behind its flags, as text.
use aat_machine_tables::{
    Acting, ContextualEntryData, EntryData, InsertionEntryData, KernEntryData,
};
use std::io::{self, Write};

/// What an entry has behind its flags.
pub(crate) trait EntryText: Acting {
    /// Writes it, behind a space, or nothing.
    fn write_text<W: Write>(&self, out: &mut W) -> io::Result<()>;
}

/// The word for an index, where 0xFFFF is none.
fn write_index<W: Write>(out: &mut W, word: &str, index: u16) -> io::Result<()> {
    if index == 0xFFFF {
        return Ok(());
    }
    write!(out, " {word} {index}")
}

impl EntryText for () {
    fn write_text<W: Write>(&self, _: &mut W) -> io::Result<()> {
        Ok(())
    }
}

impl EntryText for u16 {
    fn write_text<W: Write>(&self, out: &mut W) -> io::Result<()> {
        write!(out, " action {self}")
    }
}

impl EntryText for ContextualEntryData {
    fn write_text<W: Write>(&self, out: &mut W) -> io::Result<()> {
        write_index(out, "marked", self.mark_index)?;
        write_index(out, "current", self.current_index)
    }
}

impl EntryText for InsertionEntryData {
    fn write_text<W: Write>(&self, out: &mut W) -> io::Result<()> {
        write_index(out, "marked", self.marked_insert_index)?;
        write_index(out, "current", self.current_insert_index)
    }
}

impl EntryText for EntryData {
    fn write_text<W: Write>(&self, out: &mut W) -> io::Result<()> {
        write_index(out, "action", self.action_index)
    }
}

impl EntryText for KernEntryData {
    fn write_text<W: Write>(&self, out: &mut W) -> io::Result<()> {
        write_index(out, "value", self.value_index)
    }
}
