//! What entries of state tables hold beside a state and flags, written to bytes.

use crate::words::append_words;
use aat_machine_tables::{ContextualEntryData, InsertionEntryData};
use aat_read_machine::EntryRead;
use std::alloc::{AllocError, Allocator};

/// What an entry holds beside a state and flags, as it is written behind them and read again.
pub trait EntryWrite: EntryRead {
    ghost use Rattle.std.specs.Prelude.{◌≡◌, ◌++◌, ℕ, List, OnOk};
    ghost use Rattle.aat_write_machine.specs.Words.{word_bytes};
    ghost use Rattle.aat_write_machine.specs.EntryLaws.{HasSize, ReadsAgain};

    /// Its numbers of 16 bits.
    ghost words_of: { Self → List ℕ };

    /// Appends it. Fails where it gets no memory.
    fn append<A: Allocator>(&self, out: &mut Vec<u8, A>) -> Result<(), AllocError>
        ensures { OnOk result (out.new.items ≡ out.old.items ++ word_bytes (words_of self.now)) };

    ghost has_size: { HasSize Self.SIZE words_of };

    ghost reads_again: { ReadsAgain Self.extra_at words_of };
}

impl EntryWrite for () {
    ghost use Rattle.aat_write_machine.specs.EntryWords.{no_words};
    ghost use Rattle.aat_write_machine.specs.facts.Entries as facts;

    ghost words_of = { no_words };

    fn append<A: Allocator>(&self, _out: &mut Vec<u8, A>) -> Result<(), AllocError> {
        Ok(())
    }

    ghost has_size = { facts.nothing_has_size };

    ghost reads_again = { facts.nothing_reads_again };
}

impl EntryWrite for u16 {
    ghost use Rattle.aat_write_machine.specs.EntryWords.{one_word};
    ghost use Rattle.aat_write_machine.specs.facts.Entries as facts;

    ghost words_of = { one_word };

    fn append<A: Allocator>(&self, out: &mut Vec<u8, A>) -> Result<(), AllocError> {
        append_words(out, &[*self])
    }

    ghost has_size = { facts.number_has_size };

    ghost reads_again = { facts.number_reads_again };
}

impl EntryWrite for ContextualEntryData {
    ghost use Rattle.aat_write_machine.specs.EntryWords.{contextual_words};
    ghost use Rattle.aat_write_machine.specs.facts.Entries as facts;

    ghost words_of = { contextual_words };

    fn append<A: Allocator>(&self, out: &mut Vec<u8, A>) -> Result<(), AllocError> {
        append_words(out, &[self.mark_index, self.current_index])
    }

    ghost has_size = { facts.contextual_has_size };

    ghost reads_again = { facts.contextual_reads_again };
}

impl EntryWrite for InsertionEntryData {
    ghost use Rattle.aat_write_machine.specs.EntryWords.{insertion_words};
    ghost use Rattle.aat_write_machine.specs.facts.Entries as facts;

    ghost words_of = { insertion_words };

    fn append<A: Allocator>(&self, out: &mut Vec<u8, A>) -> Result<(), AllocError> {
        append_words(out, &[self.current_insert_index, self.marked_insert_index])
    }

    ghost has_size = { facts.insertion_has_size };

    ghost reads_again = { facts.insertion_reads_again };
}
