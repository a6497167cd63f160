//! What entries of state tables hold beside a state and flags, read from bytes.

use aat_bytes::be16;
use aat_machine_tables::{Acting, ContextualEntryData, EntryData, InsertionEntryData};

/// What an entry holds beside a state and flags, as it stands behind them.
pub trait EntryRead: Acting {
    ghost use Rattle.std.specs.Prelude.{◌≡◌, ◌+◌, ◌≤◌, ℕ, List, length};

    ghost SIZE: { ℕ };

    ghost extra_at: { List ℕ → ℕ → Self };

    /// Its size in bytes.
    const SIZE: u8;

    /// What stands at a place.
    fn read(bytes: &[u8], place: usize) -> Self
        requires { place + SIZE ≤ length bytes.now }
        ensures { result ≡ extra_at bytes.now place };
}

impl EntryRead for () {
    ghost SIZE = { 0 };

    ghost extra_at = { λ _ _. tt };

    const SIZE: u8 = 0;

    fn read(_bytes: &[u8], _place: usize) {}
}

impl EntryRead for u16 {
    ghost use Rattle.aat_bytes.specs.Numbers.{be16};

    ghost SIZE = { 2 };

    ghost extra_at = { be16 };

    const SIZE: u8 = 2;

    fn read(bytes: &[u8], place: usize) -> u16 {
        be16(bytes, place)
    }
}

impl EntryRead for ContextualEntryData {
    ghost use Rattle.aat_read_machine.specs.Entries.{contextual_at};

    ghost SIZE = { 4 };

    ghost extra_at = { contextual_at };

    const SIZE: u8 = 4;

    fn read(bytes: &[u8], place: usize) -> ContextualEntryData {
        ContextualEntryData {
            mark_index: be16(bytes, place),
            current_index: be16(bytes, place + 2),
        }
    }
}

impl EntryRead for InsertionEntryData {
    ghost use Rattle.aat_read_machine.specs.Entries.{insertion_at};

    ghost SIZE = { 4 };

    ghost extra_at = { insertion_at };

    const SIZE: u8 = 4;

    fn read(bytes: &[u8], place: usize) -> InsertionEntryData {
        InsertionEntryData {
            current_insert_index: be16(bytes, place),
            marked_insert_index: be16(bytes, place + 2),
        }
    }
}

impl EntryRead for EntryData {
    ghost use Rattle.aat_read_machine.specs.Entries.{action_at};

    ghost SIZE = { 2 };

    ghost extra_at = { action_at };

    const SIZE: u8 = 2;

    fn read(bytes: &[u8], place: usize) -> EntryData {
        EntryData {
            action_index: be16(bytes, place),
        }
    }
}
