//! Whether entries are the same.
ghost use Rattle.std.specs.Prelude.{◌≡◌, ◌≢◌, true, false};

use aat_machine_tables::{
    Acting, ContextualEntryData, EntryData, GenericStateEntry, InsertionEntryData, KernEntryData,
};

/// What the entries of a kind of machine hold beside a state and flags, and whether two of them hold the same.
pub trait Same: Acting {
    ghost use Rattle.std.specs.Prelude.{◌≡◌, ◌≢◌, true, false};

    /// Whether it is the same.
    fn is_same(&self, other: &Self) -> bool
        ensures same { result ≡ true → self.now ≡ other.now }
        ensures other { result ≡ false → self.now ≢ other.now };
}

impl Same for () {
    fn is_same(&self, _other: &()) -> bool {
        true
    }
}

impl Same for u16 {
    fn is_same(&self, other: &u16) -> bool {
        *self == *other
    }
}

impl Same for ContextualEntryData {
    fn is_same(&self, other: &ContextualEntryData) -> bool {
        self.mark_index == other.mark_index && self.current_index == other.current_index
    }
}

impl Same for InsertionEntryData {
    fn is_same(&self, other: &InsertionEntryData) -> bool {
        self.current_insert_index == other.current_insert_index
            && self.marked_insert_index == other.marked_insert_index
    }
}

impl Same for EntryData {
    fn is_same(&self, other: &EntryData) -> bool {
        self.action_index == other.action_index
    }
}

impl Same for KernEntryData {
    fn is_same(&self, other: &KernEntryData) -> bool {
        self.value_index == other.value_index
    }
}

/// Whether two entries are the same.
pub(crate) fn is_same_entry<T: Same>(
    entry: &GenericStateEntry<T>,
    other: &GenericStateEntry<T>,
) -> bool
    ensures same { result ≡ true → entry.now ≡ other.now }
    ensures other { result ≡ false → entry.now ≢ other.now }
{
    if entry.new_state != other.new_state || entry.flags != other.flags {
        return false;
    }
    entry.extra.is_same(&other.extra)
}
