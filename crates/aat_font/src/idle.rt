//! Glyphs over which the machine of a subtable does nothing while it is in state 0.
ghost use Rattle.std.specs.Prelude.{◌≡◌, ◌<◌, ℕ};
ghost use Rattle.aat_font.specs.Idle.{contextual_rests, insertion_rests, is_idle_at_end, is_idle_class, ligature_rests, passes, rearrangement_rests};
ghost use Rattle.aat_machine_tables.specs.Table.{entry_of};

use aat_machine_tables::entry_bits::class::END_OF_TEXT;
use aat_machine_tables::entry_bits::state::START_OF_TEXT;
use aat_machine_tables::entry_bits::{NO_INDEX, contextual, insertion, ligature, rearrangement};
use aat_machine_tables::{
    Acting, ContextualEntryData, ExtendedStateTable, GenericStateEntry, InsertionEntryData,
};

/// What the entries of a kind of machine hold, which tells whether one of them ever acts.
pub(crate) trait Resting: Acting {
    ghost use Rattle.std.specs.Prelude.{◌≡◌, Bool};
    ghost use Rattle.aat_machine_tables.specs.declared.state_table.GenericStateEntry.{GenericStateEntry};

    ghost rests: { GenericStateEntry Self → Bool };

    /// Whether an entry never acts and sets nothing, whatever the registers hold.
    fn rests(entry: &GenericStateEntry<Self>) -> bool
        ensures { result ≡ rests entry.now };
}

impl Resting for () {
    ghost use Rattle.aat_font.specs.Idle.{rearrangement_rests};

    ghost rests = { rearrangement_rests };

    fn rests(entry: &GenericStateEntry<()>) -> bool {
        rearrangement_entry_rests(entry)
    }
}

impl Resting for ContextualEntryData {
    ghost use Rattle.aat_font.specs.Idle.{contextual_rests};

    ghost rests = { contextual_rests };

    fn rests(entry: &GenericStateEntry<ContextualEntryData>) -> bool {
        contextual_entry_rests(entry)
    }
}

impl Resting for u16 {
    ghost use Rattle.aat_font.specs.Idle.{ligature_rests};

    ghost rests = { ligature_rests };

    fn rests(entry: &GenericStateEntry<u16>) -> bool {
        ligature_entry_rests(entry)
    }
}

impl Resting for InsertionEntryData {
    ghost use Rattle.aat_font.specs.Idle.{insertion_rests};

    ghost rests = { insertion_rests };

    fn rests(entry: &GenericStateEntry<InsertionEntryData>) -> bool {
        insertion_entry_rests(entry)
    }
}

/// Whether an entry of rearrangement never acts: it has no verb, and sets neither end of the span.
pub fn rearrangement_entry_rests(entry: &GenericStateEntry<()>) -> bool
    ensures { result ≡ rearrangement_rests entry.now }
{
    entry.flags & rearrangement::MARK_FIRST == 0
        && entry.flags & rearrangement::MARK_LAST == 0
        && entry.flags & rearrangement::VERB == 0
}

/// Whether a contextual entry never acts: it names no lookup, and sets no mark.
pub fn contextual_entry_rests(entry: &GenericStateEntry<ContextualEntryData>) -> bool
    ensures { result ≡ contextual_rests entry.now }
{
    entry.flags & contextual::SET_MARK == 0
        && entry.extra.mark_index == NO_INDEX
        && entry.extra.current_index == NO_INDEX
}

/// Whether an entry of ligatures never acts: it holds no component, and takes none in.
pub fn ligature_entry_rests(entry: &GenericStateEntry<u16>) -> bool
    ensures { result ≡ ligature_rests entry.now }
{
    entry.flags & ligature::SET_COMPONENT == 0 && entry.flags & ligature::PERFORM_ACTION == 0
}

/// Whether an entry of insertion never acts: it names no glyphs, and sets no mark.
pub fn insertion_entry_rests(entry: &GenericStateEntry<InsertionEntryData>) -> bool
    ensures { result ≡ insertion_rests entry.now }
{
    entry.flags & insertion::SET_MARK == 0
        && entry.extra.current_insert_index == NO_INDEX
        && entry.extra.marked_insert_index == NO_INDEX
}

/// Whether an entry leads over its glyph to state 0, and never acts.
fn does_pass<T: Resting>(entry: &GenericStateEntry<T>) -> bool
    ensures { result ≡ passes T.rests entry.now }
{
    entry.new_state == START_OF_TEXT && entry.has_advance() && T::rests(entry)
}

/// Whether state 0 has an entry for a class that leads over the glyph to state 0, and never acts.
pub(crate) fn is_idle_class<T: Resting>(table: &ExtendedStateTable<T>, class: u16) -> bool
    ensures { result ≡ is_idle_class T.rests table.now class }
{
    match table.entry(START_OF_TEXT, class) {
        Some(entry) => does_pass(&entry),
        None => false,
    }
}

/// Whether state 0 has an entry for the end of the text, which never acts.
pub(crate) fn is_idle_at_end<T: Resting>(table: &ExtendedStateTable<T>) -> bool
    ensures { result ≡ is_idle_at_end T.rests table.now }
{
    match table.entry(START_OF_TEXT, END_OF_TEXT) {
        Some(entry) => T::rests(&entry),
        None => false,
    }
}
