//! HarfBuzz's test whether the line gets a mark before a glyph, of who answers what it asks.
ghost use Rattle.std.specs.Prelude.{◌≡◌, ◌==◌, ◌&&◌, ◌||◌, not};
ghost use Rattle.aat_lookup.specs.Truth.{is_some_and};
ghost use Rattle.aat_machine_tables.specs.Judged.{does_alike, is_safe_turn, state_of};

use crate::entry_bits::class::END_OF_TEXT;
use crate::entry_bits::state::START_OF_TEXT;
use crate::state_table::GenericStateEntry;

/// What the test asks: of an entry whether it acts and whether the machine goes on behind it, and which entry a state
/// and a class have.
pub trait Turns<T: Copy> {
    ghost use Rattle.std.specs.Prelude.{◌≡◌, ℕ, Bool, Option};
    ghost use Rattle.aat_machine_tables.specs.declared.state_table.GenericStateEntry.{GenericStateEntry};

    /// What `acts` answers of an entry.
    ghost acting: { Self → GenericStateEntry T → Bool };

    /// What `advances` answers of an entry.
    ghost advancing: { Self → GenericStateEntry T → Bool };

    /// What `entry` answers of a state and a class.
    ghost entry_at: { Self → ℕ → ℕ → Option (GenericStateEntry T) };

    /// Whether an entry acts.
    fn acts(&self, entry: &GenericStateEntry<T>) -> bool
        ensures { result ≡ acting self.now entry.now };

    /// Whether the machine goes on to the next glyph behind an entry.
    fn advances(&self, entry: &GenericStateEntry<T>) -> bool
        ensures { result ≡ advancing self.now entry.now };

    /// The entry of a state and a class.
    fn entry(&self, state: u16, class: u16) -> Option<GenericStateEntry<T>>
        ensures { result ≡ entry_at self.now state class };
}

/// Whether the line gets no mark before a glyph of a class, where a state has an entry for it: the three conditions of
/// HarfBuzz, which numbers them so.
pub fn is_safe_turn<T: Copy, Q: Turns<T>>(
    turns: &Q,
    state: u16,
    class: u16,
    entry: &GenericStateEntry<T>,
) -> bool
    ensures { result ≡ is_safe_turn (Q.acting turns.now) (Q.advancing turns.now) state_of state entry.now
        (Q.entry_at turns.now 0 class) (Q.entry_at turns.now state 0) }
{
    // 2: a part of the text that begins at the glyph is led as the run is, whatever the registers hold. It is asked
    // first, since most turns that are not safe fail here
    if !restarts_alike(turns, state, class, entry) {
        return false;
    }
    // 1: the entry does not act, since an act may use what was marked before the glyph
    if turns.acts(entry) {
        return false;
    }
    // 3: the state has an entry for the end of the text, which does not act
    match turns.entry(state, END_OF_TEXT) {
        Some(end) => !turns.acts(&end),
        None => false,
    }
}

/// Whether the state for the start of the text leads on as an entry of a state does: condition 2, of which one part is
/// enough. What a part that begins there would find in its registers is not looked at.
fn restarts_alike<T: Copy, Q: Turns<T>>(
    turns: &Q,
    state: u16,
    class: u16,
    entry: &GenericStateEntry<T>,
) -> bool
    ensures { result ≡ (state == 0) || ((not (Q.advancing turns.now entry.now) && (entry.now.new_state == 0))
        || is_some_and (Q.entry_at turns.now 0 class)
        (does_alike (Q.acting turns.now) (Q.advancing turns.now) state_of entry.now)) }
{
    // 2a: the run is in that state already
    if state == START_OF_TEXT {
        return true;
    }
    // 2b: the entry stays and goes to that state, from which the glyph is looked at again while the budget lasts
    if entry.new_state == START_OF_TEXT && !turns.advances(entry) {
        return true;
    }
    // 2c: in that state the class has an entry that does not act, and leads on as this one does
    match turns.entry(START_OF_TEXT, class) {
        Some(other) => is_alike(turns, entry, &other),
        None => false,
    }
}

/// Whether another entry does not act, goes to the state of an entry, and advances as it does.
fn is_alike<T: Copy, Q: Turns<T>>(
    turns: &Q,
    entry: &GenericStateEntry<T>,
    other: &GenericStateEntry<T>,
) -> bool
    ensures { result ≡ does_alike (Q.acting turns.now) (Q.advancing turns.now) state_of entry.now other.now }
{
    // the state first, by which most entries differ
    other.new_state == entry.new_state
        && !turns.acts(other)
        && turns.advances(other) == turns.advances(entry)
}
