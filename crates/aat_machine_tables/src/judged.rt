//! Whether the line gets a mark before a glyph, by HarfBuzz's test, where entries act whatever the registers hold.
ghost use Rattle.std.specs.Prelude.{◌≡◌, ◌+◌, ◌*◌, ◌==◌, ◌&&◌, ◌||◌, not, option_copied, IsTrue};
ghost use Rattle.aat_lookup.specs.Truth.{is_some_and};
ghost use Rattle.aat_machine_tables.specs.Entries.{goes_on};
ghost use Rattle.aat_machine_tables.specs.Judged.{entry_in, is_judged_safe, leads_as};
ghost use Rattle.aat_lookup.specs.Keys.{IsRising, at_key};
ghost use Rattle.aat_machine_tables.specs.Table.{rule_key};
ghost use Rattle.aat_machine_tables.specs.inside.Grid.{judged_rule, ruled_entry};

use crate::entries::{ContextualEntryData, EntryData, InsertionEntryData, KernEntryData};
use crate::entry_bits::class::END_OF_TEXT;
use crate::entry_bits::state::START_OF_TEXT;
use crate::entry_bits::{NO_INDEX, insertion, ligature, rearrangement};
use crate::state_table::{GenericStateEntry, rule_key};
use aat_lookup::keys::row_in;

/// What the entries of a kind of machine hold beside a state and flags, and whether one of them may act: `()` is of
/// rearrangement, and `u16` of ligatures. Each answer is right of a context whose `acts_by_entries` is false.
pub trait Acting: Copy {
    ghost use Rattle.std.specs.Prelude.{◌≡◌, Bool};
    ghost use Rattle.aat_machine_tables.specs.declared.state_table.GenericStateEntry.{GenericStateEntry};

    /// What `acts` answers of an entry.
    ghost may_act: { GenericStateEntry Self → Bool };

    /// Whether an entry may act, by itself: what the registers of a machine hold is not asked.
    fn acts(entry: &GenericStateEntry<Self>) -> bool
        ensures { result ≡ may_act entry.now };
}

impl Acting for () {
    ghost use Rattle.aat_machine_tables.specs.Judged.{rearrangement_acts};

    ghost may_act = { rearrangement_acts };

    fn acts(entry: &GenericStateEntry<()>) -> bool {
        entry.flags & rearrangement::VERB != 0
    }
}

impl Acting for ContextualEntryData {
    ghost use Rattle.aat_machine_tables.specs.Judged.{contextual_acts};

    ghost may_act = { contextual_acts };

    fn acts(entry: &GenericStateEntry<ContextualEntryData>) -> bool {
        entry.extra.mark_index != NO_INDEX || entry.extra.current_index != NO_INDEX
    }
}

impl Acting for u16 {
    ghost use Rattle.aat_machine_tables.specs.Judged.{ligature_acts};

    ghost may_act = { ligature_acts };

    fn acts(entry: &GenericStateEntry<u16>) -> bool {
        entry.flags & ligature::PERFORM_ACTION != 0
    }
}

impl Acting for InsertionEntryData {
    ghost use Rattle.aat_machine_tables.specs.Judged.{insertion_acts};

    ghost may_act = { insertion_acts };

    fn acts(entry: &GenericStateEntry<InsertionEntryData>) -> bool {
        let has_glyphs = entry.extra.current_insert_index != NO_INDEX
            || entry.extra.marked_insert_index != NO_INDEX;
        entry.flags & (insertion::CURRENT_INSERT_COUNT | insertion::MARKED_INSERT_COUNT) != 0
            && has_glyphs
    }
}

impl Acting for EntryData {
    ghost use Rattle.aat_machine_tables.specs.Judged.{kerx_acts};

    ghost may_act = { kerx_acts };

    fn acts(entry: &GenericStateEntry<EntryData>) -> bool {
        entry.extra.action_index != NO_INDEX
    }
}

impl Acting for KernEntryData {
    ghost use Rattle.aat_machine_tables.specs.Judged.{kern_acts};

    ghost may_act = { kern_acts };

    fn acts(entry: &GenericStateEntry<KernEntryData>) -> bool {
        entry.extra.value_index != NO_INDEX
    }
}

/// What a table has for a state and a class: an entry or none, and whether the line gets a mark before a glyph where
/// the entry is taken, by HarfBuzz's test, where entries act whatever the registers hold.
#[derive(Clone, Copy, PartialEq, Eq, Debug)]
pub enum JudgedEntry<T: Copy> {
    /// No entry.
    Missing,
    /// An entry that passes the test, so that the line gets no mark.
    Safe(GenericStateEntry<T>),
    /// An entry that does not.
    Unsafe(GenericStateEntry<T>),
}

impl<T: Copy> JudgedEntry<T> {
    /// The entry, if there is one.
    pub fn entry(&self) -> Option<GenericStateEntry<T>>
        ensures { result ≡ entry_in self.now }
    {
        match self {
            JudgedEntry::Missing => None,
            // in one arm, since no processor foresees which of them it is
            JudgedEntry::Safe(entry) | JudgedEntry::Unsafe(entry) => Some(*entry),
        }
    }

    /// Whether there is an entry that passes the test.
    pub fn is_safe(&self) -> bool
        ensures { result ≡ is_judged_safe self.now }
    {
        match self {
            JudgedEntry::Safe(_) => true,
            _ => false,
        }
    }
}

/// The entry that rising rules of so many classes have for a state and a class, judged. What it is held against is
/// looked for only where it can decide. The test is that of `is_safe_turn`, with nothing asked through a trait: there
/// each entry would be copied.
#[tactic(auto, unfolding(crate::specs::Judged::is_safe_by))]
fn judged_rule<T: Acting>(
    rules: &[(u16, u16, GenericStateEntry<T>)],
    class_count: u16,
    state: u16,
    class: u16,
) -> JudgedEntry<T>
    requires { IsRising rule_key rules.now }
    ensures { result ≡ judged_rule T.may_act rules.now state class }
{
    let Some(rule) = ruled(rules, class_count, state, class) else {
        return JudgedEntry::Missing;
    };
    let entry = rule.2;
    if is_safe_beside(rules, state, class, &entry) && rests_at_end(rules, class_count, state) {
        return JudgedEntry::Safe(entry);
    }
    JudgedEntry::Unsafe(entry)
}

/// The same, for who asks for each class of a state: whether the state rests at the end of the text is handed in.
///
/// It is inlined, since a call for each cell of a grid takes longer than to judge most of them.
#[inline(always)]
#[tactic(auto, unfolding(crate::specs::Judged::is_safe_by))]
pub(crate) fn judged_in_row<T: Acting>(
    rules: &[(u16, u16, GenericStateEntry<T>)],
    class_count: u16,
    state: u16,
    class: u16,
    rests: bool,
) -> JudgedEntry<T>
    requires rising { IsRising rule_key rules.now }
    requires rests { rests ≡ is_some_and (ruled_entry rules.now state 0) (λ f. not (T.may_act f)) }
    ensures { result ≡ judged_rule T.may_act rules.now state class }
{
    let Some(rule) = ruled(rules, class_count, state, class) else {
        return JudgedEntry::Missing;
    };
    let entry = rule.2;
    if rests && is_safe_beside(rules, state, class, &entry) {
        return JudgedEntry::Safe(entry);
    }
    JudgedEntry::Unsafe(entry)
}

/// Whether an entry of a state does not act, and state 0 leads on as it does: conditions 1 and 2 of HarfBuzz's test.
#[inline(always)]
fn is_safe_beside<T: Acting>(
    rules: &[(u16, u16, GenericStateEntry<T>)],
    state: u16,
    class: u16,
    entry: &GenericStateEntry<T>,
) -> bool
    requires { IsRising rule_key rules.now }
    ensures { result ≡ not (T.may_act entry.now) && ((state == 0)
        || ((not (goes_on entry.now) && (entry.now.new_state == 0))
        || is_some_and (ruled_entry rules.now 0 class) (leads_as T.may_act entry.now))) }
{
    !T::acts(entry) && restarts_alike(rules, state, class, entry)
}

/// Whether state 0 leads on as an entry of a state does that does not act: condition 2 of HarfBuzz's test.
#[inline(always)]
fn restarts_alike<T: Acting>(
    rules: &[(u16, u16, GenericStateEntry<T>)],
    state: u16,
    class: u16,
    entry: &GenericStateEntry<T>,
) -> bool
    requires { IsRising rule_key rules.now }
    ensures { result ≡ (state == 0) || ((not (goes_on entry.now) && (entry.now.new_state == 0))
        || is_some_and (ruled_entry rules.now 0 class) (leads_as T.may_act entry.now)) }
{
    if state == START_OF_TEXT || (entry.new_state == START_OF_TEXT && !entry.has_advance()) {
        return true;
    }
    match ruled(rules, 0, START_OF_TEXT, class) {
        Some(rule) => {
            rule.2.new_state == entry.new_state
                && !T::acts(&rule.2)
                && rule.2.has_advance() == entry.has_advance()
        }
        None => false,
    }
}

/// Whether a state has an entry for the end of the text, which does not act: condition 3.
pub(crate) fn rests_at_end<T: Acting>(
    rules: &[(u16, u16, GenericStateEntry<T>)],
    class_count: u16,
    state: u16,
) -> bool
    requires { IsRising rule_key rules.now }
    ensures { result ≡ is_some_and (ruled_entry rules.now state 0) (λ f. not (T.may_act f)) }
{
    match ruled(rules, class_count, state, END_OF_TEXT) {
        Some(rule) => !T::acts(&rule.2),
        None => false,
    }
}

/// The rule that rising rules have for a state and a class, where it stands. Where they are one for each of so many
/// classes of each state, as those of a font's bytes, it stands at a known place, and else it is found by bisection.
#[inline(always)]
fn ruled<T: Copy>(
    rules: &[(u16, u16, GenericStateEntry<T>)],
    class_count: u16,
    state: u16,
    class: u16,
) -> Option<&(u16, u16, GenericStateEntry<T>)>
    requires { IsRising rule_key rules.now }
    ensures { option_copied result ≡ at_key rule_key rules.now (state * 65536 + class) }
{
    let place = state as usize * class_count as usize + class as usize;
    if place < rules.len() {
        let rule = &rules[place];
        if is_of(rule, state, class) {
            return Some(rule);
        }
    }
    searched(rules, rule_key(state, class))
}

/// Whether a rule is that of a state and a class.
#[inline(always)]
fn is_of<T: Copy>(rule: &(u16, u16, GenericStateEntry<T>), state: u16, class: u16) -> bool
    ensures { IsTrue result → rule_key rule.now ≡ state * 65536 + class }
{
    rule.0 == state && rule.1 == class
}

/// The rule that has a number, where it stands, if there is one, found by bisection. It stands apart, so that what is
/// found at its place stays short.
#[inline(never)]
fn searched<T: Copy>(
    rules: &[(u16, u16, GenericStateEntry<T>)],
    key: u32,
) -> Option<&(u16, u16, GenericStateEntry<T>)>
    requires { IsRising rule_key rules.now }
    ensures { option_copied result ≡ at_key rule_key rules.now key }
{
    row_in(rules, key)
}

/// The entry that rising rules have for a state and a class, judged, for who asks for one. It stands apart, so that what
/// is found in a grid stays short.
#[inline(never)]
pub(crate) fn judged_among<T: Acting>(
    rules: &[(u16, u16, GenericStateEntry<T>)],
    class_count: u16,
    state: u16,
    class: u16,
) -> JudgedEntry<T>
    requires { IsRising rule_key rules.now }
    ensures { result ≡ judged_rule T.may_act rules.now state class }
{
    judged_rule(rules, class_count, state, class)
}

/// The entry that rising rules have for a state and a class. It stands apart, so that what is found in a grid stays
/// short.
#[inline(never)]
pub(crate) fn ruled_entry<T: Copy>(
    rules: &[(u16, u16, GenericStateEntry<T>)],
    class_count: u16,
    state: u16,
    class: u16,
) -> Option<GenericStateEntry<T>>
    requires { IsRising rule_key rules.now }
    ensures { result ≡ ruled_entry rules.now state class }
{
    match ruled(rules, class_count, state, class) {
        Some(rule) => Some(rule.2),
        None => None,
    }
}
