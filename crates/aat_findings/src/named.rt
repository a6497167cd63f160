//! The lookups that no entry of a contextual machine uses.
ghost use Rattle.std.specs.Prelude.{◌≡◌, ◌<◌, ℕ, true, length, IfOk};
ghost use Rattle.std.specs.List.{list_any};
ghost use Rattle.aat_findings.specs.Named.{IsUnnamed, is_of_place, is_unnamed, is_use, names_lookup};
ghost use Rattle.aat_findings.specs.Reached.{AreExactly};

use crate::chains::push_place;
use crate::reached::reach_marks;
use aat_machine_tables::entry_bits::NO_INDEX;
use aat_machine_tables::{ContextualEntryData, ExtendedStateTable, GenericStateEntry};
use std::alloc::{AllocError, Global};

/// Whether an index names the lookup at a place.
fn is_of_place(place: usize, index: u16) -> bool
    ensures { result ≡ is_of_place place index }
{
    index != NO_INDEX && index as usize == place
}

/// Whether an entry names the lookup at a place, for the marked glyph or for the current one.
fn names_lookup(place: usize, entry: &GenericStateEntry<ContextualEntryData>) -> bool
    ensures { result ≡ names_lookup place entry.now }
{
    is_of_place(place, entry.extra.mark_index) || is_of_place(place, entry.extra.current_index)
}

/// Whether a rule is one of a marked state, and names the lookup at a place.
fn is_use(
    marks: &[u8],
    rule: &(u16, u16, GenericStateEntry<ContextualEntryData>),
    place: usize,
) -> bool
    requires { length marks.now ≡ 65536 }
    ensures { result ≡ is_use marks.now place rule.now }
{
    marks[rule.0 as usize] > 0 && names_lookup(place, &rule.2)
}

/// Whether a rule of a marked state names the lookup at a place.
fn is_named(
    marks: &[u8],
    rules: &[(u16, u16, GenericStateEntry<ContextualEntryData>)],
    place: usize,
) -> bool
    requires { length marks.now ≡ 65536 }
    ensures { result ≡ list_any (is_use marks.now place) rules.now }
{
    rules.iter().any(|rule| is_use(marks, rule, place))
}

/// Whether none does.
fn is_unnamed(
    marks: &[u8],
    rules: &[(u16, u16, GenericStateEntry<ContextualEntryData>)],
    place: usize,
) -> bool
    requires { length marks.now ≡ 65536 }
    ensures { result ≡ is_unnamed marks.now rules.now place }
{
    !is_named(marks, rules, place)
}

/// The places, of so many, of lookups that no rule of a marked state names, rising.
fn unnamed_in(
    alloc: Global,
    marks: &[u8],
    rules: &[(u16, u16, GenericStateEntry<ContextualEntryData>)],
    count: usize,
) -> Result<Vec<usize>, AllocError>
    requires { length marks.now ≡ 65536 }
    ensures { IfOk result (λ places. AreExactly (λ i. (i < count)
        × (is_unnamed marks.now rules.now i ≡ true)) places.items) }
{
    let mut places = Vec::new(alloc);
    for place in 0..count {
        let unnamed = is_unnamed(marks, rules, place);
        push_place(&mut places, place, unnamed)?;
    }
    Ok(places)
}

/// The places, of so many, of the lookups of a contextual machine that nothing uses, rising: no entry of a state that
/// some line reaches names them, for the marked glyph or for the current one. Fails where memory is wanting.
///
/// Apple's TrueType Reference Manual, "The 'morx' table", contextual glyph substitution.
pub fn unnamed_lookups(
    alloc: Global,
    table: &ExtendedStateTable<ContextualEntryData>,
    lookup_count: usize,
) -> Result<Vec<usize>, AllocError>
    ensures { IfOk result (λ places. AreExactly (IsUnnamed table.now lookup_count) places.items) }
{
    let marks = reach_marks(alloc, table)?;
    let of_marks = marks.as_slice();
    let rules = table.to_rules(alloc)?;
    let places = unnamed_in(alloc, of_marks, &rules, lookup_count)?;
    Ok(places)
}
