//! Contextual glyph substitution to bytes.
ghost use Rattle.std.specs.Prelude.{◌≡◌, ◌*◌, ◌≤◌, ◌<◌, ◌^◌, length, false, IfOk, MatchResult, Ok};
ghost use Rattle.aat_read_machine.specs.Lookups.{lookups_to};
ghost use Rattle.aat_write_machine.specs.Contextual.{are_too_long, byte_lists, contextual_bytes, contextual_written, lookups_asked, lookups_named, substitutions_written};
ghost use Rattle.aat_write_machine.specs.MorxWriteErrors.{RefusesWithin, Writes};

use crate::error::MorxWriteError;
use crate::lists::machine_end;
use crate::machine::{class_table, machine_bytes};
use crate::tables::{append_substitutions, are_too_long, lookup_tables};
use aat_machine_tables::{ContextualEntryData, ContextualSubtable, GenericStateEntry};
use std::alloc::{AllocError, Global};

/// A rule of a contextual machine.
type ContextualRule = (u16, u16, GenericStateEntry<ContextualEntryData>);

/// How many lookups there are at least by an index.
fn lookups_to(index: u16) -> usize
    ensures to { result ≡ lookups_to index }
    ensures few { result ≤ 65535 }
{
    if index == 0xFFFF {
        0
    } else {
        index as usize + 1
    }
}

/// How many lookups there are at least by an entry.
fn lookups_named(rule: &ContextualRule) -> usize
    ensures named { result ≡ lookups_named rule.now }
    ensures few { result ≤ 65535 }
{
    let for_mark = lookups_to(rule.2.extra.mark_index);
    for_mark.max(lookups_to(rule.2.extra.current_index))
}

/// How many lookups the entries of rules ask for.
fn lookups_asked(rules: &[ContextualRule]) -> usize
    ensures { result ≡ lookups_asked rules.now }
{
    let mut most = 0;
    for rule in rules {
        most = most.max(lookups_named(rule));
    }
    most
}

/// The bytes of the lookups that the entries of a subtable's rules ask for.
fn substitutions(
    alloc: Global,
    subtable: &ContextualSubtable,
    rules: &[ContextualRule],
) -> Result<Vec<Vec<u8>>, MorxWriteError>
    requires { rules.now ≡ subtable.now.state.rules }
    ensures writes { let written = substitutions_written subtable.now in
        MatchResult result (λ tables. written ≡ Ok (byte_lists tables.items)) (RefusesWithin written) }
    ensures few { IfOk result (λ tables. length tables.items ≤ 2 * length subtable.now.state.rules) }
    ensures short { IfOk result (λ tables. are_too_long (byte_lists tables.items) ≡ false) }
{
    let asked = lookups_asked(rules);
    if asked != subtable.lookups.len() {
        return Err(MorxWriteError::LookupCount(asked));
    }
    if subtable.lookups.len() > 2 * rules.len() {
        return Err(MorxWriteError::TooManyLookups);
    }
    let tables = lookup_tables(alloc, &subtable.lookups)?;
    if are_too_long(&tables) {
        return Err(MorxWriteError::TooLong);
    }
    Ok(tables)
}

/// The bytes of a contextual subtable with those of its class table and of its lookups, and its rules.
fn contextual_bytes(
    alloc: Global,
    subtable: &ContextualSubtable,
    rules: &[ContextualRule],
    classes: &[u8],
    tables: &[Vec<u8>],
) -> Result<Vec<u8>, AllocError>
    requires short { length classes.now < 2 ^ 20 }
    requires rules { rules.now ≡ subtable.now.state.rules }
    requires few { length rules.now ≤ 65536 }
    requires lookups { length tables.now ≤ 131072 }
    requires room { are_too_long (byte_lists tables.now) ≡ false }
    ensures { IfOk result (λ out. out.items ≡ contextual_bytes classes.now (byte_lists tables.now) subtable.now) }
{
    let offset = machine_end(1, 4, classes, rules.len());
    let class_count = subtable.state.class_count();
    let mut out = machine_bytes(alloc, &[offset], class_count, classes, rules)?;
    append_substitutions(&mut out, tables)?;
    Ok(out)
}

/// Writes a subtable of contextual glyph substitution behind its header of 12 bytes: the machine, and the list of
/// lookups, each of format 6.
///
/// The number of lookups is not stored: the reader takes the least one that all entries fit. So a subtable is refused
/// that has another number of lookups, and one that has more than two for each rule, since it has an entry for each.
///
/// Refused in this order: 1 to 7 as by `write_machine`; 8, `LookupCount`, with the number that the entries ask for; 9,
/// `TooManyLookups`; 6, `NotRising`, and 7, `TooManyPairs`, for the first lookup that is refused; 10, `TooLong`,
/// lookups of more than 268,435,455 bytes. 11, `OutOfMemory`, may come before any of these is met.
///
/// The reader reads the subtable again, at any place of a table. Apple's TrueType Reference Manual, "The 'morx' table",
/// contextual glyph substitution.
pub fn write_contextual(
    alloc: Global,
    subtable: &ContextualSubtable,
) -> Result<Vec<u8>, MorxWriteError>
    ensures { Writes result (contextual_written subtable.now) }
{
    let rules = subtable.state.to_rules(alloc)?;
    let classes = class_table(alloc, &subtable.state, &rules)?;
    let tables = match substitutions(alloc, subtable, &rules) {
        Ok(tables) => tables,
        Err(error) => return Err(error),
    };
    Ok(contextual_bytes(alloc, subtable, &rules, &classes, &tables)?)
}
