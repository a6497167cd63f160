//! Insertions that grow without end, or put the deleted glyph in.
ghost use Rattle.std.specs.Prelude.{◌≡◌, ◌/◌, IfOk, bit_and, filter, length};
ghost use Rattle.aat_findings.specs.Growth.{IsInserting, at_cursor, at_mark, class_behind, go_in, has_deleted, is_cell, is_inserting, leads_to, puts_deleted, run_at, stays_at, taken_as};
ghost use Rattle.aat_findings.specs.Reached.{ArePicked};
ghost use Rattle.aat_findings.specs.inside.Growing.{is_told};

use crate::glyphs::DELETED_GLYPH;
use crate::reached::reach_marks;
use aat_lookup::GlyphId;
use aat_machine_tables::entry_bits::NO_INDEX;
use aat_machine_tables::entry_bits::class::{END_OF_TEXT, OUT_OF_BOUNDS};
use aat_machine_tables::entry_bits::insertion::{
    CURRENT_INSERT_BEFORE, CURRENT_INSERT_COUNT, MARKED_INSERT_BEFORE, MARKED_INSERT_COUNT,
};
use aat_machine_tables::{Acting, ExtendedStateTable, GenericStateEntry, InsertionEntryData};
use std::alloc::{AllocError, Global};

/// How many entries that stay at a glyph are followed.
const MOST_TURNS: usize = 64;

/// For what an entry of insertion is told.
#[derive(Clone, Copy)]
pub enum InsertionKind {
    /// It puts glyphs in at the glyph or at the mark, and at most 64 entries that do not advance lead back to the state and
    /// the class. The glyph there is the first of those that went in before the one where the machine was, or that one. So a machine that comes there uses up its budget, or makes the line too long.
    /// Entries that put glyphs in behind the mark are not followed, since that may be at the glyph, and none is followed
    /// over what went in. Class 0 is not asked: a run may end there.
    Grows,
    /// It puts the deleted glyph in, 0xFFFF.
    PutsDeleted,
}

/// The class as which a machine takes a glyph: 1, out of bounds, where it has none below the number of classes.
///
/// Apple's TrueType Reference Manual, "Font Tables", section on state tables.
pub fn taken_as<T: Acting>(table: &ExtendedStateTable<T>, glyph: GlyphId) -> u16
    ensures { result ≡ taken_as table.now glyph.0 }
{
    let known = table.class_or_out_of_bounds(glyph);
    if known < table.class_count() {
        known
    } else {
        OUT_OF_BOUNDS
    }
}

/// The run that an entry names at the glyph where the machine is: the index of its first glyph, 0xFFFF for none, and its
/// length.
///
/// Apple's TrueType Reference Manual, "The 'morx' table", glyph insertion.
pub fn current_run(entry: &GenericStateEntry<InsertionEntryData>) -> (u16, u16)
    ensures { result ≡ (entry.now.extra.current_insert_index, bit_and entry.now.flags 0x03E0 / 32) }
{
    let count = (entry.flags & CURRENT_INSERT_COUNT) / 32;
    (entry.extra.current_insert_index, count)
}

/// The run that an entry names at the mark: the index of its first glyph, 0xFFFF for none, and its length.
///
/// Apple's TrueType Reference Manual, "The 'morx' table", glyph insertion.
pub fn marked_run(entry: &GenericStateEntry<InsertionEntryData>) -> (u16, u16)
    ensures { result ≡ (entry.now.extra.marked_insert_index, bit_and entry.now.flags 0x001F) }
{
    let count = entry.flags & MARKED_INSERT_COUNT;
    (entry.extra.marked_insert_index, count)
}

/// Whether so many glyphs of a list go in, from an index on.
fn go_in(glyphs: &[GlyphId], index: u16, count: u16) -> bool
    ensures { result ≡ go_in glyphs.now index count }
{
    index != NO_INDEX && count > 0 && index as usize + count as usize <= glyphs.len()
}

/// Whether an entry puts glyphs in at the glyph where the machine is.
fn at_cursor(glyphs: &[GlyphId], entry: &GenericStateEntry<InsertionEntryData>) -> bool
    ensures { result ≡ at_cursor glyphs.now entry.now }
{
    let (index, count) = current_run(entry);
    go_in(glyphs, index, count)
}

/// Whether an entry puts glyphs in at the mark.
fn at_mark(glyphs: &[GlyphId], entry: &GenericStateEntry<InsertionEntryData>) -> bool
    ensures { result ≡ at_mark glyphs.now entry.now }
{
    let (index, count) = marked_run(entry);
    go_in(glyphs, index, count)
}

/// Whether an entry stays, and puts no glyphs in behind the mark.
fn stays_at(glyphs: &[GlyphId], entry: &GenericStateEntry<InsertionEntryData>) -> bool
    ensures { result ≡ stays_at glyphs.now entry.now }
{
    !entry.has_advance() && (entry.flags & MARKED_INSERT_BEFORE != 0 || !at_mark(glyphs, entry))
}

/// The class of the glyph where the machine is behind an entry that stays at one of a class.
fn class_behind(
    table: &ExtendedStateTable<InsertionEntryData>,
    glyphs: &[GlyphId],
    entry: &GenericStateEntry<InsertionEntryData>,
    class: u16,
) -> u16
    ensures { result ≡ class_behind table.now glyphs.now entry.now class }
{
    if entry.flags & CURRENT_INSERT_BEFORE == 0 || !at_cursor(glyphs, entry) {
        return class;
    }
    match glyphs.get(entry.extra.current_insert_index as usize) {
        Some(first) => taken_as(table, *first),
        None => class,
    }
}

/// Whether a state and a class are those of a pair.
fn is_cell(cell: (u16, u16), state: u16, class: u16) -> bool
    ensures { result ≡ is_cell cell state class }
{
    state == cell.0 && class == cell.1
}

/// Whether entries that stay lead from a state and a class back to them.
fn comes_back(
    table: &ExtendedStateTable<InsertionEntryData>,
    glyphs: &[GlyphId],
    start: (u16, u16),
) -> bool
    ensures { result ≡ leads_to table.now glyphs.now start 64 start }
{
    let (mut state, mut class) = start;
    for _turn in 0..MOST_TURNS {
        let Some(entry) = table.entry(state, class) else {
            return false;
        };
        if !stays_at(glyphs, &entry) {
            return false;
        }
        class = class_behind(table, glyphs, &entry, class);
        state = entry.new_state;
        if is_cell(start, state, class) {
            return true;
        }
    }
    false
}

/// So many glyphs of a list from an index on: none, where there is no index, or the list does not have them all.
fn run_at(glyphs: &[GlyphId], index: u16, count: u16) -> &[GlyphId]
    ensures { result.now ≡ run_at glyphs.now index count }
{
    let start = index as usize;
    let end = start + count as usize;
    if index != NO_INDEX && end <= glyphs.len() {
        &glyphs[start..end]
    } else {
        &[]
    }
}

/// Whether glyphs have the deleted one.
fn has_deleted(run: &[GlyphId]) -> bool
    ensures { result ≡ has_deleted run.now }
{
    run.iter().any(|glyph| glyph.0 == DELETED_GLYPH)
}

/// Whether an entry puts the deleted glyph in.
fn puts_deleted(glyphs: &[GlyphId], entry: &GenericStateEntry<InsertionEntryData>) -> bool
    ensures { result ≡ puts_deleted glyphs.now entry.now }
{
    let (current, marked) = (current_run(entry), marked_run(entry));
    has_deleted(run_at(glyphs, current.0, current.1))
        || has_deleted(run_at(glyphs, marked.0, marked.1))
}

/// Whether a rule is of a kind.
fn is_inserting(
    table: &ExtendedStateTable<InsertionEntryData>,
    glyphs: &[GlyphId],
    kind: InsertionKind,
    rule: &(u16, u16, GenericStateEntry<InsertionEntryData>),
) -> bool
    ensures { result ≡ is_inserting table.now glyphs.now kind rule.now }
{
    match kind {
        InsertionKind::Grows => {
            rule.1 != END_OF_TEXT
                && (at_cursor(glyphs, &rule.2) || at_mark(glyphs, &rule.2))
                && comes_back(table, glyphs, (rule.0, rule.1))
        }
        InsertionKind::PutsDeleted => puts_deleted(glyphs, &rule.2),
    }
}

/// The rules of marked states that are of a kind.
fn inserting_in(
    alloc: Global,
    table: &ExtendedStateTable<InsertionEntryData>,
    glyphs: &[GlyphId],
    marks: &[u8],
    kind: InsertionKind,
    rules: &[(u16, u16, GenericStateEntry<InsertionEntryData>)],
) -> Result<Vec<(u16, u16, GenericStateEntry<InsertionEntryData>)>, AllocError>
    requires { length marks.now ≡ 65536 }
    ensures { IfOk result (λ found. found.items ≡ filter (is_told table.now glyphs.now marks.now kind) rules.now) }
{
    rules
        .iter()
        .filter(|rule| marks[rule.0 as usize] > 0 && is_inserting(table, glyphs, kind, *rule))
        .copied()
        .collect(alloc)
}

/// The rules, in their order, of states that some line reaches, that are of a kind, in a machine of insertion with a list
/// of glyphs. Fails where memory is wanting.
///
/// Apple's TrueType Reference Manual, "The 'morx' table", glyph insertion.
pub fn inserting_entries(
    alloc: Global,
    table: &ExtendedStateTable<InsertionEntryData>,
    glyphs: &[GlyphId],
    kind: InsertionKind,
) -> Result<Vec<(u16, u16, GenericStateEntry<InsertionEntryData>)>, AllocError>
    ensures { IfOk result (λ rules. ArePicked (IsInserting table.now glyphs.now kind) table.now.rules rules.items) }
{
    let marks = reach_marks(alloc, table)?;
    let of_marks = marks.as_slice();
    let rules = table.to_rules(alloc)?;
    let found = inserting_in(alloc, table, glyphs, of_marks, kind, &rules)?;
    Ok(found)
}
