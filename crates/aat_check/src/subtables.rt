//! The subtables of `morx`.

use crate::fact::Fact;
use crate::finding::{Finding, Place, push_fact};
use crate::glyphs::check_kind;
use crate::lines::Order;
use crate::machines::{Machine, check_machine};
use crate::turns::turning_of;
use aat_cuts::{Unsettled, find_unsettled};
use aat_findings::{InsertionKind, inserting_entries, unnamed_lookups};
use aat_machine_tables::{Subtable, SubtableKind};
use std::alloc::{AllocError, Global};

/// What is asked of a subtable.
#[derive(Clone, Copy)]
pub(crate) struct Asked {
    /// Where it is.
    pub(crate) place: Place,
    /// The font has the glyphs below this number.
    pub(crate) glyph_count: u32,
    /// Whether nothing switches it on.
    pub(crate) is_never_on: bool,
}

/// Why a subtable is not settled, if it is not, where it is for another reason than a missing entry, which has a finding
/// of its own.
fn unsettled_of(alloc: Global, kind: &SubtableKind) -> Result<Option<Fact>, AllocError> {
    match find_unsettled(alloc, kind)? {
        Some(Unsettled::MissingEntry(_, _)) | None => Ok(None),
        Some(reason) => Ok(Some(Fact::NotSettled(reason))),
    }
}

/// The first of the lookups that no entry of a contextual machine names.
fn unnamed_of(alloc: Global, kind: &SubtableKind) -> Result<Option<Fact>, AllocError> {
    let SubtableKind::Contextual(subtable) = kind else {
        return Ok(None);
    };
    let unnamed = unnamed_lookups(alloc, &subtable.state, subtable.lookups.len())?;
    let Some(lookup) = unnamed.first().copied() else {
        return Ok(None);
    };
    let count = unnamed.len();
    Ok(Some(Fact::UnnamedLookup { lookup, count }))
}

/// The first state and class at which a machine of insertion puts glyphs in without end.
fn growing_of(alloc: Global, kind: &SubtableKind) -> Result<Option<(u16, u16)>, AllocError> {
    let SubtableKind::Insertion(subtable) = kind else {
        return Ok(None);
    };
    let (table, glyphs) = (&subtable.state, subtable.glyphs.as_slice());
    let growing = inserting_entries(alloc, table, glyphs, InsertionKind::Grows)?;
    Ok(growing.first().map(|rule| (rule.0, rule.1)))
}

/// Adds what is found in the machine of a subtable, if it has one.
fn check_machine_of(
    alloc: Global,
    subtable: &Subtable,
    asked: Asked,
    found: &mut Vec<Finding>,
) -> Result<(), AllocError> {
    let machine = Machine {
        place: asked.place,
        glyph_count: asked.glyph_count,
        order: Order::of(subtable.coverage),
        changes_glyphs: true,
        unsettled: unsettled_of(alloc, &subtable.kind)?,
        unnamed: unnamed_of(alloc, &subtable.kind)?,
        turning: turning_of(alloc, &subtable.kind, asked.glyph_count)?,
        growing: growing_of(alloc, &subtable.kind)?,
    };
    match &subtable.kind {
        SubtableKind::Rearrangement(table) => check_machine(alloc, table, machine, found),
        SubtableKind::Contextual(subtable) => {
            check_machine(alloc, &subtable.state, machine, found)
        }
        SubtableKind::Ligature(subtable) => check_machine(alloc, &subtable.state, machine, found),
        SubtableKind::NonContextual(_) => Ok(()),
        SubtableKind::Insertion(subtable) => check_machine(alloc, &subtable.state, machine, found),
    }
}

/// Adds what is found in a subtable of a chain.
pub(crate) fn check_subtable(
    alloc: Global,
    subtable: &Subtable,
    asked: Asked,
    found: &mut Vec<Finding>,
) -> Result<(), AllocError> {
    check_machine_of(alloc, subtable, asked, found)?;
    if asked.is_never_on {
        push_fact(found, asked.place, Fact::NeverOn)?;
    }
    let order = Order::of(subtable.coverage);
    check_kind(
        alloc,
        &subtable.kind,
        asked.glyph_count,
        order,
        asked.place,
        found,
    )
}
