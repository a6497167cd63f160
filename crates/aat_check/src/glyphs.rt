//! Glyphs that a font does not have, and the deleted glyph.

use crate::fact::Fact;
use crate::finding::{Finding, GlyphLine, Place, push_fact};
use crate::lines::{Order, line_to};
use aat_face::Face;
use aat_findings::{
    DELETED_GLYPH, InsertionKind, PairKind, inserting_entries, lists_deleted, pairs_of,
};
use aat_lookup::{GlyphId, Lookup};
use aat_machine_tables::{InsertionSubtable, SubtableKind};
use std::alloc::{AllocError, Global};
use std::slice;

/// The number below which the font has its glyphs: that of `maxp`, or more than any glyph's where it is not read.
pub(crate) fn glyph_bound(face: &Face<'_>) -> u32 {
    match face.glyph_count() {
        0 => 65536,
        count => u32::from(count),
    }
}

/// What a subtable lists.
#[derive(Clone, Copy)]
pub(crate) struct Listed<'a> {
    /// The lookups of glyphs that take the place of others.
    pub(crate) lookups: &'a [Lookup],
    /// The classes of a machine, if it has one.
    pub(crate) classes: Option<&'a Lookup>,
    /// The font has the glyphs below this number.
    pub(crate) glyph_count: u32,
    /// How the subtable goes over a line, where one glyph alone shows what becomes of it.
    pub(crate) shown: Option<Order>,
}

impl Listed<'_> {
    /// The line of one glyph that shows what becomes of it, if a text can have it, and it alone shows that.
    fn line_of(
        &self,
        alloc: Global,
        kind: PairKind,
        glyph: u16,
    ) -> Result<Option<GlyphLine>, AllocError> {
        match (self.shown, kind) {
            (Some(order), PairKind::ValuePast | PairKind::Deletes)
                if u32::from(glyph) < self.glyph_count => {
                Ok(Some(GlyphLine {
                    glyphs: Vec::from_slice(alloc, &[glyph])?,
                    is_vertical: order.is_vertical,
                    feature: None,
                    cut: None,
                }))
            }
            _ => Ok(None),
        }
    }
}

/// What a subtable of `morx` lists, in a font of so many glyphs.
fn listed_of(kind: &SubtableKind, glyph_count: u32, order: Order) -> Listed<'_> {
    let (lookups, classes): (&[Lookup], Option<&Lookup>) = match kind {
        SubtableKind::NonContextual(lookup) => (slice::from_ref(lookup), None),
        SubtableKind::Contextual(subtable) => (&subtable.lookups, Some(subtable.state.classes())),
        SubtableKind::Rearrangement(table) => (&[], Some(table.classes())),
        SubtableKind::Ligature(subtable) => (&[], Some(subtable.state.classes())),
        SubtableKind::Insertion(subtable) => (&[], Some(subtable.state.classes())),
    };
    Listed {
        lookups,
        classes,
        glyph_count,
        shown: match kind {
            SubtableKind::NonContextual(_) => Some(order),
            _ => None,
        },
    }
}

/// The pairs of lookups that are of a kind, and of classes those whose glyph the font does not have.
fn pairs_listed(
    alloc: Global,
    listed: Listed<'_>,
    kind: PairKind,
) -> Result<Vec<(u16, u16)>, AllocError> {
    let glyph_count = listed.glyph_count;
    let mut found = match (kind, listed.classes) {
        (PairKind::GlyphPast, Some(classes)) => pairs_of(alloc, classes, kind, glyph_count)?,
        _ => Vec::new(alloc),
    };
    for lookup in listed.lookups {
        let pairs = pairs_of(alloc, lookup, kind, glyph_count)?;
        found.extend_from_slice(&pairs)?;
    }
    Ok(found)
}

/// Adds the first of the pairs that are of a kind, with the line that shows it.
fn add_pairs(
    alloc: Global,
    listed: Listed<'_>,
    kind: PairKind,
    place: Place,
    found: &mut Vec<Finding>,
) -> Result<(), AllocError> {
    let pairs = pairs_listed(alloc, listed, kind)?;
    let Some((glyph, value)) = pairs.first().copied() else {
        return Ok(());
    };
    let place = Place {
        glyph: Some(glyph),
        ..place
    };
    let line = listed.line_of(alloc, kind, glyph)?;
    let count = pairs.len();
    let fact = match kind {
        PairKind::GlyphPast => Fact::KeyPast { count },
        PairKind::ValuePast => Fact::ValuePast { value, count },
        PairKind::Deletes => Fact::DeletedStays { count },
        PairKind::Restores => Fact::DeletedReturns { value },
    };
    found.push(Finding { fact, place, line })?;
    Ok(())
}

/// Adds what is found in what a subtable lists.
pub(crate) fn check_listed(
    alloc: Global,
    listed: Listed<'_>,
    place: Place,
    found: &mut Vec<Finding>,
) -> Result<(), AllocError> {
    add_pairs(alloc, listed, PairKind::ValuePast, place, found)?;
    add_pairs(alloc, listed, PairKind::GlyphPast, place, found)?;
    if let Some(classes) = listed.classes
        && lists_deleted(classes)
    {
        push_fact(found, place, Fact::ListsDeleted)?;
    }
    add_pairs(alloc, listed, PairKind::Deletes, place, found)?;
    add_pairs(alloc, listed, PairKind::Restores, place, found)
}

/// Whether a font of so many glyphs does not have one, and it is not the deleted one.
pub(crate) fn is_past(glyph: GlyphId, glyph_count: u32) -> bool {
    u32::from(glyph.0) >= glyph_count && glyph.0 != DELETED_GLYPH
}

/// Adds the first glyph that the font does not have, of the first `count` of a list of ligatures, or of glyphs that go in.
pub(crate) fn check_list(
    list: &[GlyphId],
    count: usize,
    glyph_count: u32,
    place: Place,
    found: &mut Vec<Finding>,
) -> Result<(), AllocError> {
    let glyphs = list.iter().take(count);
    let past = glyphs.filter(|glyph| is_past(**glyph, glyph_count)).count();
    let mut glyphs = list.iter().take(count).enumerate();
    let Some((number, glyph)) = glyphs.find(|(_, glyph)| is_past(**glyph, glyph_count)) else {
        return Ok(());
    };
    let place = Place {
        glyph: Some(glyph.0),
        ..place
    };
    push_fact(
        found,
        place,
        Fact::ListedPast {
            number,
            count: past,
        },
    )
}

/// Adds the first entry that puts the deleted glyph in, with the line that leads there.
fn add_inserted(
    alloc: Global,
    subtable: &InsertionSubtable,
    glyph_count: u32,
    order: Order,
    place: Place,
    found: &mut Vec<Finding>,
) -> Result<(), AllocError> {
    let (table, glyphs) = (&subtable.state, subtable.glyphs.as_slice());
    let entries = inserting_entries(alloc, table, glyphs, InsertionKind::PutsDeleted)?;
    let Some((state, class, _)) = entries.first().copied() else {
        return Ok(());
    };
    let place = Place {
        state: Some(state),
        class: Some(class),
        ..place
    };
    let line = line_to(alloc, table, glyph_count, order, (state, class))?;
    let count = entries.len();
    let fact = Fact::DeletedGoesIn { count };
    found.push(Finding { fact, place, line })?;
    Ok(())
}

/// Adds what is found in what a subtable of `morx` lists.
pub(crate) fn check_kind(
    alloc: Global,
    kind: &SubtableKind,
    glyph_count: u32,
    order: Order,
    place: Place,
    found: &mut Vec<Finding>,
) -> Result<(), AllocError> {
    check_listed(alloc, listed_of(kind, glyph_count, order), place, found)?;
    match kind {
        SubtableKind::Insertion(subtable) => {
            add_inserted(alloc, subtable, glyph_count, order, place, found)
        }
        _ => Ok(()),
    }
}
