//! Subtables of each kind by their entries, and fonts of one.

use aat_layout::font::{
    Chain, ContextualEntryData, ContextualSubtable, Coverage, ExtendedStateTable, FaceTables,
    GenericStateEntry, GlyphId, InsertionEntryData, InsertionSubtable, LigatureSubtable, Lookup,
    Morx, Subtable, SubtableKind, hb_font_t,
};
use std::alloc::Global;
use std::test::Fail;

/// A state, a class, and the entry for them.
pub(crate) type Rule<T> = (u16, u16, GenericStateEntry<T>);

/// A state, a class, and the entry for them: the state that follows, its flags, and what the kind adds.
macro_rules! rule {
    ($state:expr, $class:literal, $new_state:expr, $flags:expr, $extra:expr) => {
        (
            $state,
            $class,
            GenericStateEntry {
                new_state: $new_state,
                flags: $flags,
                extra: $extra,
            },
        )
    };
}

pub(crate) use rule;

/// The classes of the glyphs, of which there are six. All others are out of bounds.
const CLASSES: [(u16, u16); 8] = [
    (5, 4),
    (6, 5),
    (7, 4),
    (8, 5),
    (10, 4),
    (11, 5),
    (14, 5),
    (20, 4),
];

/// The last action of a ligature, and its offset, by which the glyph 10 has the component 0.
const LAST: u32 = 0x8000_0000;

const FROM_10: u32 = 0x3FFF_FFF6;

/// A subtable by its entries and by how long its lists are.
#[derive(Clone, Copy)]
pub(crate) enum Kind {
    Rearrangement(&'static [Rule<()>]),
    /// So many lookups. The last one turns 5 and 7 into 9, 6 into 8, and 8 into the last glyph; the others have nothing.
    Contextual(&'static [Rule<ContextualEntryData>], usize),
    /// So many actions, and so many components, which are all 1. The last action has this offset, and the others take the
    /// glyph 10 for the component 0.
    Ligature(&'static [Rule<u16>], usize, usize, u32),
    /// So many glyphs: 31 is the last one, and the others are 30.
    Insertion(&'static [Rule<InsertionEntryData>], usize),
}

/// So many lookups.
fn lookups(alloc: Global, count: usize) -> Result<Vec<Lookup>, Fail> {
    let mut lookups = Vec::with_capacity(alloc, count)?;
    for _ in 1..count {
        lookups.push(Lookup::new(alloc, &[])?)?;
    }
    lookups.push(Lookup::new(alloc, &[(5, 9), (6, 8), (7, 9), (8, 65535)])?)?;
    Ok(lookups)
}

/// A ligature subtable.
fn ligature(
    alloc: Global,
    rules: &[Rule<u16>],
    (actions, components): (usize, usize),
    last: u32,
) -> Result<SubtableKind, Fail> {
    let mut ligature_actions = vec![in alloc; FROM_10; actions.saturating_sub(1)]?;
    ligature_actions.push(LAST | last)?;
    Ok(SubtableKind::Ligature(LigatureSubtable {
        state: ExtendedStateTable::new(alloc, 6, &CLASSES, rules)?,
        ligature_actions,
        components: vec![in alloc; 1; components]?,
        ligatures: Vec::from_slice(alloc, &[GlyphId(200), GlyphId(65535), GlyphId(202)])?,
    }))
}

/// An insertion subtable.
fn insertion(
    alloc: Global,
    rules: &[Rule<InsertionEntryData>],
    count: usize,
) -> Result<SubtableKind, Fail> {
    let mut glyphs = vec![in alloc; GlyphId(30); count.saturating_sub(1)]?;
    glyphs.push(GlyphId(31))?;
    Ok(SubtableKind::Insertion(InsertionSubtable {
        state: ExtendedStateTable::new(alloc, 6, &CLASSES, rules)?,
        glyphs,
    }))
}

/// A subtable of a kind.
pub(crate) fn subtable_of(alloc: Global, kind: Kind) -> Result<SubtableKind, Fail> {
    match kind {
        Kind::Rearrangement(rules) => Ok(SubtableKind::Rearrangement(ExtendedStateTable::new(
            alloc, 6, &CLASSES, rules,
        )?)),
        Kind::Contextual(rules, count) => Ok(SubtableKind::Contextual(ContextualSubtable {
            state: ExtendedStateTable::new(alloc, 6, &CLASSES, rules)?,
            lookups: lookups(alloc, count)?,
        })),
        Kind::Ligature(rules, actions, components, last) => {
            ligature(alloc, rules, (actions, components), last)
        }
        Kind::Insertion(rules, count) => insertion(alloc, rules, count),
    }
}

/// A font of a subtable that is always on.
pub(crate) fn font_of(alloc: Global, kind: SubtableKind) -> Result<hb_font_t, Fail> {
    let subtable = Subtable::new(kind, Coverage::ALL_DIRECTIONS, 1);
    let chain = Chain::new(1, Vec::new(alloc), vec![in alloc; subtable]?);
    let morx = Morx::new(vec![in alloc; chain]?)?;
    Ok(hb_font_t::from_tables(FaceTables::default().with_morx(morx)))
}
