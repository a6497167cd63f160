//! What the subtables of `morx` do.

use crate::known::{ByGlyph, Known};
use crate::machines::machine;
use crate::values::{Members, Told, items, list, members, need, word};
use aat_lookup::Lookup;
use aat_machine_tables::entry_bits::ligature::{
    LIG_ACTION_LAST, LIG_ACTION_OFFSET, LIG_ACTION_STORE,
};
use aat_machine_tables::{ContextualSubtable, InsertionSubtable, LigatureSubtable, SubtableKind};
use anyhow::{Context, Result, bail};
use serde_json::Value;

impl Told for Lookup {
    fn of(known: &mut Known, value: &Value) -> Result<Lookup> {
        let pairs: ByGlyph<u16> = ByGlyph::of(known, value)?;
        Ok(Lookup::new(known.alloc, &pairs.0)?)
    }
}

/// The bits of a word of an action of ligatures: its offset, `last` or `store`.
fn action_bits(word: &str) -> Result<u32> {
    match word {
        "last" => Ok(LIG_ACTION_LAST),
        "store" => Ok(LIG_ACTION_STORE),
        _ => {
            let offset = word
                .parse::<i32>()
                .context("last, store or an offset is wanted")?;
            Ok(offset.cast_unsigned() & LIG_ACTION_OFFSET)
        }
    }
}

/// An action of ligatures, of words that spaces part.
fn action(value: &Value) -> Result<u32> {
    let mut action = 0;
    for word in value.as_str().unwrap_or("?").split_ascii_whitespace() {
        action |= action_bits(word).context(format_args!("actions: {word}"))?;
    }
    Ok(action)
}

/// The actions of ligatures.
fn actions(known: &Known, members: &Members) -> Result<Vec<u32>> {
    let mut actions = Vec::new(known.alloc);
    if let Some(value) = members.get("actions") {
        for item in items(value)? {
            actions.push(action(item)?)?;
        }
    }
    Ok(actions)
}

/// A ligature subtable.
fn ligature(known: &mut Known, members: &Members) -> Result<LigatureSubtable> {
    let ligature_actions = actions(known, members)?;
    let components = list(known, members, "components")?;
    let ligatures = list(known, members, "ligatures")?;
    let state = machine(known, members)?;
    Ok(LigatureSubtable {
        state,
        ligature_actions,
        components,
        ligatures,
    })
}

/// The keys of subtables of all kinds.
const KEYS: &str =
    "kind coverage flags lookup class_count classes states lookups actions components ligatures glyphs";

impl Told for SubtableKind {
    fn of(known: &mut Known, value: &Value) -> Result<SubtableKind> {
        let members = members(value, KEYS)?;
        match word(members, "kind")? {
            "noncontextual" => Ok(SubtableKind::NonContextual(need(known, members, "lookup")?)),
            "rearrangement" => Ok(SubtableKind::Rearrangement(machine(known, members)?)),
            "contextual" => {
                let lookups = list(known, members, "lookups")?;
                let state = machine(known, members)?;
                Ok(SubtableKind::Contextual(ContextualSubtable { state, lookups }))
            }
            "ligature" => Ok(SubtableKind::Ligature(ligature(known, members)?)),
            "insertion" => {
                let glyphs = list(known, members, "glyphs")?;
                let state = machine(known, members)?;
                Ok(SubtableKind::Insertion(InsertionSubtable { state, glyphs }))
            }
            kind => bail!("{kind}: there is no such kind"),
        }
    }
}
