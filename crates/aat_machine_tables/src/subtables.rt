//! The tables of the kinds of subtables that have more than one, and how many subtables a table may have.

use crate::entries::{ContextualEntryData, InsertionEntryData};
use crate::state_table::ExtendedStateTable;
use aat_lookup::{GlyphId, Lookup};
use std::marker::Model;

/// The largest number of subtables of a table, so that the turns of a run fit a number of 64 bits.
pub const MAX_SUBTABLES: usize = 65535;

/// A machine that replaces the marked and the current glyph by lookups. A contract sees it as the
/// record `ContextualTables`.
///
/// Apple's TrueType Reference Manual, "The 'morx' table", contextual glyph substitution.
#[derive(Drop)]
pub struct ContextualSubtable {
    /// The machine.
    pub state: ExtendedStateTable<ContextualEntryData>,
    /// The lookups that entries name by their places.
    pub lookups: Vec<Lookup>,
}

impl Model for ContextualSubtable {
    ghost use Rattle.aat_machine_tables.specs.Subtables.{ContextualTables};

    ghost Value = { ContextualTables };

    ghost view = { λ m. record { state = m.state; lookups = m.lookups.items } };
}

/// A machine that joins glyphs. A contract sees it as the record `LigatureTables`.
///
/// Apple's TrueType Reference Manual, "The 'morx' table", ligature substitution.
#[derive(Drop)]
pub struct LigatureSubtable {
    /// The machine, whose entries name the place of their first action.
    pub state: ExtendedStateTable<u16>,
    /// The actions, of which each takes a glyph from the stack.
    pub ligature_actions: Vec<u32>,
    /// The numbers that are added up to a place in the ligatures.
    pub components: Vec<u16>,
    /// The glyphs that glyphs are joined to.
    pub ligatures: Vec<GlyphId>,
}

impl Model for LigatureSubtable {
    ghost use Rattle.aat_machine_tables.specs.Subtables.{LigatureTables};

    ghost Value = { LigatureTables };

    ghost view = { λ m. record {
      state = m.state;
      actions = m.ligature_actions.items;
      components = m.components.items;
      ligatures = m.ligatures.items;
    } };
}

/// A machine that inserts glyphs. A contract sees it as the record `InsertionTables`.
///
/// Apple's TrueType Reference Manual, "The 'morx' table", glyph insertion.
#[derive(Drop)]
pub struct InsertionSubtable {
    /// The machine.
    pub state: ExtendedStateTable<InsertionEntryData>,
    /// The glyphs that entries name by the place of the first and their number.
    pub glyphs: Vec<GlyphId>,
}

impl Model for InsertionSubtable {
    ghost use Rattle.aat_machine_tables.specs.Subtables.{InsertionTables};

    ghost Value = { InsertionTables };

    ghost view = { λ m. record { state = m.state; glyphs = m.glyphs.items } };
}
