//! Contextual substitution: the marked and the current glyph get values of lookups.
ghost use Rattle.std.specs.Prelude.{◌≡◌, ◌<◌, length, false, List, Option, ℕ, Some, None, IsOk, OnOk, IfErr, OnErr};
ghost use Rattle.std.specs.Bool.{OnTrue};
ghost use Rattle.aat_buffer.specs.Buffer.{with_line};
ghost use Rattle.aat_buffer.specs.Clusters.{IsSmall};
ghost use Rattle.aat_font.specs.Face.{glyph_classes_of};
ghost use Rattle.aat_run.specs.Driven.{IsRefusal, IsRefused};
ghost use Rattle.aat_run.specs.Laws.{FitsFresh};
ghost use Rattle.aat_kinds.specs.Values.{with_value_at};
ghost use Rattle.aat_kinds.specs.Contextual.{answer_of, at_cursor, at_mark, held_act, held_fit, held_fresh};

use crate::values::props_after;
use aat_buffer::{hb_buffer_t, hb_glyph_info_t};
use aat_font::{contextual_entry_rests, hb_font_t};
use aat_lookup::{GlyphId, Lookup};
use aat_machine_tables::{ContextualEntryData, ContextualSubtable, GenericStateEntry};
use aat_run::{AatError, driver_context_t};
use std::alloc::Allocator;
use std::marker::Model;

/// The index of no lookup.
const NO_LOOKUP: u16 = 0xFFFF;

/// The registers of a contextual machine, the marked place and whether one was ever marked, over the classes of a font
/// and the lookups of a subtable.
///
/// A contract sees it as the record `Held`. It takes no memory, so that a run over it is never refused.
///
/// Apple's TrueType Reference Manual, "The 'morx' table", contextual glyph substitution subtable.
#[derive(Drop)]
pub struct ContextualCtx<'a> {
    face: &'a hb_font_t,
    lookups: &'a [Lookup],
    mark: usize,
    is_set: bool,
}

impl<'a> Model for ContextualCtx<'a> {
    ghost use Rattle.aat_font.specs.Face.{glyph_classes_of};
    ghost use Rattle.aat_kinds.specs.Contextual.{Held};

    ghost Value = { Held };

    ghost view = { λ m. record {
      classes = glyph_classes_of m.face.now;
      lookups = m.lookups.now;
      registers = record { mark = m.mark; is_set = m.is_set };
    } };
}

impl<'a> ContextualCtx<'a> {
    /// No marked place, over the classes of a font and the lookups of a subtable. It fits at the front of each line.
    pub fn new(face: &'a hb_font_t, subtable: &'a ContextualSubtable) -> Self
        ensures value { result ≡ held_fresh (glyph_classes_of face.now) subtable.now.lookups }
        ensures fits { FitsFresh held_fit result }
    {
        ContextualCtx {
            face,
            lookups: &subtable.lookups,
            mark: 0,
            is_set: false,
        }
    }

    /// The marked place: how many glyphs stand before it. 0 where none was ever marked.
    pub fn marked_place(&self) -> usize
        ensures { result ≡ self.now.registers.mark }
    {
        self.mark
    }

    /// Gives the marked glyph its value of the lookup that an entry names for it, and makes the line unsafe from there
    /// to the cursor. Answers whether the lookup stands.
    #[tactic(auto, unfolding(crate::specs::Contextual::at_mark))]
    fn replace_marked<A: Allocator + Copy>(
        &self,
        entry: &GenericStateEntry<ContextualEntryData>,
        buffer: &mut hb_buffer_t<A>,
    ) -> bool
        requires in_line { self.now.registers.mark < length buffer.old.line }
        requires ids { IsSmall buffer.old }
        ensures standing { OnTrue result (
            at_mark self.now.classes self.now.lookups entry.now self.now.registers buffer.old ≡ Some buffer.new) }
        ensures missing { result ≡ false
            → (at_mark self.now.classes self.now.lookups entry.now self.now.registers buffer.old ≡ None)
            × (buffer.new ≡ buffer.old) }
        ensures ids { IsSmall buffer.new }
        ensures count { length buffer.new.line ≡ length buffer.old.line }
    {
        let glyph = GlyphId(buffer.info(self.mark).glyph_id as u16);
        match answer(self.lookups, entry.extra.mark_index, glyph) {
            Some(Some(value)) => {
                let len = buffer.len();
                let end = (buffer.backtrack_len() + 1).min(len);
                buffer.unsafe_to_break(Some(self.mark), Some(end));
                replace(self.face, buffer, self.mark, value);
                true
            }
            Some(None) => true,
            None => false,
        }
    }

    /// Gives the glyph at the cursor, or the last one, its value of the lookup that an entry names for it. Answers
    /// whether the lookup stands.
    #[tactic(auto, unfolding(crate::specs::Contextual::at_cursor))]
    fn replace_current<A: Allocator + Copy>(
        &self,
        entry: &GenericStateEntry<ContextualEntryData>,
        buffer: &mut hb_buffer_t<A>,
    ) -> bool
        requires some { 0 < length buffer.old.line }
        requires ids { IsSmall buffer.old }
        ensures standing { OnTrue result (
            at_cursor self.now.classes self.now.lookups entry.now buffer.old ≡ Some buffer.new) }
        ensures missing { result ≡ false
            → (at_cursor self.now.classes self.now.lookups entry.now buffer.old ≡ None) × (buffer.new ≡ buffer.old) }
        ensures ids { IsSmall buffer.new }
        ensures count { length buffer.new.line ≡ length buffer.old.line }
    {
        let place = buffer.backtrack_len().min(buffer.len() - 1);
        let glyph = GlyphId(buffer.info(place).glyph_id as u16);
        match answer(self.lookups, entry.extra.current_index, glyph) {
            Some(Some(value)) => {
                replace(self.face, buffer, place, value);
                true
            }
            Some(None) => true,
            None => false,
        }
    }
}

impl<'a> driver_context_t<ContextualEntryData> for ContextualCtx<'a> {
    ghost use Rattle.std.specs.Prelude.{true};
    ghost use Rattle.aat_machine_tables.specs.Entries.{goes_on};
    ghost use Rattle.aat_font.specs.Idle.{contextual_rests};
    ghost use Rattle.aat_kinds.specs.facts.Resting.{contextual_held_rest};
    ghost use Rattle.aat_kinds.specs.Contextual as contextual;
    ghost use Rattle.aat_kinds.specs.facts.ContextualHeld as laws;

    ghost fits = { contextual.held_fit };

    ghost is_fresh = { contextual.IsHeldFresh };

    ghost stays_in_place = { true };

    ghost keeps_length = { true };

    ghost advances = { goes_on };

    ghost resting = { contextual_rests };

    ghost actionable = { contextual.held_actionable };

    ghost act = { contextual.held_act };

    fn in_place(&self) -> bool {
        true
    }

    fn can_advance(&self, entry: &GenericStateEntry<ContextualEntryData>) -> bool {
        entry.has_advance()
    }

    fn acts_by_entries<A: Allocator + Copy>(&self, buffer: &hb_buffer_t<A>) -> bool {
        // at the end of the text an entry is actionable only where a glyph is marked
        buffer.has_current()
    }

    fn rests(&self, entry: &GenericStateEntry<ContextualEntryData>) -> bool {
        contextual_entry_rests(entry)
    }

    fn is_actionable<A: Allocator + Copy>(
        &self,
        entry: &GenericStateEntry<ContextualEntryData>,
        buffer: &hb_buffer_t<A>,
    ) -> bool {
        // all parts are asked, since no processor foresees each of them
        let can_act = buffer.has_current() | self.is_set;
        can_act & ((entry.extra.mark_index != NO_LOOKUP) | (entry.extra.current_index != NO_LOOKUP))
    }

    /// Does what the entry says. At the end nothing happens while no mark is set, and a missing lookup ends the act.
    /// The number of glyphs stays. Never refused. The registers have to fit, and each glyph id has to be at most
    /// 0xFFFF, and is so again.
    // two runs take it, of which one closes what acts look at; a turn of either needs no call
    #[inline(always)]
    #[tactic(auto, unfolding(crate::specs::Contextual::act))]
    fn transition<A: Allocator + Copy>(
        &mut self,
        entry: &GenericStateEntry<ContextualEntryData>,
        buffer: &mut hb_buffer_t<A>,
    ) -> Result<(), AatError>
        requires fit { held_fit self.old buffer.old.cursor (length buffer.old.line) }
        requires ids { IsSmall buffer.old }
        ensures taken { IsOk result }
        ensures act { OnOk result (
            record { registers = self.new; buffer = buffer.new } ≡ held_act entry.now self.old buffer.old) }
        ensures ids { OnOk result (IsSmall buffer.new) }
        ensures reason { IfErr result (IsRefusal buffer.old (held_act entry.now self.old buffer.old).buffer) }
        ensures refused { OnErr result (IsRefused buffer.old buffer.new) }
        ensures count { length buffer.new.line ≡ length buffer.old.line }
    {
        if !buffer.has_current() && !self.is_set {
            return Ok(());
        }
        if !self.replace_marked(entry, buffer) || !self.replace_current(entry, buffer) {
            return Ok(());
        }
        if entry.has_mark() {
            self.mark = buffer.backtrack_len();
            self.is_set = true;
        }
        Ok(())
    }

    ghost rests_alone = { contextual_held_rest };

    ghost fits_fresh = { laws.fits_where_fresh };

    ghost keeps_fit = { laws.keeps_fit };

    ghost passes_fit = { laws.passes_fit };

    ghost pays = { laws.pays };

    ghost bounded = { laws.bounded };

    ghost lengthens = { laws.lengthens };

    ghost makes_no_positions = { laws.makes_no_positions };

    ghost keeps_settings = { laws.keeps_settings };

    ghost keeps_place = { λ yes. laws.keeps_place };

    ghost keeps_count = { λ yes. laws.keeps_place.length };

    ghost keeps_order = { laws.keeps_order };
}

/// What the lookup of an index has for a glyph: no value where the index is that of no lookup, and `None` where the
/// lookup is missing.
#[inline(always)]
#[tactic(auto, unfolding(crate::specs::Contextual::answer_of))]
fn answer(lookups: &[Lookup], index: u16, glyph: GlyphId) -> Option<Option<u16>>
    ensures { (classes : Option (List (ℕ × ℕ))) → result ≡ answer_of classes lookups.now index glyph.0 }
{
    if index == NO_LOOKUP {
        return Some(None);
    }
    match lookups.get(index as usize) {
        Some(lookup) => Some(lookup.value(glyph)),
        None => None,
    }
}

/// Makes the glyph at a place another one. Its cluster and its mask stay.
fn replace<A: Allocator + Copy>(
    face: &hb_font_t,
    buffer: &mut hb_buffer_t<A>,
    place: usize,
    value: u16,
)
    requires in_line { place < length buffer.old.line }
    requires ids { IsSmall buffer.old }
    ensures replaced { buffer.new ≡
        with_line buffer.old (with_value_at (glyph_classes_of face.now) place value buffer.old.line) }
    ensures ids { IsSmall buffer.new }
    ensures count { length buffer.new.line ≡ length buffer.old.line }
{
    let glyph = *buffer.info(place);
    let replaced = hb_glyph_info_t {
        glyph_id: value as u32,
        glyph_props: props_after(face, value, glyph.glyph_props),
        ..glyph
    };
    buffer.rewrite_glyph(place, replaced);
}
