//! Ligature subtables: glyphs are held as components, and joined to ligatures.
ghost use Rattle.std.specs.Prelude.{◌≡◌, ℕ, ◌+◌, ◌-◌, ◌<◌, ◌≤◌, ◌^◌, length, if◌then◌else◌, nat_lt, IfSome, IsOk, IsTrue, None, OnOk, IfErr, OnErr};
ghost use Rattle.aat_buffer.specs.Buffer.{glyph_at, with_line};
ghost use Rattle.aat_buffer.specs.Clusters.{IsSmall};
ghost use Rattle.aat_buffer.specs.Marks.{merge_out_clusters};
ghost use Rattle.aat_buffer.specs.Removal.{is_deleted};
ghost use Rattle.aat_run.specs.Driven.{IsRefusal, IsRefused};
ghost use Rattle.aat_run.specs.Laws.{FitsFresh};
ghost use Rattle.aat_run.specs.inside.Places.{left_with};
ghost use Rattle.aat_kinds.specs.Ligature.{DeletesLater, GoesOn, IsFit, IsHeldFit, Stops, component, deleted, fresh};
ghost use Rattle.aat_kinds.specs.Ligature.{held_act, later_deleted, stored, with_place_held};
ghost use Rattle.aat_kinds.specs.inside.Taken.{all_taken, step_of, taken_by};

use aat_buffer::{DELETED_GLYPH, UnicodeProps, hb_buffer_t, hb_glyph_info_t};
use aat_font::ligature_entry_rests;
use aat_lookup::GlyphId;
use aat_machine_tables::entry_bits::ligature::{LIG_ACTION_LAST, LIG_ACTION_STORE, PERFORM_ACTION};
use aat_machine_tables::{GenericStateEntry, LigatureSubtable, component_value};
use aat_run::{AatError, driver_context_t};
use bitflags::Flags;
use std::alloc::Allocator;
use std::marker::Model;

/// Of how many of the newest components the places are kept, in a context by `LigatureCtx::new`.
pub const LIGATURE_SLOTS: usize = 64;

/// The places of the components that are held: of as many of the newest as there are slots.
#[derive(Drop)]
struct Components<const SLOTS: usize> {
    count: usize,
    slots: [usize; SLOTS],
}

impl<const SLOTS: usize> Model for Components<SLOTS> {
    ghost use Rattle.aat_kinds.specs.Ligature.{Registers};

    ghost Value = { Registers };

    ghost view = { λ m. record { count = m.count; slots = m.slots } };

    ghost use Rattle.std.specs.Prelude.{◌≡◌, length};

    ghost invariant = { λ m. length m.slots ≡ SLOTS };
}

impl<const SLOTS: usize> Components<SLOTS> {
    fn new() -> Components<SLOTS>
        ensures { result ≡ fresh SLOTS }
    {
        Components {
            count: 0,
            slots: [0; SLOTS],
        }
    }

    /// Holds fewer components.
    fn truncate(&mut self, count: usize)
        ensures { self.new ≡ record self.old { count = count } }
    {
        self.count = count;
    }

    /// The place of component `j`, the oldest of them 0.
    fn place(&self, j: usize) -> usize
        requires { 0 < length self.now.slots }
        ensures { result ≡ component self.now j }
    {
        let slots: &[usize] = &self.slots;
        slots[j % slots.len()]
    }

    /// Holds a place as the newest component, unless it is that already. O(1).
    fn push(&mut self, place: usize)
        requires some { 0 < length self.old.slots }
        requires few { self.old.count < 2 ^ 32 }
        ensures { self.new ≡ with_place_held self.old place }
    {
        if self.count > 0 && self.place(self.count - 1) == place {
            return;
        }
        let slots: &mut [usize] = &mut self.slots;
        let slot = self.count % slots.len();
        slots[slot] = place;
        self.count += 1;
    }

    /// Deletes the components behind component `c`, from the newest down.
    fn delete_later<A: Allocator + Copy>(&self, c: usize, buffer: &mut hb_buffer_t<A>)
        requires below { c < self.now.count }
        requires fit { IsFit self.now buffer.old.cursor (length buffer.old.line) }
        requires ids { IsSmall buffer.old }
        ensures line { buffer.new ≡
            with_line buffer.old (later_deleted self.now c (self.now.count - 1 - c) buffer.old.line) }
        ensures ids { IsSmall buffer.new }
        ensures count { length buffer.new.line ≡ length buffer.old.line }
    {
        let mut n = self.count - 1 - c;
        while n > 0 {
            let place = self.place(c + n);
            let glyph = *buffer.info(place);
            buffer.rewrite_glyph(place, deleted(glyph));
            n -= 1;
        }
    }

    /// Stores a ligature at component `c`, which is then the newest one: those behind it are deleted, and what lies
    /// from it through the newest of them becomes one cluster. In as many steps as there are components behind it, and
    /// as the merged span is long.
    #[tactic(auto, unfolding(crate::specs::Ligature::stored))]
    fn store<A: Allocator + Copy>(
        &mut self,
        c: usize,
        ligature: GlyphId,
        buffer: &mut hb_buffer_t<A>,
    )
        requires below { c < self.old.count }
        requires fit { IsFit self.old buffer.old.cursor (length buffer.old.line) }
        requires ids { IsSmall buffer.old }
        ensures held { self.new ≡ record self.old { count = c + 1 } }
        ensures stored { buffer.new ≡ (stored c ligature.0 self.old buffer.old).buffer }
        ensures deleted { (j : ℕ) → c < j → j < self.old.count
            → IsTrue (is_deleted (glyph_at buffer.new.line (component self.old j))) }
        ensures successful { buffer.new.successful ≡ buffer.old.successful }
        ensures ids { IsSmall buffer.new }
        ensures count { length buffer.new.line ≡ length buffer.old.line }
    {
        let _length = buffer.len();
        let start = self.place(c);
        let end = self.place(self.count - 1) + 1;
        let glyph = *buffer.info(start);
        let joined = hb_glyph_info_t {
            glyph_id: u32::from(ligature.0),
            ..glyph
        };
        buffer.rewrite_glyph(start, joined);
        self.delete_later(c, buffer);
        merge_span(buffer, start, end);
        self.truncate(c + 1);
    }

    /// Takes component `c` in by an action, with its value in the sum: where the action stores, the ligature there is stored.
    /// The sum to go on with; none where the act stops.
    #[tactic(auto, unfolding(crate::specs::Ligature::stored))]
    fn take_by<A: Allocator + Copy>(
        &mut self,
        subtable: &LigatureSubtable,
        action: u32,
        c: usize,
        sum: usize,
        buffer: &mut hb_buffer_t<A>,
    ) -> Option<usize>
        requires below { c < self.old.count }
        requires fit { IsFit self.old buffer.old.cursor (length buffer.old.line) }
        requires ids { IsSmall buffer.old }
        ensures goes_on { IfSome result (λ more.
            taken_by subtable.now action c sum self.old buffer.old ≡ GoesOn more (left_with self.new buffer.new)) }
        ensures stops { result ≡ None
            → taken_by subtable.now action c sum self.old buffer.old ≡ Stops (left_with self.new buffer.new) }
        ensures more { IfSome result (λ more. more ≡ sum) }
        ensures slots { self.new.slots ≡ self.old.slots }
        ensures held { c < self.new.count }
        ensures fewer { self.new.count ≤ self.old.count }
        ensures successful { buffer.new.successful ≡ buffer.old.successful }
        ensures ids { IsSmall buffer.new }
        ensures count { length buffer.new.line ≡ length buffer.old.line }
    {
        if action & (LIG_ACTION_STORE | LIG_ACTION_LAST) == 0 {
            return Some(sum);
        }
        let Some(ligature) = subtable.ligatures.get(sum) else {
            return None;
        };
        self.store(c, *ligature, buffer);
        if action & LIG_ACTION_LAST != 0 {
            return None;
        }
        Some(sum)
    }

    /// Takes component `c` in by the action at a place: its value goes to the sum, and where the action stores, the
    /// ligature there is stored. The sum to go on with; none where the act stops.
    #[tactic(auto, unfolding(crate::specs::Ligature::component_step))]
    fn take_in<A: Allocator + Copy>(
        &mut self,
        subtable: &LigatureSubtable,
        place: usize,
        c: usize,
        sum: usize,
        buffer: &mut hb_buffer_t<A>,
    ) -> Option<usize>
        requires below { c < self.old.count }
        requires fit { IsFit self.old buffer.old.cursor (length buffer.old.line) }
        requires ids { IsSmall buffer.old }
        requires small { sum < 2 ^ 62 }
        ensures goes_on { IfSome result (λ more.
            step_of subtable.now place c sum self.old buffer.old ≡ GoesOn more (left_with self.new buffer.new)) }
        ensures stops { result ≡ None
            → step_of subtable.now place c sum self.old buffer.old ≡ Stops (left_with self.new buffer.new) }
        ensures more { IfSome result (λ more. more ≤ sum + 65535) }
        ensures slots { self.new.slots ≡ self.old.slots }
        ensures held { c < self.new.count }
        ensures fewer { self.new.count ≤ self.old.count }
        ensures successful { buffer.new.successful ≡ buffer.old.successful }
        ensures ids { IsSmall buffer.new }
        ensures count { length buffer.new.line ≡ length buffer.old.line }
    {
        let action = *subtable.ligature_actions.get(place)?;
        let glyph = buffer.info(self.place(c)).glyph_id;
        let value = component_value(&subtable.components, action, glyph)?;
        self.take_by(subtable, action, c, sum + usize::from(value), buffer)
    }

    /// Takes the held components in, from the newest down, each by the next action from a place on.
    fn ligate<A: Allocator + Copy>(
        &mut self,
        subtable: &LigatureSubtable,
        first: u16,
        buffer: &mut hb_buffer_t<A>,
    )
        requires fit { IsFit self.old buffer.old.cursor (length buffer.old.line) }
        requires few { self.old.count < 2 ^ 32 }
        requires ids { IsSmall buffer.old }
        ensures act { left_with self.new buffer.new ≡ all_taken subtable.now first self.old buffer.old }
        ensures ids { IsSmall buffer.new }
        ensures successful { buffer.new.successful ≡ buffer.old.successful }
        ensures count { length buffer.new.line ≡ length buffer.old.line }
    {
        let mut action = usize::from(first);
        let mut sum = 0;
        let mut left = self.count;
        while left > 0 {
            left -= 1;
            match self.take_in(subtable, action, left, sum, buffer) {
                Some(more) => sum = more,
                None => return,
            }
            action += 1;
        }
        self.truncate(0);
    }
}

/// The registers of a ligature machine, over the lists of a subtable: the components that it holds, glyphs of the line
/// that are to be joined.
///
/// An entry may hold the glyph at the cursor as the newest component, and may take the components in: from the newest
/// of them down, each by the next action, the value for its glyph is added to a sum, and where the action stores, the
/// component becomes the ligature with the sum as its number, and each component behind it the deleted glyph, 0xFFFF,
/// with the property IGNORABLE. Components are counted from the oldest, 0; component j stands in slot j mod `SLOTS`, so
/// that more components than slots write over the oldest places.
///
/// A contract sees it as the record `Held`. It fits where there is a slot and the held places lie on the line, no more
/// components are held than glyphs stand before the cursor and one at it, and where there are as many, the newest is
/// the cursor. It takes no memory, and no act changes the number of glyphs, so that a run over it is never refused.
///
/// Apple's TrueType Reference Manual, "The 'morx' table", ligature substitution.
#[derive(Drop)]
pub struct LigatureCtx<'a, const SLOTS: usize> {
    subtable: &'a LigatureSubtable,
    held: Components<SLOTS>,
}

impl<'a, const SLOTS: usize> Model for LigatureCtx<'a, SLOTS> {
    ghost use Rattle.aat_kinds.specs.Ligature.{Held};

    ghost Value = { Held };

    ghost view = { λ m. record {
      actions = m.subtable.now.actions;
      components = m.subtable.now.components;
      ligatures = m.subtable.now.ligatures;
      registers = m.held;
    } };
}

impl<'a> LigatureCtx<'a, LIGATURE_SLOTS> {
    /// No component, over the lists of a subtable, in `LIGATURE_SLOTS` slots. It fits at the front of each line.
    pub fn new(subtable: &'a LigatureSubtable) -> Self
        ensures value { result ≡ record {
          actions = subtable.now.actions;
          components = subtable.now.components;
          ligatures = subtable.now.ligatures;
          registers = fresh 64;
        } }
        ensures fits { FitsFresh IsHeldFit result }
    {
        LigatureCtx::with_slots(subtable)
    }
}

impl<'a, const SLOTS: usize> LigatureCtx<'a, SLOTS> {
    /// No component, over the lists of a subtable, in `SLOTS` slots, of which there has to be one. It fits at the front
    /// of each line.
    #[tactic(auto, using(crate::specs::facts::LigatureHeld::fits_fresh))]
    pub fn with_slots(subtable: &'a LigatureSubtable) -> Self
        requires { 0 < SLOTS }
        ensures value { result ≡ record {
          actions = subtable.now.actions;
          components = subtable.now.components;
          ligatures = subtable.now.ligatures;
          registers = fresh SLOTS;
        } }
        ensures fits { FitsFresh IsHeldFit result }
    {
        LigatureCtx {
            subtable,
            held: Components::new(),
        }
    }

    /// How many components are held.
    pub fn component_count(&self) -> usize
        ensures count { result ≡ self.now.registers.count }
        ensures slots { length self.now.registers.slots ≡ SLOTS }
    {
        self.held.count
    }

    /// The place of component `j`, the oldest of them 0: how many glyphs stand before it. There has to be a slot.
    /// Behind the newest component, and of one whose slot was written over, it is what the slot has.
    pub fn component(&self, j: usize) -> usize
        requires { 0 < length self.now.registers.slots }
        ensures { result ≡ component self.now.registers j }
    {
        self.held.place(j)
    }
}

impl<'a, const SLOTS: usize> driver_context_t<u16> for LigatureCtx<'a, SLOTS> {
    ghost use Rattle.std.specs.Prelude.{false, true};
    ghost use Rattle.aat_machine_tables.specs.Entries.{goes_on};
    ghost use Rattle.aat_font.specs.Idle.{ligature_rests};
    ghost use Rattle.aat_kinds.specs.facts.Resting.{ligature_held_rest};
    ghost use Rattle.aat_kinds.specs.Ligature as ligature;
    ghost use Rattle.aat_kinds.specs.facts.LigatureHeld as laws;

    ghost fits = { ligature.IsHeldFit };

    ghost is_fresh = { ligature.IsHeldFresh };

    ghost stays_in_place = { false };

    ghost keeps_length = { true };

    ghost advances = { goes_on };

    ghost resting = { ligature_rests };

    ghost actionable = { ligature.held_actionable };

    ghost act = { ligature.held_act };

    fn in_place(&self) -> bool {
        false
    }

    fn can_advance(&self, entry: &GenericStateEntry<u16>) -> bool {
        entry.has_advance()
    }

    fn acts_by_entries<A: Allocator + Copy>(&self, _buffer: &hb_buffer_t<A>) -> bool {
        true
    }

    fn rests(&self, entry: &GenericStateEntry<u16>) -> bool {
        ligature_entry_rests(entry)
    }

    fn is_actionable<A: Allocator + Copy>(
        &self,
        entry: &GenericStateEntry<u16>,
        _buffer: &hb_buffer_t<A>,
    ) -> bool {
        entry.flags & PERFORM_ACTION != 0
    }

    /// Does what the entry says. The number of glyphs stays, and each component behind the last ligature that the entry
    /// makes is the deleted glyph, unless it has the same place as that ligature. Never refused.
    /// What is held has to fit, and each glyph id has to be at most 0xFFFF, and is so again.
    ///
    /// Holding a component is O(1); taking components in is O(of their number, and for each ligature that is stored of
    /// the glyphs that its merge makes one cluster).
    // two runs take it, of which one closes what acts look at; a turn of either needs no call
    #[inline(always)]
    #[tactic(auto, unfolding(crate::specs::Ligature::act))]
    fn transition<A: Allocator + Copy>(
        &mut self,
        entry: &GenericStateEntry<u16>,
        buffer: &mut hb_buffer_t<A>,
    ) -> Result<(), AatError>
        requires fit { IsHeldFit self.old buffer.old.cursor (length buffer.old.line) }
        requires ids { IsSmall buffer.old }
        ensures taken { IsOk result }
        ensures act { OnOk result (
            record { registers = self.new; buffer = buffer.new } ≡ held_act entry.now self.old buffer.old) }
        ensures ids { OnOk result (IsSmall buffer.new) }
        ensures reason { IfErr result (IsRefusal buffer.old (held_act entry.now self.old buffer.old).buffer) }
        ensures refused { OnErr result (IsRefused buffer.old buffer.new) }
        ensures count { length buffer.new.line ≡ length buffer.old.line }
        ensures deleted { DeletesLater entry.now self.old buffer.old buffer.new.line }
    {
        let cursor = buffer.backtrack_len();
        let length = buffer.len();
        if entry.has_push() {
            self.held.push(cursor);
        }
        if entry.flags & PERFORM_ACTION != 0 && cursor < length {
            self.held.ligate(self.subtable, entry.extra, buffer);
        }
        Ok(())
    }

    ghost rests_alone = { ligature_held_rest };

    ghost fits_fresh = { laws.fits_where_fresh };

    ghost keeps_fit = { laws.keeps_fit };

    ghost passes_fit = { laws.passes_fit };

    ghost pays = { laws.pays };

    ghost bounded = { laws.bounded };

    ghost lengthens = { laws.lengthens };

    ghost makes_no_positions = { laws.makes_no_positions };

    ghost keeps_settings = { laws.keeps_settings };

    ghost keeps_place = { laws.keeps_place };

    ghost keeps_count = { λ yes. laws.keeps_length };

    ghost keeps_order = { laws.keeps_order };
}

/// Makes the glyphs from one place up to another one cluster, if there are any.
#[tactic(auto, using(crate::specs::facts::LigatureLaws::small_of_merge_out))]
fn merge_span<A: Allocator + Copy>(buffer: &mut hb_buffer_t<A>, start: usize, end: usize)
    requires ids { IsSmall buffer.old }
    ensures merged { buffer.new ≡
        (if nat_lt start end then merge_out_clusters buffer.old start end else buffer.old) }
    ensures ids { IsSmall buffer.new }
    ensures count { length buffer.new.line ≡ length buffer.old.line }
{
    if start >= end {
        return;
    }
    buffer.merge_out_clusters(start, end);
}

/// A component that goes into a ligature.
fn deleted(glyph: hb_glyph_info_t) -> hb_glyph_info_t
    ensures { result ≡ deleted glyph }
{
    hb_glyph_info_t {
        glyph_id: DELETED_GLYPH,
        unicode_props: glyph.unicode_props | UnicodeProps::IGNORABLE.bits(),
        ..glyph
    }
}
