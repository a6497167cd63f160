//! Insertion subtables: runs of glyphs go in at the marked place and at the cursor.
ghost use Rattle.std.specs.Prelude.{◌≡◌, ◌+◌, ◌-◌, ◌<◌, ◌≤◌, ◌↔◌, ◌&&◌, if◌then◌else◌, nat_lt, length, not, All, take, false, IfErr, IsErrOf, IsTrue, OnErr, OnOk};
ghost use Rattle.aat_buffer.specs.Buffer.{Is16Bit, failed, model_at, with_cursor, with_glyphs_at};
ghost use Rattle.aat_glyph.specs.declared.error.BufferError.{BufferError};
ghost use Rattle.aat_glyph.specs.declared.error.BufferError.TheVariants as BufferError;
ghost use Rattle.aat_buffer.specs.Clusters.{IsSmall};
ghost use Rattle.aat_machine_tables.specs.Entries.{goes_on, has_flag, is_present};
ghost use Rattle.aat_run.specs.Budget.{paid};
ghost use Rattle.aat_run.specs.Driven.{IsRefusal, IsRefused};
ghost use Rattle.aat_run.specs.Laws.{FitsFresh, SameSettings};
ghost use Rattle.aat_kinds.specs.Insertion.{IsLineOfWholeRuns, at_cursor, at_mark, copies, current_count, current_part, fresh, held_act, held_fit, inserted, line_of_first_run, marked_count, put_in, run_for, with_mark};
ghost use Rattle.aat_kinds.specs.inside.Run.{IsRefusedRun, put_behind_current};

use aat_buffer::{BufferError, hb_buffer_t, hb_glyph_info_t};
use aat_font::insertion_entry_rests;
use aat_lookup::GlyphId;
use aat_machine_tables::entry_bits::insertion::{
    CURRENT_INSERT_BEFORE, CURRENT_INSERT_COUNT, MARKED_INSERT_BEFORE, MARKED_INSERT_COUNT,
};
use aat_machine_tables::{GenericStateEntry, InsertionEntryData};
use aat_run::{AatError, driver_context_t};
use std::alloc::Allocator;
use std::marker::Model;

/// How many glyphs a run has at most.
const LONGEST_RUN: usize = 31;

/// The index of no glyphs.
const NO_GLYPHS: u16 = 0xFFFF;

/// The register of an insertion machine, a marked place, over the glyphs of a subtable.
///
/// An entry may put a run of at most 31 of those glyphs in at the mark, and another one at the cursor, before or behind
/// the glyph there, and may mark the cursor. Each glyph that goes in is a copy of the one at its place, or of the last
/// one at the end of the text, with another id. A run that would leave the list, or go into an empty line, is one of no
/// glyphs. The number that the entry counts for a run is paid out of the budget where the run has an index and the act
/// comes to it, whatever goes in: a marked run that leaves no budget does not go in, and ends the act, and a current
/// one that leaves a debt does not go in.
///
/// A contract sees it as the record `Held`.
///
/// Apple's TrueType Reference Manual, "The 'morx' table", glyph insertion.
#[derive(Drop)]
pub struct InsertionCtx<'a> {
    glyphs: &'a [GlyphId],
    mark: usize,
}

impl<'a> Model for InsertionCtx<'a> {
    ghost use Rattle.aat_kinds.specs.Insertion.{Held};

    ghost Value = { Held };

    ghost view = { λ m. record { glyphs = m.glyphs.now; registers = record { mark = m.mark } } };
}

impl<'a> InsertionCtx<'a> {
    /// The first place marked, over the glyphs of a subtable. It fits at the front of each line.
    pub fn new(glyphs: &'a [GlyphId]) -> InsertionCtx<'a>
        ensures value { result ≡ record { glyphs = glyphs.now; registers = fresh } }
        ensures fits { FitsFresh held_fit result }
    {
        InsertionCtx { glyphs, mark: 0 }
    }

    /// Puts the run of an entry for the mark in, and makes the line unsafe from there to the cursor.
    #[tactic(auto, unfolding(crate::specs::Insertion::at_mark))]
    fn insert_marked<A: Allocator + Copy>(
        &self,
        entry: &GenericStateEntry<InsertionEntryData>,
        buffer: &mut hb_buffer_t<A>,
    ) -> Result<(), AatError>
        requires fit { self.now.registers.mark ≤ length buffer.old.line }
        requires ids { IsSmall buffer.old }
        ensures ok { OnOk result (buffer.new ≡ at_mark self.now.glyphs entry.now self.now.registers buffer.old) }
        ensures ids { OnOk result (IsSmall buffer.new) }
        ensures longer { OnOk result (length buffer.old.line ≤ length buffer.new.line) }
        ensures settings { OnOk result (SameSettings buffer.old buffer.new) }
        ensures reason { IfErr result (IsRefusal buffer.old
            (at_mark self.now.glyphs entry.now self.now.registers buffer.old)) }
        ensures too_long { buffer.old.max_len
            < length (at_mark self.now.glyphs entry.now self.now.registers buffer.old).line
            → IsErrOf result AatError.TooLong }
        ensures refused { OnErr result (IsRefusedRun buffer.old buffer.new) }
    {
        let run = run_for(
            self.glyphs,
            buffer,
            entry.extra.marked_insert_index,
            entry.flags & MARKED_INSERT_COUNT,
        );
        let _length = buffer.len();
        let cursor = buffer.backtrack_len() + run.len();
        put_in(
            buffer,
            run,
            self.mark,
            entry.flags & MARKED_INSERT_BEFORE == 0,
            cursor,
        )?;
        let end = (cursor + 1).min(buffer.len());
        buffer.unsafe_to_break(Some(self.mark), Some(end));
        Ok(())
    }

    /// Marks a place where an entry says so, and puts its run for the cursor in.
    fn mark_and_insert<A: Allocator + Copy>(
        &mut self,
        entry: &GenericStateEntry<InsertionEntryData>,
        place: usize,
        buffer: &mut hb_buffer_t<A>,
    ) -> Result<(), AatError>
        requires ids { IsSmall buffer.old }
        ensures glyphs { self.new.glyphs ≡ self.old.glyphs }
        ensures mark { self.new.registers ≡ with_mark entry.now self.old.registers place }
        ensures ok { OnOk result (buffer.new ≡
            (current_part self.old.glyphs entry.now self.new.registers buffer.old).buffer) }
        ensures ids { OnOk result (IsSmall buffer.new) }
        ensures successful { OnOk result (buffer.new.successful ≡ buffer.old.successful) }
        ensures reason { IfErr result (IsRefusal buffer.old
            (current_part self.old.glyphs entry.now self.new.registers buffer.old).buffer) }
        ensures too_long { buffer.old.max_len
            < length (current_part self.old.glyphs entry.now self.new.registers buffer.old).buffer.line
            → IsErrOf result AatError.TooLong }
        ensures refused { OnErr result (IsRefusedRun buffer.old buffer.new) }
        ensures current { OnErr result (IsTrue (is_present entry.now.extra.current_insert_index)) }
    {
        let _length = buffer.len();
        // written whether or not the entry marks, since no processor foresees which do
        self.mark = if entry.has_mark() { place } else { self.mark };
        if entry.extra.current_insert_index == NO_GLYPHS {
            return Ok(());
        }
        insert_current(self.glyphs, entry, buffer)
    }
}

impl<'a> driver_context_t<InsertionEntryData> for InsertionCtx<'a> {
    ghost use Rattle.std.specs.Prelude.{false};
    ghost use Rattle.aat_machine_tables.specs.Entries.{goes_on};
    ghost use Rattle.aat_font.specs.Idle.{insertion_rests};
    ghost use Rattle.aat_kinds.specs.facts.Resting.{insertion_held_rest};
    ghost use Rattle.aat_kinds.specs.Insertion as insertion;
    ghost use Rattle.aat_kinds.specs.facts.InsertionHeld as laws;

    ghost fits = { insertion.held_fit };

    ghost is_fresh = { insertion.IsHeldFresh };

    ghost stays_in_place = { false };

    ghost keeps_length = { false };

    ghost advances = { goes_on };

    ghost resting = { insertion_rests };

    ghost actionable = { insertion.held_actionable };

    ghost act = { insertion.held_act };

    fn in_place(&self) -> bool {
        false
    }

    fn can_advance(&self, entry: &GenericStateEntry<InsertionEntryData>) -> bool {
        entry.has_advance()
    }

    fn acts_by_entries<A: Allocator + Copy>(&self, _buffer: &hb_buffer_t<A>) -> bool {
        true
    }

    fn rests(&self, entry: &GenericStateEntry<InsertionEntryData>) -> bool {
        insertion_entry_rests(entry)
    }

    fn is_actionable<A: Allocator + Copy>(
        &self,
        entry: &GenericStateEntry<InsertionEntryData>,
        _buffer: &hb_buffer_t<A>,
    ) -> bool {
        // all parts are asked, since no processor foresees each of them
        let has_glyphs = (entry.extra.current_insert_index != NO_GLYPHS)
            | (entry.extra.marked_insert_index != NO_GLYPHS);
        (entry.flags & (CURRENT_INSERT_COUNT | MARKED_INSERT_COUNT) != 0) & has_glyphs
    }

    /// Does what the entry says. A run of r glyphs is O(r and how far the cursor is from its place), amortised.
    ///
    /// Refused as 2, `TooLong`, only where the act would leave a line longer than the buffer's `max_len`, and as 3,
    /// `OutOfMemory`, only where it would leave a longer line than it found. A run goes in whole or not at all, and the
    /// length is looked at before memory is asked for: where the line would be too long by the first run that goes in,
    /// it is always 2, `TooLong`, and where it would be by the second one alone either may come. The driver sees whole
    /// acts and not their runs of glyphs, so from here up that is told of a line without room for a glyph alone. After
    /// a refusal the buffer has failed, its line is of 16-bit glyphs, at most its greatest length long, and that from
    /// before the act or, where the current run is refused behind a marked one that went in, the one with that marked
    /// run; all but line, cursor, positions and budget is as before, and the registers are any.
    ///
    /// The registers have to fit, and each glyph id has to be at most 0xFFFF, and is so again.
    #[tactic(auto, using(crate::proofs::Refusals::refused_for_run), unfolding(crate::specs::Insertion::act))]
    fn transition<A: Allocator + Copy>(
        &mut self,
        entry: &GenericStateEntry<InsertionEntryData>,
        buffer: &mut hb_buffer_t<A>,
    ) -> Result<(), AatError>
        requires fit { held_fit self.old buffer.old.cursor (length buffer.old.line) }
        requires ids { IsSmall buffer.old }
        ensures act { OnOk result (
            record { registers = self.new; buffer = buffer.new } ≡ held_act entry.now self.old buffer.old) }
        ensures ids { OnOk result (IsSmall buffer.new) }
        ensures reason { IfErr result (IsRefusal buffer.old (held_act entry.now self.old buffer.old).buffer) }
        ensures too_long { buffer.old.max_len < length (line_of_first_run entry.now self.old buffer.old)
            → IsErrOf result AatError.TooLong }
        ensures refused { OnErr result (IsRefused buffer.old buffer.new) }
        ensures whole { OnErr result (IsLineOfWholeRuns entry.now self.old buffer.old buffer.new.line) }
    {
        let _length = buffer.len();
        let place = buffer.backtrack_len();
        if entry.extra.marked_insert_index != NO_GLYPHS {
            pay_for_marked(entry, buffer);
            if buffer.max_ops() <= 0 {
                return Ok(());
            }
            self.insert_marked(entry, buffer)?;
        }
        self.mark_and_insert(entry, place, buffer)
    }

    ghost rests_alone = { insertion_held_rest };

    ghost fits_fresh = { laws.fits_where_fresh };

    ghost keeps_fit = { laws.keeps_fit };

    ghost passes_fit = { laws.passes_fit };

    ghost pays = { laws.pays };

    ghost bounded = { laws.bounded };

    ghost lengthens = { laws.lengthens };

    ghost makes_no_positions = { laws.makes_no_positions };

    ghost keeps_settings = { laws.keeps_settings };

    ghost keeps_place = { laws.keeps_place };

    ghost keeps_count = { laws.keeps_count };

    ghost keeps_order = { laws.keeps_order };
}

/// Pays for the run of an entry for the cursor, and unless the budget is then below 0, puts it in there. The cursor
/// moves past it where the entry advances.
#[tactic(auto, unfolding(crate::specs::Insertion::at_cursor))]
fn insert_current<A: Allocator + Copy>(
    glyphs: &[GlyphId],
    entry: &GenericStateEntry<InsertionEntryData>,
    buffer: &mut hb_buffer_t<A>,
) -> Result<(), AatError>
    requires ids { IsSmall buffer.old }
    ensures ok { OnOk result (buffer.new ≡ at_cursor glyphs.now entry.now buffer.old) }
    ensures ids { OnOk result (IsSmall buffer.new) }
    ensures successful { OnOk result (buffer.new.successful ≡ buffer.old.successful) }
    ensures reason { IfErr result (IsRefusal buffer.old (at_cursor glyphs.now entry.now buffer.old)) }
    ensures too_long { buffer.old.max_len < length (at_cursor glyphs.now entry.now buffer.old).line
        → IsErrOf result AatError.TooLong }
    ensures refused { OnErr result (IsRefusedRun buffer.old buffer.new) }
{
    let _length = buffer.len();
    let run = paid_run(glyphs, entry, buffer);
    if buffer.max_ops() < 0 {
        return Ok(());
    }
    let place = buffer.backtrack_len();
    let moved = steps_over(entry, run.len());
    let behind = goes_behind(entry);
    if behind && run.len() == 1 && moved == 1 && buffer.has_current() {
        return put_behind_current(buffer, run);
    }
    put_in(buffer, run, place, behind, place + moved)
}

/// Puts a run of one glyph in behind the glyph at the cursor, and moves the cursor to it, as `put_in` does. A copy of the
/// glyph at the cursor goes in before it, and it then gets the id of the run, so that none is carried over the gap and
/// back. Refused as `put_in` is.
#[tactic(auto, using(crate::proofs::Putting::small_of_made, crate::proofs::Putting::put_behind, crate::specs::facts::InsertionLaws::length_inserted), unfolding(crate::specs::Insertion::inserted))]
fn put_behind_current<A: Allocator + Copy>(
    buffer: &mut hb_buffer_t<A>,
    run: &[GlyphId],
) -> Result<(), AatError>
    requires current { buffer.old.cursor < length buffer.old.line }
    requires one { length run.now ≡ 1 }
    requires ids { IsSmall buffer.old }
    ensures ok { OnOk result (buffer.new ≡ put_behind_current run.now buffer.old) }
    ensures ids { OnOk result (IsSmall buffer.new) }
    ensures reason { IfErr result (IsRefusal buffer.old (put_behind_current run.now buffer.old)) }
    ensures too_long { buffer.old.max_len < length (put_behind_current run.now buffer.old).line
        → IsErrOf result AatError.TooLong }
    ensures refused { OnErr result (IsRefusedRun buffer.old buffer.new) }
{
    let _length = buffer.len();
    let place = buffer.backtrack_len();
    let model = *buffer.cur();
    buffer.insert_glyphs_at(place, &[model])?;
    buffer.cur_mut().glyph_id = u32::from(run[0].0);
    Ok(())
}

/// Pays for the run of an entry for the cursor, and answers the run.
fn paid_run<'a, A: Allocator + Copy>(
    glyphs: &'a [GlyphId],
    entry: &GenericStateEntry<InsertionEntryData>,
    buffer: &mut hb_buffer_t<A>,
) -> &'a [GlyphId]
    ensures paid { buffer.new ≡ paid (current_count entry.now) buffer.old }
    ensures run { result.now ≡
        run_for glyphs.now buffer.old entry.now.extra.current_insert_index (current_count entry.now) }
    ensures room { 0 < length result.now → 0 < length buffer.old.line }
    ensures few { length result.now ≤ 31 }
{
    let count = (entry.flags & CURRENT_INSERT_COUNT) / 32;
    pay(buffer, count);
    run_for(glyphs, buffer, entry.extra.current_insert_index, count)
}

/// Whether the run of an entry for the cursor goes in behind the glyph there.
fn goes_behind(entry: &GenericStateEntry<InsertionEntryData>) -> bool
    ensures { result ≡ not (has_flag entry.now 0x0800) }
{
    entry.flags & CURRENT_INSERT_BEFORE == 0
}

/// Over how many glyphs of its run for the cursor, which has `count`, an entry moves the cursor: over all where it
/// advances, and else over none.
fn steps_over(entry: &GenericStateEntry<InsertionEntryData>, count: usize) -> usize
    ensures steps { result ≡ (if goes_on entry.now then count else 0) }
    ensures few { result ≤ count }
{
    if entry.has_advance() { count } else { 0 }
}

/// Pays for the run of an entry for the mark.
fn pay_for_marked<A: Allocator + Copy>(
    entry: &GenericStateEntry<InsertionEntryData>,
    buffer: &mut hb_buffer_t<A>,
)
    ensures { buffer.new ≡ paid (marked_count entry.now) buffer.old }
{
    pay(buffer, entry.flags & MARKED_INSERT_COUNT);
}

/// Pays operations out of the budget, which stays at the least i32 where it would fall below it.
fn pay<A: Allocator + Copy>(buffer: &mut hb_buffer_t<A>, count: u16)
    ensures { buffer.new ≡ paid count buffer.old }
{
    let budget = buffer.max_ops();
    buffer.set_max_ops(budget.saturating_sub(i32::from(count)));
}

/// The run of so many glyphs from an index on: none where it would leave the list, or where the line is empty.
fn run_for<'a, A: Allocator + Copy>(
    glyphs: &'a [GlyphId],
    buffer: &hb_buffer_t<A>,
    index: u16,
    count: u16,
) -> &'a [GlyphId]
    ensures run { result.now ≡ run_for glyphs.now buffer.now index count }
    ensures room { 0 < length result.now → 0 < length buffer.now.line }
    ensures few { length result.now ≤ count }
{
    let start = usize::from(index);
    let end = start + usize::from(count);
    if buffer.len() > 0 && end <= glyphs.len() {
        &glyphs[start..end]
    } else {
        &[]
    }
}

/// The record that glyphs at a place are copies of: that of the glyph there, or of the last one at the end.
fn model_of<A: Allocator + Copy>(buffer: &hb_buffer_t<A>, place: usize) -> hb_glyph_info_t
    requires some { 0 < length buffer.now.line }
    ensures { result ≡ model_at buffer.now.line place }
{
    *buffer.info(place.min(buffer.len() - 1))
}

/// A copy of a record with another id.
fn copy_of(model: hb_glyph_info_t, glyph: GlyphId) -> hb_glyph_info_t
    ensures copy { result ≡ record model { glyph_id = glyph.0 } }
    ensures id { Is16Bit result }
{
    hb_glyph_info_t {
        glyph_id: u32::from(glyph.0),
        ..model
    }
}

/// A run as records: copies of one, each with its own id.
fn records_of(model: hb_glyph_info_t, run: &[GlyphId]) -> [hb_glyph_info_t; LONGEST_RUN]
    requires few { length run.now ≤ 31 }
    ensures copies { take (length run.now) result ≡ copies model run.now }
    ensures ids { All Is16Bit (take (length run.now) result) }
    ensures long { length result ≡ 31 }
{
    let mut records = [model; LONGEST_RUN];
    for i in 0..run.len() {
        records[i] = copy_of(model, run[i]);
    }
    records
}

/// Puts a run in at a place that is not behind the cursor, which moves on by its length, as copies of a record. A run of
/// one glyph, the most frequent, needs no room for others.
fn insert_copies<A: Allocator + Copy>(
    buffer: &mut hb_buffer_t<A>,
    place: usize,
    model: hb_glyph_info_t,
    run: &[GlyphId],
) -> Result<(), BufferError>
    requires place { place ≤ buffer.old.cursor }
    requires few { length run.now ≤ 31 }
    ensures ok { OnOk result (buffer.new ≡ with_glyphs_at buffer.old place (copies model run.now)) }
    ensures small { All Is16Bit (copies model run.now) }
    ensures too_long { IsErrOf result BufferError.TooLong
        ↔ (buffer.old.max_len < length buffer.old.line + length run.now) }
    ensures err { OnErr result (buffer.new ≡ failed buffer.old) }
{
    if run.len() == 1 {
        return buffer.insert_glyphs_at(place, &[copy_of(model, run[0])]);
    }
    insert_records(buffer, place, model, run)
}

/// The same of a run of at most 31 glyphs. It stands apart, so that a run of one glyph does not pay for the room of the
/// longest.
#[inline(never)]
fn insert_records<A: Allocator + Copy>(
    buffer: &mut hb_buffer_t<A>,
    place: usize,
    model: hb_glyph_info_t,
    run: &[GlyphId],
) -> Result<(), BufferError>
    requires place { place ≤ buffer.old.cursor }
    requires few { length run.now ≤ 31 }
    ensures ok { OnOk result (buffer.new ≡ with_glyphs_at buffer.old place (copies model run.now)) }
    ensures small { All Is16Bit (copies model run.now) }
    ensures too_long { IsErrOf result BufferError.TooLong
        ↔ (buffer.old.max_len < length buffer.old.line + length run.now) }
    ensures err { OnErr result (buffer.new ≡ failed buffer.old) }
{
    let records = records_of(model, run);
    buffer.insert_glyphs_at(place, &records[..run.len()])
}

/// Where a run goes in: before the place, or behind the glyph there, if there is one.
fn start_of(place: usize, behind: bool, len: usize) -> usize
    requires low { place ≤ len }
    ensures start { result ≡ (if behind && nat_lt place len then place + 1 else place) }
    ensures within { result ≤ len }
{
    if behind && place < len {
        place + 1
    } else {
        place
    }
}

/// Puts the cursor at a place. Where it stands there already, which is most frequent, the line is not moved.
fn stand_at<A: Allocator + Copy>(buffer: &mut hb_buffer_t<A>, place: usize)
    requires { place ≤ length buffer.old.line }
    ensures { buffer.new ≡ with_cursor buffer.old place }
{
    if buffer.backtrack_len() != place {
        buffer.move_to(place);
    }
}

/// Puts a run in at a place, or behind the glyph there, each a copy of that glyph, or of the last one, with its own id,
/// and the cursor at another place. In as many steps as the run is long, and the cursor is from both places, amortised.
///
/// Refused as 2, `TooLong`, where the line would be too long, and else as 3, `OutOfMemory`, where it gets no memory for
/// the run, which has glyphs then. The buffer has failed, and the line is as before.
#[tactic(auto, using(crate::proofs::Putting::small_of_made, crate::specs::facts::InsertionLaws::length_inserted), unfolding(crate::specs::Insertion::inserted))]
fn put_in<A: Allocator + Copy>(
    buffer: &mut hb_buffer_t<A>,
    run: &[GlyphId],
    place: usize,
    behind: bool,
    cursor: usize,
) -> Result<(), AatError>
    requires place { place ≤ length buffer.old.line }
    requires cursor { cursor ≤ length buffer.old.line + length run.now }
    requires room { 0 < length run.now → 0 < length buffer.old.line }
    requires few { length run.now ≤ 31 }
    requires ids { IsSmall buffer.old }
    ensures ok { OnOk result (buffer.new ≡ put_in run.now place behind cursor buffer.old) }
    ensures ids { OnOk result (IsSmall buffer.new) }
    ensures count { OnOk result (length buffer.new.line ≡ length buffer.old.line + length run.now) }
    ensures reason { IfErr result (IsRefusal buffer.old (put_in run.now place behind cursor buffer.old)) }
    ensures too_long { buffer.old.max_len < length (put_in run.now place behind cursor buffer.old).line
        → IsErrOf result AatError.TooLong }
    ensures refused { OnErr result (IsRefusedRun buffer.old buffer.new) }
{
    let len = buffer.len();
    if run.len() == 0 {
        buffer.drop_positions();
        buffer.move_to(cursor);
        return Ok(());
    }
    let model = model_of(buffer, place);
    let start = start_of(place, behind, len);
    if buffer.backtrack_len() < start {
        buffer.move_to(start);
    }
    insert_copies(buffer, start, model, run)?;
    stand_at(buffer, cursor);
    Ok(())
}
