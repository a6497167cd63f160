//! How a line of glyphs is kept: in one vector, whose unused cells stand at the cursor.
ghost use Rattle.std.specs.Prelude.{◌≡◌, ◌+◌, ◌-◌, ◌<◌, ◌≤◌, ◌^◌, ◌++◌, Some, IfOk, OnOk, OnErr, drop, length, map, nat_lt, reverse, set, slice_get, slice_range, take, vec_len};
ghost use Rattle.std.specs.Borrow.{sem};
ghost use Rattle.std.specs.List.{copy_within};
ghost use Rattle.aat_buffer.specs.Buffer.{glyph_at};
ghost use Rattle.aat_buffer.specs.inside.Gap.{around_gap};
ghost use Rattle.aat_buffer.specs.inside.Line.{Line, empty_line, moved_to, turned_line, with_all_inserted, with_changed, with_inserted, with_last, without_current};
ghost use Rattle.aat_buffer.specs.Marks.{marked_above, on_span};
ghost use Rattle.aat_buffer.specs.inside.Changes.{ChangesBy};
ghost use Rattle.aat_buffer.specs.inside.LineLending.{LendsGlyph, LendsRest};

use aat_glyph::{glyph_flag, hb_glyph_info_t};
use std::alloc::{AllocError, Allocator};
use std::marker::Model;

/// A line of glyphs with a cursor, seen by contracts as the record `Line` of specs/inside.
///
/// The cells from `gap_start` up to `gap_end` are the gap and are not part of the line. The gap begins at the
/// cursor: where that moves, the glyphs on its way are carried over the gap, if that has cells. Where the cursor goes
/// from the end to the front the cells of the gap are dropped instead.
#[derive(Drop)]
pub(crate) struct GapLine<A: Allocator + Copy> {
    cells: Vec<hb_glyph_info_t, A>,
    gap_start: usize,
    gap_end: usize,
}

impl<A: Allocator + Copy> Model for GapLine<A> {
    ghost use Rattle.aat_buffer.specs.inside.Line.{Line};

    ghost Value = { Line };

    ghost use Rattle.aat_buffer.specs.inside.Gap.{line_of, IsSoundGap};

    ghost view = { line_of };

    ghost invariant = { IsSoundGap };
}

impl<A: Allocator + Copy> GapLine<A> {
    /// A line without glyphs. It takes no memory.
    pub(crate) fn new(alloc: A) -> GapLine<A>
        ensures { result ≡ empty_line }
    {
        GapLine {
            cells: Vec::new(alloc),
            gap_start: 0,
            gap_end: 0,
        }
    }

    /// The line of these glyphs, with the cursor at its front. It takes no memory.
    pub(crate) fn of(glyphs: Vec<hb_glyph_info_t, A>) -> GapLine<A>
        ensures { result ≡ record { glyphs = glyphs.items; cursor = 0 } }
    {
        GapLine {
            cells: glyphs,
            gap_start: 0,
            gap_end: 0,
        }
    }

    /// How many glyphs the line has.
    pub(crate) fn len(&self) -> usize
        ensures { result ≡ length self.now.glyphs }
    {
        self.gap_start + (self.cells.len() - self.gap_end)
    }

    /// How many glyphs stand before the cursor.
    pub(crate) fn cursor(&self) -> usize
        ensures place { result ≡ self.now.cursor }
        ensures within { result ≤ length self.now.glyphs }
    {
        self.gap_start
    }

    /// Whether the cursor is before the end.
    pub(crate) fn has_current(&self) -> bool
        ensures { result ≡ nat_lt self.now.cursor (length self.now.glyphs) }
    {
        self.gap_end < self.cells.len()
    }

    /// Whether a glyph stands behind the one at the cursor.
    pub(crate) fn has_next(&self) -> bool
        ensures { result ≡ nat_lt (self.now.cursor + 1) (length self.now.glyphs) }
    {
        self.gap_end + 1 < self.cells.len()
    }

    /// The glyph at place `i`.
    pub(crate) fn get(&self, i: usize) -> &hb_glyph_info_t
        requires { i < length self.now.glyphs }
        ensures { slice_get self.now.glyphs i ≡ Some result.now }
    {
        let cell = if i < self.gap_start {
            i
        } else {
            i + (self.gap_end - self.gap_start)
        };
        &self.cells[cell]
    }

    /// The glyph at place `i`, to be written.
    pub(crate) fn get_mut(&mut self, i: usize) -> &mut hb_glyph_info_t
        requires { i < length self.old.glyphs }
        ensures* writes_back { sem 𝓛 (LendsGlyph A.row A.Allocator self.entry i result) }
        ensures value { slice_get self.old.glyphs i ≡ Some result.now }
    {
        if i < self.gap_start {
            &mut self.cells[i]
        } else {
            let cell = i + (self.gap_end - self.gap_start);
            &mut self.cells[cell]
        }
    }

    /// The glyphs from the cursor on.
    pub(crate) fn rest(&self) -> &[hb_glyph_info_t]
        ensures { result.now ≡ drop self.now.cursor self.now.glyphs }
    {
        &self.cells[self.gap_end..]
    }

    /// The glyphs from place `start` up to place `end`: those before the cursor, and those from it on.
    pub(crate) fn parts(&self, start: usize, end: usize) -> (&[hb_glyph_info_t], &[hb_glyph_info_t])
        requires ordered { start ≤ end }
        requires in_line { end ≤ length self.now.glyphs }
        ensures { result.0.now ++ result.1.now ≡ slice_range self.now.glyphs start end }
    {
        cell_parts(&self.cells, self.gap_start, self.gap_end, start, end)
    }

    /// The glyphs from the cursor on, to be written.
    pub(crate) fn rest_mut(&mut self) -> &mut [hb_glyph_info_t]
        ensures* writes_back { sem 𝓛 (LendsRest A.row A.Allocator self.entry result) }
        ensures value { result.now ≡ drop self.old.cursor self.old.glyphs }
    {
        self.cells.slice_mut(self.gap_end..)
    }

    /// Puts in place of each glyph from place `start` up to place `end` what `change` makes of it, in as many steps
    /// as those are.
    #[tactic(auto, using(crate::proofs::Gap::line_length))]
    pub(crate) fn change<F: Fn(&hb_glyph_info_t) -> hb_glyph_info_t>(
        &mut self,
        start: usize,
        end: usize,
        change: &F,
    )
        requires ordered { start ≤ end }
        requires in_line { end ≤ length self.old.glyphs }
        requires callable { F.IsAlwaysCallable change.now }
        ensures after { (f : hb_glyph_info_t → hb_glyph_info_t) → ChangesBy F.Fn change.now f
            → self.new ≡ with_changed self.old f start end }
        ensures len { length self.new.glyphs ≡ length self.old.glyphs }
        ensures cursor { self.new.cursor ≡ self.old.cursor }
    {
        change_cells(
            self.cells.as_mut_slice(),
            self.gap_start,
            self.gap_end,
            start,
            end,
            change,
        );
    }

    /// Sets UNSAFE_TO_BREAK and UNSAFE_TO_CONCAT on each glyph from place `start` up to place `end` whose cluster is
    /// not this one, in as many steps as the span is long.
    #[tactic(auto, using(crate::proofs::Gap::line_length))]
    pub(crate) fn mark_other_than(&mut self, start: usize, end: usize, cluster: u32)
        requires ordered { start ≤ end }
        requires in_line { end ≤ length self.old.glyphs }
        ensures after { self.new ≡ with_changed self.old (marked_above cluster 3) start end }
        ensures len { length self.new.glyphs ≡ length self.old.glyphs }
    {
        mark_cells(
            self.cells.as_mut_slice(),
            self.gap_start,
            self.gap_end,
            start,
            end,
            cluster,
        );
    }

    /// Moves the cursor over one glyph.
    pub(crate) fn next(&mut self)
        requires { self.old.cursor < length self.old.glyphs }
        ensures { self.new ≡ moved_to self.old (self.old.cursor + 1) }
    {
        if self.gap_start != self.gap_end {
            copy_fields(self.cells.as_mut_slice(), self.gap_end, self.gap_start);
        }
        self.gap_start += 1;
        self.gap_end += 1;
    }

    /// Moves the cursor to place `i`, in at most as many steps as it is away, and in one where the gap has no cells.
    /// From the end to the front, as behind a run over the line, the cells of the gap are dropped, since else each glyph
    /// would be carried over them.
    #[tactic(auto, using(crate::proofs::Gap::moved_empty, crate::proofs::Gap::whole_line))]
    pub(crate) fn move_to(&mut self, i: usize)
        requires { i ≤ length self.old.glyphs }
        ensures { self.new ≡ moved_to self.old i }
    {
        if self.gap_start == self.gap_end {
            self.gap_end = i;
        } else if i == 0 && self.gap_end == self.cells.len() {
            self.cells.truncate(self.gap_start);
            self.gap_end = 0;
        } else {
            self.gap_end = carry_gap(self.cells.as_mut_slice(), self.gap_start, self.gap_end, i);
        }
        self.gap_start = i;
    }

    /// Puts a glyph last. O(1), amortised.
    pub(crate) fn push(&mut self, glyph: hb_glyph_info_t) -> Result<(), AllocError>
        ensures ok { OnOk result (self.new ≡ with_last self.old glyph) }
        ensures err { OnErr result (self.new ≡ self.old) }
    {
        self.cells.reserve(1)?;
        self.cells.push_reserved(glyph);
        Ok(())
    }

    /// Puts a glyph in at the cursor, which moves past it. O(1), amortised.
    #[tactic(auto, using(crate::proofs::Gap::put_in_gap))]
    pub(crate) fn insert(&mut self, glyph: hb_glyph_info_t) -> Result<(), AllocError>
        requires { length self.old.glyphs < 2 ^ 32 }
        ensures ok { OnOk result (self.new ≡ with_inserted self.old glyph) }
        ensures err { OnErr result (self.new ≡ self.old) }
    {
        if self.gap_start == self.gap_end {
            self.gap_end = grow_gap(&mut self.cells, self.gap_start, self.gap_end, 1)?;
        }
        self.cells[self.gap_start] = glyph;
        self.gap_start += 1;
        Ok(())
    }

    /// Puts glyphs in at place `i`, which is not behind the cursor, and moves the cursor on by their number. O(their
    /// number and how far the cursor is behind `i`), amortised.
    pub(crate) fn insert_all(
        &mut self,
        i: usize,
        glyphs: &[hb_glyph_info_t],
    ) -> Result<(), AllocError>
        requires line { length self.old.glyphs < 2 ^ 32 }
        requires glyphs { length glyphs.now < 2 ^ 32 }
        requires place { i ≤ self.old.cursor }
        ensures ok { OnOk result (self.new ≡ with_all_inserted self.old i glyphs.now) }
        ensures err { OnErr result (self.new ≡ self.old) }
    {
        let count = glyphs.len();
        if self.gap_end - self.gap_start < count {
            self.gap_end = grow_gap(&mut self.cells, self.gap_start, self.gap_end, count)?;
        }
        put_before_gap(
            self.cells.as_mut_slice(),
            self.gap_start,
            self.gap_end,
            i,
            glyphs,
        );
        self.gap_start += count;
        Ok(())
    }

    /// Takes the glyph at the cursor out. O(1).
    pub(crate) fn remove(&mut self)
        requires { self.old.cursor < length self.old.glyphs }
        ensures { self.new ≡ without_current self.old }
    {
        self.gap_end += 1;
    }

    /// Puts the glyphs in the opposite order, in as many steps as there are. The cursor stays.
    pub(crate) fn reverse(&mut self)
        ensures { self.new ≡ turned_line self.old }
    {
        let p = self.gap_start;
        self.move_to(self.len());
        turn_front(self.cells.as_mut_slice(), self.gap_start, self.gap_end);
        self.move_to(p);
    }
}

/// The glyphs of a span of the line: those before the gap, and those behind it.
#[tactic(auto, using(crate::proofs::Changed::read_parts))]
fn cell_parts(
    cells: &[hb_glyph_info_t],
    gap_start: usize,
    gap_end: usize,
    start: usize,
    end: usize,
) -> (&[hb_glyph_info_t], &[hb_glyph_info_t])
    requires gap { gap_start ≤ gap_end }
    requires in_cells { gap_end ≤ length cells.now }
    requires ordered { start ≤ end }
    requires in_line { end ≤ gap_start + (length cells.now - gap_end) }
    ensures { result.0.now ++ result.1.now ≡ slice_range (around_gap cells.now gap_start gap_end) start end }
{
    let gap = gap_end - gap_start;
    let front = &cells[start.min(gap_start)..end.min(gap_start)];
    let rest = &cells[start.max(gap_start) + gap..end.max(gap_start) + gap];
    (front, rest)
}

/// Puts in place of the glyphs of a span of the line what `change` makes of them: of those before the gap, and of those
/// behind it.
fn change_cells<F: Fn(&hb_glyph_info_t) -> hb_glyph_info_t>(
    cells: &mut [hb_glyph_info_t],
    gap_start: usize,
    gap_end: usize,
    start: usize,
    end: usize,
    change: &F,
)
    requires gap { gap_start ≤ gap_end }
    requires in_cells { gap_end ≤ length cells.old }
    requires ordered { start ≤ end }
    requires in_line { end ≤ gap_start + (length cells.old - gap_end) }
    requires callable { F.IsAlwaysCallable change.now }
    ensures after { (f : hb_glyph_info_t → hb_glyph_info_t) → ChangesBy F.Fn change.now f
        → around_gap cells.new gap_start gap_end
        ≡ on_span (map f) start end (around_gap cells.old gap_start gap_end) }
    ensures len { length cells.new ≡ length cells.old }
{
    let gap = gap_end - gap_start;
    change_all(&mut cells[start.min(gap_start)..end.min(gap_start)], change);
    change_all(
        &mut cells[start.max(gap_start) + gap..end.max(gap_start) + gap],
        change,
    );
}

/// Puts in place of each glyph what `change` makes of it.
fn change_all<F: Fn(&hb_glyph_info_t) -> hb_glyph_info_t>(
    glyphs: &mut [hb_glyph_info_t],
    change: &F,
)
    requires { F.IsAlwaysCallable change.now }
    ensures after { (f : hb_glyph_info_t → hb_glyph_info_t) → ChangesBy F.Fn change.now f
        → glyphs.new ≡ map f glyphs.old }
    ensures len { length glyphs.new ≡ length glyphs.old }
{
    for glyph in glyphs.iter_mut() {
        *glyph = change(glyph);
    }
}

/// Marks the glyphs of a span of the line whose cluster is not this one: those before the gap, and those behind it.
fn mark_cells(
    cells: &mut [hb_glyph_info_t],
    gap_start: usize,
    gap_end: usize,
    start: usize,
    end: usize,
    cluster: u32,
)
    requires gap { gap_start ≤ gap_end }
    requires in_cells { gap_end ≤ length cells.old }
    requires ordered { start ≤ end }
    requires in_line { end ≤ gap_start + (length cells.old - gap_end) }
    ensures after { around_gap cells.new gap_start gap_end
        ≡ on_span (map (marked_above cluster 3)) start end (around_gap cells.old gap_start gap_end) }
    ensures len { length cells.new ≡ length cells.old }
{
    let gap = gap_end - gap_start;
    mark_all_other_than(
        &mut cells[start.min(gap_start)..end.min(gap_start)],
        cluster,
    );
    mark_all_other_than(
        &mut cells[start.max(gap_start) + gap..end.max(gap_start) + gap],
        cluster,
    );
}

/// Marks each glyph whose cluster is not this one.
fn mark_all_other_than(glyphs: &mut [hb_glyph_info_t], cluster: u32)
    ensures after { glyphs.new ≡ map (marked_above cluster 3) glyphs.old }
    ensures len { length glyphs.new ≡ length glyphs.old }
{
    for glyph in glyphs.iter_mut() {
        mark_glyph_other_than(glyph, cluster);
    }
}

/// Sets UNSAFE_TO_BREAK and UNSAFE_TO_CONCAT on a glyph, unless its cluster is this one. Then nothing is written, and
/// else the mask alone: LLVM makes a loop that writes whole records one over several at once, which is slow on short
/// spans.
fn mark_glyph_other_than(glyph: &mut hb_glyph_info_t, cluster: u32)
    ensures { glyph.new ≡ marked_above cluster 3 glyph.old }
{
    if glyph.cluster != cluster {
        glyph.mask |= glyph_flag::UNSAFE_TO_BREAK | glyph_flag::UNSAFE_TO_CONCAT;
    }
}

/// Moves the gap to `place` of the line, and gives its new end. It stands apart, since most gaps have no cells.
#[inline(never)]
#[tactic(auto, using(crate::proofs::Gap::carried_right, crate::proofs::Gap::carried_left))]
fn carry_gap(cells: &mut [hb_glyph_info_t], start: usize, end: usize, place: usize) -> usize
    requires ordered { start ≤ end }
    requires in_cells { end ≤ length cells.old }
    requires in_line { place ≤ start + (length cells.old - end) }
    ensures new_end { result ≡ place + (end - start) }
    ensures within { result ≤ length cells.new }
    ensures line { around_gap cells.new place result ≡ around_gap cells.old start end }
    ensures len { length cells.new ≡ length cells.old }
{
    if start < place {
        let count = place - start;
        carry(cells, end, count, start);
        end + count
    } else {
        let count = start - place;
        carry(cells, place, count, end - count);
        end - count
    }
}

/// Copies so many glyphs from one place to another, a single one without a loop.
fn carry(cells: &mut [hb_glyph_info_t], from: usize, count: usize, to: usize)
    requires read { from + count ≤ length cells.old }
    requires written { to + count ≤ length cells.old }
    ensures after { cells.new ≡ copy_within cells.old from (from + count) to }
    ensures len { length cells.new ≡ length cells.old }
{
    if count == 1 {
        cells[to] = cells[from];
    } else {
        cells.copy_within(from..from + count, to);
    }
}

/// Copies a glyph to another place, field by field: a processor that reads the whole record at once waits until a mark
/// that was just written to one of its fields has left for the memory. The mask is the third field of a record, since LLVM
/// reads the first two as one.
fn copy_fields(cells: &mut [hb_glyph_info_t], from: usize, to: usize)
    requires read { from < length cells.old }
    requires written { to < length cells.old }
    ensures after { cells.new ≡ set cells.old to (glyph_at cells.old from) }
    ensures len { length cells.new ≡ length cells.old }
{
    cells[to].glyph_id = cells[from].glyph_id;
    cells[to].cluster = cells[from].cluster;
    cells[to].mask = cells[from].mask;
    cells[to].glyph_props = cells[from].glyph_props;
    cells[to].unicode_props = cells[from].unicode_props;
}

/// Makes a gap larger, by a quarter of the cells and by as many more as are wanted, or by 16 where those are fewer, and
/// gives its new end.
fn grow_gap<A: Allocator>(
    cells: &mut Vec<hb_glyph_info_t, A>,
    start: usize,
    end: usize,
    count: usize,
) -> Result<usize, AllocError>
    requires ordered { start ≤ end }
    requires in_cells { end ≤ vec_len cells.old }
    requires small { vec_len cells.old < 2 ^ 33 }
    requires few { count < 2 ^ 32 }
    ensures wider { IfOk result (λ e. (start + count ≤ e) × (e ≤ vec_len cells.new)) }
    ensures line { IfOk result (λ e. around_gap cells.new.items start e ≡ around_gap cells.old.items start end) }
    ensures err { OnErr result ((cells.new.items ≡ cells.old.items) × (vec_len cells.new ≡ vec_len cells.old)) }
{
    let len = cells.len();
    let more = len / 4 + count.max(16);
    cells.resize(len + more, hb_glyph_info_t::default())?;
    cells.copy_within(end..len, end + more);
    Ok(end + more)
}

/// Puts glyphs in at a place before a gap, or where it begins: those between are carried into it. It begins behind them
/// afterwards.
fn put_before_gap(
    cells: &mut [hb_glyph_info_t],
    start: usize,
    end: usize,
    place: usize,
    glyphs: &[hb_glyph_info_t],
)
    requires place { place ≤ start }
    requires room { start + length glyphs.now ≤ end }
    requires in_cells { end ≤ length cells.old }
    ensures line { around_gap cells.new (start + length glyphs.now) end
        ≡ take place (around_gap cells.old start end)
        ++ (glyphs.now ++ drop place (around_gap cells.old start end)) }
    ensures len { length cells.new ≡ length cells.old }
{
    let count = glyphs.len();
    if place < start {
        carry(cells, place, start - place, place + count);
    }
    cells[place..place + count].copy_from_slice(glyphs);
}

/// Puts the glyphs of a line that stands before the gap as a whole in the opposite order.
#[tactic(auto, using(crate::proofs::Gap::whole_front, crate::proofs::Gap::whole_line))]
fn turn_front(cells: &mut [hb_glyph_info_t], start: usize, end: usize)
    requires ordered { start ≤ end }
    requires in_cells { end ≡ length cells.old }
    ensures line { around_gap cells.new start end ≡ reverse (around_gap cells.old start end) }
    ensures len { length cells.new ≡ length cells.old }
{
    cells[..start].reverse();
}
