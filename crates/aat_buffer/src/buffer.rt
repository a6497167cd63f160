//! The buffer: a line of glyphs with a cursor.
ghost use Rattle.std.specs.Prelude.{◌≡◌, ◌+◌, ◌-◌, ◌<◌, ◌≤◌, ◌↔◌, ◌++◌, drop, length, map, nat_lt, slice_get, slice_range, is_some, IsTrue, IsOk, OnOk, OnErr, IfErr, IfSome, IsSome, IsErrOf, All, vec_len};
ghost use Rattle.std.specs.Bool.{OnTrue};
ghost use Rattle.std.specs.Borrow.{sem};
ghost use Rattle.aat_buffer.specs.Buffer.{Buffer, empty_buffer, added, failed, with_cursor, with_line, without_positions, skipped, replaced, reversed, with_zero_positions, position_list, position_at, output, glyph_at, with_info, Is16Bit, with_direction, with_cluster_level, with_flags, with_scratch_flags, with_max_ops, with_positions, with_glyphs_at, with_glyphs_in, with_rewritten};
ghost use Rattle.aat_buffer.specs.Marks.{marked_above, on_line_span, with_mask_bits};
ghost use Rattle.aat_buffer.specs.inside.Changes.{ChangesBy};
ghost use Rattle.aat_buffer.specs.inside.Carried.{items_of};
ghost use Rattle.aat_buffer.specs.inside.Lending.{LendsInfo, LendsCur, LendsFromCursor, LendsPosition, LendsPositions};

use crate::gap_line::GapLine;
use crate::marked_span::{MarkedSpan, MergedSpan};
use aat_glyph::{
    BufferError, BufferFlags, Direction, GlyphPosition, HB_BUFFER_CLUSTER_LEVEL_MONOTONE_GRAPHEMES,
    ScratchFlags, glyph_flag, hb_glyph_info_t,
};
use bitflags::Flags;
use std::alloc::{Allocator, Global};
use std::marker::Model;
use std::mem;

/// A line of glyphs with a cursor, seen by contracts as the record `Buffer` of specs/. All places are places of
/// the line.
///
/// Calls that return no `Result` take no memory, and neither does `clear_output`.
#[derive(Drop)]
pub struct hb_buffer_t<A: Allocator + Copy = Global> {
    line: GapLine<A>,
    /// A span of the line whose break marks are known to stand.
    pub(crate) marked: Option<MarkedSpan>,
    /// A span of the line that is known to be one cluster.
    pub(crate) merged: Option<MergedSpan>,
    positions: Vec<GlyphPosition, A>,
    have_positions: bool,
    direction: Direction,
    cluster_level: u8,
    flags: BufferFlags,
    scratch_flags: ScratchFlags,
    max_ops: i32,
    max_len: usize,
    successful: bool,
}

impl<A: Allocator + Copy> Model for hb_buffer_t<A> {
    ghost use Rattle.aat_buffer.specs.Buffer.{Buffer};

    ghost Value = { Buffer };

    ghost use Rattle.aat_buffer.specs.inside.Inside.{buffer_of, IsSoundInside};

    ghost view = { buffer_of };

    ghost invariant = { IsSoundInside };
}

impl<A: Allocator + Copy> hb_buffer_t<A> {
    /// An empty line without positions, left to right, at cluster level 0, without flags, that has not failed.
    /// `max_len` is the greatest length of the line, in glyphs, and has to be at most 0x3FFFFFFF; `max_ops` is
    /// the budget of operations.
    pub fn new(alloc: A, max_len: usize, max_ops: i32) -> hb_buffer_t<A>
        requires { max_len ≤ 0x3FFFFFFF }
        ensures { result ≡ empty_buffer max_len max_ops }
    {
        hb_buffer_t {
            line: GapLine::new(alloc),
            marked: None,
            merged: None,
            positions: Vec::new(alloc),
            have_positions: false,
            direction: Direction::LeftToRight,
            cluster_level: HB_BUFFER_CLUSTER_LEVEL_MONOTONE_GRAPHEMES,
            flags: BufferFlags::empty(),
            scratch_flags: ScratchFlags::empty(),
            max_ops,
            max_len,
            successful: true,
        }
    }

    /// A line of these glyphs, with the cursor at its front, and all else as [`hb_buffer_t::new`] has it. It takes no
    /// memory but theirs. There have to be at most `max_len` of them.
    pub fn with_line(
        alloc: A,
        line: Vec<hb_glyph_info_t, A>,
        max_len: usize,
        max_ops: i32,
    ) -> hb_buffer_t<A>
        requires most { max_len ≤ 0x3FFFFFFF }
        requires fits { length line.items ≤ max_len }
        ensures { result ≡ with_line (empty_buffer max_len max_ops) line.items }
    {
        let mut buffer = hb_buffer_t::new(alloc, max_len, max_ops);
        buffer.line = GapLine::of(line);
        buffer
    }

    /// How many glyphs the line has.
    pub fn len(&self) -> usize
        ensures count { result ≡ length self.now.line }
        ensures within { result ≤ self.now.max_len }
        ensures small { result ≤ 0x3FFFFFFF }
    {
        self.line.len()
    }

    /// Whether the line has no glyph.
    pub fn is_empty(&self) -> bool
        ensures { IsTrue result ↔ (length self.now.line ≡ 0) }
    {
        self.len() == 0
    }

    /// The cursor: how many glyphs stand before it.
    pub fn backtrack_len(&self) -> usize
        ensures place { result ≡ self.now.cursor }
        ensures within { result ≤ length self.now.line }
    {
        self.line.cursor()
    }

    /// Whether the cursor is before the end. The line has at most 0x3FFFFFFF glyphs.
    pub fn has_current(&self) -> bool
        ensures current { result ≡ nat_lt self.now.cursor (length self.now.line) }
        ensures small { length self.now.line ≤ 0x3FFFFFFF }
    {
        self.line.has_current()
    }

    /// Whether a glyph stands behind the one at the cursor.
    pub fn has_next(&self) -> bool
        ensures { result ≡ nat_lt (self.now.cursor + 1) (length self.now.line) }
    {
        self.line.has_next()
    }

    /// Whether positions stand. They may do so on an empty line too.
    pub fn has_positions(&self) -> bool
        ensures standing { result ≡ is_some self.now.positions }
        ensures placed { OnTrue result (length (position_list self.now) ≡ length self.now.line) }
    {
        self.have_positions
    }

    /// Whether no call was refused so far.
    pub fn is_successful(&self) -> bool
        ensures { result ≡ self.now.successful }
    {
        self.successful
    }

    /// The direction of the text, left to right at first.
    pub fn direction(&self) -> Direction
        ensures { result ≡ self.now.direction }
    {
        self.direction
    }

    /// Sets the direction of the text. Nothing else changes.
    pub fn set_direction(&mut self, direction: Direction)
        ensures { self.new ≡ with_direction self.old direction }
    {
        self.direction = direction;
    }

    /// The cluster level, one of the constants `HB_BUFFER_CLUSTER_LEVEL_*`, 0 at first.
    pub fn cluster_level(&self) -> u8
        ensures { result ≡ self.now.cluster_level }
    {
        self.cluster_level
    }

    /// Sets the cluster level. A number that is none of the constants counts as 0 in each call. Nothing else
    /// changes.
    pub fn set_cluster_level(&mut self, level: u8)
        ensures { self.new ≡ with_cluster_level self.old level }
    {
        self.cluster_level = level;
    }

    /// What the caller asks of the buffer, nothing at first.
    pub fn flags(&self) -> BufferFlags
        ensures { result ≡ self.now.flags }
    {
        self.flags
    }

    /// Sets what the caller asks of the buffer. Nothing else changes.
    pub fn set_flags(&mut self, flags: BufferFlags)
        ensures { self.new ≡ with_flags self.old flags }
    {
        self.flags = flags;
    }

    /// What shaping has found out, nothing at first.
    pub fn scratch_flags(&self) -> ScratchFlags
        ensures { result ≡ self.now.scratch_flags }
    {
        self.scratch_flags
    }

    /// Sets what shaping has found out. Nothing else changes.
    pub fn set_scratch_flags(&mut self, flags: ScratchFlags)
        ensures { self.new ≡ with_scratch_flags self.old flags }
    {
        self.scratch_flags = flags;
    }

    /// What is left of the budget of operations. It may be negative.
    pub fn max_ops(&self) -> i32
        ensures { result ≡ self.now.max_ops }
    {
        self.max_ops
    }

    /// Sets the budget of operations. Nothing else changes.
    pub fn set_max_ops(&mut self, max_ops: i32)
        ensures { self.new ≡ with_max_ops self.old max_ops }
    {
        self.max_ops = max_ops;
    }

    /// The greatest length of the line, in glyphs.
    pub fn max_len(&self) -> usize
        ensures most { result ≡ self.now.max_len }
        ensures small { result ≤ 0x3FFFFFFF }
        ensures within { length self.now.line ≤ result }
    {
        self.max_len
    }

    /// Notes that a call was refused, and hands the reason on.
    fn refuse(&mut self, error: BufferError) -> BufferError
        ensures reason { result ≡ error }
        ensures after { self.new ≡ failed self.old }
    {
        self.successful = false;
        error
    }

    /// Puts a glyph last, and drops the positions. O(1), amortised.
    ///
    /// Refused as 1, `TooLong`, where the line has its greatest length already, and else as 2, `OutOfMemory`,
    /// where it gets no memory. The buffer has failed then, and all else is as before.
    pub fn add(&mut self, info: hb_glyph_info_t) -> Result<(), BufferError>
        ensures ok { OnOk result (self.new ≡ added self.old info) }
        ensures too_long { IsErrOf result BufferError.TooLong ↔ (self.old.max_len ≤ length self.old.line) }
        ensures err { OnErr result (self.new ≡ failed self.old) }
    {
        if self.len() >= self.max_len {
            return Err(self.refuse(BufferError::TooLong));
        }
        self.marked = None;
        self.merged = None;
        if self.line.push(info).is_err() {
            return Err(self.refuse(BufferError::OutOfMemory));
        }
        self.have_positions = false;
        Ok(())
    }

    /// The glyph at place `i`, which has to be below the length.
    #[tactic(auto, using(std::proofs::lemmas::Option::get_or_from_slice_get))]
    pub fn info(&self, i: usize) -> &hb_glyph_info_t
        requires { i < length self.now.line }
        ensures value { slice_get self.now.line i ≡ Some result.now }
        ensures read { result.now ≡ glyph_at self.now.line i }
    {
        self.line.get(i)
    }

    /// The glyph at place `i`, which has to be below the length, to be written.
    #[tactic(auto, using(std::proofs::lemmas::Option::get_or_from_slice_get))]
    pub fn info_mut(&mut self, i: usize) -> &mut hb_glyph_info_t
        requires { i < length self.old.line }
        ensures* writes_back { sem 𝓛 (LendsInfo A.row A.Allocator self.entry i result) }
        ensures value { slice_get self.old.line i ≡ Some result.now }
        ensures read { result.now ≡ glyph_at self.old.line i }
    {
        self.marked = None;
        self.merged = None;
        self.line.get_mut(i)
    }

    /// The glyphs from the cursor on: all of the line where the cursor is at the start.
    pub fn from_cursor(&self) -> &[hb_glyph_info_t]
        ensures { result.now ≡ drop self.now.cursor self.now.line }
    {
        self.line.rest()
    }

    /// The glyphs from the cursor on, to be written: all of the line where the cursor is at the start.
    pub fn from_cursor_mut(&mut self) -> &mut [hb_glyph_info_t]
        ensures* writes_back { sem 𝓛 (LendsFromCursor A.row A.Allocator self.entry result) }
        ensures value { result.now ≡ drop self.old.cursor self.old.line }
    {
        self.marked = None;
        self.merged = None;
        self.line.rest_mut()
    }

    /// The glyphs from place `start` up to place `end`: those before the cursor, and those from it on.
    pub(crate) fn parts(&self, start: usize, end: usize) -> (&[hb_glyph_info_t], &[hb_glyph_info_t])
        requires ordered { start ≤ end }
        requires in_line { end ≤ length self.now.line }
        ensures { result.0.now ++ result.1.now ≡ slice_range self.now.line start end }
    {
        self.line.parts(start, end)
    }

    /// Puts in place of each glyph from place `start` up to place `end` what `change` makes of it, in as many steps
    /// as those are.
    pub(crate) fn change_span<F: Fn(&hb_glyph_info_t) -> hb_glyph_info_t>(
        &mut self,
        start: usize,
        end: usize,
        change: F,
    )
    where
        F: Drop,
        requires ordered { start ≤ end }
        requires in_line { end ≤ length self.old.line }
        requires callable { F.IsAlwaysCallable change }
        ensures after { (f : hb_glyph_info_t → hb_glyph_info_t) → ChangesBy F.Fn change f
            → self.new ≡ on_line_span (map f) start end self.old }
        ensures count { length self.new.line ≡ length self.old.line }
    {
        self.marked = None;
        self.merged = None;
        self.line.change(start, end, &change);
    }

    /// Sets UNSAFE_TO_BREAK and UNSAFE_TO_CONCAT on each glyph from place `start` up to place `end` whose cluster is
    /// not this one. In as many steps as the span is long. What is known of clusters stays known.
    pub(crate) fn mark_other_than(&mut self, start: usize, end: usize, cluster: u32)
        requires ordered { start ≤ end }
        requires in_line { end ≤ length self.old.line }
        ensures after { self.new ≡ on_line_span (map (marked_above cluster 3)) start end self.old }
        ensures count { length self.new.line ≡ length self.old.line }
    {
        self.marked = None;
        self.line.mark_other_than(start, end, cluster);
    }

    /// The glyph at place `i`, by value.
    pub(crate) fn glyph(&self, i: usize) -> hb_glyph_info_t
        requires { i < length self.now.line }
        ensures { result ≡ glyph_at self.now.line i }
    {
        *self.info(i)
    }

    /// Puts a record in place of the glyph at place `i`, which has to be below the length, but for its cluster and its mask,
    /// which stay. So what is known of spans stays known, as it does not behind `info_mut`.
    pub fn rewrite_glyph(&mut self, i: usize, glyph: hb_glyph_info_t)
        requires { i < length self.old.line }
        ensures after { self.new ≡ with_rewritten self.old i glyph }
        ensures count { length self.new.line ≡ length self.old.line }
    {
        let place = self.line.get_mut(i);
        *place = hb_glyph_info_t {
            cluster: place.cluster,
            mask: place.mask,
            ..glyph
        };
    }

    /// Sets UNSAFE_TO_BREAK and UNSAFE_TO_CONCAT on the glyph at place `i`. What is known of spans stays known.
    pub(crate) fn mark_glyph(&mut self, i: usize)
        requires { i < length self.old.line }
        ensures { self.new ≡ with_info self.old i (with_mask_bits 3 (glyph_at self.old.line i)) }
    {
        self.line.get_mut(i).mask |= glyph_flag::UNSAFE_TO_BREAK | glyph_flag::UNSAFE_TO_CONCAT;
    }

    /// Puts a record in place of the glyph at place `i`.
    pub(crate) fn set_glyph(&mut self, i: usize, glyph: hb_glyph_info_t)
        requires { i < length self.old.line }
        ensures { self.new ≡ with_info self.old i glyph }
    {
        *self.info_mut(i) = glyph;
    }

    /// The glyph at the cursor, which has to be before the end.
    pub fn cur(&self) -> &hb_glyph_info_t
        requires { self.now.cursor < length self.now.line }
        ensures value { slice_get self.now.line self.now.cursor ≡ Some result.now }
        ensures read { result.now ≡ glyph_at self.now.line self.now.cursor }
    {
        self.info(self.backtrack_len())
    }

    /// The glyph at the cursor, which has to be before the end, to be written.
    pub fn cur_mut(&mut self) -> &mut hb_glyph_info_t
        requires { self.old.cursor < length self.old.line }
        ensures* writes_back { sem 𝓛 (LendsCur A.row A.Allocator self.entry result) }
        ensures value { slice_get self.old.line self.old.cursor ≡ Some result.now }
        ensures read { result.now ≡ glyph_at self.old.line self.old.cursor }
    {
        let p = self.backtrack_len();
        self.info_mut(p)
    }

    /// Whether each glyph id is at most 0xFFFF. In as many steps as the line is long.
    pub fn all_glyphs_16(&self) -> bool
        ensures { IsTrue result ↔ All Is16Bit self.now.line }
    {
        let (front, back) = self.parts(0, self.len());
        all_16(front) && all_16(back)
    }

    /// Moves the cursor over one glyph. It has to be before the end.
    pub fn next_glyph(&mut self)
        requires { self.old.cursor < length self.old.line }
        ensures { self.new ≡ with_cursor self.old (self.old.cursor + 1) }
    {
        self.line.next();
    }

    /// Moves the cursor to place `i`, which has to be at most the length, in at most as many steps as it is away.
    pub fn move_to(&mut self, i: usize)
        requires { i ≤ length self.old.line }
        ensures { self.new ≡ with_cursor self.old i }
    {
        self.line.move_to(i);
    }

    /// Moves the cursor to the start.
    pub fn sync(&mut self)
        ensures { self.new ≡ with_cursor self.old 0 }
    {
        self.move_to(0);
    }

    /// Puts the cursor at the start, and drops the positions. It is never refused and takes no memory.
    pub fn clear_output(&mut self) -> Result<(), BufferError>
        ensures success { IsOk result }
        ensures after { self.new ≡ with_cursor (without_positions self.old) 0 }
    {
        self.sync();
        self.have_positions = false;
        Ok(())
    }

    /// Takes the glyph at the cursor out, and drops the positions. The cursor has to be before the end.
    pub fn skip_glyph(&mut self)
        requires { self.old.cursor < length self.old.line }
        ensures { self.new ≡ skipped self.old }
    {
        self.marked = None;
        self.merged = None;
        self.line.remove();
        self.have_positions = false;
    }

    /// Gives the glyph at the cursor another glyph id, and moves over it. The cursor has to be before the end.
    pub fn replace_glyph(&mut self, glyph_id: u32)
        requires { self.old.cursor < length self.old.line }
        ensures { self.new ≡ replaced self.old glyph_id }
    {
        self.cur_mut().glyph_id = glyph_id;
        self.next_glyph();
    }

    /// Puts a record in at the cursor with this glyph id, moves over it, and drops the positions. The record is
    /// a copy of the glyph at the cursor, or of the last one where the cursor is at the end; nothing goes into
    /// an empty line. O(1), amortised.
    ///
    /// Refused as 1, `TooLong`, where the line has glyphs and has its greatest length already, and else as 2,
    /// `OutOfMemory`, where it gets no memory; on an empty line never. The buffer has failed then, and all else
    /// is as before, the positions too.
    pub fn output_glyph(&mut self, glyph_id: u32) -> Result<(), BufferError>
        ensures ok { OnOk result (self.new ≡ output self.old glyph_id) }
        ensures too_long { IsErrOf result BufferError.TooLong
            ↔ ((0 < length self.old.line) × (self.old.max_len ≤ length self.old.line)) }
        ensures empty_line { length self.old.line ≡ 0 → IsOk result }
        ensures err { OnErr result (self.new ≡ failed self.old) }
    {
        let len = self.len();
        if len == 0 {
            self.have_positions = false;
            return Ok(());
        }
        if len >= self.max_len {
            return Err(self.refuse(BufferError::TooLong));
        }
        let model = self.glyph(self.backtrack_len().min(len - 1));
        let copy = hb_glyph_info_t { glyph_id, ..model };
        self.marked = None;
        self.merged = None;
        if self.line.insert(copy).is_err() {
            return Err(self.refuse(BufferError::OutOfMemory));
        }
        self.have_positions = false;
        Ok(())
    }

    /// Puts glyphs in at the cursor, which moves past them, and drops the positions. O(their number), amortised.
    ///
    /// Refused as 1, `TooLong`, where the line with them would be longer than its greatest length, and else as 2,
    /// `OutOfMemory`, where it gets no memory for them; without a glyph never. The buffer has failed then, and all else
    /// is as before: all of them go in, or none.
    pub fn insert_glyphs(&mut self, glyphs: &[hb_glyph_info_t]) -> Result<(), BufferError>
        ensures ok { OnOk result (self.new ≡ with_glyphs_in self.old glyphs.now) }
        ensures too_long { IsErrOf result BufferError.TooLong
            ↔ (self.old.max_len < length self.old.line + length glyphs.now) }
        ensures none { length glyphs.now ≡ 0 → IsOk result }
        ensures err { OnErr result (self.new ≡ failed self.old) }
    {
        let place = self.backtrack_len();
        self.insert_glyphs_at(place, glyphs)
    }

    /// Puts glyphs in at place `i`, which has to be at most the cursor, moves the cursor on by their number, so that it
    /// stays at its glyph, and drops the positions. O(their number and how far the cursor is behind `i`), amortised.
    ///
    /// Refused as `insert_glyphs` is.
    pub fn insert_glyphs_at(
        &mut self,
        i: usize,
        glyphs: &[hb_glyph_info_t],
    ) -> Result<(), BufferError>
        requires { i ≤ self.old.cursor }
        ensures ok { OnOk result (self.new ≡ with_glyphs_at self.old i glyphs.now) }
        ensures too_long { IsErrOf result BufferError.TooLong
            ↔ (self.old.max_len < length self.old.line + length glyphs.now) }
        ensures none { length glyphs.now ≡ 0 → IsOk result }
        ensures err { OnErr result (self.new ≡ failed self.old) }
    {
        if glyphs.len() > self.max_len - self.len() {
            return Err(self.refuse(BufferError::TooLong));
        }
        self.marked = None;
        self.merged = None;
        if !glyphs.is_empty() && self.line.insert_all(i, glyphs).is_err() {
            return Err(self.refuse(BufferError::OutOfMemory));
        }
        self.have_positions = false;
        Ok(())
    }

    /// Puts a copy of the glyph at the cursor in before it, and drops the positions. The cursor has to be
    /// before the end. O(1), amortised.
    ///
    /// Refused as 1, `TooLong`, where the line has its greatest length already, and else as 2, `OutOfMemory`,
    /// where it gets no memory. The buffer has failed then, and all else is as before.
    pub fn copy_glyph(&mut self) -> Result<(), BufferError>
        requires { self.old.cursor < length self.old.line }
        ensures ok { OnOk result (self.new ≡ output self.old (glyph_at self.old.line self.old.cursor).glyph_id) }
        ensures too_long { IsErrOf result BufferError.TooLong ↔ (self.old.max_len ≤ length self.old.line) }
        ensures err { OnErr result (self.new ≡ failed self.old) }
    {
        let glyph_id = self.glyph(self.backtrack_len()).glyph_id;
        self.output_glyph(glyph_id)
    }

    /// Puts the line, and the positions where they stand, in the opposite order. The cursor stays. In as many
    /// steps as the line is long.
    pub fn reverse(&mut self)
        ensures after { self.new ≡ reversed self.old }
        ensures count { length self.new.line ≡ length self.old.line }
    {
        self.marked = None;
        self.merged = None;
        self.line.reverse();
        if self.have_positions {
            self.positions.reverse();
        }
    }

    /// Gives each glyph a position that is all zero. In as many steps as the line is long.
    ///
    /// Refused as 2, `OutOfMemory`, where it gets no memory. The buffer has failed then, and no positions are
    /// left; all else is as before.
    pub fn clear_positions(&mut self) -> Result<(), BufferError>
        ensures ok { OnOk result (self.new ≡ with_zero_positions self.old) }
        ensures memory_only { IfErr result (λ e. e ≡ BufferError.OutOfMemory) }
        ensures err { OnErr result (self.new ≡ failed (without_positions self.old)) }
    {
        let len = self.len();
        self.have_positions = false;
        self.positions.clear();
        let zero = GlyphPosition::default();
        if self.positions.resize(len, zero).is_err() {
            return Err(self.refuse(BufferError::OutOfMemory));
        }
        self.have_positions = true;
        Ok(())
    }

    /// Drops the positions.
    pub fn drop_positions(&mut self)
        ensures { self.new ≡ without_positions self.old }
    {
        self.have_positions = false;
    }

    /// The position of the glyph at place `i`, which has to be below the length of a line whose positions stand.
    #[tactic(auto, using(std::proofs::lemmas::Option::get_or_from_slice_get))]
    pub fn pos(&self, i: usize) -> &GlyphPosition
        requires { i < length (position_list self.now) }
        ensures value { slice_get (position_list self.now) i ≡ Some result.now }
        ensures read { result.now ≡ position_at self.now i }
    {
        &self.positions[i]
    }

    /// The position of the glyph at place `i`, which has to be below the length of a line whose positions
    /// stand, to be written.
    #[tactic(auto, using(std::proofs::lemmas::Option::get_or_from_slice_get))]
    pub fn pos_mut(&mut self, i: usize) -> &mut GlyphPosition
        requires { i < length (position_list self.old) }
        ensures* writes_back { sem 𝓛 (LendsPosition A.row A.Allocator self.entry i result) }
        ensures value { slice_get (position_list self.old) i ≡ Some result.now }
        ensures read { result.now ≡ position_at self.old i }
    {
        &mut self.positions[i]
    }

    /// The glyphs from the cursor on, with their positions, to be written: those of all of the line where the cursor is
    /// at the start. Positions have to stand.
    pub fn positions_from_cursor_mut(&mut self) -> (&[hb_glyph_info_t], &mut [GlyphPosition])
        requires { IsSome self.old.positions }
        ensures* writes_back { sem 𝓛 (LendsPositions A.row A.Allocator self.entry result.1) }
        ensures glyphs { result.0.now ≡ drop self.old.cursor self.old.line }
        ensures positions { result.1.now ≡ drop self.old.cursor (position_list self.old) }
        ensures placed { length result.1.now ≡ length result.0.now }
    {
        let cursor = self.line.cursor();
        (self.line.rest(), self.positions.slice_mut(cursor..))
    }

    /// Takes the positions out, so that none stand.
    pub(crate) fn take_positions(&mut self) -> Option<Vec<GlyphPosition, A>>
        ensures after { self.new ≡ without_positions self.old }
        ensures positions { items_of result ≡ self.old.positions }
        ensures placed { IfSome result (λ qs. vec_len qs ≡ length self.old.line) }
    {
        if !self.have_positions {
            return None;
        }
        self.have_positions = false;
        let alloc = *self.positions.allocator();
        Some(mem::replace(&mut self.positions, Vec::new(alloc)))
    }

    /// Puts positions in, one a glyph.
    pub(crate) fn put_positions(&mut self, positions: Vec<GlyphPosition, A>)
        requires { vec_len positions ≡ length self.old.line }
        ensures { self.new ≡ with_positions self.old positions.items }
    {
        self.positions = positions;
        self.have_positions = true;
    }
}

fn all_16(glyphs: &[hb_glyph_info_t]) -> bool
    ensures { IsTrue result ↔ All Is16Bit glyphs.now }
{
    glyphs.iter().all(|glyph| glyph.glyph_id <= 0xFFFF)
}
