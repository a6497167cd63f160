//! What the acts of a run changed so far.
ghost use Rattle.std.specs.Prelude.{◌≤◌, length};

use crate::reach::{Change, Marks, Reach, Transition};
use crate::split_line::SplitLine;
use crate::traced::TracedAct;
use aat_buffer::hb_buffer_t;
use std::alloc::{AllocError, Allocator, Global};

/// The glyph ids of the line as they are known, the acts that led there, and the transitions so far. Where memory was
/// wanting it goes on without noting.
#[derive(Drop)]
pub(crate) struct Log {
    alloc: Global,
    line: SplitLine,
    reach: Reach,
    marks: Marks,
    acts: Vec<TracedAct>,
    transitions: u64,
    is_incomplete: bool,
}

impl Log {
    /// No act, over an empty line.
    pub(crate) fn new(alloc: Global) -> Log {
        Log {
            alloc,
            line: SplitLine::new(alloc, Vec::new(alloc)),
            reach: Reach::Mark,
            marks: Marks::new(alloc),
            acts: Vec::new(alloc),
            transitions: 0,
            is_incomplete: false,
        }
    }

    /// Takes the line that a run finds, whose acts change such glyphs.
    pub(crate) fn begin<A: Allocator + Copy>(&mut self, reach: Reach, buffer: &hb_buffer_t<A>) {
        self.reach = reach;
        match ids_between(self.alloc, buffer, 0, buffer.len()) {
            Ok(line) => self.line = SplitLine::new(self.alloc, line),
            Err(_) => self.is_incomplete = true,
        }
    }

    /// Notes a transition, with what it changed, if it did.
    pub(crate) fn note<A: Allocator + Copy>(
        &mut self,
        transition: Transition,
        buffer: &hb_buffer_t<A>,
    ) {
        self.transitions = self.transitions.saturating_add(1);
        let noted = self.note_change(transition, buffer);
        if noted.is_err() {
            self.is_incomplete = true;
        }
    }

    /// Notes for each glyph of a line, which got no longer or shorter, a transition, with what it changed.
    pub(crate) fn note_each<A: Allocator + Copy>(&mut self, buffer: &hb_buffer_t<A>) {
        for place in 0..buffer.len() {
            self.transitions = self.transitions.saturating_add(1);
            let noted = self.note_at(place, buffer.info(place).glyph_id);
            if noted.is_err() {
                self.is_incomplete = true;
            }
        }
    }

    /// The acts, none where memory was wanting.
    pub(crate) fn into_acts(self) -> Option<Vec<TracedAct>> {
        if self.is_incomplete {
            None
        } else {
            Some(self.acts)
        }
    }

    /// Notes what a transition changed, if it did, and what it marked.
    fn note_change<A: Allocator + Copy>(
        &mut self,
        transition: Transition,
        buffer: &hb_buffer_t<A>,
    ) -> Result<(), AllocError> {
        let change = self
            .marks
            .change(self.reach, transition, &self.line, buffer);
        if transition.has_mark {
            self.marks.push(transition.cursor)?;
        }
        match change {
            Some(change) => self.note_act(transition.cursor, change, buffer),
            None => Ok(()),
        }
    }

    /// Notes an act that changed a span of the line.
    fn note_act<A: Allocator + Copy>(
        &mut self,
        cursor: usize,
        change: Change,
        buffer: &hb_buffer_t<A>,
    ) -> Result<(), AllocError> {
        let mut taken = Vec::new(self.alloc);
        for place in change.start..change.old_end {
            taken.push(self.line.get(place).unwrap_or(0))?;
        }
        let end = change.new_end.min(buffer.len());
        let put = ids_between(self.alloc, buffer, change.start.min(end), end)?;
        let act = TracedAct {
            transition: self.transitions,
            cursor,
            place: change.start,
            taken,
            put,
        };
        if self.reach == Reach::Components {
            self.marks.drop_deleted(&act);
        }
        if !self.line.act(&act)? {
            self.is_incomplete = true;
        }
        self.acts.push(act)?;
        Ok(())
    }

    /// Notes that the glyph at a place has another id now, if it has.
    fn note_at(&mut self, place: usize, id: u32) -> Result<(), AllocError> {
        match self.line.get(place) {
            Some(known) if known != id => {
                let taken = vec![in self.alloc; known]?;
                let put = vec![in self.alloc; id]?;
                self.acts.push(TracedAct {
                    transition: self.transitions,
                    cursor: place,
                    place,
                    taken,
                    put,
                })?;
                Ok(())
            }
            _ => Ok(()),
        }
    }
}

/// The ids of the glyphs from one place up to another.
fn ids_between<A: Allocator + Copy>(
    alloc: Global,
    buffer: &hb_buffer_t<A>,
    start: usize,
    end: usize,
) -> Result<Vec<u32>, AllocError>
    requires ordered { start ≤ end }
    requires in_line { end ≤ length buffer.now.line }
{
    let mut ids = Vec::new(alloc);
    for i in start..end {
        ids.push(buffer.info(i).glyph_id)?;
    }
    Ok(ids)
}
