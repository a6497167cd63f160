//! Where a transition may have changed a line.
use crate::split_line::SplitLine;
use crate::traced::TracedAct;
use aat_buffer::{DELETED_GLYPH, hb_buffer_t};
use std::alloc::{AllocError, Allocator, Global};

/// Which glyphs the acts of a machine change.
#[derive(Clone, Copy, PartialEq)]
pub(crate) enum Reach {
    /// Those of a span that ends at the cursor and has so many glyphs at most.
    Span(usize),
    /// The marked one and the one at the cursor.
    Mark,
    /// The components that are held. What is deleted is held no more.
    Components,
    /// None, but some go in at the mark and at the cursor.
    Insertion,
}

/// What a transition does besides its act.
#[derive(Clone, Copy)]
pub(crate) struct Transition {
    /// The cursor before it.
    pub(crate) cursor: usize,
    /// Whether it marks or holds the glyph at the cursor.
    pub(crate) has_mark: bool,
    /// Whether glyphs may go in at the mark.
    pub(crate) is_at_mark: bool,
}

/// A span of a line, and the one that stands in its place.
#[derive(Clone, Copy)]
pub(crate) struct Change {
    /// Where both begin.
    pub(crate) start: usize,
    /// Where the old one ends.
    pub(crate) old_end: usize,
    /// Where the new one ends.
    pub(crate) new_end: usize,
}

/// How many of the newest marks count: as many as a machine holds components.
const NEWEST: usize = 64;

/// The places that a machine has marked.
#[derive(Drop)]
pub(crate) struct Marks {
    places: Vec<usize>,
}

impl Marks {
    /// No mark: a machine takes the first glyph for the marked one then.
    pub(crate) fn new(alloc: Global) -> Marks {
        Marks {
            places: Vec::new(alloc),
        }
    }

    /// Adds a mark, unless it is the last one.
    pub(crate) fn push(&mut self, place: usize) -> Result<(), AllocError> {
        if self.places.last().copied() != Some(place) {
            self.places.push(place)?;
        }
        Ok(())
    }

    /// Drops the last marks, as far as an act has deleted their glyphs.
    pub(crate) fn drop_deleted(&mut self, act: &TracedAct) {
        for _id in &act.put {
            let Some(place) = self.places.last().copied() else {
                return;
            };
            if !is_deleted_at(act, place) {
                return;
            }
            self.places.pop();
        }
    }

    /// The last mark, or the first place.
    fn last(&self) -> usize {
        self.places.last().copied().unwrap_or(0)
    }

    /// What a transition changed of a line that it left in a buffer, if it did.
    pub(crate) fn change<A: Allocator + Copy>(
        &self,
        reach: Reach,
        transition: Transition,
        line: &SplitLine,
        buffer: &hb_buffer_t<A>,
    ) -> Option<Change> {
        let cursor = transition.cursor;
        let end = cursor.saturating_add(1).min(line.len());
        match reach {
            Reach::Span(most) => change_between(line, buffer, end.saturating_sub(most), end),
            Reach::Mark | Reach::Components => self.change_at_marks(line, buffer, cursor),
            Reach::Insertion if transition.is_at_mark => {
                insertion_between(line, buffer, self.last().min(cursor), end)
            }
            Reach::Insertion => insertion_between(line, buffer, cursor, end),
        }
    }

    /// What is changed at the newest marks, at the first place and at the cursor.
    fn change_at_marks<A: Allocator + Copy>(
        &self,
        line: &SplitLine,
        buffer: &hb_buffer_t<A>,
        cursor: usize,
    ) -> Option<Change> {
        let mut change = with_change_at(None, line, buffer, 0);
        let older = self.places.len().saturating_sub(NEWEST);
        for place in &self.places[older..] {
            change = with_change_at(change, line, buffer, *place);
        }
        with_change_at(change, line, buffer, cursor)
    }
}

/// Whether an act has deleted the glyph at a place.
fn is_deleted_at(act: &TracedAct, place: usize) -> bool {
    let Some(i) = place.checked_sub(act.place) else {
        return false;
    };
    let (taken, put) = (act.taken.get(i).copied(), act.put.get(i).copied());
    put == Some(DELETED_GLYPH) && taken != Some(DELETED_GLYPH)
}

/// The id of a glyph of the line of a buffer, none past the end.
fn id_at<A: Allocator + Copy>(buffer: &hb_buffer_t<A>, place: usize) -> Option<u32> {
    if place < buffer.len() {
        Some(buffer.info(place).glyph_id)
    } else {
        None
    }
}

/// A change with a place besides, where that has another id. Past the end it is the last place.
fn with_change_at<A: Allocator + Copy>(
    change: Option<Change>,
    line: &SplitLine,
    buffer: &hb_buffer_t<A>,
    place: usize,
) -> Option<Change> {
    let place = place.min(line.len().saturating_sub(1));
    if line.get(place) == id_at(buffer, place) {
        return change;
    }
    let (start, end) = match change {
        None => (place, place.saturating_add(1)),
        Some(change) => (
            change.start.min(place),
            change.old_end.max(place.saturating_add(1)),
        ),
    };
    Some(Change {
        start,
        old_end: end,
        new_end: end,
    })
}

/// What is changed from one place up to another.
fn change_between<A: Allocator + Copy>(
    line: &SplitLine,
    buffer: &hb_buffer_t<A>,
    start: usize,
    end: usize,
) -> Option<Change> {
    let mut change = None;
    for place in start..end {
        change = with_change_at(change, line, buffer, place);
    }
    change
}

/// What has gone in from one place up to another, if the line got longer. Where ids go in before the same ones, they are
/// those behind these.
fn insertion_between<A: Allocator + Copy>(
    line: &SplitLine,
    buffer: &hb_buffer_t<A>,
    start: usize,
    end: usize,
) -> Option<Change> {
    let more = buffer.len().saturating_sub(line.len());
    if more == 0 {
        return None;
    }
    let front = alike_from(line, buffer, start, line.len());
    let end = end.max(front);
    let behind = alike_before(line, buffer, end - front, end, end.saturating_add(more));
    Some(Change {
        start: front,
        old_end: end.saturating_sub(behind),
        new_end: end.saturating_add(more).saturating_sub(behind),
    })
}

/// The first place from one up to another at which a line has another id than a buffer, or else that one.
fn alike_from<A: Allocator + Copy>(
    line: &SplitLine,
    buffer: &hb_buffer_t<A>,
    start: usize,
    end: usize,
) -> usize {
    for place in start..end {
        if line.get(place) != id_at(buffer, place) {
            return place;
        }
    }
    end
}

/// How many ids before a place of a line are those before a place of a buffer, so many at most.
fn alike_before<A: Allocator + Copy>(
    line: &SplitLine,
    buffer: &hb_buffer_t<A>,
    most: usize,
    old_end: usize,
    new_end: usize,
) -> usize {
    for i in 1..=most {
        let (old, new) = (old_end.saturating_sub(i), new_end.saturating_sub(i));
        if line.get(old) != id_at(buffer, new) {
            return i - 1;
        }
    }
    most
}
