//! What is told of a run.

use aat_buffer::hb_glyph_info_t;
use std::alloc::Global;

/// An act of a subtable: some glyph ids of the line give way to others.
///
/// It is the span at which the line before it and the line behind it differ: in front of the span and behind it they
/// have the same ids. What changes no id is not told.
#[derive(Debug, Drop)]
pub struct TracedAct {
    /// Which transition of the machine it was, the first of them 1. A turn has one where the machine is on and has an
    /// entry. Of a noncontextual subtable it is which glyph of the line it was, the first of them 1.
    pub transition: u64,
    /// The cursor before the act, a place.
    pub cursor: usize,
    /// The place of the first glyph whose id changes.
    pub place: usize,
    /// The ids that stood there, none where glyphs only go in.
    pub taken: Vec<u32>,
    /// The ids that stand in their place.
    pub put: Vec<u32>,
}

/// What a subtable did.
///
/// Places count glyphs from the front of the line, the first of them 0. Those of acts count in the order in which the
/// subtable takes the glyphs, from the other end where it runs on the reversed line.
#[derive(Debug, Drop)]
pub struct TracedSubtable {
    /// Which chain it is of, the first of them 0.
    pub chain: usize,
    /// Which subtable of its chain it is, the first of them 0.
    pub subtable: usize,
    /// Whether it ran. It is left out where its chain has one range alone and it is off there, and where it is not for
    /// text of the direction.
    pub is_run: bool,
    /// Whether it runs on the line in the opposite order.
    pub is_reversed: bool,
    /// Its turns: one for each step of a machine, or for each glyph that a noncontextual subtable looks at.
    pub turns: u64,
    /// The glyphs that it found.
    pub before: Vec<hb_glyph_info_t>,
    /// Its acts, in their order.
    pub acts: Vec<TracedAct>,
    /// The glyphs that it left.
    pub after: Vec<hb_glyph_info_t>,
    /// The places of the glyphs that it left with `UNSAFE_TO_BREAK` where the glyph that stood at the same place before
    /// was without, or there was none. Where glyphs go in or change their places, marks move with them.
    pub marks: Vec<usize>,
}

/// What substitution did, subtable by subtable.
#[derive(Debug, Drop)]
pub struct Trace {
    /// The turns of all subtables.
    pub turns: u64,
    /// What each subtable did, in the order of the chains and of their subtables.
    pub subtables: Vec<TracedSubtable>,
    /// Whether memory was wanting to tell of a subtable, which is left out then. The run itself goes on.
    pub is_incomplete: bool,
}

impl Trace {
    ghost use Rattle.std.specs.Prelude.{◌≡◌, [], false};
    ghost use Rattle.aat_trace.specs.inside.Telling.{IsAdded};

    /// Nothing told.
    pub(crate) fn new(alloc: Global) -> Trace
        ensures told { result.subtables.items ≡ [] }
        ensures whole { result.is_incomplete ≡ false }
    {
        Trace {
            turns: 0,
            subtables: Vec::new(alloc),
            is_incomplete: false,
        }
    }

    /// Adds what is told of a subtable, if there is memory.
    pub(crate) fn add(&mut self, told: Option<TracedSubtable>)
        ensures { IsAdded self.old self.new told }
    {
        match told {
            Some(told) => {
                let added = self.subtables.push(told);
                if added.is_err() {
                    self.is_incomplete = true;
                }
            }
            None => self.is_incomplete = true,
        }
    }
}
