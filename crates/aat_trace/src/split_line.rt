//! The ids of a line that acts change one behind another.
ghost use Rattle.std.specs.Prelude.{◌≡◌, ◌++◌, Some, IfOk, OnOk, reverse, true};
ghost use Rattle.aat_trace.specs.Replay.{changed_by};
ghost use Rattle.aat_trace.specs.inside.Split.{line_of};

use crate::traced::TracedAct;
use std::alloc::{AllocError, Global};

/// The ids of a line in two parts, those behind the split from the last one on. An act takes as many steps as its place is
/// away from the split, and as it takes and puts ids. The acts of a machine follow its cursor.
#[derive(Drop)]
pub(crate) struct SplitLine {
    front: Vec<u32>,
    behind: Vec<u32>,
}

impl SplitLine {
    /// A line, split at its end.
    pub(crate) fn new(alloc: Global, ids: Vec<u32>) -> SplitLine
        ensures { line_of result ≡ ids.items }
    {
        SplitLine {
            front: ids,
            behind: Vec::new(alloc),
        }
    }

    /// How many ids the line has.
    pub(crate) fn len(&self) -> usize {
        self.front.len().saturating_add(self.behind.len())
    }

    /// The id at a place, none past the end.
    pub(crate) fn get(&self, place: usize) -> Option<u32> {
        let Some(after) = place.checked_sub(self.front.len()) else {
            return self.front.get(place).copied();
        };
        let left = self.behind.len().checked_sub(after)?;
        self.behind.get(left.checked_sub(1)?).copied()
    }

    /// Moves the split back to a place, if it lies behind it.
    fn move_back(&mut self, place: usize) -> Result<(), AllocError>
        ensures { OnOk result (line_of self.new ≡ line_of self.old) }
    {
        for _id in place..self.front.len() {
            if let Some(id) = self.front.pop() {
                self.behind.push(id)?;
            }
        }
        Ok(())
    }

    /// Moves the split on to a place, if it lies before it, and to the end of the line at most.
    fn move_on(&mut self, place: usize) -> Result<(), AllocError>
        ensures { OnOk result (line_of self.new ≡ line_of self.old) }
    {
        for _id in self.front.len()..place {
            match self.behind.pop() {
                Some(id) => self.front.push(id)?,
                None => return Ok(()),
            }
        }
        Ok(())
    }

    /// Takes ids away behind the split, and answers whether they stood there.
    fn take(&mut self, taken: &[u32]) -> bool
        ensures front { self.new.front.items ≡ self.old.front.items }
        ensures taken { result ≡ true → reverse self.old.behind.items ≡ taken.now ++ reverse self.new.behind.items }
    {
        for id in taken {
            let Some(known) = self.behind.pop() else {
                return false;
            };
            if known != *id {
                return false;
            }
        }
        true
    }

    /// Does an act on the line, and answers whether it could be done: whether its place lies on the line, which has there
    /// what the act takes. Where it could not, the line is another one.
    pub(crate) fn act(&mut self, act: &TracedAct) -> Result<bool, AllocError>
        ensures { IfOk result (λ done. done ≡ true → changed_by act.now (line_of self.old) ≡ Some (line_of self.new)) }
    {
        self.move_back(act.place)?;
        self.move_on(act.place)?;
        if self.front.len() != act.place || !self.take(&act.taken) {
            return Ok(false);
        }
        self.front.extend_from_slice(&act.put)?;
        Ok(true)
    }

    /// The ids of the line.
    pub(crate) fn into_ids(mut self) -> Result<Vec<u32>, AllocError>
        ensures { IfOk result (λ v. v.items ≡ line_of self) }
    {
        self.behind.reverse();
        self.front.extend_from_slice(&self.behind)?;
        Ok(self.front)
    }
}
