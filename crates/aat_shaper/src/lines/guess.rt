//! A guess where a line ends, by what is drawn of the whole text.
ghost use Rattle.std.specs.Prelude.{◌≡◌, ◌<◌, ◌≤◌, ℕ, false, length};
ghost use Rattle.aat_shaper.specs.Lines.{stop_at};
ghost use Rattle.aat_shaper.specs.inside.Filling.{IsReady, IsSummed};

use crate::lines::LineStop;
use crate::lines::cut::edge_of;
use crate::lines::filling::Filling;
use crate::lines::width::Summed;

/// A guess where a line ends, and what was summed up for it.
#[derive(Clone, Copy)]
pub(crate) struct Guess {
    /// The stop at which the line seems to end.
    pub(crate) last: usize,
    /// What was summed up of the line that ends there.
    pub(crate) line: Summed,
    /// What was summed up of the line that ends at the next stop or, where none has to be tried, of the same line.
    pub(crate) next: Summed,
}

impl Filling<'_> {
    /// Sums up the glyphs of clusters before one that are behind a stretch, too.
    fn summed_forward(&self, summed: Summed, end: u32) -> Summed
        requires ready { IsReady self.now }
        requires summed { IsSummed self.now summed }
        ensures { IsSummed self.now result }
    {
        let past = summed.past.max(end);
        let mut sum = summed.sum;
        for to in summed.to..self.whole.len() {
            let glyph = &self.whole[to];
            if glyph.cluster >= end {
                return Summed {
                    to,
                    sum,
                    past,
                    ..summed
                };
            }
            sum += self.room_of(None, glyph);
        }
        Summed {
            to: self.whole.len(),
            sum,
            past,
            ..summed
        }
    }

    /// Sums up the glyphs of clusters before one that are before a stretch, too.
    fn summed_back(&self, summed: Summed, end: u32) -> Summed
        requires ready { IsReady self.now }
        requires summed { IsSummed self.now summed }
        ensures { IsSummed self.now result }
    {
        let past = summed.past.max(end);
        let mut sum = summed.sum;
        for before in 0..summed.from {
            let from = summed.from - before;
            let glyph = &self.whole[from - 1];
            if glyph.cluster >= end {
                return Summed {
                    from,
                    sum,
                    past,
                    ..summed
                };
            }
            sum += self.room_of(None, glyph);
        }
        Summed {
            from: 0,
            sum,
            past,
            ..summed
        }
    }

    /// Sums up, too, the glyphs before those that hang where a line ends at a stop.
    fn summed_up_to(&self, summed: Summed, stop: LineStop) -> Summed
        requires ready { IsReady self.now }
        requires summed { IsSummed self.now summed }
        ensures { IsSummed self.now result }
    {
        let end = match (stop.hang, self.text.get(stop.place)) {
            (Some(hang), _) => hang,
            (None, Some(glyph)) => glyph.cluster,
            (None, None) => u32::MAX,
        };
        if self.direction.is_backward() {
            self.summed_back(summed, end)
        } else {
            self.summed_forward(summed, end)
        }
    }

    /// The empty stretch where the line seems to begin whose first stop has a number. It is looked for near a place of
    /// what is drawn first.
    fn summed_none(&self, first: usize, near: usize) -> Summed
        requires ready { IsReady self.now }
        requires in_stops { first ≤ length self.now.stops.now }
        ensures { IsSummed self.now result }
    {
        let edge = match self.text.get(self.start_of(first)) {
            Some(glyph) => edge_of(self.direction, self.whole, glyph.cluster, near),
            None => 0,
        };
        let place = edge.min(self.whole.len());
        Summed {
            from: place,
            to: place,
            sum: 0,
            past: 0,
        }
    }

    /// The stop from which on the end of a line is looked for that takes in its stops from `first` on, where the line
    /// before took in one and so many more. No stop from `first` on before it is forced.
    fn begun_at(&self, first: usize, more: usize) -> usize
        requires in_stops { first < length self.now.stops.now }
        ensures from { first ≤ result }
        ensures in_stops { result < length self.now.stops.now }
        ensures unforced { (i : ℕ) → first ≤ i → i < result → (stop_at self.now.stops.now i).is_forced ≡ false }
    {
        let end = first.saturating_add(more / 4 * 3).min(self.stops.len() - 1);
        for last in first..end {
            if self.stops[last].is_forced {
                return last;
            }
        }
        end
    }

    /// The stop from `first` on at which a line seems to end that was summed up to `first`. No stop from there on before
    /// it is forced.
    fn guess_from(&self, first: usize, summed: Summed) -> Guess
        requires ready { IsReady self.now }
        requires summed { IsSummed self.now summed }
        requires in_stops { first < length self.now.stops.now }
        ensures from { first ≤ result.last }
        ensures in_stops { result.last < length self.now.stops.now }
        ensures unforced { (i : ℕ) → first ≤ i → i < result.last → (stop_at self.now.stops.now i).is_forced ≡ false }
        ensures line { IsSummed self.now result.line }
        ensures next { IsSummed self.now result.next }
    {
        let mut line = summed;
        for last in first..self.stops.len() - 1 {
            if self.stops[last].is_forced {
                return Guess {
                    last,
                    line,
                    next: line,
                };
            }
            let next = self.summed_up_to(line, self.stops[last + 1]);
            if next.sum.unsigned_abs() > self.width {
                return Guess { last, line, next };
            }
            line = next;
        }
        Guess {
            last: self.stops.len() - 1,
            line,
            next: line,
        }
    }

    /// The stop at which a line seems to end that takes in its stops from `first` on. No stop from there on before it is
    /// forced. Where it begins is looked for near a place of what is drawn first. The line before took in one stop and so
    /// many more: three quarters of these are passed at once.
    pub(crate) fn guess(&self, first: usize, near: usize, more: usize) -> Guess
        requires ready { IsReady self.now }
        requires in_stops { first < length self.now.stops.now }
        ensures from { first ≤ result.last }
        ensures in_stops { result.last < length self.now.stops.now }
        ensures unforced { (i : ℕ) → first ≤ i → i < result.last → (stop_at self.now.stops.now i).is_forced ≡ false }
        ensures line { IsSummed self.now result.line }
        ensures next { IsSummed self.now result.next }
    {
        let start = self.summed_none(first, near);
        let begun = self.begun_at(first, more);
        let line = self.summed_up_to(start, self.stops[begun]);
        if first < begun && line.sum.unsigned_abs() > self.width {
            return self.guess_from(first, self.summed_up_to(start, self.stops[first]));
        }
        self.guess_from(begun, line)
    }
}
