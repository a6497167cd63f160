//! The places that wait on the stack of a kerning machine.
ghost use Rattle.std.specs.Prelude.{◌≡◌, ◌≤◌, ◌&&◌, [], ◌∷◌, if◌then◌else◌, length, nat_lt, not, reverse, true, MatchOption};
ghost use Rattle.aat_kerning_machines.specs.Stack.{with_place_pushed};
ghost use Rattle.aat_cut_kinds.specs.inside.OpenRuns.{least_of};

use std::marker::Model;

/// How many places the stack holds at most. A push at so many clears it.
pub(crate) const STACK_SIZE: usize = 8;

/// The places that wait for values, at most eight. A contract sees it as their list, the newest first.
#[derive(Drop)]
pub(crate) struct Places {
    count: usize,
    places: [usize; 8],
}

impl Model for Places {
    ghost use Rattle.std.specs.Prelude.{ℕ, ◌≡◌, ◌≤◌, List, length, reverse, take};

    ghost Value = { List ℕ };

    ghost view = { λ m. reverse (take m.count m.places) };

    ghost invariant = { λ m. (m.count ≤ 8) × (length m.places ≡ 8) };
}

impl Places {
    /// No place.
    pub fn new() -> Places
        ensures { result ≡ [] }
    {
        Places {
            count: 0,
            places: [0; 8],
        }
    }

    /// These places, the newest last.
    pub fn of(places: &[usize]) -> Places
        requires { length places.now ≤ 8 }
        ensures { result ≡ reverse places.now }
    {
        let mut made = Places::new();
        for place in places {
            made.push(*place);
        }
        made
    }

    /// How many places wait.
    pub fn len(&self) -> usize
        ensures count { result ≡ length self.now }
        ensures few { result ≤ 8 }
    {
        self.count
    }

    /// Puts a place on the stack as the newest, which has to hold less than eight.
    fn push(&mut self, place: usize)
        requires { nat_lt (length self.old) 8 ≡ true }
        ensures { self.new ≡ place ∷ self.old }
    {
        self.places[self.count] = place;
        self.count += 1;
    }

    /// Takes the newest place away; none where no place waits.
    pub fn pop(&mut self) -> Option<usize>
        ensures { MatchOption result ((self.old ≡ []) × (self.new ≡ []))
            (λ place. self.old ≡ place ∷ self.new) }
    {
        if self.count == 0 {
            return None;
        }
        self.count -= 1;
        Some(self.places[self.count])
    }

    /// Takes all places away, and answers the least of them and of one more.
    #[tactic(auto, unfolding(crate::specs::inside::OpenRuns::least_of))]
    fn drain(&mut self, most: usize) -> usize
        ensures empty { self.new ≡ [] }
        ensures least { result ≡ least_of self.old most }
    {
        let mut least = most;
        while let Some(place) = self.pop() {
            least = least.min(place);
        }
        least
    }

    /// Where it is asked for, puts a place on the stack as the newest, or takes all places away where it holds eight.
    /// Answers the least of those that it takes away, and of the place.
    #[tactic(auto, unfolding(crate::specs::inside::OpenRuns::least_of))]
    pub fn push_if(&mut self, place: usize, does_push: bool) -> usize
        ensures pushed { self.new ≡ (if does_push then with_place_pushed place self.old else self.old) }
        ensures least { result
            ≡ least_of (if does_push && not (nat_lt (length self.old) 8) then self.old else []) place }
    {
        if !does_push {
            return place;
        }
        if self.count == STACK_SIZE {
            return self.drain(place);
        }
        self.push(place);
        place
    }
}
