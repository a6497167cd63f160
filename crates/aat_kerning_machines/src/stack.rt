//! The stack of a kerning machine: places of the line whose glyphs get values.
ghost use Rattle.std.specs.Prelude.{◌≡◌, ◌≤◌, [], ◌∷◌, if◌then◌else◌, length, reverse, MatchOption};
ghost use Rattle.aat_kerning_machines.specs.Stack.{with_place_pushed};

use std::marker::Model;

/// How many places the stack holds at most.
const STACK_SIZE: usize = 8;

/// The places that wait for values, at most eight. A contract sees it as their list, the newest first.
///
/// Apple's TrueType Reference Manual, "The 'kern' table", format 1.
#[derive(Drop)]
pub(crate) struct Stack {
    depth: usize,
    places: [usize; 8],
}

impl Model for Stack {
    ghost use Rattle.std.specs.Prelude.{ℕ, ◌≡◌, ◌≤◌, List, length, reverse, take};

    ghost Value = { List ℕ };

    ghost view = { λ m. reverse (take m.depth m.places) };

    ghost invariant = { λ m. (m.depth ≤ 8) × (length m.places ≡ 8) };
}

impl Stack {
    /// No place.
    pub fn new() -> Stack
        ensures { result ≡ [] }
    {
        Stack {
            depth: 0,
            places: [0; 8],
        }
    }

    /// How many places wait.
    pub fn len(&self) -> usize
        ensures count { result ≡ length self.now }
        ensures few { result ≤ 8 }
    {
        self.depth
    }

    /// The places, the newest last.
    pub fn places(&self) -> &[usize]
        ensures places { reverse result.now ≡ self.now }
        ensures count { length result.now ≡ length self.now }
        ensures few { length result.now ≤ 8 }
    {
        &self.places[..self.depth]
    }

    /// Takes all places away.
    pub fn clear(&mut self)
        ensures { self.new ≡ [] }
    {
        self.depth = 0;
    }

    /// Where it is asked for, puts a place on the stack as the newest, or takes all places away where it holds eight. Else
    /// the stack stays. O(1).
    pub fn push_if(&mut self, place: usize, does_push: bool)
        ensures { self.new ≡ (if does_push then with_place_pushed place self.old else self.old) }
    {
        if self.depth == STACK_SIZE {
            if does_push {
                self.clear();
            }
            return;
        }
        // written whether or not it is asked for, since no processor foresees which entries push
        self.places[self.depth] = place;
        self.depth += usize::from(does_push);
    }

    /// Takes the newest place away; none where no place waits. O(1).
    pub fn pop(&mut self) -> Option<usize>
        ensures { MatchOption result ((self.old ≡ []) × (self.new ≡ []))
            (λ place. self.old ≡ place ∷ self.new) }
    {
        if self.depth == 0 {
            return None;
        }
        self.depth -= 1;
        Some(self.places[self.depth])
    }
}
