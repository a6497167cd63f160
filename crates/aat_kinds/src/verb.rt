//! The verbs of rearrangement: which glyphs of a span change their ends.
ghost use Rattle.std.specs.Prelude.{◌≡◌, ◌≤◌};
ghost use Rattle.aat_kinds.specs.Rearrangement.{size_of, verb_of};

use aat_machine_tables::GenericStateEntry;
use aat_machine_tables::entry_bits::rearrangement::VERB;

/// What a verb takes from one end of its span, to put it down at the other.
#[derive(Clone, Copy)]
pub(crate) enum Part {
    Nothing,
    One,
    Two,
    /// Two glyphs, put down in the opposite order.
    TwoTurned,
}

impl Part {
    /// How many glyphs the part has.
    pub(crate) fn size(self) -> usize
        ensures count { result ≡ size_of self }
        ensures few { result ≤ 2 }
    {
        match self {
            Part::Nothing => 0,
            Part::One => 1,
            Part::Two | Part::TwoTurned => 2,
        }
    }
}

/// What a verb takes from the front and from the back of its span.
#[derive(Clone, Copy)]
pub(crate) struct Verb {
    pub(crate) front: Part,
    pub(crate) back: Part,
}

/// What the sixteen verbs take from front and back, by their numbers, with x for the glyphs between.
const VERBS: [(Part, Part); 16] = [
    (Part::Nothing, Part::Nothing), // no change
    (Part::One, Part::Nothing), // Ax to xA
    (Part::Nothing, Part::One), // xD to Dx
    (Part::One, Part::One), // AxD to DxA
    (Part::Two, Part::Nothing), // ABx to xAB
    (Part::TwoTurned, Part::Nothing), // ABx to xBA
    (Part::Nothing, Part::Two), // xCD to CDx
    (Part::Nothing, Part::TwoTurned), // xCD to DCx
    (Part::One, Part::Two), // AxCD to CDxA
    (Part::One, Part::TwoTurned), // AxCD to DCxA
    (Part::Two, Part::One), // ABxD to DxAB
    (Part::TwoTurned, Part::One), // ABxD to DxBA
    (Part::Two, Part::Two), // ABxCD to CDxAB
    (Part::TwoTurned, Part::Two), // ABxCD to CDxBA
    (Part::Two, Part::TwoTurned), // ABxCD to DCxAB
    (Part::TwoTurned, Part::TwoTurned), // ABxCD to DCxBA
];

/// The verb of an entry: the lowest four bits of its flags.
pub(crate) fn verb_of(entry: &GenericStateEntry<()>) -> Verb
    ensures { result ≡ verb_of entry.now }
{
    let (front, back) = VERBS[(entry.flags & VERB) as usize];
    Verb { front, back }
}
