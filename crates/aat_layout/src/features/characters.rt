//! The characters of a text, and runs of them.
ghost use Rattle.std.specs.Prelude.{◌≡◌, ◌+◌, ◌<◌, ◌^◌, length, drop, take_while};
ghost use Rattle.aat_layout.specs.features.Characters.{after, next, run, skipped};
ghost use Rattle.aat_layout.specs.features.inside.Classes.{is_of};

/// A class of characters.
#[derive(Clone, Copy)]
pub enum Class {
    /// A space, or one of the codes 9 to 13.
    Space,
    /// A decimal digit.
    Digit,
    /// A letter from A to Z, of either case.
    Letter,
    /// A letter, a digit or an underscore, as in the tag of a feature.
    OfTag,
    /// From the space up to the tilde.
    Printable,
}

impl Class {
    /// Whether a character is of this class.
    pub fn has(self, character: u8) -> bool
        ensures { result ≡ is_of self character }
    {
        match self {
            Class::Space => matches!(character, 9..=13 | b' '),
            Class::Digit => character.is_ascii_digit(),
            Class::Letter => character.is_ascii_alphabetic(),
            Class::OfTag => character.is_ascii_alphanumeric() || character == b'_',
            Class::Printable => matches!(character, b' '..=b'~'),
        }
    }
}

/// What a text has from a place on, nothing past its end.
fn rest_at(text: &[u8], place: usize) -> &[u8]
    ensures { result.now ≡ drop place text.now }
{
    if place < text.len() {
        &text[place..]
    } else {
        &[]
    }
}

/// How many characters of a class stand at the front.
fn run_len(rest: &[u8], class: Class) -> usize
    ensures { result ≡ length (take_while (is_of class) rest.now) }
{
    rest.iter()
        .take_while(|character| class.has(**character))
        .count()
}

/// The characters of a class from a place on, up to the first that is not of it.
#[tactic(auto, unfolding(crate::specs::features::Characters::run), using(crate::proofs::Runs::take_length_take))]
pub fn run_at(text: &[u8], place: usize, class: Class) -> &[u8]
    ensures characters { result.now ≡ run (is_of class) text.now place }
    ensures fits { place + length result.now < 2 ^ 64 }
{
    let rest = rest_at(text, place);
    &rest[..run_len(rest, class)]
}

/// The place behind the spaces from a place on.
#[tactic(auto, unfolding(crate::specs::features::Characters::skipped))]
pub fn skip_spaces(text: &[u8], place: usize) -> usize
    ensures { result ≡ skipped text.now place }
{
    place + run_at(text, place, Class::Space).len()
}

/// The place behind a word, where it stands at this place.
#[tactic(auto, unfolding(crate::specs::features::Characters::after))]
pub fn after(word: &[u8], text: &[u8], place: usize) -> Option<usize>
    ensures { result ≡ after word.now text.now place }
{
    if rest_at(text, place).starts_with(word) {
        Some(place + word.len())
    } else {
        None
    }
}

/// The place behind a word, where it comes next, with or without spaces before it.
pub fn next(word: &[u8], text: &[u8], place: usize) -> Option<usize>
    ensures { result ≡ next word.now text.now place }
{
    after(word, text, skip_spaces(text, place))
}
