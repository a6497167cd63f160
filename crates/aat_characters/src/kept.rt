//! Texts with marks of which each character is written as it is, as in most: no character becomes others that stay, no
//! mark is moved, and none composes with its letter.
ghost use Rattle.std.specs.Prelude.{◌≡◌, ◌<◌, ◌≤◌, ◌&&◌, ◌||◌, ◌==◌, ℕ, Bool, [], ◌∷◌, false, true, is_some, if◌then◌else◌, length, nat_le};
ghost use Rattle.unicode_normalization.specs.Decompose.{decompose_canonical};
ghost use Rattle.aat_characters.specs.Composed.{composite_in};
ghost use Rattle.aat_characters.specs.Decomposed.{has_glyph, is_variation_selector};
ghost use Rattle.aat_characters.specs.PlacedCharacters.{placed_class};
ghost use Rattle.aat_characters.specs.inside.KeptTexts.{AllStay, AreKnownWritings, IsWriting, Stays, TextStays, composes_to, is_written, joins_again};

use crate::composed::composite_in;
use crate::decomposed::{has_glyph, is_variation_selector, is_written_as_itself};
use crate::mark::{is_mark, mark_class};
use crate::placed_character::PlacedCharacter;
use aat_face::Face;
use unicode_normalization::Form;
use unicode_normalization::char::decomposition;

/// How many characters are kept.
const KEPT: usize = 128;

/// Which characters a character becomes behind a letter.
#[derive(Clone, Copy)]
pub(crate) enum Way {
    /// It is not known which.
    Other,
    /// Itself.
    Itself,
    /// Two, which are composed to it again.
    Joined,
}

/// How a character is written behind a letter.
#[derive(Clone, Copy)]
pub(crate) struct Writing {
    /// The first of the characters that it becomes, if these are known.
    first: char,
    /// The class by which the character is ordered.
    class: u8,
    /// Whether that one is a mark. Where it is not known `true`.
    is_mark: bool,
    /// Which characters it becomes.
    way: Way,
}

/// Whether two characters are composed to another one.
fn composes_to(face: &Face, first: char, last: char, character: char) -> bool
    ensures { result ≡ composes_to (has_glyph face.now) first last character }
{
    match composite_in(face, first, last) {
        Some(composite) => composite == character,
        None => false,
    }
}

/// Whether a mark that becomes two characters is written as these and composed again.
fn joins_again(face: &Face, character: char, first: char, last: char) -> bool
    ensures { result ≡ joins_again (has_glyph face.now) character first last }
{
    is_mark(character)
        && mark_class(character) == 0
        && is_mark(last)
        && mark_class(first) == 0
        && mark_class(last) == 0
        && has_glyph(face, first)
        && has_glyph(face, last)
        && composes_to(face, first, last, character)
}

/// The writing of a character of which no more than the class is told.
fn other_writing(character: char) -> Writing
    ensures { (has : ℕ → Bool) → IsWriting has character result }
{
    Writing {
        first: character,
        class: mark_class(character),
        is_mark: true,
        way: Way::Other,
    }
}

/// How a character is written that may become others.
fn joined_writing(face: &Face, character: char) -> Writing
    requires { is_variation_selector character ≡ false }
    ensures { IsWriting (has_glyph face.now) character result }
{
    let mut room = ['\0'; 3];
    let parts = decomposition(character, Form::Nfd, &mut room);
    if parts.len() != 2 {
        return other_writing(character);
    }
    let (first, last) = (parts[0], parts[1]);
    if !joins_again(face, character, first, last) {
        return other_writing(character);
    }
    Writing {
        first,
        class: mark_class(character),
        is_mark: is_mark(first),
        way: Way::Joined,
    }
}

/// How a character is written.
#[inline(never)]
fn writing_of(face: &Face, character: char) -> Writing
    ensures { IsWriting (has_glyph face.now) character result }
{
    if is_variation_selector(character) {
        return other_writing(character);
    }
    if is_written_as_itself(character) {
        return Writing {
            first: character,
            class: mark_class(character),
            is_mark: is_mark(character),
            way: Way::Itself,
        };
    }
    joined_writing(face, character)
}

/// How the characters that a text had last are written: one for each place that a character may have among so many.
#[derive(Drop)]
pub(crate) struct KnownWritings {
    /// The number of each character, 0 where there is none.
    characters: [u32; KEPT],
    /// How each is written.
    writings: [Writing; KEPT],
}

impl KnownWritings {
    /// None is known.
    fn none() -> KnownWritings
        ensures { (has : ℕ → Bool) → AreKnownWritings has result }
    {
        let writing = Writing {
            first: '\0',
            class: 0,
            is_mark: true,
            way: Way::Other,
        };
        KnownWritings {
            characters: [0; KEPT],
            writings: [writing; KEPT],
        }
    }

    /// Keeps how a character is written.
    fn keep(&mut self, at: usize, character: u32, writing: Writing)
        requires { at < 128 }
        ensures { (has : ℕ → Bool) → IsWriting has character writing → AreKnownWritings has self.old
            → AreKnownWritings has self.new }
    {
        self.characters[at] = character;
        self.writings[at] = writing;
    }

    /// How a character is written, which is kept.
    fn writing(&mut self, face: &Face, character: char) -> Writing
        requires { AreKnownWritings (has_glyph face.now) self.now }
        ensures writing { IsWriting (has_glyph face.now) character result }
        ensures known { AreKnownWritings (has_glyph face.now) self.new }
    {
        let number = character as u32;
        let at = number as usize % KEPT;
        if number != 0 && self.characters[at] == number {
            return self.writings[at];
        }
        let writing = writing_of(face, character);
        self.keep(at, number, writing);
        writing
    }
}

/// Whether it is known which characters a character becomes.
fn is_written(way: Way) -> bool
    ensures { result ≡ is_written way }
{
    !matches!(way, Way::Other)
}

/// Whether a character of a class stays behind one of another class.
fn keeps_order(before: u8, class: u8) -> bool
    ensures { result ≡ (class == 0 || nat_le before class) }
{
    class == 0 || before <= class
}

/// Whether a character composes with a starter, if it is a mark.
fn composes(face: &Face, is_mark: bool, starter: char, first: char) -> bool
    ensures { result ≡ (is_mark && is_some (composite_in (has_glyph face.now) starter first)) }
{
    is_mark && composite_in(face, starter, first).is_some()
}

/// Whether a character is known to stay as it is behind a starter and a character of a class.
#[tactic(auto, using(crate::proofs::KeptTexts::fits))]
fn stays_behind(
    face: &Face,
    starter: char,
    class: u8,
    character: PlacedCharacter,
    writing: Writing,
) -> bool
    requires { IsWriting (has_glyph face.now) character.character writing }
    ensures { result ≡ true → Stays (has_glyph face.now) starter class character }
{
    if !is_written(writing.way) || character.space.is_some() {
        return false;
    }
    if !keeps_order(class, writing.class) {
        return false;
    }
    !composes(face, writing.is_mark, starter, writing.first)
}

/// The starter behind a character of a class.
fn starter_behind(starter: char, class: u8, character: char) -> char
    ensures { result ≡ if class == 0 then character else starter }
{
    if class == 0 { character } else { starter }
}

/// Whether all characters behind a first one are known to stay as they are.
fn are_kept_behind(face: &Face, first: PlacedCharacter, others: &[PlacedCharacter]) -> bool
    ensures { result ≡ true → AllStay (has_glyph face.now) first.character (placed_class first) others.now }
{
    let mut known = KnownWritings::none();
    let mut starter = first.character;
    let mut class = first.class();
    for character in others {
        let writing = known.writing(face, character.character);
        if !stays_behind(face, starter, class, *character, writing) {
            return false;
        }
        starter = starter_behind(starter, writing.class, character.character);
        class = writing.class;
    }
    true
}

/// Whether all characters of a text with marks are known to stay as they are.
pub(crate) fn are_kept(face: &Face, characters: &[PlacedCharacter]) -> bool
    ensures { result ≡ true → TextStays (has_glyph face.now) characters.now }
{
    let Some((first, others)) = characters.split_first() else {
        return true;
    };
    if is_variation_selector(first.character) || !is_written_as_itself(first.character) {
        return false;
    }
    are_kept_behind(face, *first, others)
}
