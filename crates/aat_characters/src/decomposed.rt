//! Characters that the font lacks as others that it has, and letters apart from their marks.
ghost use Rattle.std.specs.Prelude.{◌≡◌, ◌<◌, ◌≤◌, ◌++◌, [], ◌∷◌, ◌==◌, false, true, length, drop, map, reverse, slice_get, find, flat_map, option_map, option_and_then, IfOk, IfSome, OnOk};
ghost use Rattle.std.specs.List.{list_all};
ghost use Rattle.unicode_normalization.specs.Compose.{primary_composite};
ghost use Rattle.unicode_normalization.specs.Decompose.{decompose_canonical};
ghost use Rattle.aat_characters.specs.Decomposed.{chosen_way, decomposed, decomposed_character, decomposed_part, has_glyph, has_selector, is_other_space, is_variation_selector, stand_in, ways, ways_from};
ghost use Rattle.aat_characters.specs.PlacedCharacters.{written_as};
ghost use Rattle.aat_characters.specs.inside.Ways.{passing, way_at};

use crate::placed_character::PlacedCharacter;
use aat_face::Face;
use std::alloc::{AllocError, Allocator};
use unicode_normalization::Form;
use unicode_normalization::char::{compose, decomposition};

/// Whether the font has a glyph for a character.
pub fn has_glyph(face: &Face, character: char) -> bool
    ensures { result ≡ has_glyph face.now character }
{
    face.glyph_of(character).is_some()
}

/// Whether the font has a glyph for each of some characters.
fn has_glyphs(face: &Face, characters: &[char]) -> bool
    ensures { result ≡ list_all (has_glyph face.now) characters.now }
{
    characters
        .iter()
        .all(|character| has_glyph(face, *character))
}

/// The composite of a character and the part at a place, if there are both.
fn joined_with(first: char, parts: &[char], at: usize) -> Option<char>
    ensures { result ≡ option_and_then (primary_composite first) (slice_get parts.now at) }
{
    match parts.get(at) {
        Some(part) => compose(first, *part),
        None => None,
    }
}

/// A character with the parts from a place on, if the font has them all.
fn way_here(face: &Face, first: char, parts: &[char], at: usize) -> Option<(char, usize)>
    requires { at ≤ length parts.now }
    ensures way { option_map (way_at parts.now) result
        ≡ passing (list_all (has_glyph face.now)) (first ∷ drop at parts.now) }
    ensures within { IfSome result (λ way. way.1 ≤ length parts.now) }
{
    if has_glyph(face, first) && has_glyphs(face, &parts[at..]) {
        Some((first, at))
    } else {
        None
    }
}

/// The way that the font can write a character with the parts from a place on: the first character, and the place of
/// the part that follows it. It is the way with the fewest characters, or else with the most.
fn way_from(
    face: &Face,
    shortest: bool,
    first: char,
    parts: &[char],
    at: usize,
) -> Option<(char, usize)>
    requires { at ≤ length parts.now }
    ensures way { option_map (way_at parts.now) result
        ≡ chosen_way (has_glyph face.now) shortest (ways_from first (drop at parts.now)) }
    ensures within { IfSome result (λ way. way.1 ≤ length parts.now) }
{
    let here = way_here(face, first, parts, at);
    let further = match joined_with(first, parts, at) {
        Some(joined) => way_from(face, shortest, joined, parts, at + 1),
        None => None,
    };
    if shortest {
        further.or(here)
    } else {
        here.or(further)
    }
}

/// Whether a character is a space for which that of ASCII can stand.
fn is_other_space(character: char) -> bool
    ensures { result ≡ is_other_space character }
{
    let code = character as u32;
    code == 0xA0
        || (0x2000 <= code && code <= 0x200A)
        || code == 0x202F
        || code == 0x205F
        || code == 0x3000
}

/// What stands for a character that the font cannot write: the space for another space, which it tells, the hyphen for
/// one that does not break, and else itself.
fn stand_in(face: &Face, character: PlacedCharacter) -> PlacedCharacter
    ensures { result ≡ stand_in (has_glyph face.now) character }
{
    if is_other_space(character.character) && has_glyph(face, ' ') {
        PlacedCharacter {
            character: ' ',
            space: Some(character.character),
            ..character
        }
    } else if character.character == '\u{2011}' && has_glyph(face, '\u{2010}') {
        character.written_as('\u{2010}')
    } else {
        character
    }
}

/// The way in which the font can write a character with these parts.
fn chosen_way(face: &Face, shortest: bool, character: char, parts: &[char]) -> Option<(char, usize)>
    requires some { 0 < length parts.now }
    requires parts { parts.now ≡ decompose_canonical character }
    ensures way { option_map (way_at parts.now) result
        ≡ chosen_way (has_glyph face.now) shortest (ways character) }
    ensures within { IfSome result (λ way. way.1 ≤ length parts.now) }
{
    let own = way_here(face, character, parts, parts.len());
    let other = way_from(face, shortest, parts[0], parts, 1);
    if shortest {
        own.or(other)
    } else {
        other.or(own)
    }
}

/// Puts the characters with which one is written behind others, at its place.
fn put_written<A: Allocator>(
    character: PlacedCharacter,
    first: char,
    others: &[char],
    out: &mut Vec<PlacedCharacter, A>,
) -> Result<(), AllocError>
    ensures { OnOk result (out.new.items ≡ out.old.items ++ map (written_as character) (first ∷ others.now)) }
{
    out.push(character.written_as(first))?;
    for other in others {
        out.push(character.written_as(*other))?;
    }
    Ok(())
}

/// Whether a character is known to be written as itself, whatever a font has: it is not decomposed, and is none of the
/// spaces, nor the hyphen, for which others stand. Where it answers `false` nothing is said.
#[inline(never)]
pub fn is_written_as_itself(character: char) -> bool
    ensures parts { result ≡ true → decompose_canonical character ≡ character ∷ [] }
    ensures space { result ≡ true → is_other_space character ≡ false }
    ensures hyphen { result ≡ true → (character == 0x2011) ≡ false }
{
    if is_other_space(character) || character == '\u{2011}' {
        return false;
    }
    let mut room = ['\0'; 3];
    let parts = decomposition(character, Form::Nfd, &mut room);
    parts.len() == 1 && parts[0] == character
}

/// Puts a character behind others, as the font can write it. Most are written as themselves: so the font need not be
/// asked for them. One that it has is the shortest way to write it.
#[tactic(auto, using(crate::proofs::Apart::kept_character, crate::proofs::WaysLemmas::stays_written))]
fn put_character<A: Allocator>(
    face: &Face,
    shortest: bool,
    character: PlacedCharacter,
    out: &mut Vec<PlacedCharacter, A>,
) -> Result<(), AllocError>
    ensures { OnOk result (out.new.items
        ≡ out.old.items ++ decomposed_character (has_glyph face.now) shortest character) }
{
    if is_written_as_itself(character.character) {
        out.push(character)?;
        return Ok(());
    }
    if shortest && has_glyph(face, character.character) {
        out.push(character)?;
        return Ok(());
    }
    let mut room = ['\0'; 3];
    let parts = decomposition(character.character, Form::Nfd, &mut room);
    match chosen_way(face, shortest, character.character, parts) {
        Some((first, rest)) => put_written(character, first, &parts[rest..], out),
        None => {
            out.push(stand_in(face, character))?;
            Ok(())
        }
    }
}

/// Whether a character is a variation selector, which chooses a glyph for the character before it.
pub(crate) fn is_variation_selector(character: char) -> bool
    ensures { result ≡ is_variation_selector character }
{
    let code = character as u32;
    (0xFE00 <= code && code <= 0xFE0F) || (0xE0100 <= code && code <= 0xE01EF)
}

/// Whether one of some characters is a variation selector.
fn has_selector(part: &[PlacedCharacter]) -> bool
    ensures { result ≡ has_selector part.now }
{
    part.iter()
        .any(|character| is_variation_selector(character.character))
}

/// Puts characters behind others, each as the font can write it.
fn put_characters<A: Allocator>(
    face: &Face,
    shortest: bool,
    part: &[PlacedCharacter],
    out: &mut Vec<PlacedCharacter, A>,
) -> Result<(), AllocError>
    ensures { OnOk result (out.new.items
        ≡ out.old.items ++ flat_map (decomposed_character (has_glyph face.now) shortest) part.now) }
{
    for character in part {
        put_character(face, shortest, *character, out)?;
    }
    Ok(())
}

/// Puts a character with the marks behind it behind others, as the font can write them.
fn put_part<A: Allocator>(
    face: &Face,
    part: &[PlacedCharacter],
    out: &mut Vec<PlacedCharacter, A>,
) -> Result<(), AllocError>
    ensures { OnOk result (out.new.items ≡ out.old.items ++ decomposed_part (has_glyph face.now) part.now) }
{
    if has_selector(part) {
        return out.extend_from_slice(part);
    }
    put_characters(face, part.len() == 1, part, out)
}

/// The characters of a text as the font can write them: each with as few characters as can be where no mark is behind
/// it, and a letter with marks with as many.
pub(crate) fn decomposed<A: Allocator>(
    alloc: A,
    face: &Face,
    characters: &[PlacedCharacter],
) -> Result<Vec<PlacedCharacter, A>, AllocError>
    ensures { IfOk result (λ out. out.items ≡ decomposed (has_glyph face.now) characters.now) }
{
    let mut out = Vec::with_capacity(alloc, characters.len())?;
    let mut start = 0;
    for (i, character) in characters.iter().enumerate() {
        if !character.is_mark() {
            put_part(face, &characters[start..i], &mut out)?;
            start = i;
        }
    }
    put_part(face, &characters[start..], &mut out)?;
    Ok(out)
}
