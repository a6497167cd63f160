//! Letters and marks composed as far as the font has the composites.
ghost use Rattle.std.specs.Prelude.{◌≡◌, ◌++◌, ◌∷◌, List, IfOk, OnOk};
ghost use Rattle.aat_characters.specs.declared.placed_character.PlacedCharacter.{PlacedCharacter};
ghost use Rattle.aat_characters.specs.inside.Composing.{composed_behind};
ghost use Rattle.aat_characters.specs.Composed.{composed, composed_from, composite_in, composite_of, has_marks, is_free, normalized};
ghost use Rattle.aat_characters.specs.Decomposed.{has_glyph};

use crate::decomposed::{decomposed, has_glyph};
use crate::kept::are_kept;
use crate::ordered::ordered;
use crate::placed_character::{PlacedCharacter, put_moved};
use aat_face::Face;
use std::alloc::{AllocError, Allocator};
use unicode_normalization::char::compose;

/// Whether nothing between a starter and a mark keeps the two apart.
fn is_free(between: &[PlacedCharacter], character: PlacedCharacter) -> bool
    ensures { result ≡ is_free between.now character }
{
    match between.last() {
        Some(last) => last.class() < character.class(),
        None => true,
    }
}

/// The composite of two characters, if the font has it.
pub(crate) fn composite_in(face: &Face, first: char, second: char) -> Option<char>
    ensures { result ≡ composite_in (has_glyph face.now) first second }
{
    let composite = compose(first, second)?;
    if has_glyph(face, composite) {
        Some(composite)
    } else {
        None
    }
}

/// What a starter and a mark become, if they compose. Few characters have a composite: so that is asked first.
fn composite_of(
    face: &Face,
    starter: PlacedCharacter,
    between: &[PlacedCharacter],
    character: PlacedCharacter,
) -> Option<PlacedCharacter>
    ensures { result ≡ composite_of (has_glyph face.now) starter between.now character }
{
    let composite = composite_in(face, starter.character, character.character)?;
    if !character.is_mark() || !is_free(between, character) {
        return None;
    }
    Some(PlacedCharacter::new(starter.place.min(character.place), composite))
}

/// Characters that are composed, a starter behind them, and those behind it that did not compose with it.
#[derive(Drop)]
struct Composer<A: Allocator> {
    done: Vec<PlacedCharacter, A>,
    starter: PlacedCharacter,
    between: Vec<PlacedCharacter, A>,
}

/// Moves the starter and what is behind it to the characters that are composed.
fn put_starter<A: Allocator>(composer: &mut Composer<A>) -> Result<(), AllocError>
    ensures done { OnOk result (composer.new.done.items
        ≡ composer.old.done.items ++ composer.old.starter ∷ composer.old.between.items) }
{
    composer.done.push(composer.starter)?;
    if composer.between.is_empty() {
        return Ok(());
    }
    composer.done.extend_from_slice(&composer.between)
}

/// Composes one more character, if it does.
fn put_next<A: Allocator + Copy>(
    alloc: A,
    face: &Face,
    composer: &mut Composer<A>,
    character: PlacedCharacter,
) -> Result<(), AllocError>
    ensures { OnOk result ((rest : List PlacedCharacter)
        → composed_behind (has_glyph face.now)
        composer.new.done.items composer.new.starter composer.new.between.items rest
        ≡ composed_behind (has_glyph face.now)
        composer.old.done.items composer.old.starter composer.old.between.items (character ∷ rest)) }
{
    match composite_of(face, composer.starter, &composer.between, character) {
        Some(composite) => {
            let mut between = Vec::new(alloc);
            put_moved(composite.place, &composer.between, &mut between)?;
            composer.starter = composite;
            composer.between = between;
        }
        None => {
            if character.is_moved() {
                composer.between.push(character)?;
            } else {
                put_starter(composer)?;
                composer.starter = character;
                composer.between.clear();
            }
        }
    }
    Ok(())
}

/// The characters of a text, composed. A mark composes with the last starter before it where the font has the
/// composite, and the character right before the mark is that starter or has a lower class. A starter is the first
/// character, and each one that is not moved among marks and does not compose.
pub(crate) fn composed<A: Allocator + Copy>(
    alloc: A,
    face: &Face,
    characters: &[PlacedCharacter],
) -> Result<Vec<PlacedCharacter, A>, AllocError>
    ensures { IfOk result (λ out. out.items ≡ composed (has_glyph face.now) characters.now) }
{
    let Some((first, others)) = characters.split_first() else {
        return Ok(Vec::new(alloc));
    };
    let mut composer = Composer {
        done: Vec::with_capacity(alloc, characters.len())?,
        starter: *first,
        between: Vec::new(alloc),
    };
    for character in others {
        put_next(alloc, face, &mut composer, *character)?;
    }
    put_starter(&mut composer)?;
    Ok(composer.done)
}

/// Whether a text has a mark behind another character.
fn has_marks(characters: &[PlacedCharacter]) -> bool
    ensures { result ≡ has_marks characters.now }
{
    characters
        .iter()
        .skip(1)
        .any(|character| character.is_mark())
}

/// The characters of a text as the font can write them. Where no mark stands behind another character, each is written
/// by itself, with as few characters as the font has. Else they are decomposed, their marks are put in order, and they
/// are composed again.
#[tactic(auto, using(crate::proofs::KeptTexts::kept_text))]
pub fn normalized<A: Allocator + Copy>(
    alloc: A,
    face: &Face,
    characters: &[PlacedCharacter],
) -> Result<Vec<PlacedCharacter, A>, AllocError>
    ensures { IfOk result (λ out. out.items ≡ normalized (has_glyph face.now) characters.now) }
{
    if !has_marks(characters) {
        return decomposed(alloc, face, characters);
    }
    if are_kept(face, characters) {
        let mut kept = Vec::with_capacity(alloc, characters.len())?;
        kept.extend_from_slice(characters)?;
        return Ok(kept);
    }
    let apart = decomposed(alloc, face, characters)?;
    let placed = ordered(alloc, apart)?;
    composed(alloc, face, &placed)
}
