//! The characters of a text with their places, in the order in which they are shaped.
ghost use Rattle.std.specs.Prelude.{◌≡◌, ◌<◌, ◌^◌, length, map, IfOk};
ghost use Rattle.aat_characters.specs.Decomposed.{has_glyph};
ghost use Rattle.aat_text.specs.Prepared.{exchanged, exchanged_at, mirrored_in, own_characters, placed_text, preferred, turned_text};

use crate::unit::ClusterUnit;
use aat_characters::{
    PlacedCharacter, has_glyph, merged_clusters, mirrored, turned_clusters, vertical_form,
};
use aat_face::Face;
use aat_glyph::Direction;
use std::alloc::{AllocError, Allocator};

/// Which characters of a text have a place of their own.
#[derive(Clone, Copy, PartialEq, Eq, Debug)]
pub enum ClusterLevel {
    /// Each character has the place of its cluster, as HarfBuzz forms clusters. HarfBuzz has this level as 0.
    Graphemes,
    /// Each character has its own place, but those of a text that is turned. HarfBuzz has this level as 1.
    Characters,
}

/// Another character, if the font has it.
fn preferred(face: &Face, other: char, character: char) -> char
    ensures { result ≡ preferred (has_glyph face.now) other character }
{
    if other != character && has_glyph(face, other) {
        other
    } else {
        character
    }
}

/// A character of a text that runs in a direction, mirrored in backward text.
fn mirrored_in(face: &Face, direction: Direction, character: char) -> char
    ensures { result ≡ mirrored_in (has_glyph face.now) direction character }
{
    if direction.is_backward() {
        preferred(face, mirrored(character), character)
    } else {
        character
    }
}

/// A character of a text that runs in a direction: mirrored in backward text, and then vertical in columns.
pub(crate) fn exchanged(face: &Face, direction: Direction, character: char) -> char
    ensures { result ≡ exchanged (has_glyph face.now) direction character }
{
    let seen = mirrored_in(face, direction, character);
    if direction.is_vertical() {
        preferred(face, vertical_form(seen), seen)
    } else {
        seen
    }
}

/// A character of a text that runs in a direction, exchanged, at its place.
pub(crate) fn exchanged_at(
    face: &Face,
    direction: Direction,
    character: PlacedCharacter,
) -> PlacedCharacter
    ensures { result ≡ exchanged_at (has_glyph face.now) direction character }
{
    PlacedCharacter {
        character: exchanged(face, direction, character.character),
        ..character
    }
}

/// Exchanges the characters of a text that runs in a direction. From left to right none is exchanged.
#[tactic(auto, using(crate::proofs::Exchanged::none_exchanged))]
fn exchange(face: &Face, direction: Direction, characters: &mut [PlacedCharacter])
    ensures { characters.new ≡ map (exchanged_at (has_glyph face.now) direction) characters.old }
{
    if matches!(direction, Direction::LeftToRight) {
        return;
    }
    for i in 0..characters.len() {
        characters[i] = exchanged_at(face, direction, characters[i]);
    }
}

/// The characters of a text, each at its own place.
fn own_characters<A: Allocator>(
    alloc: A,
    unit: ClusterUnit,
    text: &str,
) -> Result<Vec<PlacedCharacter, A>, AllocError>
    requires { length text.now < 2 ^ 32 }
    ensures { IfOk result (λ out. out.items ≡ own_characters unit text.now) }
{
    let mut out = Vec::new(alloc);
    let mut place = 0;
    for character in text.chars() {
        out.push(PlacedCharacter::new(place as u32, character))?;
        place += unit.width_of(character);
    }
    Ok(out)
}

/// The characters of a text that runs in a direction, in its order, exchanged, with their places.
pub(crate) fn placed_text<A: Allocator + Copy>(
    alloc: A,
    face: &Face,
    direction: Direction,
    level: ClusterLevel,
    unit: ClusterUnit,
    text: &str,
) -> Result<Vec<PlacedCharacter, A>, AllocError>
    requires { length text.now < 2 ^ 32 }
    ensures { IfOk result (λ out. out.items ≡ placed_text (has_glyph face.now) direction level unit text.now) }
{
    let own = own_characters(alloc, unit, text)?;
    let mut out = match level {
        ClusterLevel::Graphemes => merged_clusters(alloc, &own)?,
        ClusterLevel::Characters => own,
    };
    exchange(face, direction, &mut out);
    Ok(out)
}

/// The same, from the last cluster to the first, each with one place.
pub(crate) fn turned_text<A: Allocator + Copy>(
    alloc: A,
    face: &Face,
    direction: Direction,
    unit: ClusterUnit,
    text: &str,
) -> Result<Vec<PlacedCharacter, A>, AllocError>
    requires { length text.now < 2 ^ 32 }
    ensures { IfOk result (λ out. out.items ≡ turned_text (has_glyph face.now) direction unit text.now) }
{
    let own = own_characters(alloc, unit, text)?;
    let mut out = turned_clusters(alloc, &own)?;
    exchange(face, direction, &mut out);
    Ok(out)
}
