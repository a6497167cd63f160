//! The glyphs of a text in which each character is a cluster by itself, as in most texts without marks: no character is
//! merged with others, composed or put in order, so that each is written as it comes.
ghost use Rattle.std.specs.Prelude.{◌≡◌, ◌<◌, ◌^◌, ◌++◌, ◌&&◌, [], flat_map, length, map, true, IfOk, OnOk};
ghost use Rattle.aat_characters.specs.PlacedCharacters.{placed};
ghost use Rattle.aat_characters.specs.Apart.{is_apart};
ghost use Rattle.aat_characters.specs.Decomposed.{has_glyph};
ghost use Rattle.aat_text.specs.Prepared.{exchanged, exchanged_at, own_characters, placed_glyph};
ghost use Rattle.aat_text.specs.inside.KnownGlyphs.{AreKnown};
ghost use Rattle.aat_text.specs.inside.Lone.{IsWrittenAlone, exchanged_glyphs, lone_glyphs, stand_apart};

use crate::clusters::exchanged_at;
use crate::glyphs::placed_glyph;
use crate::known_glyphs::KnownGlyphs;
use crate::plain::is_plain;
use crate::unit::ClusterUnit;
use aat_characters::{
    PlacedCharacter, extends, is_regional_indicator, is_written_as_itself, normalized,
};
use aat_face::Face;
use aat_glyph::Direction;
use aat_shaped_text::TextGlyph;
use std::alloc::{AllocError, Allocator};

/// Whether a character continues no cluster and is no half of a flag: in a text of such characters each is a cluster by
/// itself, and none is a mark.
#[tactic(auto, using(crate::proofs::PlainCharacters::plain_apart))]
fn is_apart(character: char) -> bool
    ensures { result ≡ is_apart character }
{
    if is_plain(character) {
        return true;
    }
    !extends(character) && !is_regional_indicator(character)
}

/// Puts the glyphs of characters behind others.
pub(crate) fn put_placed<A: Allocator>(
    face: &Face,
    known: &mut KnownGlyphs,
    characters: &[PlacedCharacter],
    glyphs: &mut Vec<TextGlyph, A>,
) -> Result<(), AllocError>
    requires { AreKnown face.now known.now }
    ensures known { AreKnown face.now known.new }
    ensures glyphs { OnOk result (glyphs.new.items ≡ glyphs.old.items ++ map (placed_glyph face.now) characters.now) }
{
    for character in characters {
        glyphs.push(placed_glyph(face, known, *character))?;
    }
    Ok(())
}

/// Whether a character, whose glyph has this number, is known to be written as itself: the font has it, or no other one
/// could be written.
fn is_written_alone(glyph_id: u16, character: char) -> bool
    ensures { result ≡ true → glyph_id ≡ 0 → IsWrittenAlone character }
{
    glyph_id != 0 || is_written_as_itself(character)
}

/// Puts the glyphs of a character by itself behind others: one, if the font has it.
fn put_lone<B: Allocator + Copy, A: Allocator>(
    scratch: B,
    face: &Face,
    known: &mut KnownGlyphs,
    character: PlacedCharacter,
    glyphs: &mut Vec<TextGlyph, A>,
) -> Result<(), AllocError>
    requires { AreKnown face.now known.now }
    ensures known { AreKnown face.now known.new }
    ensures glyphs { OnOk result (glyphs.new.items ≡ glyphs.old.items ++ lone_glyphs face.now character) }
{
    let glyph = placed_glyph(face, known, character);
    if glyph.glyph_id != 0 {
        glyphs.push(glyph)?;
        return Ok(());
    }
    let alone = [character];
    let written = normalized(scratch, face, &alone)?;
    put_placed(face, known, &written, glyphs)
}

/// A character of a text that runs in a direction, exchanged, at its place. From left to right none is exchanged.
fn seen_at(face: &Face, direction: Direction, character: PlacedCharacter) -> PlacedCharacter
    ensures { result ≡ exchanged_at (has_glyph face.now) direction character }
{
    match direction {
        Direction::LeftToRight => character,
        _ => exchanged_at(face, direction, character),
    }
}

/// Whether a character is a cluster by itself, and so is the one that is seen for it.
fn are_apart(own: char, seen: char) -> bool
    ensures { result ≡ (is_apart own && is_apart seen) }
{
    is_apart(own) && (seen == own || is_apart(seen))
}

/// Puts the glyphs of what is seen for a character behind others, if both are clusters by themselves, and tells whether
/// they are.
#[inline(never)]
fn put_if_apart<B: Allocator + Copy, A: Allocator>(
    scratch: B,
    face: &Face,
    known: &mut KnownGlyphs,
    own: char,
    seen: PlacedCharacter,
    glyphs: &mut Vec<TextGlyph, A>,
) -> Result<bool, AllocError>
    requires { AreKnown face.now known.now }
    ensures known { AreKnown face.now known.new }
    ensures apart { IfOk result (λ apart. apart ≡ (is_apart own && is_apart seen.character)) }
    ensures glyphs { IfOk result (λ apart. apart ≡ true
        → glyphs.new.items ≡ glyphs.old.items ++ lone_glyphs face.now seen) }
{
    if !are_apart(own, seen.character) {
        return Ok(false);
    }
    put_lone(scratch, face, known, seen, glyphs)?;
    Ok(true)
}

/// Puts the glyphs of a character of a text that runs in a direction behind others, if it is a cluster by itself, also
/// as it is exchanged, and tells whether that is so. Most characters are plain, stay as they are, and are written alone.
fn put_apart<B: Allocator + Copy, A: Allocator>(
    scratch: B,
    face: &Face,
    known: &mut KnownGlyphs,
    direction: Direction,
    own: PlacedCharacter,
    glyphs: &mut Vec<TextGlyph, A>,
) -> Result<bool, AllocError>
    requires { AreKnown face.now known.now }
    ensures known { AreKnown face.now known.new }
    ensures apart { IfOk result (λ apart. apart
        ≡ (is_apart own.character && is_apart (exchanged (has_glyph face.now) direction own.character))) }
    ensures glyphs { IfOk result (λ apart. apart ≡ true
        → glyphs.new.items ≡ glyphs.old.items ++ exchanged_glyphs face.now direction own) }
{
    let seen = seen_at(face, direction, own);
    if seen.character == own.character && seen.space.is_none() && is_plain(seen.character) {
        let glyph_id = known.glyph_id(face, seen.character);
        if is_written_alone(glyph_id, seen.character) {
            glyphs.push(TextGlyph::new(glyph_id, seen.place))?;
            return Ok(true);
        }
    }
    put_if_apart(scratch, face, known, own.character, seen, glyphs)
}

/// How many glyphs there is room for at first, or as many as the text has bytes, if these are fewer.
const ROOM: usize = 64;

/// Whether each character of a text that runs in a direction is a cluster by itself. If so their glyphs are put into an
/// empty vector, those of each character by itself.
pub(crate) fn put_lone_glyphs<B: Allocator + Copy, A: Allocator>(
    scratch: B,
    face: &Face,
    direction: Direction,
    unit: ClusterUnit,
    text: &str,
    glyphs: &mut Vec<TextGlyph, A>,
) -> Result<bool, AllocError>
    requires short { length text.now < 2 ^ 32 }
    requires empty { glyphs.old.items ≡ [] }
    ensures apart { IfOk result (λ apart. apart ≡ stand_apart (has_glyph face.now) direction text.now) }
    ensures glyphs { IfOk result (λ apart. apart ≡ true → glyphs.new.items
        ≡ flat_map (exchanged_glyphs face.now direction) (own_characters unit text.now)) }
{
    glyphs.reserve(text.len().min(ROOM))?;
    let mut known = KnownGlyphs::none();
    let mut place = 0;
    for character in text.chars() {
        let own = PlacedCharacter::new(place as u32, character);
        if !put_apart(scratch, face, &mut known, direction, own, glyphs)? {
            return Ok(false);
        }
        place += unit.width_of(character);
    }
    Ok(true)
}
