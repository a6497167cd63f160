//! The characters of a text that a font lacks.
ghost use Rattle.std.specs.Prelude.{◌≡◌, ◌≤◌, ◌^◌, ◌↔◌, length, IfOk, IsErrOf};
ghost use Rattle.aat_text.specs.Missing.{is_missing, missing_characters};

use crate::error::TextError;
use crate::glyphs::LONGEST_TEXT;
use crate::ignorable_characters::is_ignorable_character;
use crate::unit::ClusterUnit;
use aat_face::Face;
use std::alloc::Allocator;

/// A character of a text that has no glyph in the font.
#[derive(Clone, Copy, PartialEq, Eq, Debug)]
pub struct MissingCharacter {
    /// The number of bytes or characters of the text before it.
    pub place: u32,
    /// The character.
    pub character: char,
}

/// Whether a font lacks a character that is to be seen.
fn is_missing(face: &Face, character: char) -> bool
    ensures { result ≡ is_missing face.now character }
{
    face.glyph_of(character).is_none() && !is_ignorable_character(character)
}

/// The characters of a text that have no glyph in the font, in the order of the text, each with its own place: the
/// number of bytes or of characters of the text before it, as `unit` says. Ignorable ones (`text_of`) are left out,
/// since nothing is to be seen of them. A line feed and other control characters are told where the font lacks them.
///
/// Refused as 1 `TooLong` exactly where the text has more than 4,294,967,295 bytes, and else as 2 `OutOfMemory` where
/// memory is wanting.
pub fn missing_characters<A: Allocator>(
    alloc: A,
    face: &Face,
    unit: ClusterUnit,
    text: &str,
) -> Result<Vec<MissingCharacter, A>, TextError>
    ensures ok { IfOk result (λ missing. missing.items ≡ missing_characters face.now unit text.now) }
    ensures too_long { IsErrOf result TextError.TooLong ↔ (2 ^ 32 ≤ length text.now) }
{
    if text.len() > LONGEST_TEXT {
        return Err(TextError::TooLong);
    }
    let mut missing = Vec::new(alloc);
    let mut place = 0;
    for character in text.chars() {
        if is_missing(face, character) {
            missing.push(MissingCharacter {
                place: place as u32,
                character,
            })?;
        }
        place += unit.width_of(character);
    }
    Ok(missing)
}
