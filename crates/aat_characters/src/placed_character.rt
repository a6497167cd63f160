//! The characters of a text with their places.
ghost use Rattle.std.specs.Prelude.{◌≡◌, ◌++◌, map, OnOk};
ghost use Rattle.aat_characters.specs.PlacedCharacters.{at_place, has_mark, is_moved, placed, placed_class, written_as};

use crate::mark::{is_mark, mark_class};
use std::alloc::{AllocError, Allocator};

/// A character of a text, with the place that its glyph has as its cluster.
#[derive(Clone, Copy)]
pub struct PlacedCharacter {
    /// The number of bytes or characters of the text before it, or before its cluster.
    pub place: u32,
    /// The character.
    pub character: char,
    /// The space of the text for which it stands, if it does: U+0020, where the font lacks that space.
    pub space: Option<char>,
}

impl PlacedCharacter {
    /// A character that stands for no space.
    pub fn new(place: u32, character: char) -> PlacedCharacter
        ensures { result ≡ placed (place, character) }
    {
        PlacedCharacter {
            place,
            character,
            space: None,
        }
    }

    /// Whether it is a mark.
    pub(crate) fn is_mark(self) -> bool
        ensures { result ≡ has_mark self }
    {
        is_mark(self.character)
    }

    /// The class by which a mark is ordered behind its letter, as HarfBuzz has it, and 0 of a character that is not
    /// moved.
    pub(crate) fn class(self) -> u8
        ensures { result ≡ placed_class self }
    {
        mark_class(self.character)
    }

    /// The same character at another place.
    pub(crate) fn at_place(self, place: u32) -> PlacedCharacter
        ensures { result ≡ at_place place self }
    {
        PlacedCharacter { place, ..self }
    }

    /// Whether it is moved among marks: its class is not 0.
    pub(crate) fn is_moved(self) -> bool
        ensures { result ≡ is_moved self }
    {
        self.class() != 0
    }

    /// Another character at the same place.
    pub(crate) fn written_as(self, character: char) -> PlacedCharacter
        ensures { result ≡ written_as self character }
    {
        PlacedCharacter { character, ..self }
    }
}

/// Puts characters behind others, moved to a place.
pub(crate) fn put_moved<A: Allocator>(
    place: u32,
    characters: &[PlacedCharacter],
    out: &mut Vec<PlacedCharacter, A>,
) -> Result<(), AllocError>
    ensures { OnOk result (out.new.items ≡ out.old.items ++ map (at_place place) characters.now) }
{
    for character in characters {
        out.push(character.at_place(place))?;
    }
    Ok(())
}
