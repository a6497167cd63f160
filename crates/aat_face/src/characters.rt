//! The characters of a font.
ghost use Rattle.std.specs.Prelude.{◌≡◌};
ghost use Rattle.aat_read_sfnt.specs.Characters.{mapped_glyph};
ghost use Rattle.aat_face.specs.inside.GlyphRows.{IsRow};

use aat_read_sfnt::CharacterMap;
use std::marker::Model;

/// The space, the first printable character of ASCII.
const SPACE: u16 = 0x20;

/// The character behind the last printable one.
const END: u16 = 0x7F;

/// The map of characters, with a row of characters of ASCII, from the space on, whose glyphs stand in a row too, as in
/// most fonts: their glyphs are told without the map. A contract sees it as the map.
#[derive(Drop)]
pub(crate) struct Characters<'a> {
    map: CharacterMap<'a>,
    /// The character behind the last one of the row.
    end: u16,
    /// What is added to a character of the row.
    delta: u16,
}

impl<'a> Model for Characters<'a> {
    ghost use Rattle.aat_read_sfnt.specs.declared.cmap.CharacterMap.{CharacterMap};
    ghost use Rattle.aat_face.specs.inside.GlyphRows.{IsRow};

    ghost Value = { CharacterMap };

    ghost view = { λ m. m.map };

    ghost invariant = { λ m. IsRow m.map m.delta m.end };
}

/// The end of the row of characters from the space on.
fn row_end(map: &CharacterMap<'_>, delta: u16) -> u16
    ensures { IsRow map.now delta result }
{
    let mut end = SPACE;
    while end < END {
        let (glyph, next) = map.row_until(end as u8 as char);
        if glyph != Some(end.wrapping_add(delta)) {
            return end;
        }
        end = next.min(END as u64) as u16;
    }
    end
}

impl<'a> Characters<'a> {
    /// The characters of a map.
    pub(crate) fn of(map: CharacterMap<'a>) -> Characters<'a>
        ensures { result ≡ map.entry }
    {
        let glyph = map.glyph(' ').unwrap_or(0);
        let delta = glyph.wrapping_sub(SPACE);
        let end = row_end(&map, delta);
        Characters { map, end, delta }
    }

    /// The glyph of a character, if the font has one that is not 0.
    pub(crate) fn glyph(&self, character: char) -> Option<u16>
        ensures { result ≡ mapped_glyph self.now character }
    {
        let number = character as u32;
        if number >= u32::from(SPACE) && number < u32::from(self.end) {
            return Some((number as u16).wrapping_add(self.delta));
        }
        self.map.glyph(character)
    }
}
