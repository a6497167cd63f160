//! The kinds of the characters of a text.
ghost use Rattle.std.specs.Prelude.{◌≡◌};
ghost use Rattle.aat_text.specs.Kinds.{character_kind, placed_kind, space_kind};

use crate::plain::is_plain;
use aat_characters::{PlacedCharacter, box_class};
use aat_lookup::keys::row_at;
use aat_shaped_text::{CharacterKind, SpaceWidth};

/// The spaces with widths of their own, as HarfBuzz's `space_fallback_type` has them, rising. U+00A0 is as wide as the
/// space.
pub(crate) static SPACE_WIDTHS: [(u16, SpaceWidth); 14] = [
    (0x2000, SpaceWidth::HalfEm),
    (0x2001, SpaceWidth::Em),
    (0x2002, SpaceWidth::HalfEm),
    (0x2003, SpaceWidth::Em),
    (0x2004, SpaceWidth::ThirdOfEm),
    (0x2005, SpaceWidth::FourthOfEm),
    (0x2006, SpaceWidth::SixthOfEm),
    (0x2007, SpaceWidth::Figure),
    (0x2008, SpaceWidth::Punctuation),
    (0x2009, SpaceWidth::FifthOfEm),
    (0x200A, SpaceWidth::SixteenthOfEm),
    (0x202F, SpaceWidth::Narrow),
    (0x205F, SpaceWidth::FourEighteenthsOfEm),
    (0x3000, SpaceWidth::Em),
];

/// The kind of a space that the font lacks.
fn space_kind(space: char) -> CharacterKind
    ensures { result ≡ space_kind space }
{
    match row_at(&SPACE_WIDTHS, space as u32) {
        Some(row) => CharacterKind::Space(row.1),
        None => CharacterKind::Other,
    }
}

/// The kind of a character that stands for no space.
#[tactic(auto, using(crate::proofs::PlainCharacters::plain_kind))]
pub(crate) fn character_kind(character: char) -> CharacterKind
    ensures { result ≡ character_kind character }
{
    if is_plain(character) {
        return CharacterKind::Other;
    }
    match box_class(character) {
        Some(class) => CharacterKind::Mark(class),
        None => CharacterKind::Other,
    }
}

/// The kind of a character that may stand for a space.
pub(crate) fn placed_kind(character: PlacedCharacter) -> CharacterKind
    ensures { result ≡ placed_kind character }
{
    match character.space {
        Some(space) => space_kind(space),
        None => character_kind(character.character),
    }
}
