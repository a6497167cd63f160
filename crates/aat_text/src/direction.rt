//! The direction of a text.
ghost use Rattle.std.specs.Prelude.{◌≡◌};
ghost use Rattle.aat_text.specs.Strong.{first_strong_direction, strong_direction};

use aat_glyph::Direction;
use ucd_bidi::BidiClass;

/// The direction of a strong character, none of others.
fn strong_direction(character: char) -> Option<Direction>
    ensures { result ≡ strong_direction character }
{
    match BidiClass::for_char(character) {
        BidiClass::LeftToRight => Some(Direction::LeftToRight),
        BidiClass::RightToLeft | BidiClass::ArabicLetter => Some(Direction::RightToLeft),
        _ => None,
    }
}

/// The direction of the first character of a text that is strong: `LeftToRight` where its `Bidi_Class` is L, and
/// `RightToLeft` where it is R or AL. There is none in a text without one. Characters between isolates are not skipped.
pub fn first_strong_direction(text: &str) -> Option<Direction>
    ensures { result ≡ first_strong_direction text.now }
{
    for character in text.chars() {
        let direction = strong_direction(character);
        if direction.is_some() {
            return direction;
        }
    }
    None
}
