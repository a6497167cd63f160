//! The kind of a character as a number, which its glyph has on a line.
ghost use Rattle.std.specs.Prelude.{◌≡◌, ◌<◌};
ghost use Rattle.aat_shaped_text.specs.Kinds.{kind_of_number, number_of_kind, number_of_width};

use aat_shaped_text::{CharacterKind, SpaceWidth};

/// The number of the kind of a mark without a combining class. Below it are those of the other kinds.
const MARK_WITHOUT_CLASS: u16 = 256;

/// The number of a space's width.
fn number_of_width(width: SpaceWidth) -> u16
    ensures value { result ≡ number_of_width width }
    ensures small { result < 256 }
{
    match width {
        SpaceWidth::Em => 1,
        SpaceWidth::HalfEm => 2,
        SpaceWidth::ThirdOfEm => 3,
        SpaceWidth::FourthOfEm => 4,
        SpaceWidth::FifthOfEm => 5,
        SpaceWidth::SixthOfEm => 6,
        SpaceWidth::SixteenthOfEm => 7,
        SpaceWidth::FourEighteenthsOfEm => 8,
        SpaceWidth::Figure => 9,
        SpaceWidth::Punctuation => 10,
        SpaceWidth::Narrow => 11,
    }
}

/// The number of a kind.
pub(crate) fn number_of_kind(kind: CharacterKind) -> u16
    ensures value { result ≡ number_of_kind kind }
    ensures small { result < 512 }
{
    match kind {
        CharacterKind::Other => 0,
        CharacterKind::Space(width) => number_of_width(width),
        CharacterKind::Mark(class) => MARK_WITHOUT_CLASS + u16::from(class),
    }
}

/// The kind of a number.
pub(crate) fn kind_of_number(number: u16) -> CharacterKind
    requires { number < 512 }
    ensures { result ≡ kind_of_number number }
{
    if number == 0 {
        return CharacterKind::Other;
    }
    if number >= MARK_WITHOUT_CLASS {
        return CharacterKind::Mark((number - MARK_WITHOUT_CLASS) as u8);
    }
    match number {
        1 => CharacterKind::Space(SpaceWidth::Em),
        2 => CharacterKind::Space(SpaceWidth::HalfEm),
        3 => CharacterKind::Space(SpaceWidth::ThirdOfEm),
        4 => CharacterKind::Space(SpaceWidth::FourthOfEm),
        5 => CharacterKind::Space(SpaceWidth::FifthOfEm),
        6 => CharacterKind::Space(SpaceWidth::SixthOfEm),
        7 => CharacterKind::Space(SpaceWidth::SixteenthOfEm),
        8 => CharacterKind::Space(SpaceWidth::FourEighteenthsOfEm),
        9 => CharacterKind::Space(SpaceWidth::Figure),
        10 => CharacterKind::Space(SpaceWidth::Punctuation),
        11 => CharacterKind::Space(SpaceWidth::Narrow),
        _ => CharacterKind::Other,
    }
}
