//! The direction in which a text is shaped.
ghost use Rattle.std.specs.Prelude.{◌≡◌};
ghost use Rattle.aat_characters.specs.Native.{has_letter, has_number, is_digit, is_letter, is_numeric, is_regional_indicator, native_direction, natural_direction, told_script, written_direction};

use crate::script::{Script, script_direction, text_script};
use aat_glyph::Direction;
use ucd_category::{GeneralCategory, GeneralCategoryGroup};

/// The script of a text, which may be told.
pub fn told_script(told: Option<Script>, text: &str) -> Option<Script>
    ensures { result ≡ told_script told text.now }
{
    match told {
        Some(script) => Some(script),
        None => text_script(text),
    }
}

/// The direction in which a text of a script is written along rows, if it is not written both ways: to the right where
/// it has none.
fn written_direction(script: Option<Script>) -> Option<Direction>
    ensures { result ≡ written_direction script }
{
    match script {
        Some(script) => script_direction(script),
        None => Some(Direction::LeftToRight),
    }
}

/// The direction of a text of a script that is told no direction, as HarfBuzz has it: that of its script, and
/// `LeftToRight` where it has no script or one that is written both ways.
pub fn natural_direction(script: Option<Script>) -> Direction
    ensures { result ≡ natural_direction script }
{
    written_direction(script).unwrap_or(Direction::LeftToRight)
}

/// Whether a character is a letter: its `General_Category` is one of the letters.
fn is_letter(character: char) -> bool
    ensures { result ≡ is_letter character }
{
    GeneralCategoryGroup::Letter.contains(GeneralCategory::for_char(character))
}

/// Whether a character is a decimal digit.
fn is_digit(character: char) -> bool
    ensures { result ≡ is_digit character }
{
    matches!(
        GeneralCategory::for_char(character),
        GeneralCategory::DecimalNumber
    )
}

/// Whether a character is a regional indicator, two of which are a flag.
pub fn is_regional_indicator(character: char) -> bool
    ensures { result ≡ is_regional_indicator character }
{
    let code = character as u32;
    0x1F1E6 <= code && code <= 0x1F1FF
}

/// Whether a text has a decimal digit or a regional indicator.
fn has_number(text: &str) -> bool
    ensures { result ≡ has_number text.now }
{
    text.chars().any(|character| is_digit(character) || is_regional_indicator(character))
}

/// Whether a text has a letter.
fn has_letter(text: &str) -> bool
    ensures { result ≡ has_letter text.now }
{
    text.chars().any(|character| is_letter(character))
}

/// Whether a text has a decimal digit or a regional indicator, and no letter. Most texts have a letter among their first
/// characters, and numbers further on, if any.
fn is_numeric(text: &str) -> bool
    ensures { result ≡ is_numeric text.now }
{
    !has_letter(text) && has_number(text)
}

/// The direction in which HarfBuzz shapes a text of a script that runs in `direction`. In rows it is that in which the
/// script is written, `LeftToRight` where the text has no script, and `direction` where the script is written both
/// ways. A text that is told to run to the right does so too where it has a decimal digit or a regional indicator, and
/// no letter. In columns it is `TopToBottom`.
///
/// Where it differs from `direction`, the text is turned: its clusters are taken from last to first.
pub fn native_direction(script: Option<Script>, text: &str, direction: Direction) -> Direction
    ensures { result ≡ native_direction script text.now direction }
{
    match direction {
        Direction::TopToBottom | Direction::BottomToTop => Direction::TopToBottom,
        Direction::RightToLeft => written_direction(script).unwrap_or(direction),
        Direction::LeftToRight => {
            if is_numeric(text) {
                Direction::LeftToRight
            } else {
                written_direction(script).unwrap_or(direction)
            }
        }
    }
}
