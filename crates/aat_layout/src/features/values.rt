//! Values in a text.
ghost use Rattle.std.specs.Prelude.{◌≡◌, ◌+◌, Option, map};
ghost use Rattle.std.specs.Char.{to_ascii_lowercase};
ghost use Rattle.aat_layout.specs.features.Values.{demanded_at, given_at, sign_at, switch_at, value_at, word_at};

use crate::features::characters::{Class, next, run_at, skip_spaces};
use crate::features::error::FeatureError;
use crate::features::numbers::number_at;

/// The value of a sign, 0 of a minus, 1 of a plus or of none, and the place behind it.
#[tactic(auto, unfolding(crate::specs::features::Values::sign_at))]
pub fn sign_at(text: &[u8], place: usize) -> (u32, usize)
    ensures { result ≡ sign_at text.now place }
{
    match next(b"-", text, place) {
        Some(behind) => (0, behind),
        None => (1, next(b"+", text, place).unwrap_or(place)),
    }
}

/// 1 for the word `on` and 0 for `off`, if one of them comes next, and the place behind it.
#[tactic(auto, unfolding(crate::specs::features::Values::switch_at, crate::specs::features::Values::word_at))]
fn switch_at(text: &[u8], place: usize) -> (Option<u32>, usize)
    ensures { result ≡ switch_at text.now place }
{
    let from = skip_spaces(text, place);
    let word = run_at(text, from, Class::Letter);
    if word.eq_ignore_ascii_case(b"on") {
        (Some(1), from + word.len())
    } else if word.eq_ignore_ascii_case(b"off") {
        (Some(0), from + word.len())
    } else {
        (None, place)
    }
}

/// A number or one of the words, if one comes next, and the place behind it.
#[tactic(auto, unfolding(crate::specs::features::Values::given_at))]
fn given_at(text: &[u8], place: usize) -> Result<(Option<u32>, usize), FeatureError>
    ensures { result ≡ given_at text.now place }
{
    let (number, behind) = number_at(text, place)?;
    if number.is_some() {
        Ok((number, behind))
    } else {
        Ok(switch_at(text, place))
    }
}

/// The value that has to come next, and the place behind it.
#[tactic(auto, unfolding(crate::specs::features::Values::demanded_at))]
fn demanded_at(text: &[u8], place: usize) -> Result<(u32, usize), FeatureError>
    ensures { result ≡ demanded_at text.now place }
{
    match given_at(text, place)? {
        (Some(value), behind) => Ok((value, behind)),
        (None, _) => Err(FeatureError::MissingValue(skip_spaces(text, place))),
    }
}

/// The value that comes next, demanded after an equals sign, or else the value of the sign.
#[tactic(auto, unfolding(crate::specs::features::Values::value_at))]
pub fn value_at(of_sign: u32, text: &[u8], place: usize) -> Result<(u32, usize), FeatureError>
    ensures { result ≡ value_at of_sign text.now place }
{
    if let Some(behind) = next(b"=", text, place) {
        return demanded_at(text, behind);
    }
    let (given, behind) = given_at(text, place)?;
    Ok((given.unwrap_or(of_sign), behind))
}
