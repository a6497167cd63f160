//! Numbers in a text.
ghost use Rattle.std.specs.Prelude.{◌≡◌, ◌-◌, ◌^◌, min};
ghost use Rattle.aat_layout.specs.features.Numbers.{decimal, number_at};

use crate::features::characters::{Class, run_at, skip_spaces};
use crate::features::error::FeatureError;

/// The number that decimal digits write, as far as 64 bits go.
fn decimal(digits: &[u8]) -> u64
    ensures { result ≡ min (decimal digits.now) (2 ^ 64 - 1) }
{
    digits.iter().fold(0, |number: u64, digit| {
        number
            .saturating_mul(10)
            .saturating_add(u64::from(digit.saturating_sub(b'0')))
    })
}

/// A number, if digits come next, and the place behind it.
#[tactic(auto, unfolding(crate::specs::features::Numbers::number_at))]
pub fn number_at(text: &[u8], place: usize) -> Result<(Option<u32>, usize), FeatureError>
    ensures { result ≡ number_at text.now place }
{
    let from = skip_spaces(text, place);
    let digits = run_at(text, from, Class::Digit);
    if digits.is_empty() {
        return Ok((None, place));
    }
    let number = decimal(digits);
    if number > u64::from(u32::MAX) {
        return Err(FeatureError::NumberTooLarge(from));
    }
    Ok((Some(number as u32), from + digits.len()))
}
