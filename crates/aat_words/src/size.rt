//! Sizes by their numbers, with digits behind the point.

use anyhow::{Context, Result, anyhow};
use clap::ArgMatches;

/// How many parts of a point a digit behind the point counts, by how many digits there are.
const PARTS: [u64; 7] = [1, 10, 100, 1_000, 10_000, 100_000, 1_000_000];

/// A size in points or pixels, as 12 or 10.5, where each counts 65536.
fn size_of(text: &str) -> Result<u32> {
    let (points, digits) = text.split_once('.').unwrap_or((text, ""));
    let points = points.parse::<u16>()?;
    let is_decimal = digits.bytes().all(|digit| digit.is_ascii_digit());
    let parts = PARTS.get(digits.len()).filter(|_| is_decimal);
    let parts = *parts.context("at most six digits stand behind the point")?;
    let part = if digits.is_empty() {
        0
    } else {
        u64::from(digits.parse::<u32>()?)
    };
    let part = part.saturating_mul(65536).checked_div(parts).unwrap_or(0);
    Ok((u32::from(points) << 16) | u32::try_from(part)?)
}

/// The size that an option asks for, if it is there, where a point or a pixel counts 65536.
pub fn size_asked(matches: &ArgMatches<'_>, option: &str) -> Result<Option<u32>> {
    match matches.get_str(option) {
        Some(text) => {
            let size = size_of(text).with_context(|| anyhow!("{option} \"{text}\""))?;
            Ok(Some(size))
        }
        None => Ok(None),
    }
}
