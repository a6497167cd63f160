//! How a picture looks, as a command line asks.

use aat_drawing::{Colour, Paint};
use aat_words::size_asked;
use anyhow::{Context, Result, anyhow, bail, ensure};
use clap::ArgMatches;
use std::alloc::Global;

/// A colour by six or eight hexadecimal digits, before which a `#` may stand.
fn colour_of(alloc: Global, text: &str) -> Result<Colour> {
    let digits = text.strip_prefix('#').unwrap_or(text);
    let bytes = hex::decode(alloc, digits)?;
    match bytes.as_slice() {
        [red, green, blue] => Ok(Colour([*red, *green, *blue, 0xFF])),
        [red, green, blue, opacity] => Ok(Colour([*red, *green, *blue, *opacity])),
        _ => bail!("a colour has six or eight digits"),
    }
}

/// The colour that an option asks for, else another one.
fn colour_or(
    alloc: Global,
    matches: &ArgMatches<'_>,
    option: &str,
    other: Colour,
) -> Result<Colour> {
    match matches.get_str(option) {
        Some(text) => colour_of(alloc, text).with_context(|| anyhow!("{option} \"{text}\"")),
        None => Ok(other),
    }
}

/// How a picture looks, as a command line asks.
pub(crate) fn paint_of(alloc: Global, matches: &ArgMatches<'_>) -> Result<Paint> {
    let plain = Paint::plain();
    let em = size_asked(matches, "font-size")?.unwrap_or(plain.em);
    ensure!(em > 0, "font-size: an em of no pixels shows nothing");
    Ok(Paint {
        background: colour_or(alloc, matches, "background", plain.background)?,
        foreground: colour_or(alloc, matches, "foreground", plain.foreground)?,
        em,
        margin: matches.get_one::<u16>("margin"),
    })
}
