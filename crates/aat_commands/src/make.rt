//! The command `aat make`.

use aat_make_font::make_font;
use aat_words::{OUTPUT, Session, text_of_file};
use anyhow::{Context, Result, anyhow, ensure};
use clap::ArgMatches;
use std::fs;
use std::io::Write;

/// Writes whether a font has the bytes of a file, and else the place of the first byte that differs.
fn write_comparison<W: Write>(
    rt: &HostRuntime,
    out: &mut W,
    font: &[u8],
    path: &str,
) -> Result<()> {
    let file = fs::read(rt, path).with_context(|| anyhow!("{path}"))?;
    let differs = font.iter().zip(&file).position(|(one, other)| one != other);
    match differs {
        Some(place) => writeln!(out, "{path} differs at {place}").context(OUTPUT),
        None if font.len() != file.len() => {
            writeln!(out, "{path} has another length").context(OUTPUT)
        }
        None => writeln!(out, "{path} is the same").context(OUTPUT),
    }
}

/// Writes the font that a description tells of, or whether a file has its bytes.
pub fn make<W: Write>(
    rt: &HostRuntime,
    out: &mut W,
    session: &mut Session<'_>,
    matches: &ArgMatches<'_>,
) -> Result<()> {
    let path = matches
        .get_str("description")
        .context("a description is missing")?;
    let description = text_of_file(rt, session.speaker, path)?;
    let font = make_font(rt.alloc(), description.as_str()).with_context(|| anyhow!("{path}"))?;
    match matches.get_str("compare") {
        Some(other) => write_comparison(rt, out, &font, other),
        None => {
            ensure!(
                !session.speaker.is_request(),
                "an answer has no room for the bytes of a font"
            );
            out.write_all(&font).context(OUTPUT)
        }
    }
}
