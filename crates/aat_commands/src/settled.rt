//! The command `aat settled`.

use aat_inspection::write_settled;
use aat_words::{FontSource, OUTPUT, Session};
use anyhow::{Context, Result};
use clap::ArgMatches;
use std::io::Write;

/// Tells which subtables of `morx` are settled for cuts.
pub fn settled<W: Write>(
    rt: &HostRuntime,
    out: &mut W,
    session: &mut Session<'_>,
    matches: &ArgMatches<'_>,
) -> Result<()> {
    let source = FontSource::of_matches(matches)?;
    let font = session.fonts.font(rt, &source)?;
    let chains = font.face.font().chains();
    if !write_settled(rt.alloc(), out, chains).context(OUTPUT)? {
        writeln!(out, "no subtable").context(OUTPUT)?;
    }
    Ok(())
}
