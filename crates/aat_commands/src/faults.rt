//! The command `aat faults`.

use aat_inspection::write_faults;
use aat_words::{FontSource, OUTPUT, Session};
use anyhow::{Context, Result};
use clap::ArgMatches;
use std::io::Write;

/// Tells the faults of a font's tables.
pub fn faults<W: Write>(
    rt: &HostRuntime,
    out: &mut W,
    session: &mut Session<'_>,
    matches: &ArgMatches<'_>,
) -> Result<()> {
    let source = FontSource::of_matches(matches)?;
    let font = session.fonts.font(rt, &source)?;
    if !write_faults(out, font.face).context(OUTPUT)? {
        writeln!(out, "no fault").context(OUTPUT)?;
    }
    Ok(())
}
