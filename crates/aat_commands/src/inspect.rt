//! The command `aat inspect`.

use crate::pictures::draw_machine;
use aat_inspection::write_inspection;
use aat_words::{FontSource, OUTPUT, Session};
use anyhow::{Context, Result, ensure};
use clap::ArgMatches;
use std::io::Write;

/// Tells of a font, or draws a machine of it.
pub fn inspect<W: Write>(
    rt: &HostRuntime,
    out: &mut W,
    session: &mut Session<'_>,
    matches: &ArgMatches<'_>,
) -> Result<()> {
    let source = FontSource::of_matches(matches)?;
    let font = session.fonts.font(rt, &source)?;
    if let Some(number) = matches.get_one::<u32>("machine") {
        return draw_machine(rt.alloc(), out, font, number);
    }
    ensure!(
        matches.get_str("output").is_none(),
        "a form is asked, and no machine"
    );
    write_inspection(rt.alloc(), out, font.bytes, source.index, font.face).context(OUTPUT)?;
    Ok(())
}
