//! The command `aat check`.

use aat_check::{findings, has_trouble, write_findings, write_findings_as_json};
use aat_words::{FontSource, OUTPUT, Session};
use anyhow::{Context, Result};
use clap::ArgMatches;
use std::alloc::Global;
use std::io::Write;

/// The words of a command that name a font.
fn words_of(alloc: Global, source: &FontSource<'_>) -> Result<String> {
    let quote = if source.path.contains(' ') { "\"" } else { "" };
    let mut words = format!(in alloc; "{quote}{}{quote}", source.path)?;
    if source.index != 0 {
        words.push_str(&format!(in alloc; " --index {}", source.index)?)?;
    }
    if !source.changes.is_empty() {
        words.push_str(" --change ")?;
        words.push_str(source.changes)?;
    }
    Ok(words)
}

/// Tells what is wrong in a font, or of no use, and notes where there is an error or a warning.
pub(crate) fn check<W: Write>(
    rt: &HostRuntime,
    out: &mut W,
    session: &mut Session<'_>,
    matches: &ArgMatches<'_>,
) -> Result<()> {
    let source = FontSource::of_matches(matches)?;
    let font = session.fonts.font(rt, &source)?;
    let file = font.file()?;
    let found = findings(rt.alloc(), &file, font.face)?;
    let names = font.names(rt.alloc())?;
    session.has_trouble |= has_trouble(&found);
    if matches.get_flag("json") {
        write_findings_as_json(rt.alloc(), out, names, &found).context(OUTPUT)
    } else {
        let words = words_of(rt.alloc(), &source)?;
        write_findings(out, &words, names, &found).context(OUTPUT)
    }
}
