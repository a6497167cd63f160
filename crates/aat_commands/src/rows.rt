//! The command `aat rows`.

use aat_shape::run;
use anyhow::{Result, ensure};
use clap::ArgMatches;
use std::alloc::Global;
use std::io::Write;

/// Writes the worked rows, or the one of the number that the command line gives.
///
/// An error says that there is no such row, or that one could not be worked or written.
pub fn rows<W: Write>(alloc: Global, out: &mut W, matches: &ArgMatches<'_>) -> Result<()> {
    let mut words = Vec::new(alloc);
    if let Some(number) = matches.get_str("number") {
        words.push(String::from_str(alloc, number)?)?;
    }
    let status = run(alloc, &words, out);
    ensure!(status == 0, "the rows ended with status {status}");
    Ok(())
}
