//! A command line is run.

use crate::batch::batch;
use crate::check::check;
use aat_commands::bench::bench;
use aat_commands::dump::dump;
use aat_commands::example::write_glyphs_of;
use aat_commands::faults::faults;
use aat_commands::inspect::inspect;
use aat_commands::make::make;
use aat_commands::rows::rows;
use aat_commands::settled::settled;
use aat_commands::shape::shape;
use aat_words::{OUTPUT, Session, command};
use anyhow::{Context, Result, bail};
use bumpalo::Bump;
use clap::{ArgMatches, Error};
use std::convert::AsStr;
use std::io::Write;

/// What a command line came to.
#[derive(Drop)]
pub(crate) enum Answer {
    /// The command was run, and all of its output is written.
    Done,
    /// The command was run, all of its output is written, and a font that it checked has an error or a warning.
    Trouble,
    /// The words are none of a command, or ask for help. The error has the text, its stream and the status.
    Words(Error),
}

/// Runs a first program over the font and the text that the command line names.
fn example<W: Write>(rt: &HostRuntime, out: &mut W, matches: &ArgMatches<'_>) -> Result<()> {
    let path = matches.get_str("font").context("a font is missing")?;
    let text = matches.get_str("text").context("a text is missing")?;
    write_glyphs_of(rt, out, path, text)
}

/// Runs a command of a name that a request of a batch may ask for too.
pub(crate) fn run_command<W: Write>(
    rt: &HostRuntime,
    out: &mut W,
    session: &mut Session<'_>,
    name: &str,
    matches: &ArgMatches<'_>,
) -> Result<()> {
    match name {
        "shape" => shape(rt, out, session, matches),
        "inspect" => inspect(rt, out, session, matches),
        "dump" => dump(rt, out, session, matches),
        "faults" => faults(rt, out, session, matches),
        "check" => check(rt, out, session, matches),
        "settled" => settled(rt, out, session, matches),
        "bench" => bench(rt, out, session, matches),
        "make" => make(rt, out, session, matches),
        "example" => example(rt, out, matches),
        "rows" => rows(rt.alloc(), out, matches),
        _ => bail!("no request asks for {name}"),
    }
}

/// Runs a command line, whose first word is the program's name. The output goes to `out`, which is flushed.
///
/// An error names the file, and the table and the place where it has them. A part of the output may be written then.
pub(crate) fn run<S: AsStr, W: Write>(
    rt: &HostRuntime,
    words: &[S],
    out: &mut W,
) -> Result<Answer> {
    let matches = match command(rt.alloc())?.try_get_matches_from(words) {
        Ok(matches) => matches,
        Err(error) => return Ok(Answer::Words(error)),
    };
    let arena = Bump::new(rt.alloc());
    let mut session = Session::new(rt.alloc(), &arena);
    match matches.subcommand() {
        Some(("batch", _)) => {
            batch(rt, out, &mut session)?;
            session.has_trouble = false;
        }
        Some((name, matches)) => run_command(rt, out, &mut session, name, matches)?,
        None => {}
    }
    out.flush().context(OUTPUT)?;
    if session.has_trouble {
        return Ok(Answer::Trouble);
    }
    Ok(Answer::Done)
}
