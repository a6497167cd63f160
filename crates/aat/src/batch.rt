//! The command `aat batch`: requests are answered, a line each.

use crate::command_line::run_command;
use aat_words::{OUTPUT, Session, Speaker, command, words_of};
use anyhow::{Context, Result};
use clap::Error;
use std::io::{BufRead, BufReader, Write};
use std::str;

/// What a request is answered with.
#[derive(Drop)]
enum Reply {
    /// What its command has written.
    Text(Vec<u8>),
    /// What is wrong with its words.
    Refusal(String),
}

/// Writes a text as one line: its lines, parted by tabs.
fn write_in_one_line<W: Write>(out: &mut W, text: &mut [u8]) -> Result<()> {
    for byte in text.iter_mut() {
        if *byte == b'\n' {
            *byte = b'\t';
        }
    }
    out.write_all(text.strip_suffix(b"\t").unwrap_or(text))
        .context(OUTPUT)?;
    out.write_all(b"\n").context(OUTPUT)
}

/// What is told of words that are none of a command, or that ask for help.
fn reply_of_words(rt: &HostRuntime, error: &Error) -> Result<Reply> {
    let text = error.to_string(rt.alloc())?;
    if error.exit_code() == 0 {
        return Ok(Reply::Text(text.into_bytes()));
    }
    let (told, _) = text.split_once("\n\n").unwrap_or((text.as_str(), ""));
    let told = told.strip_prefix("error: ").unwrap_or(told);
    Ok(Reply::Refusal(String::from_str(rt.alloc(), told)?))
}

/// What a request is answered with.
fn reply_to(rt: &HostRuntime, session: &mut Session<'_>, line: &[u8]) -> Result<Reply> {
    let alloc = rt.alloc();
    let line = str::from_utf8(line).context("the request is no UTF-8")?;
    let words = words_of(alloc, line)?;
    let matches = match command(alloc)?.try_get_matches_from(words.as_slice()) {
        Ok(matches) => matches,
        Err(error) => return reply_of_words(rt, &error),
    };
    let mut text = Vec::new(alloc);
    if let Some((name, matches)) = matches.subcommand() {
        run_command(rt, &mut text, session, name, matches)?;
    }
    Ok(Reply::Text(text))
}

/// Writes an error of the request in a line of a number.
fn write_error<W: Write>(out: &mut W, number: u64, text: String) -> Result<()> {
    write!(out, "error {number}: ").context(OUTPUT)?;
    let mut bytes = text.into_bytes();
    write_in_one_line(out, &mut bytes)
}

/// Answers the request in a line of a number.
fn answer_request<W: Write>(
    rt: &HostRuntime,
    out: &mut W,
    session: &mut Session<'_>,
    number: u64,
    line: &[u8],
) -> Result<()> {
    session.speaker = Speaker::Request(number);
    match reply_to(rt, session, line) {
        Ok(Reply::Text(mut text)) => write_in_one_line(out, &mut text),
        Ok(Reply::Refusal(text)) => write_error(out, number, text),
        Err(error) => write_error(out, number, format!(in rt.alloc(); "{error:#}")?),
    }
}

/// Answers a line of a number. An empty line, and one that begins with `#`, is answered with itself.
fn answer_line<W: Write>(
    rt: &HostRuntime,
    out: &mut W,
    session: &mut Session<'_>,
    number: u64,
    line: &[u8],
) -> Result<()> {
    let line = line.strip_suffix(b"\r").unwrap_or(line);
    if line.is_empty() || line.starts_with(b"#") {
        out.write_all(line).context(OUTPUT)?;
        out.write_all(b"\n").context(OUTPUT)?;
    } else {
        answer_request(rt, out, session, number, line)?;
    }
    out.flush().context(OUTPUT)
}

/// Answers the lines of the standard input, up to its end. Each answer is written before the next line is waited for.
///
/// An error is that of the input or of the output; that of a request is its answer.
pub(crate) fn batch<W: Write>(
    rt: &HostRuntime,
    out: &mut W,
    session: &mut Session<'_>,
) -> Result<()> {
    let alloc = rt.alloc();
    let lines = BufReader::new(alloc, rt.reader())?.split(alloc, b'\n');
    let mut number = 0u64;
    for line in lines {
        number = number.saturating_add(1);
        let line = line.context("the standard input")?;
        answer_line(rt, out, session, number, &line)?;
    }
    Ok(())
}
