//! Shapes text by Apple Advanced Typography and shows it, and inspects fonts.
#![tactic(auto)]

mod batch;
mod check;
mod command_line;

use crate::command_line::{Answer, run};
use anyhow::Result;
use std::io::{BufWriter, ErrorKind};
use std::process::ExitCode;
use std::{env, io};

/// The status of a command that failed.
const FAILED: u8 = 1;

/// The status of words that are none of a command.
const WRONG_WORDS: u8 = 2;

/// The status of a command that was run, and found an error or a warning in a font.
const TROUBLE: u8 = 3;

/// Runs the command line of these words.
fn answer(rt: &HostRuntime, words: io::Result<env::Args>) -> Result<Answer> {
    let words: Vec<String> = words?.collect(rt.alloc())?;
    let mut out = BufWriter::new(rt.alloc(), io::writer(rt))?;
    run(rt, words.as_slice(), &mut out)
}

fn main(rt: HostRuntime) -> Result<ExitCode> {
    let words = env::args(&rt);
    if let Err(error) = &words
        && error.kind() == ErrorKind::InvalidData
    {
        eprintln!(rt; "aat: a word of the command line is no UTF-8")?;
        return Ok(ExitCode::from(WRONG_WORDS));
    }
    match answer(&rt, words) {
        Ok(Answer::Done) => Ok(ExitCode::SUCCESS),
        Ok(Answer::Trouble) => Ok(ExitCode::from(TROUBLE)),
        Ok(Answer::Words(error)) => {
            error.print(&rt)?;
            Ok(ExitCode::from(error.exit_code() as u8))
        }
        Err(error) => {
            eprintln!(rt; "aat: {error:#}")?;
            Ok(ExitCode::from(FAILED))
        }
    }
}
