//! A command of the program, with the rows of its arguments.

use crate::argument::Argument;
use clap::{Arg, Command};
use std::alloc::{AllocError, Global};

/// A command of the program.
#[derive(Clone, Copy)]
pub(crate) struct Subcommand {
    /// Its name.
    pub(crate) name: &'static str,
    /// What help says of it.
    pub(crate) about: &'static str,
    /// What stands below its help, empty for nothing.
    pub(crate) after: &'static str,
    /// Whether help leaves it out.
    pub(crate) is_hidden: bool,
    /// Its arguments, in the order of its help.
    pub(crate) arguments: &'static [Argument],
    /// Those that stand behind them. A long table is proved faster as two.
    pub(crate) more: &'static [Argument],
}

/// Adds arguments as the parser of words takes them.
fn add_args<'a>(
    alloc: Global,
    rows: &[Argument],
    arguments: &mut Vec<Arg<'a>>,
) -> Result<(), AllocError> {
    for row in rows {
        arguments.push(row.arg(alloc)?)?;
    }
    Ok(())
}

impl Subcommand {
    /// The arguments as the parser of words takes them.
    fn args<'a>(&self, alloc: Global) -> Result<Vec<Arg<'a>>, AllocError> {
        let mut arguments = Vec::new(alloc);
        add_args(alloc, self.arguments, &mut arguments)?;
        add_args(alloc, self.more, &mut arguments)?;
        Ok(arguments)
    }

    /// The command as the parser of words takes it.
    pub(crate) fn command<'a>(&self, alloc: Global) -> Result<Command<'a>, AllocError> {
        let arguments = self.args(alloc)?;
        let command = Command::new(alloc, self.name)
            .about(self.about)
            .hide(self.is_hidden);
        let command = if self.after.is_empty() {
            command
        } else {
            command.after_help(self.after)
        };
        command.args(arguments)
    }
}
