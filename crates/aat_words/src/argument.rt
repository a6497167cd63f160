//! An argument of a command, as a row of a table.

use clap::builder::ValueParser;
use clap::{Arg, ArgAction, value_parser};
use std::alloc::{AllocError, Global};

/// What an argument takes, with what help calls it.
#[derive(Clone, Copy)]
pub(crate) enum Takes {
    /// Nothing: it is there or not.
    Nothing,
    /// A text.
    Text(&'static str),
    /// A text that may begin with a hyphen.
    AnyText(&'static str),
    /// A number of at most 32 bits.
    Number(&'static str),
    /// A number of at most 16 bits.
    ShortNumber(&'static str),
    /// One of some words.
    Word(&'static str, &'static [&'static str]),
}

/// What stands for an argument that is not there.
#[derive(Clone, Copy)]
pub(crate) enum Absent {
    /// Nothing.
    Nothing,
    /// This value.
    Value(&'static str),
    /// It has to be there.
    Error,
    /// It has to be there where none of those is that may not stand beside it.
    ErrorWithoutOthers,
}

/// An argument of a command.
#[derive(Clone, Copy)]
pub(crate) struct Argument {
    /// What its value is asked for by.
    pub(crate) id: &'static str,
    /// The name of an option, which stands behind two hyphens. Without one an argument is known by its place.
    pub(crate) long: Option<&'static str>,
    /// What it takes.
    pub(crate) takes: Takes,
    /// What stands for it where it is not there.
    pub(crate) absent: Absent,
    /// The arguments that may not stand beside it.
    pub(crate) others: &'static [&'static str],
    /// What help says of it.
    pub(crate) help: &'static str,
}

/// What a value has to be, and what help calls it: nothing where none is taken.
fn value_of<'a>(takes: Takes) -> Option<(&'static str, ValueParser<'a>)> {
    match takes {
        Takes::Nothing => None,
        Takes::Text(name) | Takes::AnyText(name) => Some((name, ValueParser::String)),
        Takes::Number(name) => Some((name, value_parser!(u32))),
        Takes::ShortNumber(name) => Some((name, value_parser!(u16))),
        Takes::Word(name, words) => Some((name, ValueParser::Names(words))),
    }
}

/// The argument that takes what is asked.
fn taking<'a>(argument: Arg<'a>, takes: Takes) -> Arg<'a> {
    let Some((name, parser)) = value_of(takes) else {
        return argument.action(ArgAction::SetTrue);
    };
    let takes_hyphens = matches!(takes, Takes::AnyText(_));
    argument
        .value_parser(parser)
        .value_name(name)
        .allow_hyphen_values(takes_hyphens)
}

impl Argument {
    /// The argument that may not stand beside the others, and has to be there without them where that is asked.
    fn apart<'a>(&self, mut argument: Arg<'a>) -> Result<Arg<'a>, AllocError> {
        let is_wanted = matches!(self.absent, Absent::ErrorWithoutOthers);
        for other in self.others {
            argument = argument.conflicts_with(other)?;
            if is_wanted {
                argument = argument.required_unless_present(other)?;
            }
        }
        Ok(argument)
    }

    /// The argument as the parser of words takes it.
    pub(crate) fn arg<'a>(&self, alloc: Global) -> Result<Arg<'a>, AllocError> {
        let mut argument = Arg::new(alloc, self.id)
            .help(self.help)
            .required(matches!(self.absent, Absent::Error));
        if let Some(long) = self.long {
            argument = argument.long(long);
        }
        if let Absent::Value(value) = self.absent {
            argument = argument.default_value(value);
        }
        self.apart(taking(argument, self.takes))
    }
}
