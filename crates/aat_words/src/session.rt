//! What the commands of a run have in common.

use crate::fonts::Fonts;
use bumpalo::Bump;
use std::alloc::Global;
use std::fmt;

/// What an error of a writer is told of.
pub const OUTPUT: &str = "the output";

/// Who speaks on the error stream.
#[derive(Clone, Copy)]
pub enum Speaker {
    /// The program.
    Program,
    /// The request of a batch that stands in a line of such a number, from 1.
    Request(u64),
}

impl Speaker {
    /// Whether requests are read from the standard input.
    pub fn is_request(self) -> bool {
        matches!(self, Speaker::Request(_))
    }
}

impl fmt::Display for Speaker {
    fn fmt<W: fmt::Write>(&self, f: &mut fmt::Formatter<W>) -> fmt::Result {
        match self {
            Speaker::Program => write!(f, "aat"),
            Speaker::Request(number) => write!(f, "aat: request {number}"),
        }
    }
}

/// A run of the program.
#[derive(Drop)]
pub struct Session<'b> {
    /// The fonts that it has read.
    pub fonts: Fonts<'b>,
    /// Who speaks on the error stream.
    pub speaker: Speaker,
    /// Whether a font that was checked has an error or a warning.
    pub has_trouble: bool,
}

impl<'b> Session<'b> {
    /// A run of the program that has read no font yet. What it reads is kept in an arena.
    pub fn new(alloc: Global, arena: &'b Bump) -> Session<'b> {
        Session {
            fonts: Fonts::new(alloc, arena),
            speaker: Speaker::Program,
            has_trouble: false,
        }
    }
}
