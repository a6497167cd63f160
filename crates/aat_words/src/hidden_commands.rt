//! The commands that help does not show.

use crate::argument::{Absent, Argument, Takes};
use crate::shared::{FONT, PLAIN};
use crate::subcommand::Subcommand;

/// The arguments of `aat example`.
static EXAMPLE: [Argument; 2] = [
    Argument {
        absent: Absent::Value("sample.ttf"),
        ..FONT
    },
    Argument {
        id: "text",
        takes: Takes::Text("TEXT"),
        absent: Absent::Value("fila"),
        help: "The text",
        ..PLAIN
    },
];

/// The command that runs a first program.
pub(crate) fn example_command() -> Subcommand {
    Subcommand {
        name: "example",
        about: "Typesets a text, as a first program does",
        after: "",
        is_hidden: true,
        arguments: &EXAMPLE,
        more: &[],
    }
}

/// The arguments of `aat rows`.
static ROWS: [Argument; 1] = [Argument {
    id: "number",
    takes: Takes::Text("N"),
    help: "The number of a row",
    ..PLAIN
}];

/// The command that writes the worked rows, for tests.
pub(crate) fn rows_command() -> Subcommand {
    Subcommand {
        name: "rows",
        about: "Writes the worked rows, or the one of a number, for tests",
        after: "",
        is_hidden: true,
        arguments: &ROWS,
        more: &[],
    }
}

/// The arguments of `aat make`.
static MAKE: [Argument; 2] = [
    Argument {
        id: "description",
        takes: Takes::Text("DESCRIPTION"),
        absent: Absent::Error,
        help: "The file of a description in JSON, or - for the standard input",
        ..PLAIN
    },
    Argument {
        id: "compare",
        long: Some("compare"),
        takes: Takes::Text("FONT"),
        help: "Tells whether this file has the bytes of the font, in place of writing them",
        ..PLAIN
    },
];

/// The command that makes a font of a description, for tests.
pub(crate) fn make_command() -> Subcommand {
    Subcommand {
        name: "make",
        about: "Writes the font that a description tells of, for tests",
        after: "Example: aat make font.json > font.ttf",
        is_hidden: true,
        arguments: &MAKE,
        more: &[],
    }
}
