//! The commands that help shows.

use crate::argument::{Absent, Argument, Takes};
use crate::shape_words::{form_arguments, text_arguments};
use crate::shared::{CHANGE, DIRECTION, FEATURES, FONT, INDEX, PLAIN};
use crate::subcommand::Subcommand;

/// The arguments of a command that takes nothing but a font.
static FONT_ALONE: [Argument; 3] = [FONT, INDEX, CHANGE];

/// The command that shapes a text, and shows its lines.
pub(crate) fn shape_command() -> Subcommand {
    Subcommand {
        name: "shape",
        about: "Shapes a text, and shows its lines",
        after: "Example: aat shape font.ttf \"fila\" --features smcp --output svg",
        is_hidden: false,
        arguments: text_arguments(),
        more: form_arguments(),
    }
}

/// The arguments of `aat inspect`.
static INSPECT: [Argument; 5] = [
    FONT,
    Argument {
        id: "machine",
        long: Some("machine"),
        takes: Takes::Number("N"),
        help: "Draws the machine of a subtable of morx, by its number through all chains, from 0",
        ..PLAIN
    },
    Argument {
        id: "output",
        long: Some("output"),
        takes: Takes::Word("FORM", &["svg"]),
        help: "The form of a machine, which is svg in any case",
        ..PLAIN
    },
    INDEX,
    CHANGE,
];

/// The command that tells of a font.
pub(crate) fn inspect_command() -> Subcommand {
    Subcommand {
        name: "inspect",
        about: "Tells the tables of a font with their faults, its features, chains and subtables",
        after: "Example: aat inspect font.ttf --machine 1 --output svg",
        is_hidden: false,
        arguments: &INSPECT,
        more: &[],
    }
}

/// The arguments of `aat dump`.
static DUMP: [Argument; 6] = [
    FONT,
    Argument {
        id: "table",
        takes: Takes::Word(
            "TABLE",
            &["hmtx", "feat", "morx", "kerx", "kern", "ankr", "trak"],
        ),
        help: "The table, else all of them. Of long lists the first 1,000 are written",
        ..PLAIN
    },
    Argument {
        id: "characters",
        long: Some("characters"),
        takes: Takes::Text("TEXT"),
        help: "Writes the glyphs of the characters of a text too",
        ..PLAIN
    },
    Argument {
        id: "names",
        long: Some("glyph-names"),
        help: "Writes the names of glyphs by the table post in place of their numbers",
        ..PLAIN
    },
    INDEX,
    CHANGE,
];

/// The command that writes a table out.
pub(crate) fn dump_command() -> Subcommand {
    Subcommand {
        name: "dump",
        about: "Writes out what is read of a table",
        after: "Example: aat dump font.ttf morx",
        is_hidden: false,
        arguments: &DUMP,
        more: &[],
    }
}

/// The command that tells the faults of a font.
pub(crate) fn faults_command() -> Subcommand {
    Subcommand {
        name: "faults",
        about: "Tells the faults of the tables of a font, and the subtables that are left out",
        after: "Example: aat faults font.ttf",
        is_hidden: false,
        arguments: &FONT_ALONE,
        more: &[],
    }
}

/// The command that tells which subtables are settled.
pub(crate) fn settled_command() -> Subcommand {
    Subcommand {
        name: "settled",
        about: "Tells of each subtable of morx whether it is settled for cuts, or why it is not",
        after: "Example: aat settled font.ttf",
        is_hidden: false,
        arguments: &FONT_ALONE,
        more: &[],
    }
}

/// The arguments of `aat check`.
static CHECK: [Argument; 4] = [
    FONT,
    Argument {
        id: "json",
        long: Some("json"),
        help: "Writes an array of objects, one a line",
        ..PLAIN
    },
    INDEX,
    CHANGE,
];

/// The command that checks a font.
pub(crate) fn check_command() -> Subcommand {
    Subcommand {
        name: "check",
        about: "Tells what is wrong in a font, or of no use: for who makes fonts",
        after: "Example: aat check font.ttf\nThe status is 3 where there is an error or a warning",
        is_hidden: false,
        arguments: &CHECK,
        more: &[],
    }
}

/// The arguments of `aat bench`.
static BENCH: [Argument; 8] = [
    FONT,
    Argument {
        id: "file",
        long: Some("file"),
        takes: Takes::Text("PATH"),
        absent: Absent::Error,
        help: "The file of the text. Each of its lines is shaped by itself",
        ..PLAIN
    },
    FEATURES,
    DIRECTION,
    Argument {
        id: "rounds",
        long: Some("rounds"),
        takes: Takes::Number("N"),
        absent: Absent::Value("9"),
        help: "How often each step is timed. With 0 only what comes out is told",
        ..PLAIN
    },
    Argument {
        id: "length",
        long: Some("glyphs-per-line"),
        takes: Takes::Number("N"),
        help: "Cuts each line of the text into lines of N characters",
        ..PLAIN
    },
    INDEX,
    CHANGE,
];

/// The command that times the shaping of a text.
pub(crate) fn bench_command() -> Subcommand {
    Subcommand {
        name: "bench",
        about: "Times reading a font and shaping a text, in nanoseconds, as the least and the median of N rounds",
        after: "Example: aat bench font.ttf --file text.txt --features smcp",
        is_hidden: false,
        arguments: &BENCH,
        more: &[],
    }
}

/// The command that answers requests.
pub(crate) fn batch_command() -> Subcommand {
    Subcommand {
        name: "batch",
        about: "Answers requests from the standard input, a line each",
        after: "A request is the words of another command, as: shape font.ttf \"fila\" --features smcp",
        is_hidden: false,
        arguments: &[],
        more: &[],
    }
}
