//! The arguments of `aat shape`.

use crate::argument::{Absent, Argument, Takes};
use crate::shared::{CHANGE, DIRECTION, FEATURES, FONT, INDEX, PLAIN};

/// What help says of an option of `hb-shape` that changes nothing.
const IDLE: &str = "Taken and passed over: no table that is read here asks for it";

/// What help says of the language, by which `morx` asks for settings of type 39.
const UNREAD: &str = "Taken and passed over: ltag, by which morx asks for it, is not read";

/// The arguments of `aat shape` that tell what is shaped, and how, in the order of its help.
static TEXT: [Argument; 12] = [
    FONT,
    Argument {
        id: "text",
        takes: Takes::Text("TEXT"),
        absent: Absent::ErrorWithoutOthers,
        others: &["file", "glyphs", "unicodes"],
        help: "The text. Each of its lines is shaped by itself",
        ..PLAIN
    },
    Argument {
        id: "file",
        long: Some("file"),
        takes: Takes::Text("PATH"),
        others: &["glyphs", "unicodes"],
        help: "Takes the text from a file, or from the standard input where it is -",
        ..PLAIN
    },
    Argument {
        id: "unicodes",
        long: Some("unicodes"),
        takes: Takes::Text("LIST"),
        others: &["glyphs"],
        help: "Takes characters for the text, by their hexadecimal numbers, as U+66,U+69",
        ..PLAIN
    },
    Argument {
        id: "glyphs",
        long: Some("glyphs"),
        takes: Takes::Text("LIST"),
        help: "Takes a line of glyphs for the text, by their numbers with spaces between, as 4 5 7",
        ..PLAIN
    },
    Argument {
        id: "text-before",
        long: Some("text-before"),
        takes: Takes::AnyText("TEXT"),
        help: IDLE,
        ..PLAIN
    },
    Argument {
        id: "text-after",
        long: Some("text-after"),
        takes: Takes::AnyText("TEXT"),
        help: IDLE,
        ..PLAIN
    },
    Argument {
        id: "language",
        long: Some("language"),
        takes: Takes::AnyText("TEXT"),
        help: UNREAD,
        ..PLAIN
    },
    FEATURES,
    DIRECTION,
    Argument {
        id: "size",
        long: Some("point-size"),
        takes: Takes::Text("N"),
        help: "Tracks the text by the table trak at so many points, as 12 or 10.5",
        ..PLAIN
    },
    Argument {
        id: "width",
        long: Some("width"),
        takes: Takes::Number("N"),
        help: "Breaks the text into lines of at most N units of the font, where that can be",
        ..PLAIN
    },
];

/// Those that tell what is written, and where the font is. They stand behind the others.
static FORM: [Argument; 18] = [
    Argument {
        id: "output",
        long: Some("output"),
        takes: Takes::Word("FORM", &["glyphs", "json", "svg", "boxes"]),
        absent: Absent::Value("glyphs"),
        help: "The form: glyphs as hb-shape writes them, json, svg, or boxes, which is svg without outlines",
        ..PLAIN
    },
    Argument {
        id: "clusters",
        long: Some("clusters"),
        takes: Takes::Word("UNIT", &["characters", "bytes"]),
        absent: Absent::Value("characters"),
        help: "What clusters count: characters, as in hb-shape, or bytes of UTF-8",
        ..PLAIN
    },
    Argument {
        id: "script",
        long: Some("script"),
        takes: Takes::Text("TAG"),
        help: "The script by its tag of ISO 15924, as Arab; else the first that a character has",
        ..PLAIN
    },
    Argument {
        id: "level",
        long: Some("cluster-level"),
        takes: Takes::Word("N", &["0", "1"]),
        absent: Absent::Value("0"),
        help: "What has a cluster of its own: with 0 each grapheme, with 1 each character",
        ..PLAIN
    },
    Argument {
        id: "trace",
        long: Some("trace"),
        help: "Tells before the glyphs what each subtable of morx changed, or draws it with --output svg",
        ..PLAIN
    },
    Argument {
        id: "flags",
        long: Some("show-flags"),
        help: "Writes #1 behind a glyph whose may_break_before is false, in the form glyphs",
        ..PLAIN
    },
    Argument {
        id: "names",
        long: Some("glyph-names"),
        help: "Writes the names of glyphs by the table post in place of their numbers, in the forms glyphs and json",
        ..PLAIN
    },
    Argument {
        id: "no-names",
        long: Some("no-glyph-names"),
        help: "Taken and passed over: numbers are written where no names are asked",
        ..PLAIN
    },
    Argument {
        id: "ignorables",
        long: Some("remove-default-ignorables"),
        help: "Leaves out the glyphs of characters that are not seen, in place of showing them as spaces",
        ..PLAIN
    },
    Argument {
        id: "not-found",
        long: Some("not-found-glyph"),
        takes: Takes::ShortNumber("N"),
        absent: Absent::Value("0"),
        help: "The glyph of characters that the font lacks, by its number. With 65535 they are left out",
        ..PLAIN
    },
    Argument {
        id: "verify",
        long: Some("verify"),
        others: &["width"],
        help: "Shapes each line in two parts too, at the first 1,000 places where it may be broken, and errs where they differ from it",
        ..PLAIN
    },
    Argument {
        id: "background",
        long: Some("background"),
        takes: Takes::Text("RRGGBB"),
        help: "The colour behind a picture, by six or eight hexadecimal digits",
        ..PLAIN
    },
    Argument {
        id: "foreground",
        long: Some("foreground"),
        takes: Takes::Text("RRGGBB"),
        help: "The colour of glyphs that no subtable changed",
        ..PLAIN
    },
    Argument {
        id: "font-size",
        long: Some("font-size"),
        takes: Takes::Text("N"),
        absent: Absent::Value("64"),
        help: "How many pixels an em has in a picture, as 20 or 12.5. It changes no other form",
        ..PLAIN
    },
    Argument {
        id: "margin",
        long: Some("margin"),
        takes: Takes::ShortNumber("N"),
        help: "Leaves so many pixels free at the ends of lines in a picture, and half as many beside them",
        ..PLAIN
    },
    Argument {
        id: "output-file",
        long: Some("output-file"),
        takes: Takes::Text("PATH"),
        help: "Writes to a file in place of the standard output",
        ..PLAIN
    },
    INDEX,
    CHANGE,
];

/// The arguments of `aat shape` that tell what is shaped, and how.
pub(crate) fn text_arguments() -> &'static [Argument] {
    &TEXT
}

/// Those that stand behind them: what is written, and where the font is.
pub(crate) fn form_arguments() -> &'static [Argument] {
    &FORM
}
