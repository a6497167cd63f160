//! The arguments that more than one command takes.

use crate::argument::{Absent, Argument, Takes};

/// An argument of which nothing is told.
pub(crate) const PLAIN: Argument = Argument {
    id: "",
    long: None,
    takes: Takes::Nothing,
    absent: Absent::Nothing,
    others: &[],
    help: "",
};

/// The font.
pub(crate) const FONT: Argument = Argument {
    id: "font",
    takes: Takes::Text("FONT"),
    absent: Absent::Error,
    help: "The file of a font",
    ..PLAIN
};

/// Which font of a collection.
pub(crate) const INDEX: Argument = Argument {
    id: "index",
    long: Some("index"),
    takes: Takes::Number("N"),
    absent: Absent::Value("0"),
    help: "Which font of a collection, from 0",
    ..PLAIN
};

/// With which bytes of the file changed a font is taken.
pub(crate) const CHANGE: Argument = Argument {
    id: "change",
    long: Some("change"),
    takes: Takes::Text("LIST"),
    help: "Takes bytes of the file for others, from a place on, as 12=00FF,40=01",
    ..PLAIN
};

/// The features of a text.
pub(crate) const FEATURES: Argument = Argument {
    id: "features",
    long: Some("features"),
    takes: Takes::AnyText("LIST"),
    help: "Features, separated by commas, as smcp,-liga,kern[3:5]=0",
    ..PLAIN
};

/// The direction of a text.
pub(crate) const DIRECTION: Argument = Argument {
    id: "direction",
    long: Some("direction"),
    takes: Takes::Word("WORD", &["ltr", "rtl", "ttb", "btt"]),
    help: "The direction; else that of the script",
    ..PLAIN
};
