//! What the commands of the program `aat` have in common: its words, with the commands and their options, the words of
//! a request, and the fonts and texts that they name.
//!
//! ```
//! let matches = command(alloc)?.try_get_matches_from(words)?;
//! ```
#![tactic(auto)]

mod argument;
mod change;
mod commands;
mod face;
mod fonts;
mod hidden_commands;
mod program;
mod progress;
mod request_words;
mod session;
mod shape_words;
mod shared;
mod size;
mod source;
mod subcommand;

pub use fonts::{Font, Fonts};
pub use program::command;
pub use progress::Progress;
pub use request_words::words_of;
pub use session::{OUTPUT, Session, Speaker};
pub use size::size_asked;
pub use source::{FontSource, text_of_file};
