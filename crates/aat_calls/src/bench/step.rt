//! The steps that are timed.

use crate::bench::work::Work;

/// The names of the steps that are told with what they leave, too.
pub(crate) const SUBSTITUTION: &str = "substitution";

pub(crate) const KERNING: &str = "kerning";

pub(crate) const SHAPING: &str = "shaping";

/// A step that is timed by itself.
#[derive(Clone, Copy, PartialEq, Eq, Debug)]
pub(crate) enum Step {
    /// The font is read from the bytes of its file, and dropped.
    Reading,
    /// The glyphs of each line are made of its characters.
    Text,
    /// The features are compiled, once for each line.
    Compiling,
    /// Each line is substituted, which compiles the features.
    Substitution,
    /// Each substituted line is kerned.
    Kerning,
    /// The glyphs of each line are shaped by a shaper that is kept.
    Shaping,
    /// Each line is typeset by a typesetter that is kept.
    Typesetting,
}

/// The steps in the order in which they are told.
pub(crate) static STEPS: [Step; 7] = [
    Step::Reading,
    Step::Text,
    Step::Compiling,
    Step::Substitution,
    Step::Kerning,
    Step::Shaping,
    Step::Typesetting,
];

impl Step {
    /// What the step is called.
    pub(crate) fn name(self) -> &'static str {
        match self {
            Step::Reading => "reading",
            Step::Text => "text",
            Step::Compiling => "compiling",
            Step::Substitution => SUBSTITUTION,
            Step::Kerning => KERNING,
            Step::Shaping => SHAPING,
            Step::Typesetting => "typesetting",
        }
    }

    /// How many there are in a round of what its time is told of, and what that is.
    pub(crate) fn count(self, work: &Work<'_, '_, '_>) -> (usize, &'static str) {
        match self {
            Step::Reading => (work.font.bytes.len(), "byte of the font"),
            Step::Compiling => {
                let features = work.plan.user_features.len();
                (work.lines.len().saturating_mul(features), "feature")
            }
            _ => (work.characters(), "character"),
        }
    }
}
