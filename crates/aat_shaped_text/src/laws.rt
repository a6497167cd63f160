//! The laws of tracked lines and of the breaks of a text as theorems. These calls do nothing: what is proved is their
//! contracts.

ghost use Rattle.aat_shaped_text.specs.ClosingDraws.{ClosingDrawsAlike};
ghost use Rattle.aat_shaped_text.specs.Parts.{PartsKeepBreaks, TextsAreDrawnInParts};
ghost use Rattle.aat_shaped_text.specs.ShapedText.{CharactersAreRead, UntrackedLinesStay};

use aat_glyph::placement::laws::parts_are_tracked_apart;
use aat_kerning::laws::{kerning_changes_little, parts_are_kerned_apart};

/// A line that is tracked by 0 stays as it is.
#[tactic(auto, using(crate::proofs::Tracked::untracked))]
pub fn untracked_lines_stay()
    ensures { UntrackedLinesStay }
{}

/// What a glyph of a text says of its character is read of its glyph on the line.
pub fn characters_are_read()
    ensures { CharactersAreRead }
{}

/// What is drawn of a text of at most 2^24 glyphs, in whatever font, may be broken before each glyph that says so: what is
/// drawn before it looks as one part of the text does, shaped by itself with the same features and tracked by the same
/// value, and what is drawn from it on as the other part. The text is cut at the later of the two clusters that meet
/// there. In a forward text the part before the cut is drawn first, and in a backward text the part from the cut on.
pub fn texts_are_drawn_in_parts()
    ensures { TextsAreDrawnInParts }
{
    parts_are_kerned_apart();
    kerning_changes_little();
    parts_are_tracked_apart();
}

/// Where what is drawn of a text of at most 2^24 glyphs, in whatever font, may be broken before a glyph, each break that it
/// tells before that glyph is told of what is drawn of the one part, shaped by itself with the same features and tracked by
/// the same value, and each that it tells behind that glyph of the other part. The parts are those of
/// `texts_are_drawn_in_parts`, in the order in which they are drawn.
pub fn parts_keep_breaks()
    ensures { PartsKeepBreaks }
{
    parts_are_kerned_apart();
    kerning_changes_little();
    parts_are_tracked_apart();
}

/// Where the machines of a text close what they look at, as many glyphs are left behind substitution, what is drawn is the
/// same, and so is the budget left, in every font.
pub fn closing_draws_alike()
    ensures { ClosingDrawsAlike }
{
    kerning_changes_little();
    parts_are_tracked_apart();
}
