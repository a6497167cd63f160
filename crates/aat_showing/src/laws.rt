//! The law of what is shown as a theorem. This call does nothing: what is proved is its contract.
ghost use Rattle.aat_showing.specs.HiddenParts.{BreaksHoldAsShown};

use aat_shaped_text::laws::texts_are_drawn_in_parts;

/// What is drawn of a text of at most 2^24 glyphs may be broken before each glyph that says so, in whatever font, also
/// where its glyphs are set in columns (`set_in_columns`), where its spaces are made as wide as they are to be
/// (`widen_spaces`), where its marks lose their width (`zero_marks`), where marks are placed by boxes (`place_marks`),
/// where its ignorable glyphs are hidden (`hide_ignorables`), and where some of these are done in this order: what is
/// shown before the glyph looks as what is shown, in the same way, of one part of the text, shaped by itself with the
/// same features and tracked by the same value, and what is shown from it on as that of the other part. The text is cut
/// at the later of the two clusters that meet there. In a forward text the part before the cut is drawn first, and in a
/// backward text the part from the cut on.
pub fn breaks_hold_as_shown()
    ensures { BreaksHoldAsShown }
{
    texts_are_drawn_in_parts();
}
