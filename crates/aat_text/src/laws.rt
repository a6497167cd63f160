//! The laws of texts as theorems. These calls do nothing: what is proved is their contracts.
ghost use Rattle.aat_text.specs.TextLaws.{CharactersHaveGlyphs, LineEndsRise, TextsRise};

/// Clusters never fall along the glyphs of a text.
#[tactic(auto, using(crate::proofs::Rising::texts_rise))]
pub fn texts_rise()
    ensures { TextsRise }
{}

/// But for their clusters, the glyphs of a text are those of its characters in their order.
#[tactic(auto, using(crate::proofs::Pieces::characters_have_glyphs))]
pub fn characters_have_glyphs()
    ensures { CharactersHaveGlyphs }
{}

/// The places where lines of a text may end rise, and are within it: none is its start or its end.
pub fn line_ends_rise()
    ensures { LineEndsRise }
{}
