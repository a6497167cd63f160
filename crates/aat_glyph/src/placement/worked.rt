//! Worked examples of attachments, of tracks, and of lines that are tracked as theorems. These calls do nothing: what
//! is proved is their contracts.
ghost use Rattle.aat_glyph.specs.placement.AttachmentExamples.{AttachmentExamples};
ghost use Rattle.aat_glyph.specs.placement.LineExamples.{FirstGlyphsAreWider, OffsetsStay};
ghost use Rattle.aat_glyph.specs.placement.TrackExamples.{EndsAreKept, HalvesGoUp, IntervalsAreFound, TracksAreInterpolated, ValuesAreCounted};

/// An example of each rule of attachments follows from the definitions.
#[tactic(auto, using(crate::proofs::placement::AttachmentExamplesHold::attachment_examples))]
pub fn attachment_examples()
    ensures { AttachmentExamples }
{}

/// The definitions of tracks compute to the examples.
pub fn tracks()
    ensures halves { HalvesGoUp }
    ensures interpolated { TracksAreInterpolated }
    ensures intervals { IntervalsAreFound }
    ensures ends { EndsAreKept }
    ensures counted { ValuesAreCounted }
{}

/// The definition of a line that is tracked computes to the examples.
pub fn lines()
    ensures wider { FirstGlyphsAreWider }
    ensures offsets { OffsetsStay }
{}
