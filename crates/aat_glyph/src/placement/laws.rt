//! The laws of attachments and of tracking as theorems. These calls do nothing: what is proved is their contracts.
ghost use Rattle.aat_glyph.specs.placement.AttachmentLaws.{GlyphsFollowTheirParents, UnattachedLinesStay};
ghost use Rattle.aat_glyph.specs.placement.TrackingLaws.{PartsAreTrackedApart};

/// The offset of each glyph is its own, and added to it the offset of its parent as that is drawn: for a mark less the
/// advances between, and for a cursive glyph across the line alone. A glyph without a parent stays.
#[tactic(auto, using(crate::proofs::placement::AttachmentLawsHold::glyphs_follow_their_parents))]
pub fn glyphs_follow_their_parents()
    ensures { GlyphsFollowTheirParents }
{}

/// A line in which no glyph is attached to another stays as it is.
#[tactic(auto, using(crate::proofs::placement::AttachmentLawsHold::unattached_lines_stay))]
pub fn unattached_lines_stay()
    ensures { UnattachedLinesStay }
{}

/// Two parts of a line are tracked as the whole is, where the glyphs that are drawn on both sides of the place where they
/// meet have two clusters.
#[tactic(auto, using(crate::proofs::placement::TrackedApart::parts_are_tracked_apart))]
pub fn parts_are_tracked_apart()
    ensures { PartsAreTrackedApart }
{}
