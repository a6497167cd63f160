//! The laws of kerning as theorems. These calls do nothing: what is proved is their contracts.

ghost use Rattle.aat_kerning.specs.Advances.{PairsChangeTheAdvances};
ghost use Rattle.aat_kerning.specs.Cut.{AlikePartsAreKernedApart, PartsAreKernedApart};
ghost use Rattle.aat_kerning.specs.KerningLawful.{DriversAreLawful, KerningChangesLittle, KerningIsBounded, StayingIsPaid};

/// The drivers of kerning machines meet the laws that a run of theirs asks for.
#[tactic(auto, using(crate::proofs::KerningLawsHold::drivers_are_lawful))]
pub fn drivers_are_lawful()
    ensures { DriversAreLawful }
{}

/// The K subtables of a `kerx` or `kern` table take at most K(n + 1) + M turns, as each one beyond K(n + 1) is paid
/// for with an operation, and each run of a machine ends by itself.
#[tactic(auto, using(crate::proofs::KerningLawsHold::kerning_is_bounded))]
pub fn kerning_is_bounded()
    ensures { KerningIsBounded }
{}

/// A turn of a kerning machine that goes on and leaves the cursor where it was took an operation from a budget above
/// 0, which was above 0 in `kern` behind that payment too.
#[tactic(auto, using(crate::proofs::Staying::staying_is_paid))]
pub fn staying_is_paid()
    ensures { StayingIsPaid }
{}

/// Kerning changes marks, positions, the scratch flag of attachment, the budget and the cursor alone.
#[tactic(auto, using(crate::proofs::KerningLawsHold::kerning_changes_little))]
pub fn kerning_changes_little()
    ensures { KerningChangesLittle }
{}

/// A line can be kerned by pairs in two parts, cut inside it, in processing order, before a glyph that is not skipped
/// and starts a cluster: where of the two glyphs at the cut the one with the greater cluster is left without
/// UNSAFE_TO_BREAK, the positions left of the parts are those left of the line. The kern mask has none of the bits of
/// the glyph flags.
#[tactic(auto, using(crate::proofs::CutHolds::parts_are_kerned_apart))]
pub fn parts_are_kerned_apart()
    ensures { PartsAreKernedApart }
{}

/// So it can by every kern mask, where the parts have the flags of the buffer.
#[tactic(auto, using(crate::proofs::CutAlike::alike_parts_are_kerned_apart))]
pub fn alike_parts_are_kerned_apart()
    ensures { AlikePartsAreKernedApart }
{}

/// Pairs in the stream change the sum of the advances by the sum of their values, modulo 2^32.
#[tactic(auto, using(crate::proofs::Summed::pairs_change_the_advances))]
pub fn pairs_change_the_advances()
    ensures { PairsChangeTheAdvances }
{}
