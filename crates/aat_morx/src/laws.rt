//! The laws of substitution as theorems. These calls do nothing: what is proved is their contracts.

ghost use Rattle.aat_morx.specs.BestBounds.{BoundsAreMet};
ghost use Rattle.aat_morx.specs.Isolation.{RequestsAreIsolated};
ghost use Rattle.aat_morx.specs.Lawful.{ClustersKeepTheirOrder, RunsAreBounded};

/// A subtable takes at most n + M + 1 turns, and S subtables at most S(n + M + 1). Length and budget together, a
/// negative budget counted as 0, never grow, and no run shortens the line.
#[tactic(auto, using(crate::proofs::LawsHold::runs_are_bounded))]
pub fn runs_are_bounded()
    ensures { RunsAreBounded }
{}

/// Where clusters merge, clusters that never fall along the line never fall behind substitution, and those that never
/// rise never rise, whichever subtables run on the reversed line. At every level each cluster stood on the line before.
pub fn clusters_keep_their_order()
    ensures { ClustersKeepTheirOrder }
{}

/// For every number of subtables there are chains and a line that meet both bounds with equality, with any sizes: a
/// subtable that puts in the whole budget before a glyph and stays, and copies of it, each of which passes all glyphs.
#[tactic(auto, using(crate::proofs::BestBounds::bounds_are_met))]
pub fn bounds_are_met()
    ensures { BoundsAreMet }
{}

/// Requests that give each chain the same flags at each cluster of a line leave the same of it but for the cursor, in
/// perhaps other turns.
#[tactic(auto, using(crate::proofs::Isolated::requests_are_isolated))]
pub fn requests_are_isolated()
    ensures { RequestsAreIsolated }
{}
