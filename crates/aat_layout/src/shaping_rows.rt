//! The worked rows of shaping as a theorem. This call does nothing: what is proved is its contract.

ghost use Rattle.aat_layout.specs.ShapingRows.{ShapingRows};

/// The worked rows of shaping follow from the definition.
#[tactic(auto, using(crate::proofs::ShapingRowsHold::shaping_rows))]
pub fn shaping_rows()
    ensures { ShapingRows }
{}
