//! The law of reading as a theorem. This call does nothing: what is proved is its contract.
ghost use Rattle.aat_read_metrics.specs.TrakLaws.{TraksAreBounded};

/// A tracking table takes at most 4 bytes of memory for each byte that it is read from.
#[tactic(auto, using(crate::proofs::Bounded::traks_are_bounded))]
pub fn traks_are_bounded()
    ensures { TraksAreBounded }
{}
