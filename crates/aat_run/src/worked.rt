//! Examples of ranges as theorems. This call does nothing: what is proved is its contract.
ghost use Rattle.aat_run.specs.RangeExamples.{FewProbes, PlacesAmongFive};

/// Where clusters stand among the ranges of row 5, and how many probes five ranges and one take at most.
#[tactic(auto, unfolding(crate::specs::RangeOf::binary_digits))]
pub fn places_of_ranges()
    ensures places { PlacesAmongFive }
    ensures probes { FewProbes }
{}
