//! Worked examples of numbers, slices and tags as theorems. This call does nothing: what is proved is its contract.
ghost use Rattle.aat_bytes.specs.NumberExamples.{NumbersAreBigEndian, SignedNumbersAreInTwosComplement, SlicesStandInside};
ghost use Rattle.aat_bytes.specs.TagExamples.{TagExamples};

/// The definitions of numbers, slices and tags compute to the examples.
#[tactic(auto, unfolding(crate::specs::Numbers::u16_at, crate::specs::Numbers::u32_at, crate::specs::Numbers::slice, crate::specs::Numbers::slice_from))]
pub fn examples()
    ensures numbers { NumbersAreBigEndian }
    ensures signed { SignedNumbersAreInTwosComplement }
    ensures slices { SlicesStandInside }
    ensures tags { TagExamples }
{}
