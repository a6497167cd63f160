//! Worked examples of the buffer's rules as theorems. This call does nothing: what is proved is its contract.
ghost use Rattle.aat_buffer.specs.Examples.{MarkExamples, MergeExamples, RemovalExamples};

/// The definitions of marks, merges and removal compute to the examples.
#[tactic(auto, using(crate::proofs::Examples::mark_examples, crate::proofs::Examples::merge_examples, crate::proofs::Examples::removal_examples))]
pub fn examples()
    ensures marks { MarkExamples }
    ensures merges { MergeExamples }
    ensures removals { RemovalExamples }
{}
