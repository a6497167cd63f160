//! Worked examples of features and tags in texts as theorems. This call does nothing: what is proved is its contract.
ghost use Rattle.aat_layout.specs.features.FeatureExamples.{ClusterExamples, FaultExamples, QuoteExamples, RangeExamples, TagExamples, ValueExamples};

/// The definitions of reading compute to the examples.
#[tactic(auto, using(crate::proofs::FeatureExamples::value_examples, crate::proofs::FeatureExamples::cluster_examples, crate::proofs::FeatureExamples::quote_examples, crate::proofs::FeatureExamples::fault_examples, crate::proofs::FeatureExamples::tag_examples, crate::proofs::FeatureExamples::range_examples))]
pub fn feature_examples()
    ensures values { ValueExamples }
    ensures clusters { ClusterExamples }
    ensures quotes { QuoteExamples }
    ensures faults { FaultExamples }
    ensures tags { TagExamples }
    ensures ranges { RangeExamples }
{}
