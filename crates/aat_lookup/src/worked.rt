//! Worked examples of lookups as theorems. This call does nothing: what is proved is its contract.
ghost use Rattle.aat_lookup.specs.LookupExamples.{EqualKeysFall, SegmentsAreListed};

/// The definitions of lookups compute to the examples.
pub fn examples()
    ensures falls { EqualKeysFall }
    ensures segments { SegmentsAreListed }
{}
