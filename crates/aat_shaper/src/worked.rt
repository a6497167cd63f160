//! Worked examples of whether a font has a feature as a theorem. This call does nothing: what is proved is its contract.
ghost use Rattle.aat_shaper.specs.Examples.{FeaturesAreNamed};

/// The definition of the features of a font computes to the examples.
pub fn named()
    ensures { FeaturesAreNamed }
{}
