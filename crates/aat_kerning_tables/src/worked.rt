//! Worked examples of kerning tables as theorems. This call does nothing: what is proved is its contract.
ghost use Rattle.aat_kerning_tables.specs.KerningTableExamples.{PairsAreOrdered, ClassesKern, PointsAreListed};

/// The definitions of kerning tables compute to the examples.
pub fn examples()
    ensures pairs { PairsAreOrdered }
    ensures class_pairs { ClassesKern }
    ensures points { PointsAreListed }
{}
