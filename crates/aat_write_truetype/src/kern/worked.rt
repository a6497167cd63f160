//! Worked examples as theorems. This call does nothing: what is proved is its contract.
ghost use Rattle.aat_write_truetype.specs.kern.KernExamples.{ClassesAreFormat2, MachineIsFormat1, PairsAreFormat0, RefusalsHaveTheirPlaces};

/// The definitions of the three formats compute to the examples.
pub fn formats()
    ensures pairs { PairsAreFormat0 }
    ensures machine { MachineIsFormat1 }
    ensures classes { ClassesAreFormat2 }
    ensures refusals { RefusalsHaveTheirPlaces }
{}
