//! Worked examples of state tables as theorems. These calls do nothing: what is proved is their contracts.
ghost use Rattle.aat_machine_tables.specs.JudgedExamples.{NoMarkIsPut, MarkIsPut};
ghost use Rattle.aat_machine_tables.specs.TableExamples.{ClassesAreAsListed, EntriesAreByRule, FaultsComeInOrder};

/// The definitions of state tables compute to the examples.
pub fn examples()
    ensures classes { ClassesAreAsListed }
    ensures entries { EntriesAreByRule }
    ensures faults { FaultsComeInOrder }
{}

/// The test of judged entries computes to the examples.
#[tactic(auto, unfolding(crate::specs::Judged::is_safe_by))]
pub fn judged_examples()
    ensures no_mark { NoMarkIsPut }
    ensures mark { MarkIsPut }
{}
