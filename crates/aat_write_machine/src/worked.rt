//! Worked examples of what is written, as theorems. These calls do nothing: what is proved is their contracts.
ghost use Rattle.aat_write_machine.specs.ChainExamples.{NoChainsAreWritten, OneChainIsWritten};
ghost use Rattle.aat_write_machine.specs.MachineExamples.{MachineHasItsParts, MachinesAreRefused};

/// The definitions of a state table compute to the examples.
pub fn machines()
    ensures parts { MachineHasItsParts }
    ensures refusals { MachinesAreRefused }
{}

/// Tables of one chain and of none.
pub fn chains()
    ensures one { OneChainIsWritten }
    ensures none { NoChainsAreWritten }
{}
