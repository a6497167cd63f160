//! The machines of kerning: what their entries do, by a stack of places or by anchor points, and the run of a state
//! table over a line.
//!
//! ```
//! let turns = drive_kerning(&run, pays_first, &mut driver, &mut buffer);
//! ```
#![tactic(auto)]

mod attachment;
mod driver1;
mod driver4;
mod kerning_run;
mod kerning_turns;
#[doc(hidden)]
pub mod laws;
mod passing;
mod run;
mod run_state;
mod stack;
mod stack_values;
mod state_machine_driver;
mod state_table_driver;

pub use attachment::{meets, note_attachment};
pub use driver1::Driver1;
pub use driver4::Driver4;
pub use kerning_run::drive_kerning;
pub use kerning_turns::turn_once;
pub use run::KerningRun;
pub use run_state::RunState;
pub use state_machine_driver::StateMachineDriver;
pub use state_table_driver::StateTableDriver;
