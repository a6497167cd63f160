//! Where the lines of machines that meet the laws of a cut can be cut, and of contextual, insertion and noncontextual
//! subtables: the run over a line leaves there what the runs over its two parts leave. So do subtables that `aat_cuts`
//! finds settled (of insertion that is not plain but for masks). And where kerned lines can be cut (`kerning_laws`): at the
//! places that runs of kerning machines leave open, which `kern_by_machine`, `kern_by_stack` and `kern_by_anchors` tell.
//!
//! ```
//! laws::settled_contextual_cut(); // Its clause, the theorem, is known from here on. The call does nothing.
//! ```
#![tactic(auto)]

#[doc(hidden)]
pub mod kerning_laws;
mod kerning_opens;
mod kerning_stack;
mod kerning_touches;
mod kerning_turns;
#[doc(hidden)]
pub mod kerning_worked;
#[doc(hidden)]
pub mod laws;
#[doc(hidden)]
pub mod worked;

pub use kerning_opens::{kern_by_anchors, kern_by_machine, kern_by_stack};
