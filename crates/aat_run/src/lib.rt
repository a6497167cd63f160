//! What every run over a buffer shares: errors, ranges with flags, the context of a run, and the rewriting machine
//! with its driver.
//!
//! ```
//! drive(&machine, &mut context, &mut apply_context)?;
//! ```
#![tactic(auto)]

mod aat_layout_common;
mod driver;
mod driver_context;
mod error;
#[doc(hidden)]
pub mod laws;
mod ranges;
mod run_state;
mod turns;
mod wakers;
#[doc(hidden)]
pub mod worked;

pub use aat_layout_common::hb_aat_apply_context_t;
pub use driver::{MachineRun, drive, run_machine, run_machine_through};
pub use driver_context::driver_context_t;
pub use error::AatError;
pub use ranges::{
    Stretch, ends_at_last, flags_in, is_everywhere_on, is_nowhere_on, is_on, range_flags_t,
    range_of, ranges_to_ask,
};
pub use turns::class_at_cursor;
pub use wakers::Wakers;
