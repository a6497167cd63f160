//! The calls of the layer over a text, one by one: traced, for who makes a font, and timed.
//!
//! ```
//! write_trace(&mut out, font, None, &trace_of(alloc, font, direction, &text, &features)?)?;
//! ```
#![tactic(auto)]

mod bench;
mod line;
mod names;
mod trace;

pub use bench::{BenchFont, BenchText, TypesetsLine, measure};
pub use names::subtable_names;
pub use trace::{trace_of, write_trace};
