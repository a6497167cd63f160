//! What each subtable of the extended glyph metamorphosis table changed, for authors of fonts: a substitution that is
//! run as ever, and told.
//!
//! ```
//! let trace = trace_substitution(alloc, &plan, &font, &mut buffer)?;
//! ```
#![tactic(auto)]

mod chains;
mod context;
mod log;
mod machines;
mod reach;
mod replay;
mod split_line;
mod subtable;
mod telling;
mod trace;
mod traced;
mod turns;

pub use trace::trace_substitution;
pub use traced::{Trace, TracedAct, TracedSubtable};
