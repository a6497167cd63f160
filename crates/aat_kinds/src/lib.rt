//! The kinds of subtables of the extended glyph metamorphosis table: what each does to a line, with its laws.
//!
//! ```
//! let turns = run_kind::<SLOTS, LONGEST, A>(&run, &subtable.kind, &mut buffer)?;
//! ```
#![tactic(auto)]

mod contextual;
mod insertion;
mod kinds;
#[doc(hidden)]
pub mod laws;
mod ligature;
mod machines;
mod noncontextual;
mod passing;
mod rearrangement;
mod rearrangement_span;
mod run;
mod values;
mod verb;

pub use contextual::ContextualCtx;
pub use insertion::InsertionCtx;
pub use kinds::run_kind;
pub use ligature::{LIGATURE_SLOTS, LigatureCtx};
pub use passing::pass_over;
pub use rearrangement::{MAX_CONTEXT_LENGTH, RearrangementCtx};
pub use run::SubtableRun;
