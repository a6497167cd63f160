//! The tables of kerning: pairs, pairs by classes, the subtables of `kern` and of `kerx`, and anchor points.
//!
//! By which way a value is found, and in how many steps, is told in comments and not proved.
//!
//! ```
//! let value = Pairs::new(alloc, &[(4, 7, -40)])?.glyphs_kerning(GlyphId(4), GlyphId(7));
//! ```
#![tactic(auto)]

mod ankr;
mod class_pairs;
mod kern;
mod kerx;
mod lefts;
mod pairs;
mod rights;
#[doc(hidden)]
pub mod worked;

pub use ankr::{Ankr, Point};
pub use class_pairs::ClassPairs;
pub use kern::{Kern, KernKind, KernMachine, KernSubtable};
pub use kerx::{Kerx, KerxFormat, KerxSubtable, Subtable1, Subtable4};
pub use pairs::Pairs;
