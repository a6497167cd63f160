//! Writers of a font file: its directory, and the tables of characters, metrics, classes, names, named features and
//! tracks. `aat_read_sfnt` reads each of them again, but `aat_read_lookup` the features, and `aat_read_metrics` the
//! tracks.
//!
//! ```
//! let file = write_font(alloc, &[FontTable { tag: MORX, bytes: &morx }])?;
//! ```
#![tactic(auto)]

mod cmap;
mod feat;
mod font;
mod gdef;
mod header;
#[doc(hidden)]
pub mod laws;
mod longs;
mod metrics;
mod name;
mod trak;
#[doc(hidden)]
pub mod worked;

pub use cmap::{Mapping, write_cmap};
pub use feat::{NamedFeature, NamedSetting, write_named_feat};
pub use font::{FontTable, write_font};
pub use gdef::write_gdef;
pub use header::{write_head, write_maxp};
pub use metrics::{write_hhea, write_hmtx};
pub use name::{EnglishName, write_name};
pub use trak::error::TrakWriteError;
pub use trak::write_trak;
