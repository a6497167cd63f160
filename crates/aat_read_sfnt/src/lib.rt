//! A font file: its directory, the tables of characters, metrics and classes, the headers of glyphs, vertical origins,
//! and the names. A table is a slice of the file, and each answer is read from its bytes when it is asked for: no call
//! takes memory.
//!
//! ```
//! let morx: &[u8] = FontFile::read(&file, 0)?.table(MORX)?;
//! ```
#![tactic(auto)]

mod class_definition;
mod cmap;
mod directory;
mod gdef;
mod glyph_data;
mod header;
mod metrics;
mod name;
pub mod tags;
mod vertical_origins;
#[doc(hidden)]
pub mod worked;

pub use class_definition::{ClassArray, ClassDefinition, ClassRanges};
pub use cmap::character_set::CharacterSet;
pub use cmap::segment_mapping::SegmentMapping;
pub use cmap::segmented_coverage::SegmentedCoverage;
pub use cmap::short_tables::{ByteEncoding, TrimmedTable};
pub use cmap::{CharacterMap, Cmap};
pub use directory::FontFile;
pub use gdef::GlyphClasses;
pub use glyph_data::{GlyphData, GlyphHeader, has_long_offsets};
pub use header::{glyph_count, units_per_em};
pub use metrics::{Metrics, long_metric_count};
pub use name::{NameKey, Names};
pub use vertical_origins::vertical_origin_at;
