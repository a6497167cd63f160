//! From feature requests over ranges of clusters to the flags of each chain at each cluster. By which way something is
//! found, and in how many steps, is told in comments and not proved.
//!
//! ```
//! builder.compile(&font, &mut map)?;
//! ```
#![tactic(auto)]

mod addition;
mod builder;
mod chain_flags;
mod compile;
mod defaults;
mod feature;
mod gather;
mod live;
mod map;
mod mapping;
mod placed;
mod remembered;
mod starts;
mod walk;
#[doc(hidden)]
pub mod worked;

pub use builder::hb_aat_map_builder_t;
pub use chain_flags::compile_flags;
pub use defaults::{default_range, ranges_of};
pub use feature::{feature_info_t, feature_order, feature_range_t};
pub use map::hb_aat_map_t;
pub use mapping::{feature_mappings, hb_aat_feature_mapping_t};
