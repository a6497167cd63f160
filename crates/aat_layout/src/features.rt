//! Features and tags as a person writes them: `smcp`, `-liga`, `aalt[3:5]=2`, `"kern" off`.
//!
//! ```
//! let feature = parse_feature("aalt[3:5]=2")?;
//! ```

mod characters;
mod clusters;
mod error;
pub mod laws;
mod numbers;
mod reading;
mod tags;
mod values;
pub mod worked;

pub use clusters::feature;
pub use error::FeatureError;
pub use reading::parse_feature;
pub use tags::{parse_tag, tag_text};
