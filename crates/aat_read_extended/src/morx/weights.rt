//! What chains that are read weigh: the bytes of memory that they take.

use aat_machine_tables::{Chain, ChainFeature, Subtable};

/// The bytes of a chain, besides its features and subtables.
pub const CHAIN_SIZE: usize = size_of::<Chain>();

/// The bytes of a feature.
pub const FEATURE_SIZE: usize = size_of::<ChainFeature>();

/// The bytes of a subtable, besides what it has in lists.
pub const SUBTABLE_SIZE: usize = size_of::<Subtable>();
