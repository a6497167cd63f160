//! A chain whose subtables have bodies of bytes.

use crate::subtable::SubtableBytes;
use aat_machine_tables::ChainFeature;
use std::marker::Model;

/// A chain whose subtables have bodies of bytes. A contract sees it as the record `ChainContent`.
///
/// Apple's TrueType Reference Manual, "The 'morx' table", chain header.
#[derive(Drop)]
pub struct ChainBytes {
    /// The flags where nothing is asked for.
    pub default_flags: u32,
    /// What settings do to the flags, one after another.
    pub features: Vec<ChainFeature>,
    /// The subtables in their order.
    pub subtables: Vec<SubtableBytes>,
}

impl Model for ChainBytes {
    ghost use Rattle.aat_write_machine.specs.ChainBytes.{ChainContent};

    ghost Value = { ChainContent };

    ghost view = { λ c. record {
      default_flags = c.default_flags;
      features = c.features.items;
      subtables = c.subtables.items;
    } };
}
