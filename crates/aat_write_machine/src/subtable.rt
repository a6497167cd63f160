//! A subtable whose body is bytes.

use aat_machine_tables::Coverage;
use std::marker::Model;

/// A subtable whose body is bytes. A contract sees it as the record `SubtableContent`.
///
/// Apple's TrueType Reference Manual, "The 'morx' table", metamorphosis subtables.
#[derive(Drop)]
pub struct SubtableBytes {
    /// The number of the kind: 0 rearrangement, 1 contextual, 2 ligature, 4 noncontextual and 5 insertion. A subtable
    /// of another kind does nothing.
    pub kind: u8,
    /// For which text it is, and in which order it takes the glyphs.
    pub coverage: Coverage,
    /// The subtable is on where the chain's flags share a bit with these.
    pub feature_flags: u32,
    /// What stands behind the header of 12 bytes.
    pub body: Vec<u8>,
}

impl Model for SubtableBytes {
    ghost use Rattle.aat_write_machine.specs.ChainBytes.{SubtableContent};

    ghost Value = { SubtableContent };

    ghost view = { λ s. record {
      kind = s.kind;
      coverage = s.coverage;
      feature_flags = s.feature_flags;
      body = s.body.items;
    } };
}
