//! What the run of a kerning machine is given.

use aat_font::hb_ot_shape_plan_t;
use aat_machine_tables::{Acting, ExtendedStateTable};

/// What the run of a kerning machine is given besides the line and its driver.
#[derive(Clone, Copy)]
pub struct KerningRun<'a, Table, E: Acting> {
    /// The classes of glyphs, and the entry of each state and class.
    pub state_table: &'a ExtendedStateTable<E>,
    /// What the entries name by their indexes: the subtable itself, with its values or anchor points.
    pub table: &'a Table,
    /// Whether the values go across the line.
    pub has_cross_stream: bool,
    /// How many values stand together for each one that the machine takes, of which the first one counts. 0 means 1.
    pub tuple_count: u32,
    /// The plan, for the bits of a glyph's mask at which it is kerned.
    pub plan: &'a hb_ot_shape_plan_t,
}
