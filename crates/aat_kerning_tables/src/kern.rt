//! The kerning table.
ghost use Rattle.std.specs.Prelude.{◌≡◌, ◌≤◌, IfOk, IfErr, OnOk, false, length, vec_len};
ghost use Rattle.aat_lookup.specs.TableErrors.{RefusesMany};

use crate::class_pairs::ClassPairs;
use crate::pairs::Pairs;
use aat_lookup::TableError;
use aat_machine_tables::{ExtendedStateTable, KernEntryData, MAX_SUBTABLES};
use std::marker::Model;

/// A machine that kerns the glyphs of a stack. A contract sees it as the record `KernMachineTables`.
///
/// Apple's TrueType Reference Manual, "The 'kern' table", format 1.
#[derive(Drop)]
pub struct KernMachine {
    /// The machine.
    pub state_table: ExtendedStateTable<KernEntryData>,
    /// The values, in units of the font. An entry names the place of the first of a list, and an odd one ends it.
    pub values: Vec<i16>,
}

impl Model for KernMachine {
    ghost use Rattle.aat_kerning_tables.specs.KerningTables.{KernMachineTables};

    ghost Value = { KernMachineTables };

    ghost view = { λ m. record { state_table = m.state_table; values = m.values.items } };
}

/// How a subtable of the kerning table kerns.
///
/// Apple's TrueType Reference Manual, "The 'kern' table", subtable formats.
#[derive(Drop)]
pub enum KernKind {
    /// By pairs. The manual's format 0.
    Pairs(Pairs),
    /// By pairs of classes. The manual's formats 2 and 3.
    Classes(ClassPairs),
    /// By a machine with a stack. The manual's format 1.
    Machine(KernMachine),
}

/// A subtable of the kerning table.
///
/// Apple's TrueType Reference Manual, "The 'kern' table", subtable headers.
#[derive(Drop)]
pub struct KernSubtable {
    /// How it kerns.
    pub kind: KernKind,
    /// Whether it is for horizontal text. If not, it is for vertical text.
    pub horizontal: bool,
    /// Whether its values move glyphs across the line. If not, they move them along the line.
    pub has_cross_stream: bool,
    /// Whether its values are those of variations of the font. Such a subtable is passed over.
    pub variable: bool,
}

impl KernSubtable {
    /// A subtable of this kind for horizontal text, or else for vertical text, that moves glyphs along the line and has
    /// no variations.
    pub fn new(kind: KernKind, horizontal: bool) -> KernSubtable
        ensures { result ≡ record {
          kind = kind;
          horizontal = horizontal;
          has_cross_stream = false;
          variable = false;
        } }
    {
        KernSubtable {
            kind,
            horizontal,
            has_cross_stream: false,
            variable: false,
        }
    }
}

/// The kerning table: subtables that kern in their order. A contract sees it as the list of its subtables.
///
/// Apple's TrueType Reference Manual, "The 'kern' table".
#[derive(Drop)]
pub struct Kern {
    subtables: Vec<KernSubtable>,
}

impl Model for Kern {
    ghost use Rattle.std.specs.Prelude.{List, ◌≤◌, vec_len};
    ghost use Rattle.aat_kerning_tables.specs.declared.kern.KernSubtable.{KernSubtable};

    ghost Value = { List KernSubtable };

    ghost view = { λ m. m.subtables.items };

    ghost invariant = { λ m. vec_len m.subtables ≤ 65535 };
}

impl Kern {
    /// Makes the table of its subtables, which are kept as they are handed in. Takes no memory.
    ///
    /// Refused as 4, `TooManySubtables`, where there are more than 65,535 subtables, and never else. They are then
    /// dropped.
    pub fn new(subtables: Vec<KernSubtable>) -> Result<Kern, TableError>
        ensures ok { IfOk result (λ kern. kern ≡ subtables.items) }
        ensures few { OnOk result (vec_len subtables ≤ 65535) }
        ensures refused { IfErr result (RefusesMany (vec_len subtables)) }
    {
        if subtables.len() > MAX_SUBTABLES {
            return Err(TableError::TooManySubtables);
        }
        Ok(Kern { subtables })
    }

    /// The subtables in their order.
    pub fn subtables(&self) -> &[KernSubtable]
        ensures subtables { result.now ≡ self.now }
        ensures few { length result.now ≤ 65535 }
    {
        &self.subtables
    }
}
