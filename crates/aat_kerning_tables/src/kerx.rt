//! The extended kerning table.
ghost use Rattle.std.specs.Prelude.{◌≡◌, ◌≤◌, IfOk, IfErr, OnOk, false, length, vec_len};
ghost use Rattle.aat_lookup.specs.TableErrors.{RefusesMany};

use crate::class_pairs::ClassPairs;
use crate::pairs::Pairs;
use aat_lookup::TableError;
use aat_machine_tables::{EntryData, ExtendedStateTable, MAX_SUBTABLES};
use std::marker::Model;

/// A machine that kerns the glyphs of a stack. A contract sees it as the record `KerxStackTables`.
///
/// Apple's TrueType Reference Manual, "The 'kerx' table", format 1.
#[derive(Drop)]
pub struct Subtable1 {
    /// The machine.
    pub state_table: ExtendedStateTable<EntryData>,
    /// The values, in units of the font. An entry names the place of the first of a list, and an odd one ends it.
    pub values: Vec<i16>,
}

impl Model for Subtable1 {
    ghost use Rattle.aat_kerning_tables.specs.KerningTables.{KerxStackTables};

    ghost Value = { KerxStackTables };

    ghost view = { λ m. record { state_table = m.state_table; values = m.values.items } };
}

/// A machine that attaches glyphs to marked ones by anchor points. A contract sees it as the record `KerxAnchorTables`.
///
/// Apple's TrueType Reference Manual, "The 'kerx' table", format 4.
#[derive(Drop)]
pub struct Subtable4 {
    /// The machine.
    pub state_table: ExtendedStateTable<EntryData>,
    /// The pairs that entries name by their places: the index of a point of the marked glyph, and that of a point of
    /// the current one.
    pub anchor_points: Vec<(u16, u16)>,
}

impl Model for Subtable4 {
    ghost use Rattle.aat_kerning_tables.specs.KerningTables.{KerxAnchorTables};

    ghost Value = { KerxAnchorTables };

    ghost view = { λ m. record { state_table = m.state_table; anchor_points = m.anchor_points.items } };
}

/// How a subtable of the extended kerning table kerns.
///
/// Apple's TrueType Reference Manual, "The 'kerx' table", subtable formats.
#[derive(Drop)]
pub enum KerxFormat {
    /// By pairs, which stand in a font as a list.
    Format0(Pairs),
    /// By a machine that gives values to the glyphs of a stack.
    Format1(Subtable1),
    /// By pairs that are listed, though the font has an array over classes of glyphs. This format, listed or by classes,
    /// alone marks the whole line against joining first, where the buffer asks for it.
    Format2(Pairs),
    /// By pairs of classes, as the font has them.
    Format2Classes(ClassPairs),
    /// By a machine that attaches glyphs by anchor points.
    Format4(Subtable4),
    /// By pairs that are listed, though the font has an array with an index for each glyph.
    Format6(Pairs),
    /// By pairs of classes, which are the rows and columns of the font's array.
    Format6Classes(ClassPairs),
}

/// A subtable of the extended kerning table.
///
/// Apple's TrueType Reference Manual, "The 'kerx' table", subtable headers.
#[derive(Drop)]
pub struct KerxSubtable {
    /// How it kerns.
    pub format: KerxFormat,
    /// Whether it is for horizontal text. If not, it is for vertical text.
    pub horizontal: bool,
    /// Whether its values move glyphs across the line. If not, they move them along the line.
    pub has_cross_stream: bool,
    /// Whether its values are those of variations of the font. Such a subtable is passed over.
    pub variable: bool,
    /// Whether its machine takes the glyphs from the last to the first. Pairs take no notice of it.
    pub is_last_to_first: bool,
    /// How many values stand together for each one that a machine takes, of which the first one counts. 0 means 1.
    pub tuple_count: u32,
}

impl KerxSubtable {
    /// A subtable of this format for horizontal text, or else for vertical text, that moves glyphs along the line, has
    /// no variations, takes the glyphs from the first to the last, and has a tuple count of 0.
    pub fn new(format: KerxFormat, horizontal: bool) -> KerxSubtable
        ensures { result ≡ record {
          format = format;
          horizontal = horizontal;
          has_cross_stream = false;
          variable = false;
          is_last_to_first = false;
          tuple_count = 0;
        } }
    {
        KerxSubtable {
            format,
            horizontal,
            has_cross_stream: false,
            variable: false,
            is_last_to_first: false,
            tuple_count: 0,
        }
    }
}

/// The extended kerning table: subtables that kern in their order. A contract sees it as the list of its subtables.
///
/// Apple's TrueType Reference Manual, "The 'kerx' table".
#[derive(Drop)]
pub struct Kerx {
    subtables: Vec<KerxSubtable>,
}

impl Model for Kerx {
    ghost use Rattle.std.specs.Prelude.{List, ◌≤◌, vec_len};
    ghost use Rattle.aat_kerning_tables.specs.declared.kerx.KerxSubtable.{KerxSubtable};

    ghost Value = { List KerxSubtable };

    ghost view = { λ m. m.subtables.items };

    ghost invariant = { λ m. vec_len m.subtables ≤ 65535 };
}

impl Kerx {
    /// Makes the table of its subtables, which are kept as they are handed in. Takes no memory.
    ///
    /// Refused as 4, `TooManySubtables`, where there are more than 65,535 subtables, and never else. They are then
    /// dropped.
    pub fn new(subtables: Vec<KerxSubtable>) -> Result<Kerx, TableError>
        ensures ok { IfOk result (λ kerx. kerx ≡ subtables.items) }
        ensures few { OnOk result (vec_len subtables ≤ 65535) }
        ensures refused { IfErr result (RefusesMany (vec_len subtables)) }
    {
        if subtables.len() > MAX_SUBTABLES {
            return Err(TableError::TooManySubtables);
        }
        Ok(Kerx { subtables })
    }

    /// The subtables in their order.
    pub fn subtables(&self) -> &[KerxSubtable]
        ensures subtables { result.now ≡ self.now }
        ensures few { length result.now ≤ 65535 }
    {
        &self.subtables
    }
}
