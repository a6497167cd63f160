//! The chains of an extended glyph metamorphosis table, and their subtables.
ghost use Rattle.std.specs.Prelude.{⊤, ◌≡◌};

use crate::state_table::ExtendedStateTable;
use crate::subtables::{ContextualSubtable, InsertionSubtable, LigatureSubtable};
use aat_lookup::Lookup;
use bitflags::{Flag, Flags, bitflag_items};

/// The mask of a glyph, the same number that the buffer spells by this name.
pub type hb_mask_t = u32;

/// For which text a subtable is, and in which order it takes the glyphs: the four highest bits of
/// the manual's field, as a byte.
///
/// Apple's TrueType Reference Manual, "The 'morx' table", metamorphosis subtables.
#[derive(Clone, Copy, PartialEq, Eq, Debug)]
pub struct Coverage(u8);

bitflag_items! {
    impl Coverage: u8 {
        const VERTICAL = 0x80;
        const BACKWARDS = 0x40;
        const ALL_DIRECTIONS = 0x20;
        const LOGICAL = 0x10;
    }
}

impl Flags for Coverage {
    ghost use Rattle.std.specs.Prelude.{⊤};
    ghost use Rattle.aat_machine_tables.specs.Coverage.{coverage_bits};

    type Bits = u8;

    ghost exact = { ⊤ };

    ghost table = { coverage_bits };

    ghost set_of = { λ f. f.0 };

    fn flags<'a>() -> &'a [Flag<Coverage>] {
        Coverage::FLAGS
    }

    fn bits(&self) -> u8 {
        self.0
    }

    fn from_bits_retain(bits: u8) -> Coverage {
        Coverage(bits)
    }
}

impl Coverage {
    ghost use Rattle.std.specs.Prelude.{◌≡◌};
    ghost use Rattle.aat_machine_tables.specs.Coverage.{is_vertical_coverage, is_backwards, is_all_directions, is_logical};

    /// Whether the subtable is for vertical text alone. Without the bit it is for horizontal text
    /// alone. Bit 0x80, 31 in the manual.
    pub fn is_vertical(self) -> bool
        ensures { result ≡ is_vertical_coverage self }
    {
        self.contains(Coverage::VERTICAL)
    }

    /// Whether the subtable takes the glyphs backwards in their order, the last one first. Bit
    /// 0x40, 30 in the manual.
    pub fn is_backwards(self) -> bool
        ensures { result ≡ is_backwards self }
    {
        self.contains(Coverage::BACKWARDS)
    }

    /// Whether the subtable is for horizontal and vertical text, whatever `is_vertical` says. Bit
    /// 0x20, 29 in the manual.
    pub fn is_all_directions(self) -> bool
        ensures { result ≡ is_all_directions self }
    {
        self.contains(Coverage::ALL_DIRECTIONS)
    }

    /// Whether the order is the logical one, that of the characters. Without the bit it is the one
    /// in which the glyphs are laid out. Bit 0x10, 28 in the manual.
    pub fn is_logical(self) -> bool
        ensures { result ≡ is_logical self }
    {
        self.contains(Coverage::LOGICAL)
    }
}

/// What a subtable does.
///
/// Apple's TrueType Reference Manual, "The 'morx' table", metamorphosis subtables.
#[derive(Drop)]
pub enum SubtableKind {
    /// A machine puts the glyphs of a span in another order. The manual's "indic rearrangement".
    Rearrangement(ExtendedStateTable<()>),
    /// A machine replaces the marked and the current glyph. The manual's "contextual glyph substitution".
    Contextual(ContextualSubtable),
    /// A machine joins glyphs. The manual's "ligature substitution".
    Ligature(LigatureSubtable),
    /// Each glyph by itself gets its value of a lookup. The manual's "noncontextual glyph substitution".
    NonContextual(Lookup),
    /// A machine inserts glyphs. The manual's "glyph insertion".
    Insertion(InsertionSubtable),
}

/// A subtable of a chain.
///
/// Apple's TrueType Reference Manual, "The 'morx' table", metamorphosis subtables.
#[derive(Drop)]
pub struct Subtable {
    /// What the subtable does.
    pub kind: SubtableKind,
    /// For which text it is, and in which order it takes the glyphs.
    pub coverage: Coverage,
    /// The subtable is on where the chain's flags share a bit with these.
    pub feature_flags: hb_mask_t,
}

impl Subtable {
    /// A subtable that does this for text of this coverage, on where the chain's flags share a bit with these.
    pub fn new(kind: SubtableKind, coverage: Coverage, feature_flags: hb_mask_t) -> Subtable
        ensures { result ≡ record { kind = kind; coverage = coverage; feature_flags = feature_flags } }
    {
        Subtable {
            kind,
            coverage,
            feature_flags,
        }
    }
}

/// What a feature setting does to a chain's flags: they become
/// `(flags & disable_flags) | enable_flags`.
///
/// Apple's TrueType Reference Manual, "The 'morx' table", feature subtables.
#[derive(Clone, Copy, PartialEq, Eq, Debug)]
pub struct ChainFeature {
    /// The feature type.
    pub kind: u16,
    /// The selector within the type.
    pub setting: u16,
    /// The bits that are set where the setting is asked for.
    pub enable_flags: hb_mask_t,
    /// The bits that are kept then.
    pub disable_flags: hb_mask_t,
}

impl ChainFeature {
    /// What a selector of a feature type does to the flags: the bits that it sets, and those that it keeps.
    pub fn new(
        kind: u16,
        setting: u16,
        enable_flags: hb_mask_t,
        disable_flags: hb_mask_t,
    ) -> ChainFeature
        ensures { result ≡ record {
          kind = kind;
          setting = setting;
          enable_flags = enable_flags;
          disable_flags = disable_flags;
        } }
    {
        ChainFeature {
            kind,
            setting,
            enable_flags,
            disable_flags,
        }
    }
}

/// Subtables that are run in their order, with the flags that switch them.
///
/// Apple's TrueType Reference Manual, "The 'morx' table", chain header.
#[derive(Drop)]
pub struct Chain {
    /// The flags where nothing is asked for.
    pub default_flags: hb_mask_t,
    /// What settings do to the flags, one after another.
    pub features: Vec<ChainFeature>,
    /// The subtables in their order.
    pub subtables: Vec<Subtable>,
}

impl Chain {
    /// A chain of its flags where nothing is asked for, of what settings do to them, and of its subtables.
    pub fn new(
        default_flags: hb_mask_t,
        features: Vec<ChainFeature>,
        subtables: Vec<Subtable>,
    ) -> Chain
        ensures { result ≡ record { default_flags = default_flags; features = features; subtables = subtables } }
    {
        Chain {
            default_flags,
            features,
            subtables,
        }
    }
}
