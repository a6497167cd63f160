//! What fonts are described as.

use aat_kerning_tables::Point;
use aat_lookup::{FeatureName, GlyphId};
use aat_machine_tables::{
    ChainFeature, ContextualEntryData, Coverage, EntryData, GenericStateEntry, InsertionEntryData,
    KernEntryData,
};

/// A glyph and its value.
pub type Value = (u16, u16);

/// The left glyph and the right glyph of a pair, and its value in font units.
pub type Pair = (u16, u16, i16);

/// A state, a class, and the entry there.
pub type Rule<T> = (u16, u16, GenericStateEntry<T>);

/// A font. It has no other table and no lookup than those that are there.
#[derive(Clone, Copy)]
pub struct FontData<'a> {
    /// The chains of the extended glyph metamorphosis table.
    pub chains: Option<&'a [ChainData<'a>]>,
    /// The names of features.
    pub names: Option<&'a [FeatureName]>,
    /// What the only subtable of the kerning table does, which is for horizontal text.
    pub kern: Option<KernData<'a>>,
    /// What the only subtable of the extended kerning table does, which is for horizontal text.
    pub kerx: Option<KerxData<'a>>,
    /// Glyphs with their anchor points.
    pub points: Option<&'a [(u16, &'a [Point])]>,
    /// The properties that the classes of glyphs give them.
    pub glyph_classes: Option<&'a [Value]>,
    /// The advances of glyphs, in font units.
    pub advances: Option<&'a [Value]>,
}

/// A font without tables and lookups.
pub const NO_TABLES: FontData<'static> = FontData {
    chains: None,
    names: None,
    kern: None,
    kerx: None,
    points: None,
    glyph_classes: None,
    advances: None,
};

/// A chain: the flags that it begins with, what settings do to them, and its subtables.
#[derive(Clone, Copy)]
pub struct ChainData<'a> {
    pub default_flags: u32,
    pub features: &'a [ChainFeature],
    pub subtables: &'a [SubtableData<'a>],
}

/// A subtable: what it does, the bits that say for which text it is, and at which flags it is on.
#[derive(Clone, Copy)]
pub struct SubtableData<'a> {
    pub kind: KindData<'a>,
    pub coverage: &'a [Coverage],
    pub feature_flags: u32,
}

/// What a subtable does.
#[derive(Clone, Copy)]
pub enum KindData<'a> {
    /// Each glyph gets its value.
    NonContextual(&'a [Value]),
    /// Glyphs are put in another order.
    Rearrangement(MachineData<'a, ()>),
    /// The marked and the current glyph get their values of the lookups that entries name.
    Contextual(MachineData<'a, ContextualEntryData>, &'a [&'a [Value]]),
    /// Glyphs are joined.
    Ligature(LigatureData<'a>),
    /// Glyphs of the list that entries name are inserted.
    Insertion(MachineData<'a, InsertionEntryData>, &'a [GlyphId]),
}

/// How glyphs are joined.
#[derive(Clone, Copy)]
pub struct LigatureData<'a> {
    pub machine: MachineData<'a, u16>,
    /// The actions in their order, each with the number of times that it stands there.
    pub actions: &'a [(u32, usize)],
    pub components: &'a [u16],
    pub ligatures: &'a [GlyphId],
}

/// How a subtable of the kerning table kerns, along the line.
#[derive(Clone, Copy)]
pub enum KernData<'a> {
    /// By pairs.
    Pairs(&'a [Pair]),
    /// By a machine with a stack, and its values, in font units.
    Machine(MachineData<'a, KernEntryData>, &'a [i16]),
}

/// How a subtable of the extended kerning table kerns.
#[derive(Clone, Copy)]
pub enum KerxData<'a> {
    /// By pairs, across the line. Format 0.
    PairsAcross(&'a [Pair]),
    /// By a machine with a stack, its values, in font units, and its tuple count. Format 1.
    Stack(MachineData<'a, EntryData>, &'a [i16], u32),
    /// By a machine that attaches glyphs, and its pairs of indexes of points. Format 4.
    Anchors(MachineData<'a, EntryData>, &'a [Value]),
}

/// A machine: its number of classes, each glyph with its class, and its rules.
#[derive(Clone, Copy)]
pub struct MachineData<'a, T: Copy + 'a> {
    pub class_count: u16,
    pub classes: &'a [Value],
    pub rules: &'a [Rule<T>],
    /// How many states have an entry for each class, and what the kind adds to an entry that no rule lists: that goes
    /// to state 0 and does nothing. Without these the rules are all.
    pub idle: Option<(u16, T)>,
}
