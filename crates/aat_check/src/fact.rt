//! What there is to find.
ghost use Rattle.std.specs.Prelude.{◌≡◌};
ghost use Rattle.aat_check.specs.Numbers.{number_of, severity_of, is_trouble};

use aat_bytes::Fault;
use aat_cuts::Unsettled;

/// How much harm a finding tells of.
#[derive(Clone, Copy)]
pub enum Severity {
    /// The font does not do what it is made for.
    Error,
    /// A part of the font does nothing.
    Warning,
    /// It may be meant so.
    Note,
}

/// What is found at a place. Where a place has it more than once, the first is told; `count`, if it has one, says how
/// often.
#[derive(Clone, Copy)]
pub enum Fact {
    /// 1: a table has a fault, and is not read.
    TableFault(Fault),
    /// 2: a subtable of `kerx` or `kern` is left out.
    LeftOut(Fault),
    /// 3: `kern` is read and no `kerx`, and `GPOS` has the feature `kern`: HarfBuzz kerns by that in the scripts that
    /// have it.
    KernBesideGpos,
    /// 3: `kerx` is read, `GPOS` has the feature `kern`, and there is `GSUB` and no `morx`: HarfBuzz does the same.
    KerxBesideGpos,
    /// 4: a subtable of `kerx` attaches glyphs by anchor points, and no `ankr` is read. HarfBuzz then takes each point as the
    /// origin, and here the glyphs stay.
    PointsWithoutAnkr,
    /// 5: the font has `mort` and no `morx`: HarfBuzz reads it, and here no machine is read.
    MortAlone,
    /// 6: a row of a table that is found by bisection ends before it starts, or does not stand behind the one before it, so
    /// that rows may be missed.
    RowFalls {
        /// The place of the first such row, in bytes from the start of the table.
        byte: usize,
    },
    /// 7: a part of the subtable begins or goes on past its length: rows, entries, a lookup; or an entry has actions,
    /// components, a ligature or glyphs to insert there. Of `morx` HarfBuzz 6.0 ends lists there, or drops the table; 12.3.2
    /// reads on. Of `kerx` it is values by classes alone, or their tuples, past what the subtable may use: HarfBuzz drops
    /// the table, and here they kern nothing.
    ReachesPast,
    /// 8: `GDEF` has a fault: the classes that have it are not read.
    ClassesFault(Fault),
    /// 10: a machine that comes to the state at a glyph of the class stays there: it leaves the glyphs as they are, or a
    /// contextual one replaces the least glyph of the class over and over.
    Stays,
    /// 11: a line reaches the state, which has no entry for the class.
    MissingEntry,
    /// 12: the subtable is not settled for cuts.
    NotSettled(Unsettled),
    /// 13: no line reaches the state.
    UnreachedState {
        /// How many states no line reaches.
        count: usize,
    },
    /// 14: no line comes to the rule of the state and the class.
    UnusedRule {
        /// How many rules no line comes to.
        count: usize,
    },
    /// 15: each state has the same entry for the class as for another one.
    ClassesAlike {
        /// The other class.
        other: u16,
        /// How many classes have one before them to which they are alike.
        count: usize,
    },
    /// 16: no entry names a lookup of a contextual subtable.
    UnnamedLookup {
        /// The place of the lookup.
        lookup: usize,
        /// How many lookups no entry names.
        count: usize,
    },
    /// 17: entries that act and do not advance lead from the state back to it for the class. A machine that comes to it at
    /// a glyph of the class stays there unless the glyph becomes one of another class.
    MayStay,
    /// 18: a machine of insertion that comes to the state at a glyph of the class puts glyphs in and comes back there, until
    /// the budget is used up or the line is too long.
    Grows,
    /// 19: no line makes the ligature.
    UnmadeLigature {
        /// The number of the ligature in the list of the subtable.
        ligature: usize,
        /// How many ligatures are so.
        count: usize,
    },
    /// 20: nothing switches the subtable on.
    NeverOn,
    /// 21: `feat` names a feature type of which no chain has a setting.
    NameWithoutChain,
    /// 22: `feat` has no name for the type of a setting of the chain, and it is not type 0, of all features.
    SettingWithoutName {
        /// The setting.
        setting: u16,
        /// How many settings of the chain are so.
        count: usize,
    },
    /// 23: a setting is on by default beside another one of its type, and the two exclude one another.
    ExclusiveSettings {
        /// The setting.
        setting: u16,
        /// How many settings of the chain are so.
        count: usize,
    },
    /// 30: the glyph is replaced by one that the font does not have.
    ValuePast {
        /// The glyph that takes its place.
        value: u16,
        /// How many glyphs are replaced so.
        count: usize,
    },
    /// 31: the glyph has a value or a class, or stands in a pair, and the font does not have it.
    KeyPast {
        /// How many glyphs are listed so, or how many pairs have one.
        count: usize,
    },
    /// 32: the classes list the deleted glyph, 65535.
    ListsDeleted,
    /// 33: the glyph becomes the deleted one. HarfBuzz 12.3.2 takes that out behind ligatures and insertions alone.
    DeletedStays {
        /// How many glyphs become it.
        count: usize,
    },
    /// 34: the deleted glyph becomes another one. With HarfBuzz 12.3.2 it does not.
    DeletedReturns {
        /// The glyph that takes its place.
        value: u16,
    },
    /// 35: the entry puts the deleted glyph in, which is taken out again.
    DeletedGoesIn {
        /// How many entries put it in.
        count: usize,
    },
    /// 36: a list of ligatures, or of glyphs that go in, has a glyph that the font does not have.
    ListedPast {
        /// Its number in the list.
        number: usize,
        /// How many glyphs of the list are so.
        count: usize,
    },
    /// 40: a pair has a mark, and pairs skip marks.
    MarkInPair {
        /// The left glyph.
        left: u16,
        /// The right glyph.
        right: u16,
        /// How many pairs are so.
        count: usize,
    },
}

impl Fact {
    /// Its number, by which it is looked up: 1 to 8 are of tables, 10 to 19 of machines, 20 to 23 of chains and names,
    /// 30 to 36 of glyphs, and 40 of pairs.
    pub fn number(&self) -> u8
        ensures { result ≡ number_of self.now }
    {
        match self {
            Fact::TableFault(_) => 1,
            Fact::LeftOut(_) => 2,
            Fact::KernBesideGpos | Fact::KerxBesideGpos => 3,
            Fact::PointsWithoutAnkr => 4,
            Fact::MortAlone => 5,
            Fact::RowFalls { .. } => 6,
            Fact::ReachesPast => 7,
            Fact::ClassesFault(_) => 8,
            Fact::Stays => 10,
            Fact::MissingEntry => 11,
            Fact::NotSettled(_) => 12,
            Fact::UnreachedState { .. } => 13,
            Fact::UnusedRule { .. } => 14,
            Fact::ClassesAlike { .. } => 15,
            Fact::UnnamedLookup { .. } => 16,
            Fact::MayStay => 17,
            Fact::Grows => 18,
            Fact::UnmadeLigature { .. } => 19,
            Fact::NeverOn => 20,
            Fact::NameWithoutChain => 21,
            Fact::SettingWithoutName { .. } => 22,
            Fact::ExclusiveSettings { .. } => 23,
            Fact::ValuePast { .. } => 30,
            Fact::KeyPast { .. } => 31,
            Fact::ListsDeleted => 32,
            Fact::DeletedStays { .. } => 33,
            Fact::DeletedReturns { .. } => 34,
            Fact::DeletedGoesIn { .. } => 35,
            Fact::ListedPast { .. } => 36,
            Fact::MarkInPair { .. } => 40,
        }
    }

    /// How much harm it tells of: numbers 1, 10, 11, 18, 23, 30 and 36 are errors, 2, 6 to 8, 13, 16, 20 and 31 warnings, and
    /// the others notes.
    pub fn severity(&self) -> Severity
        ensures { result ≡ severity_of (number_of self.now) }
    {
        match self {
            Fact::TableFault(_)
            | Fact::Stays
            | Fact::MissingEntry
            | Fact::Grows
            | Fact::ExclusiveSettings { .. }
            | Fact::ValuePast { .. }
            | Fact::ListedPast { .. } => Severity::Error,
            Fact::LeftOut(_)
            | Fact::RowFalls { .. }
            | Fact::ReachesPast
            | Fact::ClassesFault(_)
            | Fact::UnreachedState { .. }
            | Fact::UnnamedLookup { .. }
            | Fact::NeverOn
            | Fact::KeyPast { .. } => Severity::Warning,
            Fact::KernBesideGpos
            | Fact::KerxBesideGpos
            | Fact::PointsWithoutAnkr
            | Fact::MortAlone
            | Fact::NotSettled(_)
            | Fact::UnusedRule { .. }
            | Fact::ClassesAlike { .. }
            | Fact::MayStay
            | Fact::UnmadeLigature { .. }
            | Fact::NameWithoutChain
            | Fact::SettingWithoutName { .. }
            | Fact::ListsDeleted
            | Fact::DeletedStays { .. }
            | Fact::DeletedReturns { .. }
            | Fact::DeletedGoesIn { .. }
            | Fact::MarkInPair { .. } => Severity::Note,
        }
    }

    /// Whether it is an error or a warning.
    pub fn is_trouble(&self) -> bool
        ensures { result ≡ is_trouble self.now }
    {
        match self.severity() {
            Severity::Error | Severity::Warning => true,
            Severity::Note => false,
        }
    }
}
