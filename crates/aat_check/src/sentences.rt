//! What findings say, and where they are.

use crate::fact::{Fact, Severity};
use crate::finding::Place;
use aat_read_metrics::GlyphNames;
use std::fmt;

impl fmt::Display for Severity {
    fn fmt<W: fmt::Write>(&self, f: &mut fmt::Formatter<W>) -> fmt::Result {
        let word = match self {
            Severity::Error => "error",
            Severity::Warning => "warning",
            Severity::Note => "note",
        };
        write!(f, "{word}")
    }
}

/// Writes a word and a number behind a space, where the number is there.
fn write_part<W: fmt::Write>(f: &mut W, word: &str, number: Option<usize>) -> fmt::Result {
    match number {
        Some(number) => write!(f, " {word} {number}"),
        None => Ok(()),
    }
}

impl fmt::Display for Place {
    fn fmt<W: fmt::Write>(&self, f: &mut fmt::Formatter<W>) -> fmt::Result {
        let table = self.table;
        write!(f, "{table}")?;
        write_part(f, "chain", self.chain)?;
        write_part(f, "subtable", self.subtable)?;
        write_part(f, "feature", self.feature.map(usize::from))?;
        write_part(f, "state", self.state.map(usize::from))?;
        write_part(f, "class", self.class.map(usize::from))?;
        write_part(f, "glyph", self.glyph.map(usize::from))
    }
}

/// What is told, with the names of the glyphs in it.
#[derive(Clone, Copy)]
pub(crate) struct Sentence<'n, 'a> {
    /// What is told.
    pub(crate) fact: Fact,
    /// The names of glyphs.
    pub(crate) names: &'n GlyphNames<'a>,
}

/// Writes the number of a glyph, and its name behind it, where it has one.
fn write_glyph<W: fmt::Write>(
    f: &mut W,
    names: Option<&GlyphNames<'_>>,
    glyph: u16,
) -> fmt::Result {
    write!(f, "{glyph}")?;
    match names.and_then(|names| names.name_of(glyph)) {
        Some(name) => write!(f, " ({name})"),
        None => Ok(()),
    }
}

/// Writes that what is told is the first of so many, where there are more.
fn write_count<W: fmt::Write>(f: &mut W, count: usize) -> fmt::Result {
    if count > 1 {
        return write!(f, " (the first of {count})");
    }
    Ok(())
}

/// Writes that the deleted glyph becomes another one.
fn write_returned<W: fmt::Write>(
    f: &mut W,
    names: Option<&GlyphNames<'_>>,
    value: u16,
) -> fmt::Result {
    write!(f, "the deleted glyph becomes glyph ")?;
    write_glyph(f, names, value)?;
    write!(f, ", but not in each shaper")
}

/// Writes that a pair has a mark.
fn write_pair<W: fmt::Write>(
    f: &mut W,
    names: Option<&GlyphNames<'_>>,
    left: u16,
    right: u16,
) -> fmt::Result {
    write!(f, "the pair of glyphs ")?;
    write_glyph(f, names, left)?;
    write!(f, " and ")?;
    write_glyph(f, names, right)?;
    write!(f, " has a mark, and pairs skip marks")
}

/// Writes the sentence of what is told once, and names no glyph.
fn write_single<W: fmt::Write>(f: &mut W, fact: &Fact) -> fmt::Result {
    match fact {
        Fact::TableFault(fault) => write!(f, "the table is not read: {fault}"),
        Fact::LeftOut(fault) => write!(f, "the subtable is left out: {fault}"),
        Fact::KernBesideGpos => write!(
            f,
            "HarfBuzz kerns by the feature kern of GPOS in the scripts that have it, and not by kern"
        ),
        Fact::KerxBesideGpos => write!(
            f,
            "HarfBuzz kerns by the feature kern of GPOS in the scripts that have it, and not by kerx"
        ),
        Fact::PointsWithoutAnkr => write!(
            f,
            "there is no ankr for its points, and HarfBuzz attaches each glyph by its origin"
        ),
        Fact::MortAlone => write!(
            f,
            "there is no morx, and mort is not read; HarfBuzz reads it"
        ),
        Fact::RowFalls { byte } => write!(
            f,
            "the row at {byte} is empty or not above the one before it, and a search may miss rows"
        ),
        Fact::ReachesPast => write!(
            f,
            "it names a part past its length, where shapers may end lists or drop the table"
        ),
        Fact::ClassesFault(fault) => { write!(f, "classes of GDEF are not read: {fault}") }
        Fact::Stays => write!(
            f,
            "entries that do not advance stay here until the budget is used up"
        ),
        Fact::MissingEntry => write!(f, "a line comes here, and ends the run: there is no entry"),
        Fact::NotSettled(reason) => write!(f, "few places to break a line are seen: {reason}"),
        Fact::MayStay => write!(
            f,
            "entries that act and do not advance may stay here for ever"
        ),
        Fact::Grows => write!(
            f,
            "entries that do not advance put glyphs in here until the budget is used up or the line is too long"
        ),
        Fact::NeverOn => write!(f, "no default flag and no feature switches it on"),
        Fact::NameWithoutChain => write!(f, "it has a name, and no chain has a setting of it"),
        _ => write!(f, "the classes list the deleted glyph, whose class is 2"),
    }
}

/// Writes the sentence of the first of what is counted, and names no glyph.
fn write_first<W: fmt::Write>(f: &mut W, fact: &Fact) -> fmt::Result {
    match fact {
        Fact::UnreachedState { .. } => write!(f, "no line reaches this state"),
        Fact::UnusedRule { .. } => write!(f, "no line comes to this rule"),
        Fact::ClassesAlike { other, .. } => write!(f, "no rule tells it from class {other}"),
        Fact::UnnamedLookup { lookup, .. } => write!(f, "no entry names lookup {lookup}"),
        Fact::UnmadeLigature { ligature, .. } => write!(
            f,
            "no line makes this ligature, number {ligature} of the list"
        ),
        Fact::ListedPast { number, .. } => write!(
            f,
            "the font lacks this glyph, number {number} of the list"
        ),
        Fact::SettingWithoutName { setting, .. } => {
            write!(
                f,
                "feat does not name the type of setting {setting}, by which tags ask for it"
            )
        },
        Fact::ExclusiveSettings { setting, .. } => {
            write!(
                f,
                "setting {setting} is on by default, and excludes another one that is"
            )
        }
        Fact::ValuePast { value, .. } => write!(
            f,
            "it becomes glyph {value}, which the font lacks"
        ),
        Fact::DeletedStays { .. } => write!(
            f,
            "the deleted glyph comes of it, which some shapers leave in the line"
        ),
        Fact::DeletedGoesIn { .. } => write!(
            f,
            "the deleted glyph goes in here, and is taken out again"
        ),
        _ => write!(f, "it is listed, and the font lacks it"),
    }
}

/// How often what is told is there, where it is counted.
fn count_of(fact: &Fact) -> Option<usize> {
    match fact {
        Fact::UnreachedState { count }
        | Fact::UnusedRule { count }
        | Fact::ClassesAlike { count, .. }
        | Fact::UnnamedLookup { count, .. }
        | Fact::UnmadeLigature { count, .. }
        | Fact::ListedPast { count, .. }
        | Fact::SettingWithoutName { count, .. }
        | Fact::ExclusiveSettings { count, .. }
        | Fact::ValuePast { count, .. }
        | Fact::KeyPast { count }
        | Fact::DeletedStays { count }
        | Fact::DeletedGoesIn { count }
        | Fact::MarkInPair { count, .. } => Some(*count),
        _ => None,
    }
}

/// Writes a sentence, with the names of the glyphs in it where they are told.
fn write_sentence<W: fmt::Write>(
    f: &mut W,
    fact: &Fact,
    names: Option<&GlyphNames<'_>>,
) -> fmt::Result {
    match fact {
        Fact::DeletedReturns { value } => return write_returned(f, names, *value),
        Fact::MarkInPair { left, right, .. } => write_pair(f, names, *left, *right)?,
        _ if count_of(fact).is_some() => write_first(f, fact)?,
        _ => return write_single(f, fact),
    }
    write_count(f, count_of(fact).unwrap_or(0))
}

impl fmt::Display for Fact {
    fn fmt<W: fmt::Write>(&self, f: &mut fmt::Formatter<W>) -> fmt::Result {
        write_sentence(f, self, None)
    }
}

impl fmt::Display for Sentence<'_, '_> {
    fn fmt<W: fmt::Write>(&self, f: &mut fmt::Formatter<W>) -> fmt::Result {
        write_sentence(f, &self.fact, Some(self.names))
    }
}
