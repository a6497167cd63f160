//! What is read of each table of a font file. A table that the directory does not name is missing, which is no fault.
ghost use Rattle.std.specs.Prelude.{◌≡◌};
ghost use Rattle.aat_face.specs.Tables.{characters_in, classes_fault, classes_in, fault_in, long_metric_count_in, names_in};

use crate::chains::Chains;
use crate::features::Features;
use aat_bytes::Fault;
use aat_glyph::Tracking;
use aat_kerning_tables::Ankr;
use aat_read_extended::KerxRead;
use aat_read_kern::KernRead;
use aat_read_metrics::optional_table;
use aat_read_sfnt::tags::{CMAP, GDEF, HHEA, NAME};
use aat_read_sfnt::{CharacterMap, FontFile, GlyphClasses, Metrics, Names};

/// The number of long metrics of the table `hhea`.
pub fn long_metric_count_in(file: &FontFile<'_>) -> Result<Option<u16>, Fault>
    ensures { result ≡ long_metric_count_in file.now }
{
    match optional_table(file, HHEA)? {
        Some(bytes) => Ok(Some(aat_read_sfnt::long_metric_count(bytes)?)),
        None => Ok(None),
    }
}

/// The character map of the table `cmap`.
pub fn characters_in<'a>(file: &FontFile<'a>) -> Result<Option<CharacterMap<'a>>, Fault>
    ensures { result ≡ characters_in file.now }
{
    match optional_table(file, CMAP)? {
        Some(bytes) => Ok(Some(CharacterMap::read(bytes)?)),
        None => Ok(None),
    }
}

/// The classes of glyphs of the table `GDEF`.
pub fn classes_in<'a>(file: &FontFile<'a>) -> Result<Option<GlyphClasses<'a>>, Fault>
    ensures { result ≡ classes_in file.now }
{
    match optional_table(file, GDEF)? {
        Some(bytes) => Ok(Some(GlyphClasses::read(bytes)?)),
        None => Ok(None),
    }
}

/// The fault of classes, also of some by which no glyph has a class.
pub fn classes_fault(classes: &Result<Option<GlyphClasses<'_>>, Fault>) -> Option<Fault>
    ensures { result ≡ classes_fault classes.now }
{
    match classes {
        Ok(Some(classes)) => classes.fault(),
        Ok(None) => None,
        Err(fault) => Some(*fault),
    }
}

/// The names of the table `name`.
pub fn names_in<'a>(file: &FontFile<'a>) -> Result<Option<Names<'a>>, Fault>
    ensures { result ≡ names_in file.now }
{
    match optional_table(file, NAME)? {
        Some(bytes) => Ok(Some(Names::read(bytes)?)),
        None => Ok(None),
    }
}

/// The fault of a table that has one.
pub fn fault_in<X>(reading: &Result<Option<X>, Fault>) -> Option<Fault>
    ensures { result ≡ fault_in reading.now }
{
    match reading {
        Ok(_) => None,
        Err(fault) => Some(*fault),
    }
}

/// The tables of a font file as they are read.
#[derive(Drop)]
pub struct Tables<'a> {
    pub maxp: Result<Option<u16>, Fault>,
    pub head: Result<Option<u16>, Fault>,
    pub hhea: Result<Option<u16>, Fault>,
    pub hmtx: Metrics<'a>,
    pub units_per_em: u16,
    /// How many glyphs the font has.
    pub glyph_count: u16,
    pub cmap: Result<Option<CharacterMap<'a>>, Fault>,
    pub gdef: Result<Option<GlyphClasses<'a>>, Fault>,
    pub name: Result<Option<Names<'a>>, Fault>,
    pub feat: Result<Option<Features<'a>>, Fault>,
    pub morx: Result<Option<Chains>, Fault>,
    pub kerx: Result<Option<KerxRead>, Fault>,
    pub kern: Result<Option<KernRead>, Fault>,
    pub ankr: Result<Option<Ankr>, Fault>,
    pub trak: Result<Option<Tracking>, Fault>,
    pub has_gpos: bool,
    /// Whether the file has the table `STAT`.
    pub has_stat: bool,
}

/// The tables of a font file that substitute glyphs, and the names of features.
#[derive(Drop)]
pub struct SubstitutionTables<'a> {
    pub feat: Result<Option<Features<'a>>, Fault>,
    pub morx: Result<Option<Chains>, Fault>,
}

/// The tables of kerning.
#[derive(Drop)]
pub struct KerningTables {
    pub kerx: Result<Option<KerxRead>, Fault>,
    pub kern: Result<Option<KernRead>, Fault>,
}

/// The tables of anchor points and of tracks.
#[derive(Drop)]
pub struct PointTables {
    pub ankr: Result<Option<Ankr>, Fault>,
    pub trak: Result<Option<Tracking>, Fault>,
}
