//! A font with the list of its faults.
ghost use Rattle.std.specs.Prelude.{◌≡◌, Some, IfOk, IfErr, option_copied};
ghost use Rattle.aat_bytes.specs.declared.error.ReadError.TheVariants as errors;
ghost use Rattle.aat_read_lookup.specs.Lookups.{Gives};
ghost use Rattle.aat_face.specs.Chains.{chains_in};
ghost use Rattle.aat_face.specs.Features.{features_in};
ghost use Rattle.aat_face.specs.Kerning.{ankr_in, kern_in, kerx_in};
ghost use Rattle.aat_face.specs.Tracking.{trak_in};
ghost use Rattle.aat_face.specs.Faces.{advances_in, face_of, face_of_tables, faults_of, feature_text, font_value, glyph_box_of, glyph_of_character, name_of, properties_in, setting_text, tables_in, vertical_advance_of, vertical_origin_of};

use crate::chains::{chains_in, layer_tables};
use crate::characters::Characters;
use crate::features::{feature_bytes, features_in};
use crate::kerning::{
    ankr_in, has_gpos_in, has_stat_in, kern_in, kern_parts, kerx_in, kerx_parts, with_kerning,
};
use crate::lists::{advance_lookup, property_lookup};
use crate::tables::{
    KerningTables, PointTables, SubstitutionTables, Tables, characters_in, classes_fault,
    classes_in, fault_in, long_metric_count_in, names_in,
};
use crate::text::{NameText, english_text};
use crate::tracking::trak_in;
use aat_bytes::{Fault, ReadError};
use aat_font::hb_font_t;
use aat_glyph::Tracking;
use aat_lookup::{GlyphId, Lookup};
use aat_read_lookup::{feature_name_id, setting_name_id};
use aat_read_metrics::{
    GlyphBox, Origin, em_in, found_in, glyph_box_in, glyph_count_in, number_in, row_metrics,
    units_per_em_in, vertical_advance_in, vertical_origin_in,
};
use aat_read_pairs::LeftOutSubtable;
use aat_read_sfnt::{FontFile, Names};
use std::alloc::{AllocError, Global};
use std::marker::Model;

/// A font of a file, with the list of its faults. A contract sees it as the record `FaceValue`.
///
/// Apple's TrueType Reference Manual, "The font directory".
#[derive(Drop)]
pub struct Face<'a> {
    file: FontFile<'a>,
    glyph_count: u16,
    units_per_em: u16,
    characters: Option<Characters<'a>>,
    names: Option<Names<'a>>,
    features: Option<&'a [u8]>,
    font: hb_font_t,
    tracking: Option<Tracking>,
    has_gpos: bool,
    has_stat: bool,
    faults: Vec<Fault>,
    left_out: Vec<LeftOutSubtable>,
    left_out_of_kern: Vec<LeftOutSubtable>,
}

impl<'a> Model for Face<'a> {
    ghost use Rattle.std.specs.Prelude.{option_copied};
    ghost use Rattle.aat_face.specs.Faces.{FaceValue, font_value};

    ghost Value = { FaceValue };

    ghost view = { λ m. record {
      directory = m.file;
      glyph_count = m.glyph_count;
      units_per_em = m.units_per_em;
      characters = m.characters;
      names = m.names;
      features = option_copied m.features;
      font = font_value m.font;
      tracking = m.tracking;
      has_gpos = m.has_gpos;
      has_stat = m.has_stat;
      faults = m.faults.items;
      left_out = m.left_out.items;
      left_out_of_kern = m.left_out_of_kern.items;
    } };
}

/// The features and the chains of a file whose font has so many glyphs.
fn substitution_in<'a>(
    alloc: Global,
    file: &FontFile<'a>,
    glyph_count: u16,
) -> Result<SubstitutionTables<'a>, AllocError>
    ensures feat { IfOk result (λ tables. tables.feat ≡ features_in file.now) }
    ensures morx { IfOk result (λ tables. tables.morx ≡ chains_in file.now glyph_count) }
{
    let feat = features_in(alloc, file)?;
    let morx = chains_in(alloc, file, glyph_count)?;
    Ok(SubstitutionTables { feat, morx })
}

/// The kerning of a file whose font has so many glyphs.
fn kerning_in(
    alloc: Global,
    file: &FontFile<'_>,
    glyph_count: u16,
) -> Result<KerningTables, AllocError>
    ensures kerx { IfOk result (λ tables. tables.kerx ≡ kerx_in file.now glyph_count) }
    ensures kern { IfOk result (λ tables. tables.kern ≡ kern_in file.now) }
{
    let kerx = kerx_in(alloc, file, glyph_count)?;
    let kern = kern_in(alloc, file)?;
    Ok(KerningTables { kerx, kern })
}

/// The anchor points and the tracking of a file whose font has so many glyphs.
fn points_in(
    alloc: Global,
    file: &FontFile<'_>,
    glyph_count: u16,
) -> Result<PointTables, AllocError>
    ensures ankr { IfOk result (λ tables. tables.ankr ≡ ankr_in file.now glyph_count) }
    ensures trak { IfOk result (λ tables. tables.trak ≡ trak_in file.now) }
{
    let trak = trak_in(alloc, file)?;
    let ankr = ankr_in(alloc, file, glyph_count)?;
    Ok(PointTables { ankr, trak })
}

/// The tables of a file.
fn tables_in<'a>(alloc: Global, file: &FontFile<'a>) -> Result<Tables<'a>, AllocError>
    ensures { IfOk result (λ tables. tables ≡ tables_in file.now) }
{
    let maxp = glyph_count_in(file);
    let glyph_count = number_in(&maxp);
    let points = points_in(alloc, file, glyph_count)?;
    let kerning = kerning_in(alloc, file, glyph_count)?;
    let substitution = substitution_in(alloc, file, glyph_count)?;
    Ok(Tables {
        maxp,
        head: units_per_em_in(file),
        hhea: long_metric_count_in(file),
        hmtx: row_metrics(file),
        units_per_em: em_in(file),
        glyph_count,
        cmap: characters_in(file),
        gdef: classes_in(file),
        name: names_in(file),
        feat: substitution.feat,
        morx: substitution.morx,
        kerx: kerning.kerx,
        kern: kerning.kern,
        ankr: points.ankr,
        trak: points.trak,
        has_gpos: has_gpos_in(file),
        has_stat: has_stat_in(file),
    })
}

/// The faults of tables in their order.
fn faults_of(alloc: Global, tables: &Tables<'_>) -> Result<Vec<Fault>, AllocError>
    ensures { IfOk result (λ faults. faults.items ≡ faults_of tables.now) }
{
    let faults = [
        fault_in(&tables.maxp),
        fault_in(&tables.head),
        fault_in(&tables.hhea),
        fault_in(&tables.cmap),
        classes_fault(&tables.gdef),
        fault_in(&tables.name),
        fault_in(&tables.feat),
        fault_in(&tables.morx),
        fault_in(&tables.kerx),
        fault_in(&tables.kern),
        fault_in(&tables.ankr),
        fault_in(&tables.trak),
    ];
    faults.iter().filter_map(|fault| *fault).collect(alloc)
}

/// The advances of glyphs: half an em where there is no long metric.
fn advances_of(alloc: Global, tables: &Tables<'_>) -> Result<Option<Lookup>, ReadError>
    ensures ok { IfOk result (λ advances. advances ≡ Some (advances_in tables.now)) }
    ensures refused { IfErr result (λ error. error ≡ errors.OutOfMemory) }
{
    let half = tables.units_per_em / 2;
    let advances = advance_lookup(alloc, &tables.hmtx, half, tables.glyph_count)?;
    Ok(Some(advances))
}

/// The property of marks, if the font has classes of glyphs.
fn properties_of(alloc: Global, tables: &Tables<'_>) -> Result<Option<Lookup>, ReadError>
    ensures ok { IfOk result (λ properties. properties ≡ properties_in tables.now) }
    ensures refused { IfErr result (λ error. error ≡ errors.OutOfMemory) }
{
    match &tables.gdef {
        Ok(Some(classes)) => {
            let properties = property_lookup(alloc, classes, tables.glyph_count)?;
            Ok(Some(properties))
        }
        _ => Ok(None),
    }
}

/// What takes memory of a face beside its tables.
#[derive(Drop)]
struct FaceLists {
    faults: Vec<Fault>,
    advances: Option<Lookup>,
    properties: Option<Lookup>,
}

/// The faults of tables, and the values of glyphs by them.
fn lists_of(alloc: Global, tables: &Tables<'_>) -> Result<FaceLists, ReadError>
    ensures faults { IfOk result (λ lists. lists.faults.items ≡ faults_of tables.now) }
    ensures advances { IfOk result (λ lists. lists.advances ≡ Some (advances_in tables.now)) }
    ensures properties { IfOk result (λ lists. lists.properties ≡ properties_in tables.now) }
    ensures refused { IfErr result (λ error. error ≡ errors.OutOfMemory) }
{
    let faults = faults_of(alloc, tables)?;
    let advances = advances_of(alloc, tables)?;
    let properties = properties_of(alloc, tables)?;
    Ok(FaceLists {
        faults,
        advances,
        properties,
    })
}

impl<'a> Face<'a> {
    /// The font of the tables of a directory, and of what takes memory beside them. Nothing fails here, so nothing of it is
    /// dropped on the way.
    fn of_tables(
        alloc: Global,
        file: FontFile<'a>,
        tables: Tables<'a>,
        lists: FaceLists,
    ) -> Face<'a>
        requires faults { lists.faults.items ≡ faults_of tables }
        requires advances { lists.advances ≡ Some (advances_in tables) }
        requires properties { lists.properties ≡ properties_in tables }
        ensures { result ≡ face_of_tables file.entry tables.entry }
    {
        let (kerx, left_out) = kerx_parts(alloc, tables.kerx);
        let (kern, left_out_of_kern) = kern_parts(alloc, tables.kern);
        let ankr = found_in(tables.ankr);
        Face {
            file,
            glyph_count: tables.glyph_count,
            units_per_em: tables.units_per_em,
            characters: match found_in(tables.cmap) {
                Some(map) => Some(Characters::of(map)),
                None => None,
            },
            names: found_in(tables.name),
            features: feature_bytes(&tables.feat),
            font: hb_font_t::new(
                with_kerning(layer_tables(tables.morx, tables.feat), kerx, kern, ankr),
                lists.properties,
                lists.advances,
            ),
            tracking: found_in(tables.trak),
            has_gpos: tables.has_gpos,
            has_stat: tables.has_stat,
            faults: lists.faults,
            left_out,
            left_out_of_kern,
        }
    }

    /// The font of a directory.
    fn of_file(alloc: Global, file: FontFile<'a>) -> Result<Face<'a>, ReadError>
        ensures ok { IfOk result (λ face. face ≡ face_of_tables file.entry (tables_in file.entry)) }
        ensures refused { IfErr result (λ error. error ≡ errors.OutOfMemory) }
    {
        let tables = tables_in(alloc, &file)?;
        let lists = lists_of(alloc, &tables)?;
        Ok(Face::of_tables(alloc, file, tables, lists))
    }

    /// The font at an index of a file. A file that is no collection has one font, at index 0.
    ///
    /// A table that reaches past the end of the file is cut there, as in HarfBuzz. A table that has a fault is not
    /// read, and the face lists its first fault; the other tables stand. But `GDEF` is read where its classes are of
    /// another format, or those of marks are cut short: no glyph has a class by these, and the face lists the fault. A
    /// table that is missing is no fault: without `maxp` the font has no glyphs, without `head` 1,000 units
    /// of the em, without `hmtx` or `hhea` advances of half an em, without `cmap` no characters, without `GDEF` no
    /// properties, without `feat` or `name` no names of features, without `morx` no chains, without `kerx`, `kern` or
    /// `ankr` no such tables, and without `trak` no tracking. `morx`, `kerx` and `ankr` are read as those of a font of
    /// so many glyphs as `maxp` has, and the subtables of `morx` reach as far as `read_morx` says.
    ///
    /// Refused as the fault of the directory that `FontFile::read` tells, and as `OutOfMemory` only where the
    /// directory has no fault; `OutOfMemory` says nothing of the faults of tables.
    pub fn read(alloc: Global, file: &'a [u8], index: u32) -> Result<Face<'a>, ReadError>
        ensures { Gives result (face_of file.now index) }
    {
        let directory = FontFile::read(file, index)?;
        Face::of_file(alloc, directory)
    }

    /// The number of glyphs, 0 where the table `maxp` is missing or has a fault.
    pub fn glyph_count(&self) -> u16
        ensures { result ≡ self.now.glyph_count }
    {
        self.glyph_count
    }

    /// The units of the em, from 16 to 16,384: 1,000 where the table `head` is missing or has a fault.
    pub fn units_per_em(&self) -> u16
        ensures { result ≡ self.now.units_per_em }
    {
        self.units_per_em
    }

    /// The box of a glyph, in units of the font, as its data has it by the tables `glyf` and `loca`: moved so that its
    /// left edge is the left bearing of `hmtx`, as HarfBuzz moves it. A glyph without contours has an empty box, and so
    /// has one whose data is not there. `None` where the font has no data of glyphs, as with outlines of `CFF`, and
    /// past the last glyph of `maxp` or of `loca`.
    ///
    /// Apple's TrueType Reference Manual, "The 'glyf' table".
    pub fn glyph_box(&self, glyph: u16) -> Option<GlyphBox>
        ensures { result ≡ glyph_box_of self.now glyph }
    {
        glyph_box_in(&self.file, glyph)
    }

    /// Where the origin of a glyph in a column lies, in units of the font, seen from its origin in a row.
    ///
    /// It lies at half the advance along rows. Its height is that of the table `VORG`. Without it, and with `vmtx` and
    /// `loca`, it is the top of the glyph and its bearing in `vmtx`. Else the box of the glyph is put in the middle
    /// between the font's ascender and descender; without a box the height is the ascender.
    ///
    /// OpenType specification, "VORG - Vertical Origin Table" and "vmtx - Vertical Metrics Table".
    pub fn vertical_origin(&self, glyph: u16) -> Origin
        ensures { result ≡ vertical_origin_of self.now glyph }
    {
        vertical_origin_in(&self.file, glyph)
    }

    /// How far down the pen moves at a glyph in a column, in units of the font: its advance in `vmtx`, and without long
    /// metrics there the way from the font's ascender to its descender. HarfBuzz's advance in y is 0 less this.
    ///
    /// OpenType specification, "vmtx - Vertical Metrics Table".
    pub fn vertical_advance(&self, glyph: u16) -> u32
        ensures { result ≡ vertical_advance_of self.now glyph }
    {
        vertical_advance_in(&self.file, glyph)
    }

    /// The glyph of a character, if the font has one that is not 0.
    pub fn glyph_of(&self, character: char) -> Option<GlyphId>
        ensures { result ≡ glyph_of_character self.now character }
    {
        match &self.characters {
            Some(characters) => match characters.glyph(character) {
                Some(glyph) => Some(GlyphId(glyph)),
                None => None,
            },
            None => None,
        }
    }

    /// The English text of a name by its number, as the table `feat` has it of a feature or a setting. The text of
    /// platform 3, encoding 1 and language 0x409 is taken, else that of platform 1, encoding 0 and language 0.
    pub fn name(&self, name: u16) -> Option<NameText<'a>>
        ensures { result ≡ name_of self.now name }
    {
        match &self.names {
            Some(names) => english_text(names, name),
            None => None,
        }
    }

    /// The English text of the name of a feature type, if the font has one.
    pub fn feature_name(&self, kind: u16) -> Option<NameText<'a>>
        ensures { result ≡ feature_text self.now kind }
    {
        let bytes = self.features?;
        match feature_name_id(bytes, kind) {
            Some(name) => self.name(name),
            None => None,
        }
    }

    /// The English text of the name of a setting of a feature type, if the font has one.
    pub fn setting_name(&self, kind: u16, setting: u16) -> Option<NameText<'a>>
        ensures { result ≡ setting_text self.now kind setting }
    {
        let bytes = self.features?;
        match setting_name_id(bytes, kind, setting) {
            Some(name) => self.name(name),
            None => None,
        }
    }

    /// The font for the layer, with the tables `morx`, `kerx`, `kern`, `feat` and `ankr` where they are read, the advances
    /// of its glyphs in units of the font, and the property of marks (8), but none of other classes, since HarfBuzz's
    /// kerning skips marks alone. `Shaper` kerns by `kerx`, and by `kern` where there is no `kerx`.
    pub fn font(&self) -> &hb_font_t
        ensures { font_value result.now ≡ self.now.font }
    {
        &self.font
    }

    /// The font for the layer, without what it was read from.
    pub fn into_font(self) -> hb_font_t
        ensures { font_value result ≡ self.entry.font }
    {
        self.font
    }

    /// Lets go of the face.
    pub fn let_go(self) {}

    /// The table `trak`, if it is there and has no fault: how much wider or tighter a text is set at a point size.
    /// `with_tracking` of `Shaper` takes it; the font of the layer does not have it.
    ///
    /// Apple's TrueType Reference Manual, "The 'trak' table".
    pub fn tracking(&self) -> Option<&Tracking>
        ensures { option_copied result ≡ self.now.tracking }
    {
        self.tracking.as_ref()
    }

    /// Whether the file has the whole table `GPOS`, another layer's. Without `kerx` HarfBuzz kerns by its feature `kern`,
    /// and only without that by the table `kern`, as `Shaper` does in any case.
    pub fn has_gpos(&self) -> bool
        ensures { result ≡ self.now.has_gpos }
    {
        self.has_gpos
    }

    /// Whether the file has the whole table `STAT`. HarfBuzz's tracking is for a font that has `STAT`.
    pub fn has_stat(&self) -> bool
        ensures { result ≡ self.now.has_stat }
    {
        self.has_stat
    }

    /// The faults of tables, at most one of each, in the order `maxp`, `head`, `hhea`, `cmap`, `GDEF`, `name`, `feat`,
    /// `morx`, `kerx`, `kern`, `ankr`, `trak`.
    pub fn faults(&self) -> &[Fault]
        ensures { result.now ≡ self.now.faults }
    {
        &self.faults
    }

    /// The subtables of `kerx` that are left out, in their order, since the layer has nothing for them: those of
    /// variations are among these.
    pub fn left_out(&self) -> &[LeftOutSubtable]
        ensures { result.now ≡ self.now.left_out }
    {
        &self.left_out
    }

    /// The subtables of `kern` that are left out, in their order, since their format is none that is read, or they are
    /// of variations.
    pub fn left_out_of_kern(&self) -> &[LeftOutSubtable]
        ensures { result.now ≡ self.now.left_out_of_kern }
    {
        &self.left_out_of_kern
    }
}
