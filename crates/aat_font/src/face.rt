//! A font: its optional tables, and the classes and advances of its glyphs.
ghost use Rattle.std.specs.Prelude.{◌≡◌, ◌≤◌, None, Some, length};
ghost use Rattle.aat_machine_tables.specs.Chains.{subtable_count};
ghost use Rattle.aat_font.specs.Face.{chains_in, kerx_in, kern_in};
ghost use Rattle.aat_font.specs.Face.{tables_of, glyph_classes_of, advances_of, has_classes, props_of, advance_of};
ghost use Rattle.aat_font.specs.Face.{value_or_zero};

use crate::morx::Morx;
use aat_kerning_tables::{Ankr, Kern, KernSubtable, Kerx, KerxSubtable};
use aat_lookup::{Feat, GlyphId, Lookup};
use aat_machine_tables::Chain;

/// The tables of a font, each of which may be missing. By default all are.
#[derive(Drop, Default)]
pub struct FaceTables {
    pub morx: Option<Morx>,
    pub kerx: Option<Kerx>,
    pub kern: Option<Kern>,
    pub feat: Option<Feat>,
    pub ankr: Option<Ankr>,
}

impl FaceTables {
    /// The same tables with this extended glyph metamorphosis table.
    pub fn with_morx(self, morx: Morx) -> FaceTables
        ensures { result ≡ record self { morx = Some morx } }
    {
        FaceTables {
            morx: Some(morx),
            ..self
        }
    }

    /// The same tables with this extended kerning table.
    pub fn with_kerx(self, kerx: Kerx) -> FaceTables
        ensures { result ≡ record self { kerx = Some kerx } }
    {
        FaceTables {
            kerx: Some(kerx),
            ..self
        }
    }

    /// The same tables with this kerning table.
    pub fn with_kern(self, kern: Kern) -> FaceTables
        ensures { result ≡ record self { kern = Some kern } }
    {
        FaceTables {
            kern: Some(kern),
            ..self
        }
    }

    /// The same tables with this feature name table.
    pub fn with_feat(self, feat: Feat) -> FaceTables
        ensures { result ≡ record self { feat = Some feat } }
    {
        FaceTables {
            feat: Some(feat),
            ..self
        }
    }

    /// The same tables with this anchor point table.
    pub fn with_ankr(self, ankr: Ankr) -> FaceTables
        ensures { result ≡ record self { ankr = Some ankr } }
    {
        FaceTables {
            ankr: Some(ankr),
            ..self
        }
    }
}

/// A font.
#[derive(Drop)]
pub struct hb_font_t {
    tables: FaceTables,
    glyph_classes: Option<Lookup>,
    advances: Option<Lookup>,
}

impl hb_font_t {
    /// Makes a font of its tables, a lookup of the properties of its glyphs, which their classes
    /// give, and one of their advances in font units. Each may be missing. Takes no memory.
    pub fn new(
        tables: FaceTables,
        glyph_classes: Option<Lookup>,
        advances: Option<Lookup>,
    ) -> hb_font_t
        ensures tables { tables_of result ≡ tables }
        ensures glyph_classes { glyph_classes_of result ≡ glyph_classes }
        ensures advances { advances_of result ≡ advances }
    {
        hb_font_t {
            tables,
            glyph_classes,
            advances,
        }
    }

    /// A font of these tables, without classes and advances of its glyphs.
    pub fn from_tables(tables: FaceTables) -> hb_font_t
        ensures tables { tables_of result ≡ tables }
        ensures glyph_classes { glyph_classes_of result ≡ None }
        ensures advances { advances_of result ≡ None }
    {
        hb_font_t::new(tables, None, None)
    }

    /// The same font with this kerning table.
    pub fn with_kern(self, kern: Kern) -> hb_font_t
        ensures tables { tables_of result ≡ record (tables_of self) { kern = Some kern } }
        ensures glyph_classes { glyph_classes_of result ≡ glyph_classes_of self }
        ensures advances { advances_of result ≡ advances_of self }
    {
        hb_font_t {
            tables: self.tables.with_kern(kern),
            ..self
        }
    }

    /// The same font with this extended kerning table.
    pub fn with_kerx(self, kerx: Kerx) -> hb_font_t
        ensures tables { tables_of result ≡ record (tables_of self) { kerx = Some kerx } }
        ensures glyph_classes { glyph_classes_of result ≡ glyph_classes_of self }
        ensures advances { advances_of result ≡ advances_of self }
    {
        hb_font_t {
            tables: self.tables.with_kerx(kerx),
            ..self
        }
    }

    /// The same font with this table of anchor points.
    pub fn with_ankr(self, ankr: Ankr) -> hb_font_t
        ensures tables { tables_of result ≡ record (tables_of self) { ankr = Some ankr } }
        ensures glyph_classes { glyph_classes_of result ≡ glyph_classes_of self }
        ensures advances { advances_of result ≡ advances_of self }
    {
        hb_font_t {
            tables: self.tables.with_ankr(ankr),
            ..self
        }
    }

    /// The font's optional tables.
    pub fn tables(&self) -> &FaceTables
        ensures { result.now ≡ tables_of self.now }
    {
        &self.tables
    }

    /// The chains of the font's extended glyph metamorphosis table, none where it has no such table.
    pub fn chains(&self) -> &[Chain]
        ensures listed { result.now ≡ chains_in (tables_of self.now).morx }
        ensures few { subtable_count result.now ≤ 65535 }
    {
        match &self.tables.morx {
            Some(morx) => morx.chains(),
            None => &[],
        }
    }

    /// The subtables of the font's extended kerning table, none where it has no such table.
    pub fn kerx_subtables(&self) -> &[KerxSubtable]
        ensures listed { result.now ≡ kerx_in (tables_of self.now).kerx }
        ensures few { length result.now ≤ 65535 }
    {
        match &self.tables.kerx {
            Some(kerx) => kerx.subtables(),
            None => &[],
        }
    }

    /// The subtables of the font's kerning table, none where it has no such table.
    pub fn kern_subtables(&self) -> &[KernSubtable]
        ensures listed { result.now ≡ kern_in (tables_of self.now).kern }
        ensures few { length result.now ≤ 65535 }
    {
        match &self.tables.kern {
            Some(kern) => kern.subtables(),
            None => &[],
        }
    }

    /// Whether the font has classes of glyphs.
    pub fn has_glyph_classes(&self) -> bool
        ensures { result ≡ has_classes self.now }
    {
        self.glyph_classes.is_some()
    }

    /// The properties of a glyph, 0 where the font has none for it.
    pub fn glyph_props(&self, glyph: GlyphId) -> u16
        ensures { result ≡ props_of self.now glyph.0 }
    {
        value_or_zero(&self.glyph_classes, glyph)
    }

    /// The advance of a glyph in font units, 0 where the font has none for it.
    pub fn glyph_advance(&self, glyph: GlyphId) -> u16
        ensures { result ≡ advance_of self.now glyph.0 }
    {
        value_or_zero(&self.advances, glyph)
    }
}

/// The value of a glyph in a lookup that may be missing, 0 where there is none.
fn value_or_zero(lookup: &Option<Lookup>, glyph: GlyphId) -> u16
    ensures { result ≡ value_or_zero lookup.now glyph.0 }
{
    match lookup {
        Some(lookup) => lookup.value(glyph).unwrap_or(0),
        None => 0,
    }
}
