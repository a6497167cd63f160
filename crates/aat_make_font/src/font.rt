//! The file of a font.

use crate::characters::Characters;
use crate::features::{NumberedFeature, feat};
use crate::glyphs::{Glyph, counted};
use crate::known::{ByGlyph, Known};
use crate::outlines::Raw;
use crate::values::{Members, Told, list, maybe, members, need, object};
use aat_bytes::Tag;
use aat_font::Morx;
use aat_glyph::Tracking;
use aat_kerning_tables::{Ankr, Kern, KernSubtable, Kerx, KerxSubtable, Point};
use aat_machine_tables::Chain;
use aat_read_extended::ANKR;
use aat_read_lookup::FEAT;
use aat_read_machine::MORX;
use aat_read_metrics::TRAK;
use aat_read_outlines::tags::{GLYF, LOCA};
use aat_read_pairs::{KERN, KERX};
use aat_read_sfnt::tags::{CMAP, GDEF, HEAD, HHEA, HMTX, MAXP, NAME};
use aat_write_kerx::{write_ankr, write_kerx};
use aat_write_machine::{append_longs, append_words, write_morx};
use aat_write_sfnt::{
    EnglishName, FontTable, write_cmap, write_font, write_gdef, write_head, write_hhea, write_maxp,
    write_name, write_trak,
};
use aat_write_truetype::write_kern;
use anyhow::{Context, Result};
use serde_json::Value;
use std::alloc::Global;
use std::collections::BTreeMap;

/// The keys of a description.
const KEYS: &str =
    "comment units_per_em glyphs characters names features morx kerx kern ankr trak tables";

/// The tables of a font, by their tags.
type Tables = BTreeMap<Tag, Vec<u8>>;

/// The bytes of `head` that tell that the offsets in `loca` have 32 bits.
fn long_head(known: &Known, units_per_em: u16) -> Result<Vec<u8>> {
    let mut head = write_head(known.alloc, units_per_em)?;
    head.truncate(50);
    append_words(&mut head, &[1, 0])?;
    Ok(head)
}

/// Adds a table, if there is one.
fn put(tables: &mut Tables, tag: Tag, bytes: Option<Vec<u8>>) -> Result<()> {
    if let Some(bytes) = bytes {
        tables.insert(tag, bytes)?;
    }
    Ok(())
}

/// The bytes of `glyf`: the data of the glyphs, one behind the other.
fn glyf_table(known: &Known, glyphs: &[Glyph]) -> Result<Vec<u8>> {
    let mut glyf = Vec::new(known.alloc);
    for glyph in glyphs {
        if let Some(data) = &glyph.data {
            glyf.extend_from_slice(data)?;
        }
    }
    Ok(glyf)
}

/// The bytes of `loca`: where the data of each glyph ends, behind the start of the first.
fn loca_table(known: &Known, glyphs: &[Glyph]) -> Result<Vec<u8>> {
    let mut loca = vec![in known.alloc; 0; 4]?;
    let mut end = 0usize;
    for glyph in glyphs {
        end = end.saturating_add(glyph.data.as_ref().map_or(0, |data| data.len()));
        let end = u32::try_from(end).context("glyf is too long")?;
        append_longs(&mut loca, &[end])?;
    }
    Ok(loca)
}

/// Adds the outlines of glyphs, if any has one.
fn add_outlines(known: &Known, tables: &mut Tables, units: u16, glyphs: &[Glyph]) -> Result<()> {
    if !glyphs.iter().any(|glyph| glyph.data.is_some()) {
        return Ok(());
    }
    put(tables, GLYF, Some(glyf_table(known, glyphs)?))?;
    put(tables, LOCA, Some(loca_table(known, glyphs)?))?;
    put(tables, HEAD, Some(long_head(known, units)?))
}

/// The bytes of `hmtx`.
fn hmtx_table(known: &Known, glyphs: &[Glyph]) -> Result<Vec<u8>> {
    let mut metrics = Vec::new(known.alloc);
    for glyph in glyphs {
        let metric = [glyph.advance, glyph.bearing.cast_unsigned()];
        append_words(&mut metrics, &metric)?;
    }
    Ok(metrics)
}

/// The bytes of `GDEF`, if a glyph has a class.
fn gdef_table(known: &Known, glyphs: &[Glyph]) -> Result<Option<Vec<u8>>> {
    if glyphs.iter().all(|glyph| glyph.class == 0) {
        return Ok(None);
    }
    let mut classes = Vec::new(known.alloc);
    for glyph in glyphs {
        classes.push(glyph.class)?;
    }
    Ok(Some(write_gdef(known.alloc, &classes)?))
}

/// Adds the headers, the metrics and the classes of glyphs.
fn add_metrics(known: &Known, tables: &mut Tables, units: u16, glyphs: &[Glyph]) -> Result<()> {
    let count = u16::try_from(glyphs.len()).context("there are too many glyphs")?;
    put(tables, HEAD, Some(write_head(known.alloc, units)?))?;
    put(tables, HHEA, Some(write_hhea(known.alloc, count)?))?;
    put(tables, HMTX, Some(hmtx_table(known, glyphs)?))?;
    put(tables, MAXP, Some(write_maxp(known.alloc, count)?))?;
    put(tables, GDEF, gdef_table(known, glyphs)?)
}

/// Adds what tells of the glyphs, whose names are known from then on.
fn add_glyphs(known: &mut Known, tables: &mut Tables, description: &Members) -> Result<()> {
    let units = need(known, description, "units_per_em")?;
    let told: Vec<Glyph> = need(known, description, "glyphs")?;
    let glyphs = counted(known.alloc, told)?;
    add_metrics(known, tables, units, &glyphs)?;
    add_outlines(known, tables, units, &glyphs)?;
    for glyph in glyphs {
        known.glyphs.push(glyph.name)?;
    }
    if let Some(characters) = maybe::<Characters>(known, description, "characters")? {
        tables.insert(CMAP, write_cmap(known.alloc, &characters.0)?)?;
    }
    Ok(())
}

/// The bytes of `name`.
fn name_table(known: &Known) -> Result<Vec<u8>> {
    let mut names = Vec::new(known.alloc);
    for (name, text) in &known.names {
        names.push(EnglishName { name: *name, text })?;
    }
    Ok(write_name(known.alloc, &names)?)
}

/// Takes in the names of the font.
fn add_names(known: &mut Known, description: &Members) -> Result<()> {
    for (number, text) in list::<(u16, String)>(known, description, "names")? {
        known.put_name(number, text.as_str())?;
    }
    Ok(())
}

/// The bytes of `feat`, if the description tells of it.
fn feat_table(known: &mut Known, description: &Members) -> Result<Option<Vec<u8>>> {
    match maybe::<Vec<NumberedFeature>>(known, description, "features")? {
        Some(features) => Ok(Some(feat(known, &features)?)),
        None => Ok(None),
    }
}

/// The bytes of `trak`, if the description tells of it.
fn trak_table(known: &mut Known, description: &Members) -> Result<Option<Vec<u8>>> {
    match maybe::<Tracking>(known, description, "trak")? {
        Some(tracking) => Ok(Some(write_trak(known.alloc, &tracking)?)),
        None => Ok(None),
    }
}

/// Adds the tables that have names, and the names: those of the font, of features and of tracks.
fn add_named(known: &mut Known, tables: &mut Tables, description: &Members) -> Result<()> {
    add_names(known, description)?;
    put(tables, FEAT, feat_table(known, description)?)?;
    put(tables, TRAK, trak_table(known, description)?)?;
    if !known.names.is_empty() {
        tables.insert(NAME, name_table(known)?)?;
    }
    Ok(())
}

/// The bytes of `morx`, if the description tells of it.
fn morx_table(known: &mut Known, description: &Members) -> Result<Option<Vec<u8>>> {
    match maybe::<Vec<Chain>>(known, description, "morx")? {
        Some(chains) => {
            let bytes = write_morx(known.alloc, &Morx::new(chains)?).context("morx")?;
            Ok(Some(bytes))
        }
        None => Ok(None),
    }
}

/// The bytes of `kerx`, if the description tells of it.
fn kerx_table(known: &mut Known, description: &Members) -> Result<Option<Vec<u8>>> {
    match maybe::<Vec<KerxSubtable>>(known, description, "kerx")? {
        Some(subtables) => {
            let bytes = write_kerx(known.alloc, &Kerx::new(subtables)?).context("kerx")?;
            Ok(Some(bytes))
        }
        None => Ok(None),
    }
}

/// The bytes of `kern`, if the description tells of it.
fn kern_table(known: &mut Known, description: &Members) -> Result<Option<Vec<u8>>> {
    match maybe::<Vec<KernSubtable>>(known, description, "kern")? {
        Some(subtables) => {
            let bytes = write_kern(known.alloc, &Kern::new(subtables)?).context("kern")?;
            Ok(Some(bytes))
        }
        None => Ok(None),
    }
}

/// The bytes of `ankr`, if the description tells of it.
fn ankr_table(known: &mut Known, description: &Members) -> Result<Option<Vec<u8>>> {
    match maybe::<ByGlyph<Vec<Point>>>(known, description, "ankr")? {
        Some(rows) => {
            let bytes = write_ankr(known.alloc, &Ankr::new(rows.0)?).context("ankr")?;
            Ok(Some(bytes))
        }
        None => Ok(None),
    }
}

/// Adds the tables that shape.
fn add_shaping(known: &mut Known, tables: &mut Tables, description: &Members) -> Result<()> {
    put(tables, MORX, morx_table(known, description)?)?;
    put(tables, KERX, kerx_table(known, description)?)?;
    put(tables, KERN, kern_table(known, description)?)?;
    put(tables, ANKR, ankr_table(known, description)?)
}

/// Puts in tables that are told as numbers, in place of what is there.
fn add_raw(known: &mut Known, tables: &mut Tables, value: &Value) -> Result<()> {
    for (key, value) in object(value)? {
        let tag = <&[u8; 4]>::try_from(key.as_bytes()).context("a tag of four letters is wanted")?;
        tables.insert(
            Tag::from_bytes(tag),
            Raw::of(known, value).context(format_args!("{key}"))?.0,
        )?;
    }
    Ok(())
}

/// The tables that a description tells of.
fn tables_of(known: &mut Known, description: &Members) -> Result<Tables> {
    let mut tables = BTreeMap::new(known.alloc);
    add_glyphs(known, &mut tables, description)?;
    add_named(known, &mut tables, description)?;
    add_shaping(known, &mut tables, description)?;
    if let Some(raw) = description.get("tables") {
        add_raw(known, &mut tables, raw).context("tables")?;
    }
    Ok(tables)
}

/// The file of these tables.
fn file_of(alloc: Global, tables: &Tables) -> Result<Vec<u8>> {
    let mut views = Vec::new(alloc);
    for (tag, bytes) in tables {
        views.push(FontTable { tag: *tag, bytes })?;
    }
    Ok(write_font(alloc, &views)?)
}

/// The file of the font that a text in JSON describes. A table that the description does not tell of is not there.
///
/// An error has the way to what is wrong: the keys, and the places in lists, from 0 on.
pub fn make_font(alloc: Global, text: &str) -> Result<Vec<u8>> {
    let value = Value::from_str(alloc, text)?;
    let mut known = Known::new(alloc);
    let tables = tables_of(&mut known, members(&value, KEYS)?)?;
    file_of(alloc, &tables)
}
