//! Making the fonts.

use crate::described::data::{ChainData, FontData, Value};
use crate::described::kerning::{ankr_of, kern_of, kerx_of};
use crate::described::kinds::{push, subtables_of};
use aat_font::{FaceTables, Morx, hb_font_t};
use aat_lookup::{Feat, FeatureName, Lookup, TableError};
use aat_machine_tables::Chain;
use std::alloc::Global;

/// The chain of a description.
fn chain_of(alloc: Global, chain: &ChainData) -> Result<Chain, TableError> {
    let features = Vec::from_slice(alloc, chain.features)?;
    Ok(Chain {
        default_flags: chain.default_flags,
        subtables: subtables_of(alloc, chain.subtables)?,
        features,
    })
}

/// Chains in their order.
fn chains_of(alloc: Global, chains: &[ChainData]) -> Result<Vec<Chain>, TableError> {
    let mut made = Vec::new(alloc);
    for chain in chains {
        push(&mut made, chain_of(alloc, chain)?)?;
    }
    Ok(made)
}

/// The extended glyph metamorphosis table, if there is one.
fn morx_of(alloc: Global, chains: Option<&[ChainData]>) -> Result<Option<Morx>, TableError> {
    match chains {
        Some(chains) => Ok(Some(Morx::new(chains_of(alloc, chains)?)?)),
        None => Ok(None),
    }
}

/// The table of feature names, if there is one.
fn feat_of(alloc: Global, names: Option<&[FeatureName]>) -> Result<Option<Feat>, TableError> {
    match names {
        Some(names) => Ok(Some(Feat::new(alloc, names)?)),
        None => Ok(None),
    }
}

/// A lookup, if there is one.
fn lookup_of(alloc: Global, values: Option<&[Value]>) -> Result<Option<Lookup>, TableError> {
    match values {
        Some(values) => Ok(Some(Lookup::new(alloc, values)?)),
        None => Ok(None),
    }
}

/// The tables of a description.
fn tables_of(alloc: Global, font: &FontData) -> Result<FaceTables, TableError> {
    let feat = feat_of(alloc, font.names)?;
    let ankr = ankr_of(alloc, font.points)?;
    let kern = kern_of(alloc, &font.kern)?;
    let kerx = kerx_of(alloc, &font.kerx)?;
    let morx = morx_of(alloc, font.chains)?;
    Ok(FaceTables {
        morx,
        kerx,
        kern,
        feat,
        ankr,
    })
}

/// The font of a description. Refused as its tables are.
pub fn font_of(alloc: Global, font: &FontData) -> Result<hb_font_t, TableError> {
    let glyph_classes = lookup_of(alloc, font.glyph_classes)?;
    let advances = lookup_of(alloc, font.advances)?;
    let tables = tables_of(alloc, font)?;
    Ok(hb_font_t::new(tables, glyph_classes, advances))
}

/// Drops a font. A crate that drops its fonts by this need not prove how.
pub fn drop_font(font: hb_font_t) {
    drop(font);
}
