//! The chains of `morx`.

use crate::finding::{Finding, Place};
use crate::morx_bytes::check_morx_bytes;
use crate::names::check_settings;
use crate::subtables::{Asked, check_subtable};
use aat_bytes::tags::MORX;
use aat_findings::unset_subtables;
use aat_font::hb_font_t;
use aat_machine_tables::Chain;
use aat_read_sfnt::FontFile;
use std::alloc::{AllocError, Global};

/// Adds what is found in the subtables of a chain.
fn check_subtables(
    alloc: Global,
    chain: &Chain,
    of_chain: Place,
    glyph_count: u32,
    found: &mut Vec<Finding>,
) -> Result<(), AllocError> {
    let unset = unset_subtables(alloc, chain)?;
    for (number, subtable) in chain.subtables.iter().enumerate() {
        let place = Place {
            subtable: Some(number),
            ..of_chain
        };
        let asked = Asked {
            place,
            glyph_count,
            is_never_on: unset.contains(&number),
        };
        check_subtable(alloc, subtable, asked, found)?;
    }
    Ok(())
}

/// Adds what is found in the chains of a font, and in their bytes.
pub(crate) fn check_chains(
    alloc: Global,
    file: &FontFile<'_>,
    font: &hb_font_t,
    glyph_count: u32,
    found: &mut Vec<Finding>,
) -> Result<(), AllocError> {
    let feat = font.tables().feat.as_ref();
    for (number, chain) in font.chains().iter().enumerate() {
        let place = Place {
            chain: Some(number),
            ..Place::of_table(MORX)
        };
        check_settings(alloc, feat, chain, place, found)?;
        check_subtables(alloc, chain, place, glyph_count, found)?;
    }
    match file.table(MORX) {
        Ok(bytes) => check_morx_bytes(alloc, bytes, font.chains(), glyph_count, found),
        Err(_) => Ok(()),
    }
}
