//! The table `morx` as its chains.
ghost use Rattle.std.specs.Prelude.{◌≡◌, None, Some, IfOk, option_map};
ghost use Rattle.aat_read_extended.specs.morx.Chains.{values_of_morx};
ghost use Rattle.aat_face.specs.Chains.{chain_values_of, chains_in};
ghost use Rattle.aat_face.specs.Features.{feature_tables};
ghost use Rattle.aat_read_metrics.specs.Tables.{found_in, read_if_found};

use crate::features::{Features, feature_tables};
use aat_bytes::{Fault, ReadError};
use aat_font::{FaceTables, Morx};
use aat_read_extended::read_morx;
use aat_read_machine::MORX;
use aat_read_metrics::{found_in, optional_table};
use aat_read_sfnt::FontFile;
use std::alloc::{AllocError, Global};
use std::marker::Model;

/// The table `morx`. A contract sees it as the list of what its chains hold.
///
/// Apple's TrueType Reference Manual, "The 'morx' table".
#[derive(Drop)]
pub struct Chains {
    table: Morx,
}

impl Model for Chains {
    ghost use Rattle.std.specs.Prelude.{List};
    ghost use Rattle.aat_read_extended.specs.morx.Chains.{ChainValue, values_of_morx};

    ghost Value = { List ChainValue };

    ghost view = { λ m. values_of_morx m.table };
}

impl Chains {
    /// The table for the layer.
    fn into_table(self) -> Morx
        ensures { values_of_morx result ≡ self }
    {
        self.table
    }
}

/// What is read of the bytes of the table `morx` of a font of so many glyphs.
fn read_chains(
    alloc: Global,
    bytes: &[u8],
    glyph_count: u16,
) -> Result<Result<Option<Chains>, Fault>, AllocError>
    ensures { IfOk result (λ chains. chains ≡ read_if_found (chain_values_of glyph_count) (Some bytes.now)) }
{
    match read_morx(alloc, bytes, glyph_count) {
        Ok(table) => Ok(Ok(Some(Chains { table }))),
        Err(ReadError::Fault(fault)) => Ok(Err(fault)),
        Err(ReadError::OutOfMemory) => Err(AllocError),
    }
}

/// The chains of the table `morx` of a font of so many glyphs.
pub fn chains_in(
    alloc: Global,
    file: &FontFile<'_>,
    glyph_count: u16,
) -> Result<Result<Option<Chains>, Fault>, AllocError>
    ensures { IfOk result (λ chains. chains ≡ chains_in file.now glyph_count) }
{
    match optional_table(file, MORX) {
        Ok(Some(bytes)) => read_chains(alloc, bytes, glyph_count),
        Ok(None) => Ok(Ok(None)),
        Err(fault) => Ok(Err(fault)),
    }
}

/// The tables for the layer: the chains and the features that are read, and no other.
pub fn layer_tables(
    chains: Result<Option<Chains>, Fault>,
    features: Result<Option<Features<'_>>, Fault>,
) -> FaceTables
    ensures morx { option_map values_of_morx result.morx ≡ found_in chains }
    ensures others { record result { morx = None } ≡ feature_tables features.entry }
{
    let tables = feature_tables(features);
    match found_in(chains) {
        Some(chains) => tables.with_morx(chains.into_table()),
        None => tables,
    }
}
