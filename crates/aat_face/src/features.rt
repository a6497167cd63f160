//! The table `feat` with its bytes, where the numbers of names stand.
ghost use Rattle.std.specs.Prelude.{◌≡◌, Some, IfOk, option_copied};
ghost use Rattle.aat_face.specs.Features.{feature_bytes, feature_table_of, feature_tables, features_in, tables_with};
ghost use Rattle.aat_read_metrics.specs.Tables.{read_if_found};

use aat_bytes::{Fault, ReadError};
use aat_font::FaceTables;
use aat_lookup::Feat;
use aat_read_lookup::{FEAT, read_feat};
use aat_read_metrics::{found_in, optional_table};
use aat_read_sfnt::FontFile;
use std::alloc::{AllocError, Global};
use std::marker::Model;

/// The table `feat` with its bytes. A contract sees it as the record `FeatureTable`.
///
/// Apple's TrueType Reference Manual, "The 'feat' table".
#[derive(Drop)]
pub struct Features<'a> {
    table: Feat,
    bytes: &'a [u8],
}

impl<'a> Model for Features<'a> {
    ghost use Rattle.aat_face.specs.Features.{FeatureTable};

    ghost Value = { FeatureTable };

    ghost view = { λ m. record { names = m.table; bytes = m.bytes.now } };
}

impl<'a> Features<'a> {
    /// The bytes of the table.
    fn bytes(&self) -> &'a [u8]
        ensures { result.now ≡ self.now.bytes }
    {
        self.bytes
    }

    /// The tables for the layer, which are this one alone.
    fn into_tables(self) -> FaceTables
        ensures { result ≡ tables_with (Some self.entry.names) }
    {
        FaceTables::default().with_feat(self.table)
    }
}

/// What is read of the bytes of the table `feat`.
fn read_features(
    alloc: Global,
    bytes: &[u8],
) -> Result<Result<Option<Features<'_>>, Fault>, AllocError>
    ensures { IfOk result (λ features. features ≡ read_if_found feature_table_of (Some bytes.now)) }
{
    match read_feat(alloc, bytes) {
        Ok(table) => Ok(Ok(Some(Features { table, bytes }))),
        Err(ReadError::Fault(fault)) => Ok(Err(fault)),
        Err(ReadError::OutOfMemory) => Err(AllocError),
    }
}

/// The features of the table `feat`.
pub fn features_in<'a>(
    alloc: Global,
    file: &FontFile<'a>,
) -> Result<Result<Option<Features<'a>>, Fault>, AllocError>
    ensures { IfOk result (λ features. features ≡ features_in file.now) }
{
    match optional_table(file, FEAT) {
        Ok(Some(bytes)) => read_features(alloc, bytes),
        Ok(None) => Ok(Ok(None)),
        Err(fault) => Ok(Err(fault)),
    }
}

/// The bytes of the features that are read.
pub fn feature_bytes<'a>(reading: &Result<Option<Features<'a>>, Fault>) -> Option<&'a [u8]>
    ensures { option_copied result ≡ feature_bytes reading.now }
{
    match reading {
        Ok(Some(features)) => Some(features.bytes()),
        _ => None,
    }
}

/// The tables for the layer with the features that are read alone.
pub fn feature_tables(reading: Result<Option<Features<'_>>, Fault>) -> FaceTables
    ensures { result ≡ feature_tables reading.entry }
{
    match found_in(reading) {
        Some(features) => features.into_tables(),
        None => FaceTables::default(),
    }
}
