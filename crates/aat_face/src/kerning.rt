//! The tables of kerning: `kerx`, `kern` and `ankr`.
ghost use Rattle.std.specs.Prelude.{◌≡◌, Some, IfOk, option_map};
ghost use Rattle.aat_read_kern.specs.Kern.{kern_of};
ghost use Rattle.aat_face.specs.Kerning.{ankr_in, ankr_values_of, has_gpos_in, has_stat_in, kern_in, kerx_in, kerx_values_of, left_out_of, left_out_of_kern};
ghost use Rattle.aat_read_metrics.specs.Tables.{found_in, read_if_found};

use aat_bytes::tags::{GPOS, STAT};
use aat_bytes::{Fault, ReadError};
use aat_font::FaceTables;
use aat_kerning_tables::{Ankr, Kern, Kerx};
use aat_read_extended::{ANKR, KerxRead, read_ankr, read_kerx};
use aat_read_kern::{KernRead, read_kern};
use aat_read_metrics::{found_in, optional_table};
use aat_read_pairs::{KERN, KERX, LeftOutSubtable};
use aat_read_sfnt::FontFile;
use std::alloc::{AllocError, Global};

/// What is read of the bytes of the table `kerx` of a font of so many glyphs.
fn read_extended(
    alloc: Global,
    bytes: &[u8],
    glyph_count: u16,
) -> Result<Result<Option<KerxRead>, Fault>, AllocError>
    ensures { IfOk result (λ kerx. kerx ≡ read_if_found (kerx_values_of glyph_count) (Some bytes.now)) }
{
    match read_kerx(alloc, bytes, glyph_count) {
        Ok(kerx) => Ok(Ok(Some(kerx))),
        Err(ReadError::Fault(fault)) => Ok(Err(fault)),
        Err(ReadError::OutOfMemory) => Err(AllocError),
    }
}

/// The table `kerx` of a font of so many glyphs.
pub fn kerx_in(
    alloc: Global,
    file: &FontFile<'_>,
    glyph_count: u16,
) -> Result<Result<Option<KerxRead>, Fault>, AllocError>
    ensures { IfOk result (λ kerx. kerx ≡ kerx_in file.now glyph_count) }
{
    match optional_table(file, KERX) {
        Ok(Some(bytes)) => read_extended(alloc, bytes, glyph_count),
        Ok(None) => Ok(Ok(None)),
        Err(fault) => Ok(Err(fault)),
    }
}

/// What is read of the bytes of the table `kern`.
fn read_plain(alloc: Global, bytes: &[u8]) -> Result<Result<Option<KernRead>, Fault>, AllocError>
    ensures { IfOk result (λ kern. kern ≡ read_if_found kern_of (Some bytes.now)) }
{
    match read_kern(alloc, bytes) {
        Ok(kern) => Ok(Ok(Some(kern))),
        Err(ReadError::Fault(fault)) => Ok(Err(fault)),
        Err(ReadError::OutOfMemory) => Err(AllocError),
    }
}

/// The table `kern`.
pub fn kern_in(
    alloc: Global,
    file: &FontFile<'_>,
) -> Result<Result<Option<KernRead>, Fault>, AllocError>
    ensures { IfOk result (λ kern. kern ≡ kern_in file.now) }
{
    match optional_table(file, KERN) {
        Ok(Some(bytes)) => read_plain(alloc, bytes),
        Ok(None) => Ok(Ok(None)),
        Err(fault) => Ok(Err(fault)),
    }
}

/// What is read of the bytes of the table `ankr` of a font of so many glyphs.
fn read_points(
    alloc: Global,
    bytes: &[u8],
    glyph_count: u16,
) -> Result<Result<Option<Ankr>, Fault>, AllocError>
    ensures { IfOk result (λ ankr. ankr ≡ read_if_found (ankr_values_of glyph_count) (Some bytes.now)) }
{
    match read_ankr(alloc, bytes, glyph_count) {
        Ok(ankr) => Ok(Ok(Some(ankr))),
        Err(ReadError::Fault(fault)) => Ok(Err(fault)),
        Err(ReadError::OutOfMemory) => Err(AllocError),
    }
}

/// The table `ankr` of a font of so many glyphs.
pub fn ankr_in(
    alloc: Global,
    file: &FontFile<'_>,
    glyph_count: u16,
) -> Result<Result<Option<Ankr>, Fault>, AllocError>
    ensures { IfOk result (λ ankr. ankr ≡ ankr_in file.now glyph_count) }
{
    match optional_table(file, ANKR) {
        Ok(Some(bytes)) => read_points(alloc, bytes, glyph_count),
        Ok(None) => Ok(Ok(None)),
        Err(fault) => Ok(Err(fault)),
    }
}

/// Whether the file has the table `STAT`.
pub fn has_stat_in(file: &FontFile<'_>) -> bool
    ensures { result ≡ has_stat_in file.now }
{
    file.table(STAT).is_ok()
}

/// Whether the file has the table `GPOS`.
pub fn has_gpos_in(file: &FontFile<'_>) -> bool
    ensures { result ≡ has_gpos_in file.now }
{
    file.table(GPOS).is_ok()
}

/// The extended kerning that is read, and its subtables that are left out.
pub fn kerx_parts(
    alloc: Global,
    reading: Result<Option<KerxRead>, Fault>,
) -> (Option<Kerx>, Vec<LeftOutSubtable>)
    ensures table { result.0 ≡ option_map (λ read. read.subtables) (found_in reading) }
    ensures left_out { result.1.items ≡ left_out_of reading }
{
    match found_in(reading) {
        Some(read) => (Some(read.kerx), read.left_out),
        None => (None, Vec::new(alloc)),
    }
}

/// The kerning that is read, and its subtables that are left out.
pub fn kern_parts(
    alloc: Global,
    reading: Result<Option<KernRead>, Fault>,
) -> (Option<Kern>, Vec<LeftOutSubtable>)
    ensures table { result.0 ≡ option_map (λ read. read.subtables) (found_in reading) }
    ensures left_out { result.1.items ≡ left_out_of_kern reading }
{
    match found_in(reading) {
        Some(read) => (Some(read.kern), read.left_out),
        None => (None, Vec::new(alloc)),
    }
}

/// The tables for the layer, with these of kerning.
pub fn with_kerning(
    tables: FaceTables,
    kerx: Option<Kerx>,
    kern: Option<Kern>,
    ankr: Option<Ankr>,
) -> FaceTables
    ensures { result ≡ record tables { kerx = kerx; kern = kern; ankr = ankr } }
{
    FaceTables {
        kerx,
        kern,
        ankr,
        ..tables
    }
}
