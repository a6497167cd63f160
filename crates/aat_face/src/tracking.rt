//! The table `trak`.
ghost use Rattle.std.specs.Prelude.{◌≡◌, Some, IfOk};
ghost use Rattle.aat_read_metrics.specs.Tables.{read_if_found};
ghost use Rattle.aat_read_metrics.specs.Trak.{trak_of};
ghost use Rattle.aat_face.specs.Tracking.{trak_in};

use aat_bytes::{Fault, ReadError};
use aat_glyph::Tracking;
use aat_read_metrics::{TRAK, optional_table, read_trak};
use aat_read_sfnt::FontFile;
use std::alloc::{AllocError, Global};

/// What is read of the bytes of the table `trak`.
fn read_tracks(alloc: Global, bytes: &[u8]) -> Result<Result<Option<Tracking>, Fault>, AllocError>
    ensures { IfOk result (λ trak. trak ≡ read_if_found trak_of (Some bytes.now)) }
{
    match read_trak(alloc, bytes) {
        Ok(trak) => Ok(Ok(Some(trak))),
        Err(ReadError::Fault(fault)) => Ok(Err(fault)),
        Err(ReadError::OutOfMemory) => Err(AllocError),
    }
}

/// The table `trak`.
pub fn trak_in(
    alloc: Global,
    file: &FontFile<'_>,
) -> Result<Result<Option<Tracking>, Fault>, AllocError>
    ensures { IfOk result (λ trak. trak ≡ trak_in file.now) }
{
    match optional_table(file, TRAK) {
        Ok(Some(bytes)) => read_tracks(alloc, bytes),
        Ok(None) => Ok(Ok(None)),
        Err(fault) => Ok(Err(fault)),
    }
}
