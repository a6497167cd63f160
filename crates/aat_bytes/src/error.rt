//! Why a table cannot be read.
ghost use Rattle.std.specs.Prelude.{◌≡◌};
ghost use Rattle.aat_bytes.specs.Faults.{number_of_fault, fault_at};

use crate::tag::Tag;
use std::alloc::{AllocError, AllocFailed};
use thiserror::Error;

/// What is wrong with the bytes of a table.
#[derive(Clone, Copy, PartialEq, Eq, Debug, Error)]
pub enum FaultKind {
    /// 1: a header, a record, a list or a value is not there as a whole. Also where a number asks for more than may be
    /// read: more classes or subtables than 65,535, or more lookups and shared values than the bytes have room for.
    #[error("reaches past the end")]
    PastEnd,
    /// 2: a version, a format or the size of a value is none that is read, or the magic number of `head` is another. Also
    /// where a subtable is of variations, a value does not fit into 16 bits, or an offset is that of no row or column.
    #[error("has an unknown version or format")]
    UnknownFormat,
    /// 3: a length, the size of a unit or the number of classes of a machine is below what it has to hold.
    #[error("has a length below that of its header")]
    ShortLength,
    /// 4: what is asked for is not listed: a table of a font, a font of a file, or a subtable of `cmap` that is read.
    #[error("is missing")]
    Missing,
    /// 5: a number is not above the one before it that has to be: the last point of a contour. Also where a unit of a
    /// lookup of format 4 has a last glyph below its first one.
    #[error("has a key that is not above the one before it")]
    NotRising,
}

impl FaultKind {
    /// The number of the kind, from 1 to 5.
    pub fn number(self) -> u8
        ensures { result ≡ number_of_fault self }
    {
        match self {
            FaultKind::PastEnd => 1,
            FaultKind::UnknownFormat => 2,
            FaultKind::ShortLength => 3,
            FaultKind::Missing => 4,
            FaultKind::NotRising => 5,
        }
    }
}

/// A fault of a table. A table that has one is not read, and nothing else changes.
#[derive(Clone, Copy, PartialEq, Eq, Debug, Error)]
#[error("{table} {kind} at {place}")]
pub struct Fault {
    /// The table, `ttcf` for the header of a collection, or `sfnt` for the directory.
    pub table: Tag,
    /// What is wrong.
    pub kind: FaultKind,
    /// Where, in bytes from the start of the table; for a header or a directory from the start of the file.
    pub place: usize,
}

impl Fault {
    /// The fault of a table at a place.
    pub fn new(table: Tag, kind: FaultKind, place: usize) -> Fault
        ensures { result ≡ fault_at table kind place }
    {
        Fault { table, kind, place }
    }
}

/// Why a call that takes memory reads no table. The state after it is the state before it.
#[derive(Clone, Copy, PartialEq, Eq, Debug, Error)]
pub enum ReadError {
    /// The first fault of the table, in the order that the call says.
    #[error("{0}")]
    Fault(Fault),
    /// Memory is wanting. The call says whether the bytes may have a fault then.
    #[error("out of memory")]
    OutOfMemory,
}

impl From<Fault> for ReadError {
    ghost use Rattle.std.specs.Prelude.{◌≡◌};
    ghost use Rattle.aat_bytes.specs.declared.error.ReadError.TheVariants as errors;

    ghost from_gives = { λ fault e. e ≡ errors.Fault fault };

    fn from(fault: Fault) -> ReadError {
        ReadError::Fault(fault)
    }
}

impl From<AllocError> for ReadError {
    ghost use Rattle.std.specs.Prelude.{◌≡◌};
    ghost use Rattle.aat_bytes.specs.declared.error.ReadError.TheVariants.{OutOfMemory};

    ghost from_gives = { λ _ e. e ≡ OutOfMemory };

    fn from(_: AllocError) -> ReadError {
        ReadError::OutOfMemory
    }
}

impl<T: Drop> From<AllocFailed<T>> for ReadError {
    ghost use Rattle.std.specs.Prelude.{◌≡◌};
    ghost use Rattle.aat_bytes.specs.declared.error.ReadError.TheVariants.{OutOfMemory};

    ghost from_gives = { λ _ e. e ≡ OutOfMemory };

    fn from(_: AllocFailed<T>) -> ReadError {
        ReadError::OutOfMemory
    }
}
