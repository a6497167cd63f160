//! Why an extended kerning table is not written.
ghost use Rattle.std.specs.Prelude.{◌≡◌};
ghost use Rattle.aat_write_kerx.specs.KerxWriteErrors.{error_of_subtable, number_of_kerx_error};

use crate::subtable_error::SubtableWriteError;
use std::alloc::{AllocError, AllocFailed};
use thiserror::Error;

/// Why an extended kerning table is not written. Nothing is written then.
#[derive(Clone, Copy, PartialEq, Eq, Debug, Error)]
pub enum KerxWriteError {
    /// 1: the subtable of this number, from 0 on, is not written, for this error.
    #[error("subtable {0} is not written: {1}")]
    Subtable(usize, SubtableWriteError),
    /// 2: the table has more than 4,294,967,295 bytes.
    #[error("the table has more than 4294967295 bytes")]
    TooLong,
    /// 3: memory is wanting. It may come before any other error is met.
    #[error("out of memory")]
    OutOfMemory,
}

impl KerxWriteError {
    /// The error's number, from 1 to 3.
    pub fn number(self) -> u8
        ensures { result ≡ number_of_kerx_error self }
    {
        match self {
            KerxWriteError::Subtable(_, _) => 1,
            KerxWriteError::TooLong => 2,
            KerxWriteError::OutOfMemory => 3,
        }
    }
}

/// The error of the subtable of a number as one of its table.
pub(crate) fn error_of_subtable(number: usize, error: SubtableWriteError) -> KerxWriteError
    ensures { result ≡ error_of_subtable number error }
{
    match error {
        SubtableWriteError::OutOfMemory => KerxWriteError::OutOfMemory,
        error => KerxWriteError::Subtable(number, error),
    }
}

impl From<AllocError> for KerxWriteError {
    ghost use Rattle.std.specs.Prelude.{◌≡◌};
    ghost use Rattle.aat_write_kerx.specs.declared.kerx_error.KerxWriteError.TheVariants.{OutOfMemory};

    ghost from_gives = { λ _ e. e ≡ OutOfMemory };

    fn from(_: AllocError) -> KerxWriteError {
        KerxWriteError::OutOfMemory
    }
}

impl<T: Drop> From<AllocFailed<T>> for KerxWriteError {
    ghost use Rattle.std.specs.Prelude.{◌≡◌};
    ghost use Rattle.aat_write_kerx.specs.declared.kerx_error.KerxWriteError.TheVariants.{OutOfMemory};

    ghost from_gives = { λ _ e. e ≡ OutOfMemory };

    fn from(_: AllocFailed<T>) -> KerxWriteError {
        KerxWriteError::OutOfMemory
    }
}
