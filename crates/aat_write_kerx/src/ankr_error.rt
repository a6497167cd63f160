//! Why a table of anchor points is not written.
ghost use Rattle.std.specs.Prelude.{◌≡◌};
ghost use Rattle.aat_write_kerx.specs.AnkrWriteErrors.{error_of_lookup, number_of_ankr_error};

use aat_write_machine::WriteError;
use std::alloc::{AllocError, AllocFailed};
use thiserror::Error;

/// Why a table of anchor points is not written. Nothing is written then.
#[derive(Clone, Copy, PartialEq, Eq, Debug, Error)]
pub enum AnkrWriteError {
    /// 1: the points of the row at this place start more than 65,535 bytes behind those of the first row, so that their
    /// offset has more than 16 bits.
    #[error("the points of the row at place {0} start too far behind the first")]
    TooFar(usize),
    /// 2: the row at this place has more than 65,536 points, so that an index of 16 bits cannot name them all.
    #[error("the row at place {0} has more than 65536 points")]
    TooManyPoints(usize),
    /// 3: the lookup of the glyphs is not written, for this error. It never comes from a typed table, whose rows rise.
    #[error("the lookup of the glyphs is not written: {0}")]
    Lookup(WriteError),
    /// 4: memory is wanting. It may come before any other error is met.
    #[error("out of memory")]
    OutOfMemory,
}

impl AnkrWriteError {
    /// The error's number, from 1 to 4.
    pub fn number(self) -> u8
        ensures { result ≡ number_of_ankr_error self }
    {
        match self {
            AnkrWriteError::TooFar(_) => 1,
            AnkrWriteError::TooManyPoints(_) => 2,
            AnkrWriteError::Lookup(_) => 3,
            AnkrWriteError::OutOfMemory => 4,
        }
    }
}

impl From<AllocError> for AnkrWriteError {
    ghost use Rattle.std.specs.Prelude.{◌≡◌};
    ghost use Rattle.aat_write_kerx.specs.declared.ankr_error.AnkrWriteError.TheVariants.{OutOfMemory};

    ghost from_gives = { λ _ e. e ≡ OutOfMemory };

    fn from(_: AllocError) -> AnkrWriteError {
        AnkrWriteError::OutOfMemory
    }
}

impl<T: Drop> From<AllocFailed<T>> for AnkrWriteError {
    ghost use Rattle.std.specs.Prelude.{◌≡◌};
    ghost use Rattle.aat_write_kerx.specs.declared.ankr_error.AnkrWriteError.TheVariants.{OutOfMemory};

    ghost from_gives = { λ _ e. e ≡ OutOfMemory };

    fn from(_: AllocFailed<T>) -> AnkrWriteError {
        AnkrWriteError::OutOfMemory
    }
}

impl From<WriteError> for AnkrWriteError {
    ghost use Rattle.std.specs.Prelude.{◌≡◌};
    ghost use Rattle.aat_write_kerx.specs.AnkrWriteErrors.{error_of_lookup};

    ghost from_gives = { λ of_lookup e. e ≡ error_of_lookup of_lookup };

    fn from(of_lookup: WriteError) -> AnkrWriteError {
        match of_lookup {
            WriteError::OutOfMemory => AnkrWriteError::OutOfMemory,
            of_lookup => AnkrWriteError::Lookup(of_lookup),
        }
    }
}
