//! Why chains are not written.
ghost use Rattle.std.specs.Prelude.{◌≡◌};
ghost use Rattle.aat_write_machine.specs.ChainWriteErrors.{number_of_chain_error};

use crate::error::MorxWriteError;
use std::alloc::AllocError;
use thiserror::Error;

/// Why chains are not written. Nothing is written then.
#[derive(Clone, Copy, PartialEq, Eq, Debug, Error)]
pub enum ChainWriteError {
    /// 1: a subtable is not written, for this error. It comes from `write_morx` alone.
    #[error("a subtable is not written: {0}")]
    Subtable(MorxWriteError),
    /// 2: the table has more than 4,294,967,295 bytes.
    #[error("the table has more than 4294967295 bytes")]
    TooLong,
    /// 3: the chains have more than 65,535 subtables together. It comes from `write_chains` alone.
    #[error("the chains have more than 65535 subtables")]
    TooManySubtables,
    /// 4: memory is wanting. From `write_chains` it comes only where no other error does; from `write_morx` it may come
    /// before any other is met.
    #[error("out of memory")]
    OutOfMemory,
}

impl ChainWriteError {
    /// The error's number, from 1 to 4.
    pub fn number(self) -> u8
        ensures { result ≡ number_of_chain_error self }
    {
        match self {
            ChainWriteError::Subtable(_) => 1,
            ChainWriteError::TooLong => 2,
            ChainWriteError::TooManySubtables => 3,
            ChainWriteError::OutOfMemory => 4,
        }
    }
}

impl From<AllocError> for ChainWriteError {
    ghost use Rattle.std.specs.Prelude.{◌≡◌};
    ghost use Rattle.aat_write_machine.specs.declared.chain_error.ChainWriteError.TheVariants.{OutOfMemory};

    ghost from_gives = { λ _ e. e ≡ OutOfMemory };

    fn from(_: AllocError) -> ChainWriteError {
        ChainWriteError::OutOfMemory
    }
}

impl From<MorxWriteError> for ChainWriteError {
    ghost use Rattle.std.specs.Prelude.{◌≡◌};
    ghost use Rattle.aat_write_machine.specs.ChainWriteErrors.{error_of_subtable};

    ghost from_gives = { λ of_subtable e. e ≡ error_of_subtable of_subtable };

    fn from(of_subtable: MorxWriteError) -> ChainWriteError {
        match of_subtable {
            MorxWriteError::OutOfMemory => ChainWriteError::OutOfMemory,
            of_subtable => ChainWriteError::Subtable(of_subtable),
        }
    }
}
