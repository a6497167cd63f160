//! Why a table is not written.
ghost use Rattle.std.specs.Prelude.{◌≡◌};
ghost use Rattle.aat_write_machine.specs.WriteErrors.{number_of_write_error};

use std::alloc::AllocError;
use thiserror::Error;

/// Why a table is not written. Nothing is written then.
#[derive(Clone, Copy, PartialEq, Eq, Debug, Error)]
pub enum WriteError {
    /// 1: the element at this place is the first that is not above the one before it.
    #[error("the element at place {0} is not above the one before it")]
    NotRising(usize),
    /// 2: there are more elements than the format has numbers for.
    #[error("there are too many elements for the format")]
    TooMany,
    /// 3: memory is wanting.
    #[error("out of memory")]
    OutOfMemory,
}

impl WriteError {
    /// The error's number, from 1 to 3.
    pub fn number(self) -> u8
        ensures { result ≡ number_of_write_error self }
    {
        match self {
            WriteError::NotRising(_) => 1,
            WriteError::TooMany => 2,
            WriteError::OutOfMemory => 3,
        }
    }
}

impl From<AllocError> for WriteError {
    ghost use Rattle.std.specs.Prelude.{◌≡◌};
    ghost use Rattle.aat_write_machine.specs.declared.write_error.WriteError.TheVariants.{OutOfMemory};

    ghost from_gives = { λ _ e. e ≡ OutOfMemory };

    fn from(_: AllocError) -> WriteError {
        WriteError::OutOfMemory
    }
}
