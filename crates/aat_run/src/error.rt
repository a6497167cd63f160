//! Why a call of the layer is refused.
ghost use Rattle.std.specs.Prelude.{◌≡◌};
ghost use Rattle.aat_run.specs.LayoutErrors.{number_of_aat_error};

use aat_buffer::BufferError;
use std::alloc::{AllocError, AllocFailed};
use thiserror::Error;

/// Why a call of the layer is refused.
#[derive(Clone, Copy, PartialEq, Eq, Debug, Error)]
pub enum AatError {
    /// 1: a request for alternates has this value, which is no setting, since it is above 65535.
    #[error("the value {0} is no alternate")]
    AaltValue(u32),
    /// 2: the line would pass its greatest length. A buffer that was handed in has failed then.
    #[error("the line would be too long")]
    TooLong,
    /// 3: memory is wanting. In the middle of a run, or where positions get none, the buffer has failed then; else what
    /// was asked for is as it was, and a map that was to be compiled is empty.
    #[error("out of memory")]
    OutOfMemory,
    /// 4: the buffer had failed before. Nothing changes.
    #[error("the buffer had failed before")]
    BufferFailed,
}

impl AatError {
    /// The error's number: 1 to 4, in the order of the variants.
    pub fn number(self) -> u8
        ensures { result ≡ number_of_aat_error self }
    {
        match self {
            AatError::AaltValue(_) => 1,
            AatError::TooLong => 2,
            AatError::OutOfMemory => 3,
            AatError::BufferFailed => 4,
        }
    }
}

impl From<AllocError> for AatError {
    ghost use Rattle.std.specs.Prelude.{◌≡◌};
    ghost use Rattle.aat_run.specs.declared.error.AatError.TheVariants.{OutOfMemory};

    ghost from_gives = { λ _ e. e ≡ OutOfMemory };

    fn from(_: AllocError) -> AatError {
        AatError::OutOfMemory
    }
}

impl<T: Drop> From<AllocFailed<T>> for AatError {
    ghost use Rattle.std.specs.Prelude.{◌≡◌};
    ghost use Rattle.aat_run.specs.declared.error.AatError.TheVariants.{OutOfMemory};

    ghost from_gives = { λ _ e. e ≡ OutOfMemory };

    fn from(_: AllocFailed<T>) -> AatError {
        AatError::OutOfMemory
    }
}

impl From<BufferError> for AatError {
    ghost use Rattle.std.specs.Prelude.{◌≡◌};
    ghost use Rattle.aat_run.specs.LayoutErrors.{error_of_buffer};

    ghost from_gives = { λ b e. e ≡ error_of_buffer b };

    fn from(error: BufferError) -> AatError {
        match error {
            BufferError::TooLong => AatError::TooLong,
            BufferError::OutOfMemory => AatError::OutOfMemory,
        }
    }
}
