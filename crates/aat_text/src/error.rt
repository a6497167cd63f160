//! Why a text is refused.
ghost use Rattle.std.specs.Prelude.{◌≡◌};
ghost use Rattle.aat_text.specs.TextErrors.{number_of_text_error};

use std::alloc::{AllocError, AllocFailed};
use thiserror::Error;

/// Why a call makes nothing of a text. Nothing else changes then.
#[derive(Clone, Copy, PartialEq, Eq, Debug, Error)]
pub enum TextError {
    /// 1: the text has more than 4,294,967,295 bytes.
    #[error("the text has more than 4294967295 bytes")]
    TooLong,
    /// 2: memory is wanting. The text is not too long then.
    #[error("out of memory")]
    OutOfMemory,
}

impl TextError {
    /// The error's number, 1 or 2.
    pub fn number(self) -> u8
        ensures { result ≡ number_of_text_error self }
    {
        match self {
            TextError::TooLong => 1,
            TextError::OutOfMemory => 2,
        }
    }
}

impl From<AllocError> for TextError {
    ghost use Rattle.std.specs.Prelude.{◌≡◌};
    ghost use Rattle.aat_text.specs.declared.error.TextError.TheVariants.{OutOfMemory};

    ghost from_gives = { λ _ e. e ≡ OutOfMemory };

    fn from(_: AllocError) -> TextError {
        TextError::OutOfMemory
    }
}

impl<T: Drop> From<AllocFailed<T>> for TextError {
    ghost use Rattle.std.specs.Prelude.{◌≡◌};
    ghost use Rattle.aat_text.specs.declared.error.TextError.TheVariants.{OutOfMemory};

    ghost from_gives = { λ _ e. e ≡ OutOfMemory };

    fn from(_: AllocFailed<T>) -> TextError {
        TextError::OutOfMemory
    }
}
