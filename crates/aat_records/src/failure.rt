//! How a call fails.
ghost use Rattle.std.specs.Prelude.{◌≡◌};
ghost use Rattle.aat_records.specs.Failures.{failure_of_typeset, number_of_failure};

use aat_run::AatError;
use aat_typesetter::TypesetError;
use std::alloc::{AllocError, AllocFailed};

/// What a call that answers tells in place of a failure.
pub const DONE: u32 = 0;

/// How a call fails, `aat_status_t`.
#[derive(Clone, Copy)]
pub enum Failure {
    /// 1: the handle holds no font.
    NoFont,
    /// 2: memory is wanting.
    OutOfMemory,
    /// 3: the directory of the file has a fault.
    BadFont,
    /// 4: the text is none of its encoding.
    BadText,
    /// 5: the text has more than 4,294,967,295 bytes in UTF-8.
    TextTooLong,
    /// 6: a feature `aalt` has a value above 65535.
    AlternateTooLarge,
    /// 7: the line of glyphs is too long.
    LineTooLong,
    /// 8: the text is no feature.
    BadFeature,
    /// 9: a number of the options stands for nothing.
    BadOption,
    /// 10: what is asked for is not there.
    NotThere,
}

impl Failure {
    /// Its number, from 1 to 10.
    pub fn number(self) -> u32
        ensures { result ≡ number_of_failure self }
    {
        match self {
            Failure::NoFont => 1,
            Failure::OutOfMemory => 2,
            Failure::BadFont => 3,
            Failure::BadText => 4,
            Failure::TextTooLong => 5,
            Failure::AlternateTooLarge => 6,
            Failure::LineTooLong => 7,
            Failure::BadFeature => 8,
            Failure::BadOption => 9,
            Failure::NotThere => 10,
        }
    }
}

/// What a refusal of the typesetter is. The typesetter never refuses as `BufferFailed`.
pub fn failure_of_typeset(error: TypesetError) -> Failure
    ensures { result ≡ failure_of_typeset error }
{
    match error {
        TypesetError::TextTooLong => Failure::TextTooLong,
        TypesetError::Refused(AatError::AaltValue(_)) => Failure::AlternateTooLarge,
        TypesetError::Refused(AatError::OutOfMemory) => Failure::OutOfMemory,
        TypesetError::Refused(AatError::TooLong | AatError::BufferFailed) => Failure::LineTooLong,
        TypesetError::OutOfMemory => Failure::OutOfMemory,
    }
}

impl From<AllocError> for Failure {
    ghost use Rattle.std.specs.Prelude.{◌≡◌};
    ghost use Rattle.aat_records.specs.declared.failure.Failure.TheVariants.{OutOfMemory};

    ghost from_gives = { λ _ e. e ≡ OutOfMemory };

    fn from(_: AllocError) -> Failure {
        Failure::OutOfMemory
    }
}

impl<T: Drop> From<AllocFailed<T>> for Failure {
    ghost use Rattle.std.specs.Prelude.{◌≡◌};
    ghost use Rattle.aat_records.specs.declared.failure.Failure.TheVariants.{OutOfMemory};

    ghost from_gives = { λ _ e. e ≡ OutOfMemory };

    fn from(_: AllocFailed<T>) -> Failure {
        Failure::OutOfMemory
    }
}
