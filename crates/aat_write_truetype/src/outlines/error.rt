//! Why outlines are not written.
ghost use Rattle.std.specs.Prelude.{◌≡◌};
ghost use Rattle.aat_write_truetype.specs.outlines.OutlineWriteErrors.{number_of_outline_error};

use std::alloc::AllocError;
use thiserror::Error;

/// Why outlines are not written. Nothing is written then.
#[derive(Clone, Copy, PartialEq, Eq, Debug, Error)]
pub enum OutlineWriteError {
    /// 1: there are more than 65,535 outlines.
    #[error("there are more than 65535 outlines")]
    TooMany,
    /// 2: this outline, the first that has an error, has more than 32,767 contours.
    #[error("outline {0} has more than 32767 contours")]
    TooManyContours(u16),
    /// 3: this outline, the first that has an error, has a coordinate of more than 16 bits.
    #[error("outline {0} has a coordinate of more than 16 bits")]
    FarPoint(u16),
    /// 4: this outline, the first that has an error, has a step of more than 16 bits from one point to the next.
    #[error("outline {0} has a step of more than 16 bits from a point to the next")]
    FarStep(u16),
    /// 5: the data of glyphs has more bytes than a number of 32 bits counts.
    #[error("the data of glyphs has 4294967296 bytes or more")]
    TooLong,
    /// 6: memory is wanting. It comes only where none of the first four errors does.
    #[error("out of memory")]
    OutOfMemory,
}

impl OutlineWriteError {
    /// The error's number, from 1 to 6.
    pub fn number(self) -> u8
        ensures { result ≡ number_of_outline_error self }
    {
        match self {
            OutlineWriteError::TooMany => 1,
            OutlineWriteError::TooManyContours(_) => 2,
            OutlineWriteError::FarPoint(_) => 3,
            OutlineWriteError::FarStep(_) => 4,
            OutlineWriteError::TooLong => 5,
            OutlineWriteError::OutOfMemory => 6,
        }
    }
}

impl From<AllocError> for OutlineWriteError {
    ghost use Rattle.std.specs.Prelude.{◌≡◌};
    ghost use Rattle.aat_write_truetype.specs.declared.outlines.error.OutlineWriteError.TheVariants.{OutOfMemory};

    ghost from_gives = { λ _ e. e ≡ OutOfMemory };

    fn from(_: AllocError) -> OutlineWriteError {
        OutlineWriteError::OutOfMemory
    }
}
