//! Why a part of `morx` is not written.
ghost use Rattle.std.specs.Prelude.{◌≡◌};
ghost use Rattle.aat_write_machine.specs.MorxWriteErrors.{error_of_lookup, number_of_morx_error};

use crate::write_error::WriteError;
use std::alloc::{AllocError, AllocFailed};
use thiserror::Error;

/// Why a part of `morx` is not written. Nothing is written then.
#[derive(Clone, Copy, PartialEq, Eq, Debug, Error)]
pub enum MorxWriteError {
    /// 1: a machine has fewer than four classes.
    #[error("there are fewer than four classes")]
    FewClasses,
    /// 2: a machine has more than 65,536 rules, so that cells have no number of 16 bits.
    #[error("there are more than 65536 rules")]
    TooManyRules,
    /// 3: the rule at this place is not that of the class that follows, or there is none there, since there are no rules
    /// or the last row is cut.
    #[error("the rule at place {0} is not that of the class that follows")]
    OutOfPlace(usize),
    /// 4: the entry of the rule at this place names a state without a row.
    #[error("the rule at place {0} names a state without a row")]
    NoRow(usize),
    /// 5: the rows before that of this state name neither this state nor one behind it, so that it would not be read.
    #[error("the rows before state {0} name neither it nor one behind it")]
    NotNamed(usize),
    /// 6: the pair of a lookup at this place is the first that is not above the one before it.
    #[error("the pair at place {0} is not above the one before it")]
    NotRising(usize),
    /// 7: a lookup has more than 65,534 pairs, so that the number of its units has more than 16 bits.
    #[error("there are too many pairs for the format")]
    TooManyPairs,
    /// 8: the entries of a contextual subtable ask for this number of lookups, and it has another one.
    #[error("the entries ask for {0} lookups")]
    LookupCount(usize),
    /// 9: a contextual subtable has more lookups than two for each rule.
    #[error("there are more lookups than two for each rule")]
    TooManyLookups,
    /// 10: a list has more than 268,435,455 elements, or the lookups of a contextual subtable have more bytes.
    #[error("a list is too long")]
    TooLong,
    /// 11: memory is wanting. It may come before any other error is met.
    #[error("out of memory")]
    OutOfMemory,
}

impl MorxWriteError {
    /// The error's number, from 1 to 11.
    pub fn number(self) -> u8
        ensures { result ≡ number_of_morx_error self }
    {
        match self {
            MorxWriteError::FewClasses => 1,
            MorxWriteError::TooManyRules => 2,
            MorxWriteError::OutOfPlace(_) => 3,
            MorxWriteError::NoRow(_) => 4,
            MorxWriteError::NotNamed(_) => 5,
            MorxWriteError::NotRising(_) => 6,
            MorxWriteError::TooManyPairs => 7,
            MorxWriteError::LookupCount(_) => 8,
            MorxWriteError::TooManyLookups => 9,
            MorxWriteError::TooLong => 10,
            MorxWriteError::OutOfMemory => 11,
        }
    }
}

impl From<AllocError> for MorxWriteError {
    ghost use Rattle.std.specs.Prelude.{◌≡◌};
    ghost use Rattle.aat_write_machine.specs.declared.error.MorxWriteError.TheVariants.{OutOfMemory};

    ghost from_gives = { λ _ e. e ≡ OutOfMemory };

    fn from(_: AllocError) -> MorxWriteError {
        MorxWriteError::OutOfMemory
    }
}

impl<T: Drop> From<AllocFailed<T>> for MorxWriteError {
    ghost use Rattle.std.specs.Prelude.{◌≡◌};
    ghost use Rattle.aat_write_machine.specs.declared.error.MorxWriteError.TheVariants.{OutOfMemory};

    ghost from_gives = { λ _ e. e ≡ OutOfMemory };

    fn from(_: AllocFailed<T>) -> MorxWriteError {
        MorxWriteError::OutOfMemory
    }
}

impl From<WriteError> for MorxWriteError {
    ghost use Rattle.std.specs.Prelude.{◌≡◌};
    ghost use Rattle.aat_write_machine.specs.MorxWriteErrors.{error_of_lookup};

    ghost from_gives = { λ of_lookup e. e ≡ error_of_lookup of_lookup };

    fn from(of_lookup: WriteError) -> MorxWriteError {
        match of_lookup {
            WriteError::NotRising(place) => MorxWriteError::NotRising(place),
            WriteError::TooMany => MorxWriteError::TooManyPairs,
            WriteError::OutOfMemory => MorxWriteError::OutOfMemory,
        }
    }
}
