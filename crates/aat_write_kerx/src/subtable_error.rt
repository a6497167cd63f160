//! Why a subtable of the extended kerning table is not written.
ghost use Rattle.std.specs.Prelude.{◌≡◌};
ghost use Rattle.aat_write_kerx.specs.KerxWriteErrors.{error_of_machine, error_of_pairs, number_of_subtable_error};

use aat_write_machine::{MorxWriteError, WriteError};
use std::alloc::{AllocError, AllocFailed};
use thiserror::Error;

/// Why a subtable of the extended kerning table is not written. Nothing is written then.
#[derive(Clone, Copy, PartialEq, Eq, Debug, Error)]
pub enum SubtableWriteError {
    /// 1: the subtable has format 2 or 6, and its pairs are listed, so that its classes are not known.
    #[error("the pairs of a format by classes are listed")]
    Listed,
    /// 2: the subtable has format 0, 2 or 6 and a tuple count above 0, and has single values and no tuples.
    #[error("values of tuples are not written")]
    HasTuples,
    /// 3: the pairs of format 0, or those of a lookup of classes, are not written, for this error. `NotRising` never
    /// comes from a typed table. Format 0 has at most 268,435,455 pairs.
    #[error("pairs are not written: {0}")]
    Pairs(WriteError),
    /// 4: there is no right class, so that rows would have no values.
    #[error("there are no right classes")]
    NoColumns,
    /// 5: the class of the left glyph at this place, times the number of right classes, is above 65,535.
    #[error("the row of the left class at place {0} has no offset of 16 bits")]
    TooFar(usize),
    /// 6: the entry of the rule at this place, of a machine of format 1, has the place of a value above 32,767, and not
    /// 0xFFFF.
    #[error("the value of the rule at place {0} has no index of 16 bits")]
    NoIndex(usize),
    /// 7: the machine is not written, for this error.
    #[error("the machine is not written: {0}")]
    Machine(MorxWriteError),
    /// 8: memory is wanting. It may come before any other error is met.
    #[error("out of memory")]
    OutOfMemory,
    /// 9: the subtable is of variations, and so would not be read again. It is met before the other errors.
    #[error("a subtable of variations is not read again")]
    Variable,
}

impl SubtableWriteError {
    /// The error's number, from 1 to 9.
    pub fn number(self) -> u8
        ensures { result ≡ number_of_subtable_error self }
    {
        match self {
            SubtableWriteError::Listed => 1,
            SubtableWriteError::HasTuples => 2,
            SubtableWriteError::Pairs(_) => 3,
            SubtableWriteError::NoColumns => 4,
            SubtableWriteError::TooFar(_) => 5,
            SubtableWriteError::NoIndex(_) => 6,
            SubtableWriteError::Machine(_) => 7,
            SubtableWriteError::OutOfMemory => 8,
            SubtableWriteError::Variable => 9,
        }
    }
}

impl From<AllocError> for SubtableWriteError {
    ghost use Rattle.std.specs.Prelude.{◌≡◌};
    ghost use Rattle.aat_write_kerx.specs.declared.subtable_error.SubtableWriteError.TheVariants.{OutOfMemory};

    ghost from_gives = { λ _ e. e ≡ OutOfMemory };

    fn from(_: AllocError) -> SubtableWriteError {
        SubtableWriteError::OutOfMemory
    }
}

impl<T: Drop> From<AllocFailed<T>> for SubtableWriteError {
    ghost use Rattle.std.specs.Prelude.{◌≡◌};
    ghost use Rattle.aat_write_kerx.specs.declared.subtable_error.SubtableWriteError.TheVariants.{OutOfMemory};

    ghost from_gives = { λ _ e. e ≡ OutOfMemory };

    fn from(_: AllocFailed<T>) -> SubtableWriteError {
        SubtableWriteError::OutOfMemory
    }
}

impl From<WriteError> for SubtableWriteError {
    ghost use Rattle.std.specs.Prelude.{◌≡◌};
    ghost use Rattle.aat_write_kerx.specs.KerxWriteErrors.{error_of_pairs};

    ghost from_gives = { λ of_pairs e. e ≡ error_of_pairs of_pairs };

    fn from(of_pairs: WriteError) -> SubtableWriteError {
        match of_pairs {
            WriteError::OutOfMemory => SubtableWriteError::OutOfMemory,
            of_pairs => SubtableWriteError::Pairs(of_pairs),
        }
    }
}

impl From<MorxWriteError> for SubtableWriteError {
    ghost use Rattle.std.specs.Prelude.{◌≡◌};
    ghost use Rattle.aat_write_kerx.specs.KerxWriteErrors.{error_of_machine};

    ghost from_gives = { λ of_machine e. e ≡ error_of_machine of_machine };

    fn from(of_machine: MorxWriteError) -> SubtableWriteError {
        match of_machine {
            MorxWriteError::OutOfMemory => SubtableWriteError::OutOfMemory,
            of_machine => SubtableWriteError::Machine(of_machine),
        }
    }
}
