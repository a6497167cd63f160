//! Why a kerning table is not written.
ghost use Rattle.std.specs.Prelude.{◌≡◌};
ghost use Rattle.aat_write_truetype.specs.kern.KernWriteErrors.{number_of_kern_error};

use std::alloc::AllocError;
use thiserror::Error;

/// Why a kerning table is not written. Nothing is written then.
#[derive(Clone, Copy, PartialEq, Eq, Debug, Error)]
pub enum KernWriteError {
    /// 1: there are more than 65,535 pairs in a subtable.
    #[error("there are more than 65535 pairs")]
    TooManyPairs,
    /// 2: a machine has fewer than 4 classes, or pairs by classes have none or more than 32,767 right classes.
    #[error("the number of classes has no place in the format")]
    ClassCount,
    /// 3: a machine has no rules, more than 256, or a row of them that is cut.
    #[error("the rules are not up to 256 in whole rows")]
    RuleCount,
    /// 4: offsets have more than 16 bits, or the values are more than the format has room for.
    #[error("the subtable is too long for its offsets")]
    TooLong,
    /// 5: the glyph at this place of a list of classes does not follow the one before it, or its class is too high.
    #[error("the class at place {0} is not one that the format has")]
    Class(usize),
    /// 6: the rule at this place is not the one that is read there.
    #[error("the rule at place {0} is not one that the format has")]
    Rule(usize),
    /// 7: the values end at this place, with fewer than two rows, or the one here is of class 0 and not 0.
    #[error("the value at place {0} is not one that the format has")]
    Value(usize),
    /// 8: memory is wanting. It may come before any other error is met.
    #[error("out of memory")]
    OutOfMemory,
    /// 9: a subtable is of variations, and so would not be read again. It is met before other errors of the subtable.
    #[error("a subtable of variations is not read again")]
    Variable,
}

impl KernWriteError {
    /// The error's number, from 1 to 9.
    pub fn number(self) -> u8
        ensures { result ≡ number_of_kern_error self }
    {
        match self {
            KernWriteError::TooManyPairs => 1,
            KernWriteError::ClassCount => 2,
            KernWriteError::RuleCount => 3,
            KernWriteError::TooLong => 4,
            KernWriteError::Class(_) => 5,
            KernWriteError::Rule(_) => 6,
            KernWriteError::Value(_) => 7,
            KernWriteError::OutOfMemory => 8,
            KernWriteError::Variable => 9,
        }
    }
}

impl From<AllocError> for KernWriteError {
    ghost use Rattle.std.specs.Prelude.{◌≡◌};
    ghost use Rattle.aat_write_truetype.specs.declared.kern.error.KernWriteError.TheVariants.{OutOfMemory};

    ghost from_gives = { λ _ e. e ≡ OutOfMemory };

    fn from(_: AllocError) -> KernWriteError {
        KernWriteError::OutOfMemory
    }
}
