//! Why a table is refused.
ghost use Rattle.std.specs.Prelude.{◌≡◌};
ghost use Rattle.aat_lookup.specs.TableErrors.{number_of_table_error};

use std::alloc::AllocError;
use thiserror::Error;

/// Why a table is refused. A refused table does not exist, and nothing else changes.
#[derive(Clone, Copy, PartialEq, Eq, Debug, Error)]
pub enum TableError {
    /// 1: the element at this place is the first that is not above the one before it.
    #[error("the element at place {0} is not above the one before it")]
    NotRising(usize),
    /// 2: a state table has fewer than 4 classes.
    #[error("there are fewer than 4 classes")]
    FewClasses,
    /// 3: the rule at this place is the first whose class is not below the number of classes.
    #[error("the class of the rule at place {0} is not below the number of classes")]
    ClassOutOfRange(usize),
    /// 4: there are more than 65,535 subtables.
    #[error("there are more than 65535 subtables")]
    TooManySubtables,
    /// 5: memory is wanting for a copy of a slice, or for an array, pages, a grid or starts beside it.
    #[error("out of memory")]
    OutOfMemory,
}

impl TableError {
    /// The error's number, from 1 to 5.
    pub fn number(self) -> u8
        ensures { result ≡ number_of_table_error self }
    {
        match self {
            TableError::NotRising(_) => 1,
            TableError::FewClasses => 2,
            TableError::ClassOutOfRange(_) => 3,
            TableError::TooManySubtables => 4,
            TableError::OutOfMemory => 5,
        }
    }
}

impl From<AllocError> for TableError {
    ghost use Rattle.std.specs.Prelude.{◌≡◌};
    ghost use Rattle.aat_lookup.specs.declared.error.TableError.TheVariants.{OutOfMemory};

    ghost from_gives = { λ _ e. e ≡ OutOfMemory };

    fn from(_: AllocError) -> TableError {
        TableError::OutOfMemory
    }
}
