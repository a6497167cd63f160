//! Why the printing of a row stops.

use aat_layout::AatError;
use aat_layout::buffer::BufferError;
use aat_layout::font::TableError;
use std::alloc::{AllocError, AllocFailed};
use std::io;

/// The number of the error for want of memory.
const OUT_OF_MEMORY: u8 = 3;

/// Why the printing of a row stops.
#[derive(Drop)]
pub enum Stop {
    /// A write failed.
    Unwritten,
    /// A call was refused, with this number.
    Refused(u8),
}

impl From<io::Error> for Stop {
    fn from(_: io::Error) -> Stop {
        Stop::Unwritten
    }
}

impl From<AllocError> for Stop {
    fn from(_: AllocError) -> Stop {
        Stop::Refused(OUT_OF_MEMORY)
    }
}

impl<T: Drop> From<AllocFailed<T>> for Stop {
    fn from(_: AllocFailed<T>) -> Stop {
        Stop::Refused(OUT_OF_MEMORY)
    }
}

impl From<BufferError> for Stop {
    fn from(_: BufferError) -> Stop {
        Stop::Refused(OUT_OF_MEMORY)
    }
}

impl From<TableError> for Stop {
    fn from(_: TableError) -> Stop {
        Stop::Refused(OUT_OF_MEMORY)
    }
}

impl From<AatError> for Stop {
    fn from(error: AatError) -> Stop {
        Stop::Refused(error.number())
    }
}
