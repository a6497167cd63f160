//! Why a picture is not drawn.

use aat_bytes::Fault;
use std::alloc::{AllocError, AllocFailed};
use std::io::{self, ErrorKind};
use thiserror::Error;

/// Why a picture is not drawn. A part of it may be written then.
#[derive(Debug, Drop, Error)]
pub enum DrawError {
    /// 1: the outline of a glyph has a fault.
    #[error("glyph {0}: {1}")]
    Outline(u16, Fault),
    /// 2: the writer failed.
    #[error("{0}")]
    Writer(io::Error),
    /// 3: memory is wanting, also where it is the writer's.
    #[error("out of memory")]
    OutOfMemory,
}

impl DrawError {
    /// The error's number, from 1 to 3.
    pub fn number(&self) -> u8 {
        match self {
            DrawError::Outline(_, _) => 1,
            DrawError::Writer(_) => 2,
            DrawError::OutOfMemory => 3,
        }
    }
}

impl From<io::Error> for DrawError {
    fn from(error: io::Error) -> DrawError {
        match error.kind() {
            ErrorKind::OutOfMemory => DrawError::OutOfMemory,
            _ => DrawError::Writer(error),
        }
    }
}

impl From<AllocError> for DrawError {
    fn from(_error: AllocError) -> DrawError {
        DrawError::OutOfMemory
    }
}

impl<T: Drop> From<AllocFailed<T>> for DrawError {
    fn from(_error: AllocFailed<T>) -> DrawError {
        DrawError::OutOfMemory
    }
}
