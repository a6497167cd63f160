//! Why a call of the buffer is refused.
ghost use Rattle.std.specs.Prelude.{◌≡◌};
ghost use Rattle.aat_glyph.specs.Errors.{error_number};

use thiserror::Error;

/// Why a call of the buffer is refused. After either, the buffer has failed for good, and its line, cursor and
/// positions are as before the call; a refused `clear_positions` alone leaves no positions.
#[derive(Clone, Copy, PartialEq, Eq, Debug, Error)]
pub enum BufferError {
    /// 1: the line would pass its greatest length. This is looked for before memory is.
    #[error("the line would be too long")]
    TooLong = 1,

    /// 2: memory is wanting.
    #[error("out of memory")]
    OutOfMemory = 2,
}

impl BufferError {
    /// The number of the error: 1 for `TooLong`, 2 for `OutOfMemory`.
    pub fn number(self) -> u8
        ensures { result ≡ error_number self }
    {
        self as u8
    }
}
