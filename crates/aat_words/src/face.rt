//! A font is read into an arena.

use aat_bytes::ReadError;
use aat_face::Face;
use bumpalo::Bump;
use std::alloc::Global;

/// Reads a font of the bytes of a file, by its index in the file, into an arena, which has it as long as it stands. An
/// arena lets nothing go: what the font's tables have of `alloc` is kept to the end of the program.
///
/// An error is that of `Face::read`, or says that the arena has no room.
pub(crate) fn read_face<'b>(
    alloc: Global,
    arena: &'b Bump,
    bytes: &'b [u8],
    index: u32,
) -> Result<&'b Face<'b>, ReadError> {
    let face = Face::read(alloc, bytes, index)?;
    Ok(arena.try_alloc(face)?)
}
