//! Classes of glyphs to bytes.
ghost use Rattle.aat_write_sfnt.specs.GlyphClasses.{gdef_written};
ghost use Rattle.aat_write_machine.specs.WriteErrors.{Writes};

use aat_write_machine::{WriteError, append_words};
use std::alloc::Allocator;

/// Writes the classes of glyphs, from glyph 0 on, as a table of version 1.0 with classes of format 1. It has no classes
/// of marks.
///
/// Refused is 2, `TooMany`, more than 65,535 classes. `OutOfMemory` comes only where there are not.
///
/// The reader reads the class of each glyph again, and 0 for the glyphs behind.
pub fn write_gdef<A: Allocator>(alloc: A, classes: &[u16]) -> Result<Vec<u8, A>, WriteError>
    ensures { Writes result (gdef_written classes.now) }
{
    if classes.len() > 65535 {
        return Err(WriteError::TooMany);
    }
    let mut out = Vec::new(alloc);
    append_words(&mut out, &[1, 0, 12, 0, 0, 0, 1, 0, classes.len() as u16])?;
    append_words(&mut out, classes)?;
    Ok(out)
}
