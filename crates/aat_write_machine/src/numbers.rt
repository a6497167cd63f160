//! Glyphs, one behind the other.
ghost use Rattle.std.specs.Prelude.{◌≡◌, ◌++◌, OnOk};
ghost use Rattle.aat_write_machine.specs.Words.{word_bytes};
ghost use Rattle.aat_write_machine.specs.Kinds.{glyph_words};

use crate::words::append_words;
use aat_lookup::GlyphId;
use std::alloc::{AllocError, Allocator};

/// Appends glyphs.
pub(crate) fn append_glyphs<A: Allocator>(
    out: &mut Vec<u8, A>,
    glyphs: &[GlyphId],
) -> Result<(), AllocError>
    ensures { OnOk result (out.new.items ≡ out.old.items ++ word_bytes (glyph_words glyphs.now)) }
{
    for glyph in glyphs {
        append_words(out, &[glyph.0])?;
    }
    Ok(())
}
