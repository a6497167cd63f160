//! The maximum profile and the font header to bytes.
ghost use Rattle.std.specs.Prelude.{◌≡◌, IfOk};
ghost use Rattle.aat_write_sfnt.specs.Headers.{head_words, maxp_words};
ghost use Rattle.aat_write_machine.specs.Words.{word_bytes};

use aat_write_machine::append_words;
use std::alloc::{AllocError, Allocator};

/// Writes the number of glyphs as a table of version 0.5, which has nothing else. It fails only where memory is
/// wanting.
///
/// The reader reads the number again. Apple's TrueType Reference Manual, "The 'maxp' table".
pub fn write_maxp<A: Allocator>(alloc: A, glyph_count: u16) -> Result<Vec<u8, A>, AllocError>
    ensures { IfOk result (λ out. out.items ≡ word_bytes (maxp_words glyph_count)) }
{
    let mut out = Vec::new(alloc);
    append_words(&mut out, &[0, 0x5000, glyph_count])?;
    Ok(out)
}

/// Writes the units of the em as a table of version 1 with the magic number. The other fields are 0. It fails only
/// where memory is wanting.
///
/// The reader reads the units again, or 1,000 where they are not from 16 to 16,384, which it does not believe. Apple's
/// TrueType Reference Manual, "The 'head' table".
pub fn write_head<A: Allocator>(alloc: A, units_per_em: u16) -> Result<Vec<u8, A>, AllocError>
    ensures { IfOk result (λ out. out.items ≡ word_bytes (head_words units_per_em)) }
{
    let mut out = Vec::new(alloc);
    append_words(
        &mut out,
        &[1, 0, 0, 0, 0, 0, 0x5F0F, 0x3CF5, 0, units_per_em],
    )?;
    append_words(&mut out, &[0; 17])?;
    Ok(out)
}
