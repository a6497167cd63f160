//! Horizontal metrics to bytes.
ghost use Rattle.std.specs.Prelude.{◌≡◌, ◌++◌, IfOk, OnOk};
ghost use Rattle.std.specs.List.{flat_map};
ghost use Rattle.aat_write_sfnt.specs.LongMetrics.{hhea_words, hmtx_written, metric_words};
ghost use Rattle.aat_write_machine.specs.Words.{word_bytes};
ghost use Rattle.aat_write_machine.specs.WriteErrors.{Writes};

use aat_write_machine::{WriteError, append_words};
use std::alloc::{AllocError, Allocator};

/// Writes the number of long metrics as a table of version 1. The other fields are 0. It fails only where memory is
/// wanting.
///
/// The reader reads the number again. Apple's TrueType Reference Manual, "The 'hhea' table".
pub fn write_hhea<A: Allocator>(alloc: A, long_count: u16) -> Result<Vec<u8, A>, AllocError>
    ensures { IfOk result (λ out. out.items ≡ word_bytes (hhea_words long_count)) }
{
    let mut out = Vec::new(alloc);
    append_words(&mut out, &[1, 0])?;
    append_words(&mut out, &[0; 15])?;
    append_words(&mut out, &[long_count])?;
    Ok(out)
}

/// Appends long metrics, each with a bearing of 0.
fn append_metrics<A: Allocator>(out: &mut Vec<u8, A>, advances: &[u16]) -> Result<(), AllocError>
    ensures { OnOk result (out.new.items ≡ out.old.items ++ word_bytes (flat_map metric_words advances.now)) }
{
    for advance in advances {
        append_words(out, &[*advance, 0])?;
    }
    Ok(())
}

/// Writes the advances of glyphs, in units of the font, from glyph 0 on, as long metrics. Their bearings are 0.
///
/// Refused is 2, `TooMany`, more than 65,535 advances. `OutOfMemory` comes only where there are not.
///
/// The reader reads the advance of each glyph again, and gives the last one to the glyphs behind. Apple's TrueType
/// Reference Manual, "The 'hmtx' table".
pub fn write_hmtx<A: Allocator>(alloc: A, advances: &[u16]) -> Result<Vec<u8, A>, WriteError>
    ensures { Writes result (hmtx_written advances.now) }
{
    if advances.len() > 65535 {
        return Err(WriteError::TooMany);
    }
    let mut out = Vec::new(alloc);
    append_metrics(&mut out, advances)?;
    Ok(out)
}
