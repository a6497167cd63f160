//! Lookups to bytes.
ghost use Rattle.std.specs.Prelude.{◌≡◌, ◌++◌, OnOk};
ghost use Rattle.std.specs.List.{flat_map};
ghost use Rattle.aat_write_machine.specs.Lookups.{lookup_written, pair_words};
ghost use Rattle.aat_write_machine.specs.Words.{word_bytes};
ghost use Rattle.aat_write_machine.specs.WriteErrors.{Appends, Writes};

use crate::words::append_words;
use crate::write_error::WriteError;
use aat_lookup::keys::first_fall;
use std::alloc::{AllocError, Allocator};

/// Appends the units of pairs.
fn append_pairs<A: Allocator>(out: &mut Vec<u8, A>, pairs: &[(u16, u16)]) -> Result<(), AllocError>
    ensures { OnOk result (out.new.items ≡ out.old.items ++ word_bytes (flat_map pair_words pairs.now)) }
{
    for pair in pairs {
        append_words(out, &[pair.0, pair.1])?;
    }
    Ok(())
}

/// Appends a lookup of format 6 behind what is there already, as `write_lookup` writes it.
///
/// Refused as there, and then nothing is appended. Where memory is wanting, a part may stand behind what was there.
pub fn append_lookup<A: Allocator>(
    out: &mut Vec<u8, A>,
    pairs: &[(u16, u16)],
) -> Result<(), WriteError>
    ensures { Appends result out.old.items out.new.items (lookup_written pairs.now) }
{
    if let Some(place) = first_fall(pairs) {
        return Err(WriteError::NotRising(place));
    }
    if pairs.len() > 65534 {
        return Err(WriteError::TooMany);
    }
    append_words(out, &[6, 4, pairs.len() as u16 + 1, 0, 0, 0])?;
    append_pairs(out, pairs)?;
    append_words(out, &[0xFFFF, 0xFFFF])?;
    Ok(())
}

/// Writes pairs of a glyph and its value, which have to rise strictly by glyph, as a lookup of format 6. A terminator
/// is counted as its last unit. The three numbers for a search are 0.
///
/// Refused in this order: 1, `NotRising`, with the place of the first pair that is not above the one before it; 2,
/// `TooMany`, more than 65,534 pairs. `OutOfMemory` comes only where neither holds.
///
/// The reader reads the pairs again, at any place of a table. Apple's TrueType Reference Manual, "Font Tables", section
/// on lookup tables.
pub fn write_lookup<A: Allocator>(alloc: A, pairs: &[(u16, u16)]) -> Result<Vec<u8, A>, WriteError>
    ensures { Writes result (lookup_written pairs.now) }
{
    let mut out = Vec::new(alloc);
    append_lookup(&mut out, pairs)?;
    Ok(out)
}
