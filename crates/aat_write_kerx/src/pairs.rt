//! Listed pairs to bytes.
ghost use Rattle.std.specs.Prelude.{◌≡◌, ◌++◌, ◌≤◌, length, IfOk, OnOk};
ghost use Rattle.std.specs.List.{flat_map};
ghost use Rattle.aat_write_machine.specs.Words.{word_bytes};
ghost use Rattle.aat_write_kerx.specs.KerxWriteErrors.{Writes};
ghost use Rattle.aat_write_kerx.specs.PairBytes.{kerning_words, pairs_bytes, pairs_written};

use crate::subtable_error::SubtableWriteError;
use aat_kerning_tables::Pairs;
use aat_lookup::keys::first_fall;
use aat_write_machine::{WriteError, append_longs, append_words};
use std::alloc::{AllocError, Global};

/// How many pairs a subtable may have.
const MOST: usize = 0x0FFF_FFFF;

/// Appends pairs.
fn append_pairs(out: &mut Vec<u8>, pairs: &[(u16, u16, i16)]) -> Result<(), AllocError>
    ensures { OnOk result (out.new.items ≡ out.old.items ++ word_bytes (flat_map kerning_words pairs.now)) }
{
    for pair in pairs {
        append_words(out, &[pair.0, pair.1, pair.2.cast_unsigned()])?;
    }
    Ok(())
}

/// The bytes of pairs with their number.
fn pairs_bytes(alloc: Global, pairs: &[(u16, u16, i16)]) -> Result<Vec<u8>, AllocError>
    requires { length pairs.now ≤ 268435455 }
    ensures { IfOk result (λ out. out.items ≡ pairs_bytes pairs.now) }
{
    let mut out = Vec::new(alloc);
    append_longs(&mut out, &[pairs.len() as u32, 0, 0, 0])?;
    append_pairs(&mut out, pairs)?;
    Ok(out)
}

/// Writes a subtable of format 0 behind its header of 12 bytes.
///
/// Refused in this order: 3, `Pairs`, with `NotRising` and the place of the first pair that is not above the one before
/// it, which never comes from typed pairs, and with `TooMany`, more than 268,435,455 pairs. 8, `OutOfMemory`, may come
/// before any of these is met.
pub(crate) fn write_pairs(alloc: Global, table: &Pairs) -> Result<Vec<u8>, SubtableWriteError>
    ensures { Writes result (pairs_written table.now) }
{
    let pairs = table.pairs();
    if let Some(place) = first_fall(pairs) {
        return Err(SubtableWriteError::Pairs(WriteError::NotRising(place)));
    }
    if pairs.len() > MOST {
        return Err(SubtableWriteError::Pairs(WriteError::TooMany));
    }
    Ok(pairs_bytes(alloc, pairs)?)
}
