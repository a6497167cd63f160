//! Pairs to bytes, and values of kerning.
ghost use Rattle.std.specs.Prelude.{◌≡◌, ◌++◌, ◌+◌, map, OnOk};
ghost use Rattle.std.specs.List.{flat_map};
ghost use Rattle.aat_write_machine.specs.Words.{word_bytes};
ghost use Rattle.aat_write_truetype.specs.kern.KernWriteErrors.{Writes};
ghost use Rattle.aat_write_truetype.specs.kern.PairBytes.{pair_words, pairs_written, value_word};

use crate::kern::error::KernWriteError;
use aat_write_machine::append_words;
use std::alloc::{AllocError, Global};

/// Appends values.
pub(crate) fn append_values(out: &mut Vec<u8>, values: &[i16]) -> Result<(), AllocError>
    ensures { OnOk result (out.new.items ≡ out.old.items ++ word_bytes (map value_word values.now)) }
{
    for value in values {
        append_words(out, &[value.cast_unsigned()])?;
    }
    Ok(())
}

/// Appends pairs.
fn append_pairs(out: &mut Vec<u8>, pairs: &[(u16, u16, i16)]) -> Result<(), AllocError>
    ensures { OnOk result (out.new.items ≡ out.old.items ++ word_bytes (flat_map pair_words pairs.now)) }
{
    for pair in pairs {
        append_words(out, &[pair.0, pair.1, pair.2.cast_unsigned()])?;
    }
    Ok(())
}

/// The bytes of pairs behind the header of their subtable.
pub(crate) fn write_pairs(
    alloc: Global,
    pairs: &[(u16, u16, i16)],
) -> Result<Vec<u8>, KernWriteError>
    ensures { Writes result (pairs_written pairs.now) }
{
    if pairs.len() > 65535 {
        return Err(KernWriteError::TooManyPairs);
    }
    let mut out = Vec::new(alloc);
    append_words(&mut out, &[pairs.len() as u16, 0, 0, 0])?;
    append_pairs(&mut out, pairs)?;
    Ok(out)
}
