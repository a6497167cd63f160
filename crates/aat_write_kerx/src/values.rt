//! Kerning values to bytes.
ghost use Rattle.std.specs.Prelude.{◌≡◌, ◌++◌, OnOk};
ghost use Rattle.aat_write_kerx.specs.PairBytes.{value_bytes};

use aat_write_machine::append_words;
use std::alloc::AllocError;

/// Appends values.
pub(crate) fn append_values(out: &mut Vec<u8>, values: &[i16]) -> Result<(), AllocError>
    ensures { OnOk result (out.new.items ≡ out.old.items ++ value_bytes values.now) }
{
    for value in values {
        append_words(out, &[value.cast_unsigned()])?;
    }
    Ok(())
}
