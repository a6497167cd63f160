//! Numbers of 16 and of 32 bits, one behind the other.
ghost use Rattle.std.specs.Prelude.{◌≡◌, ◌++◌, OnOk};
ghost use Rattle.aat_write_machine.specs.Words.{long_bytes, word_bytes};

use std::alloc::{AllocError, Allocator};

/// Appends numbers of 16 bits, big-endian.
pub fn append_words<A: Allocator>(out: &mut Vec<u8, A>, words: &[u16]) -> Result<(), AllocError>
    ensures { OnOk result (out.new.items ≡ out.old.items ++ word_bytes words.now) }
{
    for word in words {
        out.extend_from_slice(&word.to_be_bytes())?;
    }
    Ok(())
}

/// Appends numbers of 32 bits, big-endian.
pub fn append_longs<A: Allocator>(out: &mut Vec<u8, A>, longs: &[u32]) -> Result<(), AllocError>
    ensures { OnOk result (out.new.items ≡ out.old.items ++ long_bytes longs.now) }
{
    for long in longs {
        out.extend_from_slice(&long.to_be_bytes())?;
    }
    Ok(())
}
