//! Numbers of 32 bits.
ghost use Rattle.std.specs.Prelude.{◌≡◌, ◌++◌, OnOk};
ghost use Rattle.aat_write_machine.specs.Words.{long, word_bytes};

use aat_write_machine::append_words;
use std::alloc::{AllocError, Allocator};

/// Appends a number of 32 bits, big-endian.
pub(crate) fn append_long<A: Allocator>(out: &mut Vec<u8, A>, number: u32) -> Result<(), AllocError>
    ensures { OnOk result (out.new.items ≡ out.old.items ++ word_bytes (long number)) }
{
    append_words(out, &[(number / 65536) as u16, (number % 65536) as u16])
}
