//! What stands for a kerning value.
ghost use Rattle.std.specs.Prelude.{◌≡◌, ◌+◌, ◌<◌, ◌^◌};
ghost use Rattle.aat_read_pairs.specs.KerningValues.{kerning_value, no_tuples};

use aat_bytes::be16;

/// The tuples of a subtable, if it has some: then a number that stands for a value is the offset of its tuple.
#[derive(Clone, Copy)]
pub(crate) struct Tuples {
    /// Where the offsets count from.
    pub(crate) place: usize,
    /// How many values a tuple has, and 0 where there are no tuples.
    pub(crate) count: u32,
}

impl Tuples {
    /// No tuples.
    pub(crate) fn none() -> Tuples
        ensures { result ≡ no_tuples }
    {
        Tuples { place: 0, count: 0 }
    }

    /// The value of a number.
    pub(crate) fn value(self, bytes: &[u8], number: u16) -> i16
        requires { self.place < 2 ^ 63 + 2 ^ 32 }
        ensures { result ≡ kerning_value bytes.now self number }
    {
        if self.count == 0 {
            return number.cast_signed();
        }
        let place = self.place + number as usize;
        if bytes.len() < place + 2 * self.count as usize {
            return 0;
        }
        be16(bytes, place).cast_signed()
    }
}
