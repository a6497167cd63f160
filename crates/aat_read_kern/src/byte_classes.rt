//! Class tables of bytes.
ghost use Rattle.std.specs.Prelude.{◌≡◌, IfOk};
ghost use Rattle.aat_read_kern.specs.KernMachines.{byte_classes_at, classes_of};
ghost use Rattle.aat_read_kern.specs.inside.Whole.{HasClasses};

use aat_bytes::{Fault, FaultKind, be16};
use aat_read_pairs::KERN;
use std::alloc::{AllocError, Allocator};

/// A class table of bytes.
#[derive(Clone, Copy)]
pub(crate) struct ByteClasses {
    /// Where its classes start.
    pub(crate) place: usize,
    /// The first glyph.
    pub(crate) first: u16,
    /// The number of glyphs.
    pub(crate) count: usize,
}

impl ByteClasses {
    /// The class table at a place.
    #[tactic(auto, unfolding(crate::specs::KernMachines::byte_classes_at))]
    pub(crate) fn read(bytes: &[u8], place: usize) -> Result<ByteClasses, Fault>
        ensures is { result ≡ byte_classes_at bytes.now place }
        ensures inside { IfOk result (λ table. HasClasses bytes.now table) }
    {
        if bytes.len() < 4 || place > bytes.len() - 4 {
            return Err(Fault::new(KERN, FaultKind::PastEnd, place));
        }
        let first = be16(bytes, place);
        let count = be16(bytes, place + 2) as usize;
        if bytes.len() < place + 4 + count {
            return Err(Fault::new(KERN, FaultKind::PastEnd, place + 4));
        }
        Ok(ByteClasses {
            place: place + 4,
            first,
            count: count.min(65536 - first as usize),
        })
    }

    /// Each glyph with its class.
    pub(crate) fn classes<A: Allocator>(
        self,
        alloc: A,
        bytes: &[u8],
    ) -> Result<Vec<(u16, u16), A>, AllocError>
        requires { HasClasses bytes.now self }
        ensures { IfOk result (λ classes. classes.items ≡ classes_of bytes.now self) }
    {
        (0..self.count)
            .map(|k| (self.first + k as u16, bytes[self.place + k] as u16))
            .collect(alloc)
    }
}
