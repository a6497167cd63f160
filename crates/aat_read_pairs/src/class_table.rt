//! Class tables of `kern`.
ghost use Rattle.std.specs.Prelude.{◌≡◌, ◌+◌, ◌*◌, ◌^◌, ◌<◌, ◌≤◌, length, IfOk};
ghost use Rattle.aat_read_pairs.specs.ClassTables.{class_table_at, offset_of, offset_place};
ghost use Rattle.aat_read_pairs.specs.inside.Inside.{HasOffsets};

use aat_bytes::tags::KERN;
use aat_bytes::{Fault, FaultKind, be16};

/// A class table.
#[derive(Clone, Copy)]
pub(crate) struct ClassTable {
    /// Where its offsets start.
    pub(crate) offsets: usize,
    /// The first glyph.
    pub(crate) first: u16,
    /// The number of glyphs.
    pub(crate) count: usize,
}

impl ClassTable {
    /// The class table at a place.
    #[tactic(auto, unfolding(crate::specs::ClassTables::class_table_at))]
    pub(crate) fn read(bytes: &[u8], place: usize) -> Result<ClassTable, Fault>
        ensures is { result ≡ class_table_at bytes.now place }
        ensures inside { IfOk result (λ table. HasOffsets bytes.now table) }
    {
        if bytes.len() < 4 || place > bytes.len() - 4 {
            return Err(Fault::new(KERN, FaultKind::PastEnd, place));
        }
        let first = be16(bytes, place);
        let count = be16(bytes, place + 2) as usize;
        if bytes.len() < place + 4 + 2 * count {
            return Err(Fault::new(KERN, FaultKind::PastEnd, place + 4));
        }
        Ok(ClassTable {
            offsets: place + 4,
            first,
            count: count.min(65536 - first as usize),
        })
    }

    /// Where the offset of the glyph stands that is so many glyphs behind the first.
    pub(crate) fn place(self, k: usize, bytes: &[u8]) -> usize
        requires inside { HasOffsets bytes.now self }
        requires below { k < self.count }
        ensures { result ≡ offset_place self k }
    {
        self.offsets + 2 * k
    }

    /// The offset of that glyph.
    pub(crate) fn offset(self, k: usize, bytes: &[u8]) -> u16
        requires inside { HasOffsets bytes.now self }
        requires below { k < self.count }
        ensures { result ≡ offset_of bytes.now self k }
    {
        be16(bytes, self.place(k, bytes))
    }
}
