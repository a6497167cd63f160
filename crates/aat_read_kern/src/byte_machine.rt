//! The header and the cells of a machine of bytes.
ghost use Rattle.std.specs.Prelude.{◌≡◌, ◌+◌, ◌*◌, ◌^◌, ◌<◌, ◌≤◌, length, true, IfOk};
ghost use Rattle.aat_read_kern.specs.ByteMachines.{byte_machine_at, cell_count, entry_place, has_entry, has_index, index_place, row_offset, row_place, rows_before, rows_behind, state_named};
ghost use Rattle.aat_read_kern.specs.inside.Whole.{AreNear, HasHeader};

use crate::rows::Rows;
use aat_bytes::{Fault, FaultKind, be16};
use aat_read_pairs::KERN;

/// A machine of bytes.
#[derive(Clone, Copy)]
pub(crate) struct ByteMachine {
    /// Where it starts.
    pub(crate) place: usize,
    /// The number of classes.
    pub(crate) class_count: u16,
    /// The offset of the class table.
    pub(crate) classes: u16,
    /// The offset of the row of the first state.
    pub(crate) states: u16,
    /// The offset of the entries.
    pub(crate) entries: u16,
    /// The offset of the values.
    pub(crate) values: u16,
}

impl ByteMachine {
    /// The machine at a place.
    #[tactic(auto, unfolding(crate::specs::ByteMachines::byte_machine_at))]
    pub(crate) fn read(bytes: &[u8], place: usize) -> Result<ByteMachine, Fault>
        ensures is { result ≡ byte_machine_at bytes.now place }
        ensures header { IfOk result (λ m. HasHeader bytes.now m) }
    {
        if bytes.len() < 10 || place > bytes.len() - 10 {
            return Err(Fault::new(KERN, FaultKind::PastEnd, place));
        }
        let class_count = be16(bytes, place);
        if class_count < 4 {
            return Err(Fault::new(KERN, FaultKind::ShortLength, place));
        }
        Ok(ByteMachine {
            place,
            class_count,
            classes: be16(bytes, place + 2),
            states: be16(bytes, place + 4),
            entries: be16(bytes, place + 6),
            values: be16(bytes, place + 8),
        })
    }

    /// How many rows behind the first state an offset names one.
    pub(crate) fn rows_behind(self, offset: u16) -> usize
        requires { 3 < self.class_count }
        ensures is { result ≡ rows_behind self offset }
        ensures few { result < 16384 }
    {
        (offset.saturating_sub(self.states) / self.class_count) as usize
    }

    /// How many rows before the first state an offset names one.
    pub(crate) fn rows_before(self, offset: u16) -> usize
        requires { 3 < self.class_count }
        ensures is { result ≡ rows_before self offset }
        ensures few { result < 16384 }
        ensures inside { result * self.class_count ≤ self.states }
    {
        (self.states.saturating_sub(offset) / self.class_count) as usize
    }

    /// The number of the state that an offset names.
    pub(crate) fn state_named(self, rows: Rows, offset: u16) -> u16
        requires classes { 3 < self.class_count }
        requires near { AreNear self rows }
        ensures { result ≡ state_named self rows offset }
    {
        let before = self.rows_before(offset);
        if before == 0 {
            return self.rows_behind(offset) as u16;
        }
        (rows.behind + before - 1) as u16
    }

    /// The number of cells.
    pub(crate) fn cell_count(self, rows: Rows) -> usize
        requires classes { 3 < self.class_count }
        requires near { AreNear self rows }
        ensures is { result ≡ cell_count self rows }
        ensures few { result < 2 ^ 31 }
    {
        (rows.behind + rows.before) * self.class_count as usize
    }

    /// How far the row of a state starts from the place of the machine.
    fn row_offset(self, rows: Rows, state: usize) -> usize
        requires near { AreNear self rows }
        requires below { state < rows.behind + rows.before }
        ensures is { result ≡ row_offset self rows state }
        ensures few { result < 2 ^ 31 }
    {
        let width = self.class_count as usize;
        if state < rows.behind {
            return self.states as usize + state * width;
        }
        self.states as usize - (state + 1 - rows.behind) * width
    }

    /// Where the row of a cell starts.
    pub(crate) fn row_place(self, rows: Rows, cell: usize, bytes: &[u8]) -> usize
        requires header { HasHeader bytes.now self }
        requires near { AreNear self rows }
        requires below { cell < cell_count self rows }
        ensures is { result ≡ row_place self rows cell }
        ensures few { result < 2 ^ 63 + 2 ^ 31 }
    {
        self.place + self.row_offset(rows, cell / self.class_count as usize)
    }

    /// Where the index of a cell stands.
    fn index_place(self, rows: Rows, cell: usize, bytes: &[u8]) -> usize
        requires header { HasHeader bytes.now self }
        requires near { AreNear self rows }
        requires below { cell < cell_count self rows }
        ensures { result ≡ index_place self rows cell }
    {
        self.row_place(rows, cell, bytes) + cell % self.class_count as usize
    }

    /// Whether the index of a cell stands inside.
    #[tactic(auto, unfolding(crate::specs::ByteMachines::has_index))]
    pub(crate) fn has_index(self, rows: Rows, cell: usize, bytes: &[u8]) -> bool
        requires header { HasHeader bytes.now self }
        requires near { AreNear self rows }
        requires below { cell < cell_count self rows }
        ensures { result ≡ has_index bytes.now self rows cell }
    {
        self.index_place(rows, cell, bytes) < bytes.len()
    }

    /// Where the entry of a cell stands.
    #[tactic(auto, unfolding(crate::specs::ByteMachines::has_index))]
    pub(crate) fn entry_place(self, rows: Rows, cell: usize, bytes: &[u8]) -> usize
        requires header { HasHeader bytes.now self }
        requires near { AreNear self rows }
        requires below { cell < cell_count self rows }
        requires indexed { has_index bytes.now self rows cell ≡ true }
        ensures is { result ≡ entry_place bytes.now self rows cell }
        ensures few { result < 2 ^ 63 + 2 ^ 31 }
    {
        let index = bytes[self.index_place(rows, cell, bytes)];
        self.place + self.entries as usize + 4 * index as usize
    }

    /// Whether the entry of a cell stands inside.
    #[tactic(auto, unfolding(crate::specs::ByteMachines::has_entry))]
    pub(crate) fn has_entry(self, rows: Rows, cell: usize, bytes: &[u8]) -> bool
        requires header { HasHeader bytes.now self }
        requires near { AreNear self rows }
        requires below { cell < cell_count self rows }
        requires indexed { has_index bytes.now self rows cell ≡ true }
        ensures { result ≡ has_entry bytes.now self rows cell }
    {
        self.entry_place(rows, cell, bytes) + 4 <= bytes.len()
    }
}
