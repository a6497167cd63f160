//! The states of a machine of bytes, and its rules.
ghost use Rattle.std.specs.Prelude.{◌≡◌, ◌+◌, ◌*◌, ◌^◌, ◌<◌, ◌≤◌, length, true, IfOk, IfSome, ◌&&◌};
ghost use Rattle.aat_read_kern.specs.ByteMachines.{cell_count, has_entry, has_index};
ghost use Rattle.aat_read_kern.specs.ByteStates.{are_closed, closed_rows, entry_of_cell, first_row, missing_entry, missing_index, rows_of, rule_of, rules_of, value_named, whole_rows, with_all_named, with_named};
ghost use Rattle.aat_read_kern.specs.inside.Whole.{AreIndexed, AreNear, AreWhole, HasHeader};

use crate::byte_machine::ByteMachine;
use crate::rows::Rows;
use aat_bytes::{Fault, FaultKind, be16};
use aat_machine_tables::{GenericStateEntry, KernEntryData};
use aat_read_pairs::KERN;
use std::alloc::{AllocError, Allocator};

/// How often rows are taken in at most.
const MOST_TURNS: u32 = 65536;

/// The two highest bits of flags, which say what a machine does.
const ACTS: u16 = 0xC000;

impl ByteMachine {
    /// Some rows, and those up to the one that the entry of a cell names.
    #[tactic(auto, unfolding(crate::specs::ByteStates::with_named, crate::specs::ByteMachines::has_entry))]
    fn with_named(self, rows: Rows, found: Rows, cell: usize, bytes: &[u8]) -> Rows
        requires header { HasHeader bytes.now self }
        requires near { AreNear self rows }
        requires near_found { AreNear self found }
        requires below { cell < cell_count self rows }
        ensures is { result ≡ with_named bytes.now self rows found cell }
        ensures near { AreNear self result }
    {
        if !self.has_index(rows, cell, bytes) || !self.has_entry(rows, cell, bytes) {
            return found;
        }
        let offset = be16(bytes, self.entry_place(rows, cell, bytes));
        Rows {
            behind: found.behind.max(self.rows_behind(offset) + 1),
            before: found.before.max(self.rows_before(offset)),
        }
    }

    /// Some rows, and those up to the furthest ones that they name.
    fn with_all_named(self, rows: Rows, bytes: &[u8]) -> Rows
        requires header { HasHeader bytes.now self }
        requires near { AreNear self rows }
        ensures is { result ≡ with_all_named bytes.now self rows }
        ensures near { AreNear self result }
    {
        let mut found = rows;
        for cell in 0..self.cell_count(rows) {
            found = self.with_named(rows, found, cell, bytes);
        }
        found
    }

    /// The rows of the machine.
    #[tactic(auto, unfolding(crate::specs::ByteStates::rows_of))]
    fn rows(self, bytes: &[u8]) -> Rows
        requires { HasHeader bytes.now self }
        ensures is { result ≡ rows_of bytes.now self }
        ensures near { AreNear self result }
    {
        let mut rows = Rows {
            behind: 1,
            before: 0,
        };
        for _ in 0..MOST_TURNS {
            let next = self.with_all_named(rows, bytes);
            if rows.behind == next.behind && rows.before == next.before {
                return rows;
            }
            rows = next;
        }
        rows
    }

    /// The first cell whose index reaches past the end.
    fn missing_index(self, rows: Rows, bytes: &[u8]) -> Option<usize>
        requires header { HasHeader bytes.now self }
        requires near { AreNear self rows }
        ensures first { result ≡ missing_index bytes.now self rows }
        ensures below { IfSome result (λ cell. cell < cell_count self rows) }
    {
        (0..self.cell_count(rows)).find(|cell| !self.has_index(rows, *cell, bytes))
    }

    /// The first cell whose entry reaches past the end.
    fn missing_entry(self, rows: Rows, bytes: &[u8]) -> Option<usize>
        requires header { HasHeader bytes.now self }
        requires near { AreNear self rows }
        requires indexed { AreIndexed bytes.now self rows }
        ensures first { result ≡ missing_entry bytes.now self rows }
        ensures below { IfSome result (λ cell. cell < cell_count self rows) }
    {
        (0..self.cell_count(rows)).find(|cell| !self.has_entry(rows, *cell, bytes))
    }

    /// The rows of the machine, if they are there with their entries.
    #[tactic(auto, unfolding(crate::specs::ByteStates::whole_rows))]
    pub(crate) fn whole_rows(self, bytes: &[u8]) -> Result<Rows, Fault>
        requires { HasHeader bytes.now self }
        ensures is { result ≡ whole_rows bytes.now self (rows_of bytes.now self) }
        ensures near { IfOk result (λ rows. AreNear self rows) }
        ensures indexed { IfOk result (λ rows. AreIndexed bytes.now self rows) }
        ensures whole { IfOk result (λ rows. AreWhole bytes.now self rows) }
    {
        let rows = self.rows(bytes);
        if let Some(cell) = self.missing_index(rows, bytes) {
            let place = self.row_place(rows, cell, bytes);
            return Err(Fault::new(KERN, FaultKind::PastEnd, place));
        }
        if let Some(cell) = self.missing_entry(rows, bytes) {
            let place = self.entry_place(rows, cell, bytes);
            return Err(Fault::new(KERN, FaultKind::PastEnd, place));
        }
        Ok(rows)
    }

    /// What the flags of an entry name.
    fn value_named(self, flags: u16) -> KernEntryData
        ensures { result ≡ value_named self flags }
    {
        let offset = flags % 16384;
        let value_index = if offset == 0 {
            0xFFFF
        } else if offset < self.values {
            0xFFFE
        } else {
            (offset - self.values) / 2
        };
        KernEntryData { value_index }
    }

    /// The rule of a cell.
    #[tactic(auto, unfolding(crate::specs::ByteMachines::has_entry))]
    fn rule(
        self,
        rows: Rows,
        cell: usize,
        bytes: &[u8],
    ) -> (u16, u16, GenericStateEntry<KernEntryData>)
        requires header { HasHeader bytes.now self }
        requires near { AreNear self rows }
        requires below { cell < cell_count self rows }
        requires indexed { has_index bytes.now self rows cell ≡ true }
        requires whole { has_entry bytes.now self rows cell ≡ true }
        ensures { result ≡ rule_of bytes.now self rows cell }
    {
        let width = self.class_count as usize;
        let place = self.entry_place(rows, cell, bytes);
        let flags = be16(bytes, place + 2);
        let entry = GenericStateEntry {
            new_state: self.state_named(rows, be16(bytes, place)),
            flags: flags & ACTS,
            extra: self.value_named(flags),
        };
        ((cell / width) as u16, (cell % width) as u16, entry)
    }

    /// A rule for each cell.
    pub(crate) fn rules<A: Allocator>(
        self,
        alloc: A,
        rows: Rows,
        bytes: &[u8],
    ) -> Result<Vec<(u16, u16, GenericStateEntry<KernEntryData>), A>, AllocError>
        requires header { HasHeader bytes.now self }
        requires near { AreNear self rows }
        requires indexed { AreIndexed bytes.now self rows }
        requires whole { AreWhole bytes.now self rows }
        ensures { IfOk result (λ rules. rules.items ≡ rules_of bytes.now self rows) }
    {
        (0..self.cell_count(rows))
            .map(|cell| self.rule(rows, cell, bytes))
            .collect(alloc)
    }
}
