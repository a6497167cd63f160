//! The state array and the entries of a state table.
ghost use Rattle.std.specs.Prelude.{◌≡◌, ◌+◌, ◌*◌, ◌^◌, ◌<◌, ◌≤◌, ℕ, true, ◌-◌, false, IfOk, IfSome, MatchResult, Ok, Err, drop, length, nat_le, take};
ghost use Rattle.aat_bytes.specs.Numbers.{be16};
ghost use Rattle.aat_read_machine.specs.Entries.{entry_at};
ghost use Rattle.aat_read_machine.specs.inside.OfRows.{AreNamed, entries_of};
ghost use Rattle.aat_read_machine.specs.inside.Passed.{AskFor, IsWalk, NameBelow, entry_lookups, entry_states};
ghost use Rattle.aat_read_machine.specs.Lookups.{lookup_count, lookups_to};
ghost use Rattle.aat_read_machine.specs.Room.{room_left};
ghost use Rattle.aat_read_machine.specs.StateArray.{AreIndexed, AreWhole, cells_of, class_place, entry_place, has_entry, has_index, header_at, index_place, missing_entry, past_end, row_fault, rule_of, rules_of, state_array_at, states_of};

use crate::entry_read::EntryRead;
use aat_bytes::{Fault, FaultKind, Tag, be16, be32};
use aat_machine_tables::GenericStateEntry;
use std::alloc::{AllocError, Allocator};
use std::marker::Model;

/// A state table, whose cells are the indexes of its rows, row by row. A contract sees it as the record `StateArray`.
///
/// Apple's TrueType Reference Manual, "Font Tables", section on state tables.
#[derive(Drop)]
pub(crate) struct StateArray<'a> {
    table: Tag,
    place: usize,
    bytes: &'a [u8],
    class_count: u16,
    classes: u32,
    states: u32,
    entries: u32,
    entry_size: u16,
}

/// What a walk over the cells of rows has found: how many states there are at least, a number that the index of each
/// cell is below, and how many of the first entries name none but these states.
#[derive(Clone, Copy)]
pub(crate) struct Walk {
    count: usize,
    reach: usize,
    passed: usize,
}

/// The cells of a state table: how many there are, and a number that the index of each is below.
#[derive(Clone, Copy)]
pub(crate) struct Cells {
    pub(crate) count: usize,
    pub(crate) entries: usize,
}

impl<'a> Model for StateArray<'a> {
    ghost use Rattle.std.specs.Prelude.{◌+◌, ◌^◌, ◌<◌};
    ghost use Rattle.aat_read_machine.specs.StateArray.{StateArray};

    ghost Value = { StateArray };

    ghost view = { λ m. record {
      table = m.table;
      place = m.place;
      bytes = m.bytes.now;
      class_count = m.class_count;
      classes = m.classes;
      states = m.states;
      entries = m.entries;
      entry_size = m.entry_size;
    } };

    ghost invariant = { λ m. (3 < m.class_count) × (3 < m.entry_size) × (m.place < 2 ^ 63) };
}

/// The state table at the start of bytes, which stand at a place of the table.
#[tactic(auto, unfolding(crate::specs::StateArray::header_at))]
fn header_at(
    table: Tag,
    place: usize,
    extra_size: u8,
    bytes: &[u8],
) -> Result<StateArray<'_>, Fault>
    requires whole { 16 ≤ length bytes.now }
    requires inside { place < 2 ^ 63 }
    ensures header { result ≡ header_at table place extra_size bytes.now }
    ensures size { IfOk result (λ m. m.entry_size ≡ 4 + extra_size) }
{
    let class_count = be32(bytes, 0);
    if class_count < 4 {
        return Err(Fault::new(table, FaultKind::ShortLength, place));
    }
    if class_count > 65535 {
        return Err(Fault::new(table, FaultKind::PastEnd, place));
    }
    Ok(StateArray {
        table,
        place,
        bytes,
        class_count: class_count as u16,
        classes: be32(bytes, 4),
        states: be32(bytes, 8),
        entries: be32(bytes, 12),
        entry_size: 4 + extra_size as u16,
    })
}

impl<'a> StateArray<'a> {
    /// The state table at a place of a table, whose entries have so many bytes beside a state and flags.
    #[tactic(auto, unfolding(crate::specs::StateArray::state_array_at))]
    pub(crate) fn read(
        table: Tag,
        bytes: &'a [u8],
        place: usize,
        extra_size: u8,
    ) -> Result<StateArray<'a>, Fault>
        ensures array { result ≡ state_array_at table bytes.now place extra_size }
        ensures size { IfOk result (λ m. m.entry_size ≡ 4 + extra_size) }
    {
        if bytes.len() < 16 || place > bytes.len() - 16 {
            return Err(Fault::new(table, FaultKind::PastEnd, place));
        }
        header_at(table, place, extra_size, &bytes[place..])
    }

    /// Where the class table starts.
    pub(crate) fn class_place(&self) -> usize
        ensures { result ≡ class_place self.now }
    {
        self.place + self.classes as usize
    }

    /// The number of classes.
    pub(crate) fn class_count(&self) -> u16
        ensures { result ≡ self.now.class_count }
    {
        self.class_count
    }

    /// The room for lookups that so many cells leave.
    pub(crate) fn room_left(&self, cells: usize) -> usize
        requires { cells < 2 ^ 33 }
        ensures room { result ≡ room_left self.now cells }
        ensures small { result < 2 ^ 63 }
    {
        self.bytes.len().saturating_sub(2 * cells)
    }

    /// The place of the index of a cell.
    fn index_place(&self, cell: usize) -> usize
        requires { cell < 2 ^ 33 }
        ensures place { result ≡ index_place self.now cell }
        ensures small { result < 2 ^ 35 }
    {
        self.states as usize + 2 * cell
    }

    /// Whether the index of a cell stands inside.
    #[tactic(auto, unfolding(crate::specs::StateArray::has_index))]
    fn has_index(&self, cell: usize) -> bool
        requires { cell < 2 ^ 33 }
        ensures { result ≡ has_index self.now cell }
    {
        self.index_place(cell) + 2 <= self.bytes.len()
    }

    /// The index of a cell.
    #[tactic(auto, unfolding(crate::specs::StateArray::has_index))]
    fn index(&self, cell: usize) -> u16
        requires small { cell < 2 ^ 33 }
        requires indexed { has_index self.now cell ≡ true }
        ensures { result ≡ be16 self.now.bytes (index_place self.now cell) }
    {
        be16(self.bytes, self.index_place(cell))
    }

    /// The place of the entry of a cell.
    #[tactic(auto, unfolding(crate::specs::StateArray::has_index))]
    fn entry_place(&self, cell: usize) -> usize
        requires small { cell < 2 ^ 33 }
        requires indexed { has_index self.now cell ≡ true }
        ensures place { result ≡ entry_place self.now cell }
        ensures small { result < 2 ^ 33 }
    {
        self.entries as usize + self.entry_size as usize * self.index(cell) as usize
    }

    /// Whether the entry of a cell stands inside.
    #[tactic(auto, unfolding(crate::specs::StateArray::has_entry))]
    fn has_entry(&self, cell: usize) -> bool
        requires small { cell < 2 ^ 33 }
        requires indexed { has_index self.now cell ≡ true }
        ensures { result ≡ has_entry self.now cell }
    {
        self.entry_place(cell) + self.entry_size as usize <= self.bytes.len()
    }

    /// The fault of bytes that are not there.
    fn past_end(&self, place: usize) -> Fault
        requires { place < 2 ^ 62 }
        ensures { result ≡ past_end self.now place }
    {
        Fault::new(self.table, FaultKind::PastEnd, self.place + place)
    }

    /// The fault of the row of a cell.
    fn row_fault(&self, cell: usize) -> Fault
        requires { cell < 2 ^ 33 }
        ensures { result ≡ row_fault self.now cell }
    {
        let width = self.class_count as usize;
        self.past_end(self.index_place(cell / width * width))
    }

    /// How many states there are at least by the entry of an index: none where it reaches past the end.
    fn entry_states(&self, index: usize) -> usize
        requires { index < 65536 }
        ensures named { result ≡ entry_states self.now index }
        ensures few { result ≤ 65536 }
    {
        let place = self.entries as usize + self.entry_size as usize * index;
        if place + self.entry_size as usize <= self.bytes.len() {
            be16(self.bytes, place) as usize + 1
        } else {
            0
        }
    }

    /// How many of the entries up to an index, behind some that do, name one of so many states, or none.
    fn passed_states(&self, index: usize, count: usize, passed: usize) -> usize
        requires index { index < 65536 }
        requires before { NameBelow self.now passed count }
        requires within { passed ≤ index }
        ensures names { NameBelow self.now result count }
        ensures within { result ≤ index + 1 }
    {
        let mut passed = passed;
        while passed <= index && self.entry_states(passed) <= count {
            passed += 1;
        }
        passed
    }

    /// What a walk has found one cell later.
    ///
    /// It stands apart, so that the loop over cells that tell nothing new stays short.
    #[inline(never)]
    fn walk_on(&self, walk: Walk, cell: usize) -> Walk
        requires small { cell < 2 ^ 33 }
        requires indexed { has_index self.now cell ≡ true }
        requires below { cell < walk.count * self.now.class_count }
        requires walk { IsWalk self.now cell walk }
        requires new { walk.passed ≤ be16 self.now.bytes (index_place self.now cell) }
        ensures walk { IsWalk self.now (cell + 1) result }
        ensures rises { walk.count ≤ result.count }
    {
        let index = self.index(cell) as usize;
        let count = walk.count.max(self.entry_states(index));
        let passed = self.passed_states(index, count, walk.passed);
        let reach = walk.reach.max(index + 1);
        Walk {
            count,
            reach,
            passed,
        }
    }

    /// What a walk has found one row later. Most cells name an entry that is known to name no other state.
    fn walk_row(&self, walk: Walk, row: usize) -> Walk
        requires small { row + self.now.class_count ≤ 2 ^ 33 }
        requires indexed { AreIndexed self.now (row + self.now.class_count) }
        requires below { row + self.now.class_count ≤ walk.count * self.now.class_count }
        requires walk { IsWalk self.now row walk }
        ensures walk { IsWalk self.now (row + self.now.class_count) result }
        ensures rises { walk.count ≤ result.count }
    {
        let mut walk = walk;
        for cell in row..row + self.class_count as usize {
            if self.index(cell) as usize >= walk.passed {
                walk = self.walk_on(walk, cell);
            }
        }
        walk
    }

    /// The first cell from the start of a row on whose index is missing, where one of the row's is.
    fn missing_from(&self, row: usize) -> usize
        requires small { row + self.now.class_count ≤ 2 ^ 33 }
        requires some { 0 < self.now.class_count }
        requires missing { has_index self.now (row + self.now.class_count - 1) ≡ false }
        requires before { AreIndexed self.now row }
        ensures missing { has_index self.now result ≡ false }
        ensures before { AreIndexed self.now result }
        ensures within { result < row + self.now.class_count }
    {
        let mut cell = row;
        while self.has_index(cell) {
            cell += 1;
        }
        cell
    }

    /// The number of states and what their cells name, if their rows are there, or else the first row that is not.
    fn states(&self) -> Result<Walk, Fault>
        ensures states { MatchResult result (λ walk. states_of self.now ≡ Ok walk.count)
            (λ e. states_of self.now ≡ Err e) }
        ensures few { IfOk result (λ walk. walk.count ≤ 65536) }
        ensures indexed { IfOk result (λ walk. AreIndexed self.now (walk.count * self.now.class_count)) }
        ensures walk { IfOk result (λ walk. IsWalk self.now (walk.count * self.now.class_count) walk) }
    {
        let width = self.class_count as usize;
        let mut walk = Walk {
            count: 1,
            reach: 0,
            passed: 0,
        };
        let mut state = 0;
        while state < walk.count {
            let row = state * width;
            if !self.has_index(row + width - 1) {
                return Err(self.row_fault(self.missing_from(row)));
            }
            walk = self.walk_row(walk, row);
            state += 1;
        }
        Ok(walk)
    }

    /// Whether so many entries stand inside.
    pub(crate) fn has_entries(&self, entries: usize) -> bool
        requires { entries ≤ 65536 }
        ensures { result ≡ nat_le (self.now.entries + self.now.entry_size * entries) (length self.now.bytes) }
    {
        self.entries as usize + self.entry_size as usize * entries <= self.bytes.len()
    }

    /// The first of so many cells whose entry reaches past the end. None does where none of those entries does of which
    /// each cell names one.
    fn missing_entry(&self, cells: usize, entries: usize) -> Option<usize>
        requires small { cells < 2 ^ 33 }
        requires few { entries ≤ 65536 }
        requires indexed { AreIndexed self.now cells }
        requires named { AreNamed self.now cells entries }
        ensures first { result ≡ missing_entry self.now cells }
        ensures below { IfSome result (λ cell. cell < cells) }
    {
        if self.has_entries(entries) {
            return None;
        }
        (0..cells).find(|cell| !self.has_entry(*cell))
    }

    /// The cells, if rows and entries are there, or else the first row or else the first entry that is not.
    #[tactic(auto, unfolding(crate::specs::StateArray::cells_of))]
    pub(crate) fn cells(&self) -> Result<Cells, Fault>
        ensures cells { MatchResult result (λ cells. cells_of self.now ≡ Ok cells.count)
            (λ e. cells_of self.now ≡ Err e) }
        ensures few { IfOk result (λ cells. cells.count ≤ 65536 * self.now.class_count) }
        ensures small { IfOk result (λ cells. cells.count < 2 ^ 33) }
        ensures some { IfOk result (λ cells. 0 < cells.count) }
        ensures indexed { IfOk result (λ cells. AreIndexed self.now cells.count) }
        ensures whole { IfOk result (λ cells. AreWhole self.now cells.count) }
        ensures named { IfOk result (λ cells. AreNamed self.now cells.count cells.entries) }
        ensures known { IfOk result (λ cells. cells.entries ≤ 65536) }
    {
        let walk = self.states()?;
        let count = walk.count * self.class_count as usize;
        match self.missing_entry(count, walk.reach) {
            Some(cell) => Err(self.past_end(self.entry_place(cell))),
            None => Ok(Cells {
                count,
                entries: walk.reach,
            }),
        }
    }

    /// The rule of a state and a class with the entry of a cell.
    #[inline(always)]
    #[tactic(auto, unfolding(crate::specs::StateArray::has_entry))]
    fn rule_at<T: EntryRead>(
        &self,
        cell: usize,
        state: u16,
        class: u16,
    ) -> (u16, u16, GenericStateEntry<T>)
        requires small { cell < 2 ^ 33 }
        requires size { self.now.entry_size ≡ 4 + T.SIZE }
        requires indexed { has_index self.now cell ≡ true }
        requires whole { has_entry self.now cell ≡ true }
        ensures { result ≡ (state, class, entry_at T.extra_at self.now.bytes (entry_place self.now cell)) }
    {
        let place = self.entry_place(cell);
        let entry = GenericStateEntry {
            new_state: be16(self.bytes, place),
            flags: be16(self.bytes, place + 2),
            extra: T::read(self.bytes, place + 4),
        };
        (state, class, entry)
    }

    /// The rule of a cell.
    pub(crate) fn rule<T: EntryRead>(&self, cell: usize) -> (u16, u16, GenericStateEntry<T>)
        requires few { cell < 65536 * self.now.class_count }
        requires size { self.now.entry_size ≡ 4 + T.SIZE }
        requires indexed { has_index self.now cell ≡ true }
        requires whole { has_entry self.now cell ≡ true }
        ensures { result ≡ rule_of T.extra_at self.now cell }
    {
        let width = self.class_count as usize;
        self.rule_at::<T>(cell, (cell / width) as u16, (cell % width) as u16)
    }

    /// The rules of so many cells. States and classes are counted, since a division for each cell takes long.
    ///
    /// It stands apart, so that the loop has the registers of the processor to itself.
    #[inline(never)]
    pub(crate) fn rules<T: EntryRead, A: Allocator>(
        &self,
        alloc: A,
        cells: usize,
    ) -> Result<Vec<(u16, u16, GenericStateEntry<T>), A>, AllocError>
        requires few { cells ≤ 65536 * self.now.class_count }
        requires size { self.now.entry_size ≡ 4 + T.SIZE }
        requires indexed { AreIndexed self.now cells }
        requires whole { AreWhole self.now cells }
        ensures { IfOk result (λ rules. rules.items ≡ rules_of T.extra_at self.now cells) }
    {
        let class_count = self.class_count;
        let mut rules = Vec::with_capacity(alloc, cells)?;
        let mut state: u32 = 0;
        let mut class = 0;
        for cell in 0..cells {
            rules.push(self.rule_at::<T>(cell, state as u16, class))?;
            class += 1;
            if class == class_count {
                class = 0;
                state += 1;
            }
        }
        Ok(rules)
    }

    /// The rows of so many cells, as they stand.
    pub(crate) fn rows<A: Allocator>(
        &self,
        alloc: A,
        cells: usize,
    ) -> Result<Vec<u8, A>, AllocError>
        requires few { cells < 2 ^ 33 }
        requires inside { self.now.states + 2 * cells ≤ length self.now.bytes }
        ensures { IfOk result (λ rows. rows.items ≡ take (2 * cells) (drop self.now.states self.now.bytes)) }
    {
        let start = self.states as usize;
        Vec::from_slice(alloc, &self.bytes[start..start + 2 * cells])
    }

    /// The entry of an index.
    fn entry<T: EntryRead>(&self, index: usize) -> GenericStateEntry<T>
        requires index { index < 65536 }
        requires size { self.now.entry_size ≡ 4 + T.SIZE }
        requires inside { self.now.entries + self.now.entry_size * index + self.now.entry_size ≤ length self.now.bytes }
        ensures { result ≡ entry_at T.extra_at self.now.bytes (self.now.entries + self.now.entry_size * index) }
    {
        let place = self.entries as usize + self.entry_size as usize * index;
        GenericStateEntry {
            new_state: be16(self.bytes, place),
            flags: be16(self.bytes, place + 2),
            extra: T::read(self.bytes, place + 4),
        }
    }

    /// So many entries, as they stand.
    pub(crate) fn entries<T: EntryRead, A: Allocator>(
        &self,
        alloc: A,
        count: usize,
    ) -> Result<Vec<GenericStateEntry<T>, A>, AllocError>
        requires few { count ≤ 65536 }
        requires size { self.now.entry_size ≡ 4 + T.SIZE }
        requires inside { self.now.entries + self.now.entry_size * count ≤ length self.now.bytes }
        ensures { IfOk result (λ entries. entries.items ≡ entries_of T.extra_at self.now count) }
    {
        let mut entries = Vec::with_capacity(alloc, count)?;
        for index in 0..count {
            entries.push(self.entry::<T>(index))?;
        }
        Ok(entries)
    }

    /// How many lookups there are at least by the entry of an index of a contextual machine.
    fn entry_lookups(&self, index: usize) -> usize
        requires index { index < 65536 }
        requires inside { self.now.entries + 8 * index + 8 ≤ length self.now.bytes }
        ensures named { result ≡ entry_lookups self.now index }
        ensures few { result ≤ 65535 }
    {
        // each has 8 bytes
        let place = self.entries as usize + 8 * index;
        let for_mark = lookups_to(be16(self.bytes, place + 4));
        for_mark.max(lookups_to(be16(self.bytes, place + 6)))
    }

    /// How many of so many entries, behind some that do, ask for so many lookups at most.
    fn passed_lookups(&self, known: usize, count: usize, passed: usize) -> usize
        requires known { known ≤ 65536 }
        requires inside { 0 < known → self.now.entries + 8 * known ≤ length self.now.bytes }
        requires before { AskFor self.now passed count }
        ensures { AskFor self.now result count }
    {
        let mut passed = passed;
        while passed < known && self.entry_lookups(passed) <= count {
            passed += 1;
        }
        passed
    }

    /// How many of so many entries may be asked before a cell names them: all where they stand inside, and else none.
    fn known_entries(&self, entries: usize) -> usize
        requires few { entries ≤ 65536 }
        requires size { self.now.entry_size ≡ 8 }
        ensures known { result ≤ 65536 }
        ensures inside { 0 < result → self.now.entries + 8 * result ≤ length self.now.bytes }
    {
        if self.entries as usize + 8 * entries <= self.bytes.len() {
            entries
        } else {
            0
        }
    }

    /// The number of lookups of a contextual machine of so many cells. Cells are asked until no entry can ask for more.
    pub(crate) fn lookup_count(&self, cells: Cells) -> usize
        requires small { cells.count < 2 ^ 33 }
        requires size { self.now.entry_size ≡ 8 }
        requires indexed { AreIndexed self.now cells.count }
        requires whole { AreWhole self.now cells.count }
        requires named { AreNamed self.now cells.count cells.entries }
        requires known { cells.entries ≤ 65536 }
        ensures count { result ≡ lookup_count self.now cells.count }
        ensures few { result ≤ 65535 }
    {
        let known = self.known_entries(cells.entries);
        let mut count = 0;
        let mut passed = 0;
        for cell in 0..cells.count {
            let index = self.index(cell) as usize;
            if index >= passed {
                count = count.max(self.entry_lookups(index));
                passed = self.passed_lookups(known, count, passed);
                if passed >= cells.entries {
                    return count;
                }
            }
        }
        count
    }
}

/// How many lookups there are at least by an index.
fn lookups_to(index: u16) -> usize
    ensures to { result ≡ lookups_to index }
    ensures few { result ≤ 65535 }
{
    // 0xFFFF gives 0
    index.wrapping_add(1) as usize
}
