//! State tables: the class of each glyph, and what a machine does at a state and a class.
ghost use Rattle.std.specs.Prelude.{◌≡◌, ◌+◌, ◌*◌, ◌<◌, ◌≤◌, ℕ, IsTrue, IfOk, IfErr, IfSome, OnOk, None, option_map, length, slice_index_or, unwrap_or};
ghost use Rattle.aat_machine_tables.specs.Entries.{has_flag, goes_on};
ghost use Rattle.aat_machine_tables.specs.Judged.{entry_in, is_judged_safe, is_safe_by};
ghost use Rattle.aat_lookup.specs.Keys.{IsRising};
ghost use Rattle.aat_machine_tables.specs.Table.{class_of, entry_of, known_class, rule_key, table_value};
ghost use Rattle.aat_machine_tables.specs.Table.{first_out_of_range, count_and_rules_fault, earlier_fault, rules_fault, table_fault};
ghost use Rattle.aat_lookup.specs.TableErrors.{RefusesFault};
ghost use Rattle.aat_machine_tables.specs.declared.judged.JudgedEntry.TheVariants.{Missing};
ghost use Rattle.aat_machine_tables.specs.Rows.{count_fault, rules_of_rows, NamesEntries};
ghost use Rattle.aat_machine_tables.specs.inside.Grid.{judged_rule, ruled_entry, state_count, states_to, AnswersAsRules, RulesBelow};

use crate::entry_bits::{DONT_ADVANCE, anchor, class, stack};
use crate::judged::{Acting, JudgedEntry, judged_among, judged_in_row, rests_at_end, ruled_entry};
use crate::rows::{entry_in_rows, judged_in_rows, rules_of_rows};
use aat_lookup::keys::{Keyed, first_fall};
use aat_lookup::{GlyphId, Lookup, TableError};
use std::alloc::{AllocError, Allocator, Global};
use std::marker::Model;

/// The smallest number of classes. The manual gives the first four their meaning: 0 is the end of
/// the text, 1 out of bounds, 2 the deleted glyph, 3 the end of a line.
const MIN_CLASSES: u16 = 4;

/// The deleted glyph: a machine deletes a glyph by putting this one in its place. The buffer's constant is not known
/// here.
const DELETED_GLYPH: u16 = 0xFFFF;

/// The largest number of cells of a grid of states by classes. A table with more of them searches its rules.
const MAX_CELLS: usize = 65536;

/// What a machine does at a state and a class.
///
/// Apple's TrueType Reference Manual, "Font Tables", section on state tables.
#[derive(Clone, Copy, PartialEq, Eq, Debug)]
pub struct GenericStateEntry<T: Copy> {
    /// The state that follows.
    pub new_state: u16,
    /// Bits that say what is done, most of which mean something else in each kind of machine.
    pub flags: u16,
    /// What the kind of machine adds.
    pub extra: T,
}

impl<T: Copy> GenericStateEntry<T> {
    /// Whether the glyph is put on the stack: the bit `PUSH` of a stack, `SET_COMPONENT` of ligatures.
    pub fn has_push(&self) -> bool
        ensures { result ≡ has_flag self.now 0x8000 }
    {
        self.flags & stack::PUSH != 0
    }

    /// Whether the glyph is marked: the bit `MARK` of anchors, `SET_MARK` of the other machines.
    pub fn has_mark(&self) -> bool
        ensures { result ≡ has_flag self.now 0x8000 }
    {
        self.flags & anchor::MARK != 0
    }

    /// Whether the machine goes on to the next glyph: the bit `DONT_ADVANCE` is clear.
    pub fn has_advance(&self) -> bool
        ensures { result ≡ goes_on self.now }
    {
        self.flags & DONT_ADVANCE == 0
    }

    /// Whether the stack is emptied: the bit `RESET`.
    pub fn has_reset(&self) -> bool
        ensures { result ≡ has_flag self.now 0x2000 }
    {
        self.flags & stack::RESET != 0
    }
}

/// The classes and entries of a machine. A contract sees it as the record `TableValue`: the number
/// of classes and the lists of classes and rules.
///
/// Apple's TrueType Reference Manual, "Font Tables", section on state tables.
#[derive(Drop)]
pub struct ExtendedStateTable<T: Acting, A: Allocator = Global> {
    classes: Lookup<A>,
    rules: Rules<T, A>,
}

/// How the rules of a table are kept, behind the number of its classes, which takes no room of its own here.
#[derive(Drop)]
pub(crate) enum Rules<T: Copy, A: Allocator> {
    /// Rules, and the grid of states by classes in which they are found.
    Listed(u16, Vec<(u16, u16, GenericStateEntry<T>), A>, Vec<JudgedEntry<T>, A>),
    /// For each class of each state, row by row, the index of an entry, and the entries.
    Rows(u16, Vec<u8, A>, Vec<GenericStateEntry<T>, A>),
}

impl<T: Acting, A: Allocator> Model for ExtendedStateTable<T, A> {
    ghost use Rattle.std.specs.Prelude.{◌<◌};
    ghost use Rattle.aat_machine_tables.specs.Table.{TableValue};
    ghost use Rattle.aat_machine_tables.specs.inside.Kept.{AreKept, class_count_of, kept_rules};
    ghost use Rattle.aat_machine_tables.specs.declared.state_table.GenericStateEntry.{GenericStateEntry};

    ghost Value = { TableValue (GenericStateEntry T) };

    ghost view = { λ m. record {
      class_count = class_count_of m.rules;
      classes = m.classes;
      rules = kept_rules m.rules;
    } };

    ghost invariant = { λ m. (1 < class_count_of m.rules) × AreKept T.may_act m.rules };
}

impl<T: Acting, A: Allocator + Copy> ExtendedStateTable<T, A> {
    /// Makes a table of the number of its classes, pairs of a glyph and its class, which have to
    /// rise strictly by glyph, and rules of a state, a class and an entry, which have to rise
    /// strictly by state, then by class. A glyph may have a class that is not below the number.
    ///
    /// Refused as 2, `FewClasses`, where the number is below 4; else as 1, `NotRising`, with the
    /// place of the first pair that is not above the one before it; else at the first rule that is
    /// not above the one before it, as 1, `NotRising`, or whose class is not below the number, as
    /// 3, `ClassOutOfRange`, with its place, 1 before 3 at one place; and else as 5, `OutOfMemory`,
    /// where a copy, or an array or a grid beside it, gets no memory.
    pub fn new(
        alloc: A,
        class_count: u16,
        classes: &[(u16, u16)],
        rules: &[(u16, u16, GenericStateEntry<T>)],
    ) -> Result<ExtendedStateTable<T, A>, TableError>
        ensures ok { IfOk result (λ table. table ≡ table_value class_count classes.now rules.now) }
        ensures sound { OnOk result (table_fault class_count classes.now rules.now ≡ None) }
        ensures refused { IfErr result (RefusesFault (table_fault class_count classes.now rules.now)) }
    {
        if class_count < MIN_CLASSES {
            return Err(TableError::FewClasses);
        }
        if let Some(place) = first_fall(classes) {
            return Err(TableError::NotRising(place));
        }
        if let Some(fault) = faulty_rule(class_count, rules) {
            return Err(fault);
        }
        let rules = Vec::from_slice(alloc, rules)?;
        let classes = Lookup::of_rising(alloc, classes)?;
        Ok(ExtendedStateTable::over(alloc, class_count, classes, rules)?)
    }

    /// Makes a table of the number of its classes, a lookup of the classes of glyphs, and rules as for
    /// [`ExtendedStateTable::new`]. The rules are kept as they are handed in, and the lookup too, but for an array of
    /// its own: its classes stand then in one with two bytes for each glyph of their span.
    ///
    /// Refused as 2, `FewClasses`, where the number is below 4; else at the first rule that is not above the one before
    /// it, as 1, `NotRising`, or whose class is not below the number, as 3, `ClassOutOfRange`, with its place, 1 before
    /// 3 at one place; and else as 5, `OutOfMemory`, where a grid beside the rules or an array beside the classes gets no
    /// memory. The lookup and the rules are then dropped.
    pub fn with_classes(
        alloc: A,
        class_count: u16,
        classes: Lookup<A>,
        rules: Vec<(u16, u16, GenericStateEntry<T>), A>,
    ) -> Result<ExtendedStateTable<T, A>, TableError>
        ensures ok { IfOk result (λ table. table ≡ table_value class_count classes rules.items) }
        ensures sound { OnOk result (count_and_rules_fault class_count rules.items ≡ None) }
        ensures refused { IfErr result (RefusesFault (count_and_rules_fault class_count rules.items)) }
    {
        match count_and_rules_fault(class_count, &rules) {
            Some(fault) => Err(fault),
            None => Ok(ExtendedStateTable::over(alloc, class_count, classes, rules)?),
        }
    }

    /// Makes a table of the number of its classes, a lookup of the classes of glyphs, rows as they stand in a font, and
    /// entries: for each class of each state, from state 0 on, rows have the index of an entry on two bytes, of which
    /// the first is the higher one. Each index has to be below the number of entries, and the rows have to be of 65,536
    /// states at most. A last row may lack cells, which have no rule then, and a last odd byte is passed over.
    /// Rows and entries are kept as they are handed in, and the lookup as by [`ExtendedStateTable::with_classes`].
    ///
    /// Refused as 2, `FewClasses`, where the number is below 4; and else as 5, `OutOfMemory`, where an array beside the
    /// classes gets no memory. The lookup, the rows and the entries are then dropped.
    pub fn of_rows(
        alloc: A,
        class_count: u16,
        classes: Lookup<A>,
        rows: Vec<u8, A>,
        entries: Vec<GenericStateEntry<T>, A>,
    ) -> Result<ExtendedStateTable<T, A>, TableError>
        requires few { length rows.items ≤ 131072 * class_count }
        requires known { NamesEntries (length entries.items) rows.items }
        ensures ok { let rules = rules_of_rows class_count entries.items rows.items in
            IfOk result (λ table. table ≡ table_value class_count classes rules) }
        ensures sound { OnOk result (count_fault class_count ≡ None) }
        ensures refused { IfErr result (RefusesFault (count_fault class_count)) }
    {
        if class_count < MIN_CLASSES {
            return Err(TableError::FewClasses);
        }
        let classes = classes.with_class_array(alloc, class::OUT_OF_BOUNDS)?;
        Ok(ExtendedStateTable {
            classes,
            rules: Rules::Rows(class_count, rows, entries),
        })
    }

    /// The table of a number of classes, which is above 1, the classes of glyphs, and rules that rise. Fails where a grid
    /// beside the rules or an array of the classes gets no memory.
    fn over(
        alloc: A,
        class_count: u16,
        classes: Lookup<A>,
        rules: Vec<(u16, u16, GenericStateEntry<T>), A>,
    ) -> Result<ExtendedStateTable<T, A>, AllocError>
        requires classes { 1 < class_count }
        requires rising { IsRising rule_key rules.items }
        ensures { IfOk result (λ table. table ≡ table_value class_count classes rules.items) }
    {
        let grid = grid_over(alloc, class_count, &rules)?;
        let classes = classes.with_class_array(alloc, class::OUT_OF_BOUNDS)?;
        Ok(ExtendedStateTable {
            classes,
            rules: Rules::Listed(class_count, rules, grid),
        })
    }
}

impl<T: Acting, A: Allocator> ExtendedStateTable<T, A> {
    /// The number of classes, of which the first four are those of the manual.
    pub fn class_count(&self) -> u16
        ensures { result ≡ self.now.class_count }
    {
        match &self.rules {
            Rules::Listed(count, _, _) | Rules::Rows(count, _, _) => *count,
        }
    }

    /// The classes of glyphs. Where they stand in an array, it is that of [`Self::class_or_out_of_bounds`]: here those
    /// that are kept as pairs are searched, and those that are kept as values of glyphs that follow one another are read
    /// at their places.
    pub fn classes(&self) -> &Lookup<A>
        ensures { result.now ≡ self.now.classes }
    {
        &self.classes
    }

    /// The rules: state, class and entry, strictly rising by state, then by class, as a list of its own. Fails where it
    /// gets no memory.
    pub fn to_rules<B: Allocator>(
        &self,
        alloc: B,
    ) -> Result<Vec<(u16, u16, GenericStateEntry<T>), B>, AllocError>
        ensures { IfOk result (λ rules. rules.items ≡ self.now.rules) }
    {
        match &self.rules {
            Rules::Listed(_, rules, _) => Vec::from_slice(alloc, rules),
            Rules::Rows(count, rows, entries) => rules_of_rows(alloc, *count, entries, rows),
        }
    }

    /// The class of a glyph, if it has one, found as in [`ExtendedStateTable::classes`]. The class of the deleted glyph,
    /// 0xFFFF, is always 2.
    pub fn class(&self, glyph: GlyphId) -> Option<u16>
        ensures { result ≡ class_of self.now glyph.0 }
    {
        if glyph.0 == DELETED_GLYPH {
            return Some(class::DELETED_GLYPH);
        }
        self.classes.value(glyph)
    }

    /// The class of a glyph as a machine takes it: 1, out of bounds, where it has none. Where the classes stand in an
    /// array, which no clause tells, it is found without a search.
    pub fn class_or_out_of_bounds(&self, glyph: GlyphId) -> u16
        ensures { result ≡ unwrap_or (class_of self.now glyph.0) 1 }
    {
        if glyph.0 == DELETED_GLYPH {
            return class::DELETED_GLYPH;
        }
        self.classes.class(glyph, class::OUT_OF_BOUNDS)
    }

    /// The entry of a state and a class, if there is a rule for them. In rows it is found at its place. Among listed
    /// rules it is found in a grid of states by classes up to the highest state with a rule, where that has at most
    /// 65,536 cells; where it has more, and for a state above it, at the place of its cell among the rules, where these
    /// have one for each cell, and else by bisection. A class that is not below the number of classes is taken as 1.
    pub fn entry(&self, state: u16, class: u16) -> Option<GenericStateEntry<T>>
        ensures { result ≡ entry_of self.now state class }
    {
        match &self.rules {
            Rules::Rows(count, rows, entries) => {
                let class = known_class(*count, class);
                entry_in_rows(entries, rows, *count, state, class)
            }
            Rules::Listed(count, rules, grid) => {
                let class = known_class(*count, class);
                entry_listed(rules, grid, *count, state, class)
            }
        }
    }

    /// The entry of a state and a class, found as in [`ExtendedStateTable::entry`], and whether the line gets a mark
    /// before a glyph where it is taken, by the table's entries alone. A cell of the grid was judged when the table
    /// was made; elsewhere up to two more entries are looked for.
    pub fn judged_entry(&self, state: u16, class: u16) -> JudgedEntry<T>
        ensures entry { entry_in result ≡ entry_of self.now state class }
        ensures safe { IfSome (entry_of self.now state class) (λ e. is_judged_safe result
            ≡ is_safe_by T.may_act state e (entry_of self.now 0 class) (entry_of self.now state 0)) }
    {
        match &self.rules {
            Rules::Rows(count, rows, entries) => {
                let class = known_class(*count, class);
                judged_in_rows(entries, rows, *count, state, class)
            }
            Rules::Listed(count, rules, grid) => {
                let class = known_class(*count, class);
                judged_listed(rules, grid, *count, state, class)
            }
        }
    }
}

/// The entry of a state and a class, found in a grid or among its rules.
#[inline(always)]
fn entry_listed<T: Acting>(
    rules: &[(u16, u16, GenericStateEntry<T>)],
    grid: &[JudgedEntry<T>],
    class_count: u16,
    state: u16,
    class: u16,
) -> Option<GenericStateEntry<T>>
    requires rising { IsRising rule_key rules.now }
    requires answers { AnswersAsRules T.may_act class_count grid.now rules.now }
    requires class { class < class_count }
    ensures { result ≡ ruled_entry rules.now state class }
{
    match grid.get(state as usize * class_count as usize + class as usize) {
        Some(cell) => cell.entry(),
        None => ruled_entry(rules, class_count, state, class),
    }
}

/// The judged entry of a state and a class, found in a grid or among its rules.
#[inline(always)]
fn judged_listed<T: Acting>(
    rules: &[(u16, u16, GenericStateEntry<T>)],
    grid: &[JudgedEntry<T>],
    class_count: u16,
    state: u16,
    class: u16,
) -> JudgedEntry<T>
    requires rising { IsRising rule_key rules.now }
    requires answers { AnswersAsRules T.may_act class_count grid.now rules.now }
    requires class { class < class_count }
    ensures { result ≡ judged_rule T.may_act rules.now state class }
{
    let place = state as usize * class_count as usize + class as usize;
    match grid.get(place) {
        Some(cell) => *cell,
        None => judged_among(rules, class_count, state, class),
    }
}

/// The class as which one is taken: itself where it is below the number of classes, and else 1.
fn known_class(class_count: u16, class: u16) -> u16
    ensures known { result ≡ known_class class_count class }
    ensures below { 1 < class_count → result < class_count }
{
    if class < class_count {
        class
    } else {
        class::OUT_OF_BOUNDS
    }
}

/// The grid of rising rules, in which each state up to the highest with a rule has a cell for each class, or an empty
/// one where these were more than `MAX_CELLS` cells.
fn grid_over<T: Acting, A: Allocator>(
    alloc: A,
    class_count: u16,
    rules: &[(u16, u16, GenericStateEntry<T>)],
) -> Result<Vec<JudgedEntry<T>, A>, AllocError>
    requires rising { IsRising rule_key rules.now }
    requires classes { 0 < class_count }
    ensures answers { IfOk result (λ grid. AnswersAsRules T.may_act class_count grid.items rules.now) }
    ensures long { IfOk result (λ grid. length grid.items ≡ state_count class_count rules.now * class_count) }
{
    let states = state_count(class_count, rules);
    let cells = cells_of(alloc, class_count, states, rules)?;
    Ok(cells)
}

/// The number of states up to the highest with a rule, or 0 where there is no rule, and where they have more than
/// `MAX_CELLS` cells.
fn state_count<T: Copy>(class_count: u16, rules: &[(u16, u16, GenericStateEntry<T>)]) -> usize
    requires { IsRising rule_key rules.now }
    ensures count { result ≡ state_count class_count rules.now }
    ensures small { result * class_count ≤ 65536 }
    ensures below { 0 < result → RulesBelow result rules.now }
{
    if rules.is_empty() {
        return 0;
    }
    states_to(class_count, rules[rules.len() - 1].key())
}

/// The number of states up to that of a rule's number, or 0 where they have more than `MAX_CELLS` cells.
fn states_to(class_count: u16, key: u32) -> usize
    ensures count { result ≡ states_to class_count key }
    ensures small { result * class_count ≤ 65536 }
    ensures above { 0 < result → key < result * 65536 }
{
    let states = key as usize / 65536 + 1;
    if states * class_count as usize > MAX_CELLS {
        return 0;
    }
    states
}

/// The judged entries that rising rules have for each class of so many states, state by state.
fn cells_of<T: Acting, A: Allocator>(
    alloc: A,
    class_count: u16,
    states: usize,
    rules: &[(u16, u16, GenericStateEntry<T>)],
) -> Result<Vec<JudgedEntry<T>, A>, AllocError>
    requires rising { IsRising rule_key rules.now }
    requires classes { 0 < class_count }
    requires small { states * class_count ≤ 65536 }
    ensures long { IfOk result (λ cells. length cells.items ≡ states * class_count) }
    ensures entries { IfOk result (λ cells. (state class : ℕ) → state < states → class < class_count
        → slice_index_or cells.items (state * class_count + class) Missing
        ≡ judged_rule T.may_act rules.now state class) }
{
    let mut cells = Vec::with_capacity(alloc, states * class_count as usize)?;
    for state in 0..states {
        append_row(&mut cells, rules, class_count, state as u16)?;
    }
    Ok(cells)
}

/// Appends the judged entries that rising rules have for each class of a state. Fails where they get no memory; what
/// the cells then are is not said.
///
/// It stands apart, so that the loop has the registers of the processor to itself.
#[inline(never)]
fn append_row<T: Acting, A: Allocator>(
    cells: &mut Vec<JudgedEntry<T>, A>,
    rules: &[(u16, u16, GenericStateEntry<T>)],
    class_count: u16,
    state: u16,
) -> Result<(), AllocError>
    requires { IsRising rule_key rules.now }
    ensures long { IfOk result (λ _. length cells.new.items ≡ length cells.old.items + class_count) }
    ensures kept { IfOk result (λ _. (k : ℕ) → k < length cells.old.items
        → slice_index_or cells.new.items k Missing ≡ slice_index_or cells.old.items k Missing) }
    ensures entries { IfOk result (λ _. (class : ℕ) → class < class_count
        → slice_index_or cells.new.items (length cells.old.items + class) Missing
        ≡ judged_rule T.may_act rules.now state class) }
{
    let rests = rests_at_end(rules, class_count, state);
    for class in 0..class_count {
        cells.push(judged_in_row(rules, class_count, state, class, rests))?;
    }
    Ok(())
}

/// The number by which rules rise.
pub(crate) fn rule_key(state: u16, class: u16) -> u32
    ensures { result ≡ state * 65536 + class }
{
    state as u32 * 65536 + class as u32
}

/// The place of the first rule whose class is not below the number of classes.
fn first_out_of_range<T: Copy>(
    class_count: u16,
    rules: &[(u16, u16, GenericStateEntry<T>)],
) -> Option<usize>
    ensures { result ≡ first_out_of_range class_count rules.now }
{
    rules.iter().position(|rule| rule.1 >= class_count)
}

/// The earlier of a fall and a class out of range, the fall where both are at one place.
fn earlier_fault(fall: Option<usize>, out_of_range: Option<usize>) -> Option<TableError>
    ensures { result ≡ earlier_fault fall out_of_range }
{
    match (fall, out_of_range) {
        (Some(fall), Some(place)) if place < fall => Some(TableError::ClassOutOfRange(place)),
        (Some(fall), _) => Some(TableError::NotRising(fall)),
        (None, Some(place)) => Some(TableError::ClassOutOfRange(place)),
        (None, None) => None,
    }
}

/// Whether rules have no fault, as one pass over them tells.
fn are_faultless<T: Copy>(class_count: u16, rules: &[(u16, u16, GenericStateEntry<T>)]) -> bool
    ensures { IsTrue result → rules_fault class_count rules.now ≡ None }
{
    let mut lowest: u64 = 0;
    for i in 0..rules.len() {
        let rule = &rules[i];
        let key = rule.key() as u64;
        if key < lowest || rule.1 >= class_count {
            return false;
        }
        lowest = key + 1;
    }
    true
}

/// The first fault of rules.
#[inline(never)]
fn faulty_rule<T: Copy>(
    class_count: u16,
    rules: &[(u16, u16, GenericStateEntry<T>)],
) -> Option<TableError>
    ensures { result ≡ rules_fault class_count rules.now }
{
    if are_faultless(class_count, rules) {
        return None;
    }
    earlier_fault(first_fall(rules), first_out_of_range(class_count, rules))
}

/// The first fault of a number of classes and of rules.
fn count_and_rules_fault<T: Copy>(
    class_count: u16,
    rules: &[(u16, u16, GenericStateEntry<T>)],
) -> Option<TableError>
    ensures fault { result ≡ count_and_rules_fault class_count rules.now }
    ensures sound { result ≡ None → rules_fault class_count rules.now ≡ None }
{
    if class_count < MIN_CLASSES {
        return Some(TableError::FewClasses);
    }
    faulty_rule(class_count, rules)
}
