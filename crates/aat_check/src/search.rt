//! A shortest line that brings a machine to a state at a glyph of a class.
ghost use Rattle.std.specs.Prelude.{◌≡◌, IfOk, IfSome, Some};
ghost use Rattle.aat_findings.specs.Reached.{state_after};

use aat_findings::state_after;
use aat_machine_tables::entry_bits::class;
use aat_machine_tables::{Acting, ExtendedStateTable};
use std::alloc::{AllocError, Global};

/// How many states a table can have.
const STATES: usize = 65536;

/// The most entries at one glyph that are followed: a line that needs more is not told.
const MOST_TURNS: usize = 64;

/// How a line came to a state: from which one, by a glyph of which class.
#[derive(Clone, Copy)]
struct Step {
    state: u16,
    class: u16,
}

/// The most cells of a table that are noted where a machine stays.
const MOST_CELLS: usize = 256;

/// The states to which lines come, and where a machine stays at a glyph.
#[derive(Drop)]
pub(crate) struct Search {
    /// How a line came to each state first.
    steps: Vec<Option<Step>>,
    /// The states, in the order in which lines came to them.
    pub(crate) order: Vec<u16>,
    /// The states and classes at which a machine stays, but for class 0, by the first 256 ways there, shorter lines
    /// first.
    pub(crate) staying: Vec<(u16, u16)>,
    /// The first 256 states and classes, but class 0, whose entry does not advance, shorter lines first.
    pub(crate) waiting: Vec<(u16, u16)>,
}

/// The state in which a machine leaves a glyph of a class to which it comes in a state, if it leaves it soon.
pub(crate) fn state_behind<T: Acting>(
    table: &ExtendedStateTable<T>,
    start: u16,
    class: u16,
) -> Option<u16> {
    let mut state = start;
    for _turn in 0..MOST_TURNS {
        let entry = table.entry(state, class)?;
        if entry.has_advance() {
            return Some(entry.new_state);
        }
        state = entry.new_state;
    }
    None
}

/// After how many entries that stay at a glyph of a class a machine that comes there in a state is in another one, if
/// it is there soon.
pub(crate) fn turns_to<T: Acting>(
    table: &ExtendedStateTable<T>,
    start: u16,
    class: u16,
    end: u16,
) -> Option<usize> {
    let mut state = start;
    for turns in 0..MOST_TURNS {
        if state == end {
            return Some(turns);
        }
        let entry = table.entry(state, class)?;
        if entry.has_advance() {
            return None;
        }
        state = entry.new_state;
    }
    None
}

/// The state behind so many entries that stay at a glyph of a class, if each of them does.
fn stay_on<T: Acting>(
    table: &ExtendedStateTable<T>,
    start: u16,
    class: u16,
    turns: usize,
) -> Option<u16> {
    let mut state = start;
    for _turn in 0..turns {
        let entry = table.entry(state, class)?;
        if entry.has_advance() {
            return None;
        }
        state = entry.new_state;
    }
    Some(state)
}

/// The first state to which a machine that comes to one at a glyph of a class comes back there, if it does soon.
pub(crate) fn staying_state<T: Acting>(
    table: &ExtendedStateTable<T>,
    start: u16,
    class: u16,
) -> Option<u16> {
    let far = stay_on(table, start, class, MOST_TURNS)?;
    let behind = stay_on(table, far, class, 1)?;
    turns_to(table, behind, class, far)?;
    let mut state = start;
    for _turn in 0..MOST_TURNS {
        if turns_to(table, far, class, state).is_some() {
            return Some(state);
        }
        state = stay_on(table, state, class, 1)?;
    }
    None
}

impl Search {
    /// Notes how a line came to a state, unless one did before.
    fn note(&mut self, state: u16, step: Step) -> Result<(), AllocError> {
        let Some(slot) = self.steps.get_mut(state as usize) else {
            return Ok(());
        };
        if slot.is_none() {
            self.order.push(state)?;
            *slot = Some(step);
        }
        Ok(())
    }

    /// Notes the states to which the classes that glyphs show lead from one, and those at which a machine stays.
    fn follow<T: Acting>(
        &mut self,
        table: &ExtendedStateTable<T>,
        shown: &[Option<u16>],
        state: u16,
    ) -> Result<(), AllocError> {
        for class in 0..table.class_count() {
            if !is_shown(shown, class) {
                continue;
            }
            if class != class::END_OF_TEXT
                && self.waiting.len() < MOST_CELLS
                && let Some(entry) = table.entry(state, class)
                && !entry.has_advance()
            {
                self.waiting.push((state, class))?;
            }
            if let Some(next) = state_behind(table, state, class) {
                self.note(next, Step { state, class })?;
            } else if class != class::END_OF_TEXT
                && self.staying.len() < MOST_CELLS
                && let Some(staying) = staying_state(table, state, class)
            {
                self.staying.push((staying, class))?;
            }
        }
        Ok(())
    }

    /// A search of all states to which lines come from state 0, or of those to which lines come whose first glyph is of a
    /// class, but for state 0.
    pub(crate) fn everywhere<T: Acting>(
        alloc: Global,
        table: &ExtendedStateTable<T>,
        shown: &[Option<u16>],
        first: Option<u16>,
    ) -> Result<Search, AllocError> {
        let mut search = Search {
            steps: vec![in alloc; None; STATES]?,
            order: Vec::new(alloc),
            staying: Vec::new(alloc),
            waiting: Vec::new(alloc),
        };
        search.note(0, Step { state: 0, class: 0 })?;
        if let Some(class) = first {
            search.order.clear();
            if let Some(next) = state_behind(table, 0, class) {
                search.note(next, Step { state: 0, class })?;
            }
        }
        for place in 0..STATES {
            let Some(state) = search.order.get(place).copied() else {
                break;
            };
            search.follow(table, shown, state)?;
        }
        Ok(search)
    }

    /// The classes of the line that came to a state first.
    pub(crate) fn classes_to(&self, alloc: Global, end: u16) -> Result<Vec<u16>, AllocError> {
        let mut classes = Vec::new(alloc);
        let mut state = end;
        for _step in 0..STATES {
            let step = self.steps.get(state as usize).copied().flatten();
            match step {
                Some(step) if state != 0 => {
                    classes.push(step.class)?;
                    state = step.state;
                }
                _ => break,
            }
        }
        classes.reverse();
        Ok(classes)
    }
}

/// Whether a glyph shows a class.
pub(crate) fn is_shown(shown: &[Option<u16>], class: u16) -> bool {
    matches!(shown.get(class as usize), Some(Some(_)))
}

/// Follows the entries that a machine takes at a glyph of a class, at most so many of them, until it leaves the glyph. It
/// adds the class once for each, and answers the state then, if there is an entry for each.
fn push_turns<T: Acting>(
    table: &ExtendedStateTable<T>,
    taken: &mut Vec<u16>,
    start: u16,
    class: u16,
    most: usize,
) -> Result<Option<u16>, AllocError> {
    let mut state = start;
    for _turn in 0..most {
        let Some(entry) = table.entry(state, class) else {
            return Ok(None);
        };
        taken.push(class)?;
        state = entry.new_state;
        if entry.has_advance() {
            return Ok(Some(state));
        }
    }
    Ok(Some(state))
}

/// The class of each entry that a machine takes over a line of classes, and then at a glyph of the class of a cell until
/// it is in its state.
fn taken_over<T: Acting>(
    alloc: Global,
    table: &ExtendedStateTable<T>,
    line: &[u16],
    cell: (u16, u16),
) -> Result<Vec<u16>, AllocError> {
    let mut taken = Vec::new(alloc);
    let mut state = 0;
    for class in line {
        state = push_turns(table, &mut taken, state, *class, MOST_TURNS)?.unwrap_or(0);
    }
    let turns = turns_to(table, state, cell.1, cell.0).unwrap_or(0);
    push_turns(table, &mut taken, state, cell.1, turns)?;
    Ok(taken)
}

/// A line of classes that brings a machine to a state at a glyph of a class.
#[derive(Drop)]
pub(crate) struct Way {
    /// The class of each glyph before that one.
    pub(crate) before: Vec<u16>,
    /// The class of each entry that the machine takes on the way, one glyph's more than once where it stays there.
    pub(crate) taken: Vec<u16>,
}

impl Search {
    /// A shortest line of classes that glyphs show, from state 0 on, that brings a machine to the state of a cell at a
    /// glyph of its class, if one is found. Fails where memory is wanting.
    pub(crate) fn way_to<T: Acting>(
        &self,
        alloc: Global,
        table: &ExtendedStateTable<T>,
        cell: (u16, u16),
    ) -> Result<Option<Way>, AllocError>
        ensures { IfOk result (λ found. IfSome found (λ way.
            state_after table.now 0 way.taken.items ≡ Some cell.0)) }
    {
        let mut states = self.order.iter().copied();
        let Some(state) = states.find(|state| turns_to(table, *state, cell.1, cell.0).is_some())
        else {
            return Ok(None);
        };
        let before = self.classes_to(alloc, state)?;
        let taken = taken_over(alloc, table, &before, cell)?;
        if state_after(table, 0, &taken) == Some(cell.0) {
            return Ok(Some(Way { before, taken }));
        }
        Ok(None)
    }
}
