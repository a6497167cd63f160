//! The lines beside the states of a machine's picture.

use crate::machine::Machine;
use crate::machine_layers::{Arrow, LINE, Layers};
use std::alloc::{AllocError, Global};

/// A line beside a state.
#[derive(Clone, Copy)]
pub(crate) struct Line {
    /// The place of the state among those of the machine.
    pub(crate) state: usize,
    /// The arrow that it stands for, or `None` where it has the classes at which the state has the entry of state 0.
    pub(crate) arrow: Option<Arrow>,
    /// How many pixels its middle is below the top of the columns.
    pub(crate) middle: i64,
}

/// A line has so many letters before it is cut.
const LONGEST: usize = 84;

/// So many classes of a deed are told in a line that is cut.
const TOLD_CLASSES: usize = 4;

/// The order of a line: its state, whether no arrow leads from it to the next column, then the middle of the state that
/// follows or the place of its arrow, and that place, `usize::MAX` where it has none.
type Order = (usize, bool, i64, usize);

/// The orders of all lines, which rise.
fn orders_of(
    alloc: Global,
    machine: &Machine<'_>,
    layers: &Layers,
) -> Result<Vec<Order>, AllocError> {
    let mut orders = Vec::new(alloc);
    for (place, (from, to, _, _)) in layers.arrows.iter().enumerate() {
        let (Some(start), Some(stop)) = (layers.spots.get(*from), layers.spots.get(*to)) else {
            continue;
        };
        let is_forward = start.column < stop.column;
        let by = if is_forward {
            stop.middle
        } else {
            place.min(1 << 20) as i64
        };
        orders.push((*from, !is_forward, by, place))?;
    }
    for (place, state) in machine.states.iter().enumerate() {
        if machine.has_likes(*state) {
            orders.push((place, true, i64::MAX, usize::MAX))?;
        }
    }
    orders.sort()?;
    Ok(orders)
}

/// The lines beside all states, in the order of the states, from the top.
///
/// Fails where they get no memory: some bytes for each.
pub(crate) fn lines_beside(
    alloc: Global,
    machine: &Machine<'_>,
    layers: &Layers,
) -> Result<Vec<Line>, AllocError> {
    let mut lines = Vec::new(alloc);
    let (mut last, mut middle) = (usize::MAX, 0i64);
    for (state, _, _, arrow) in &orders_of(alloc, machine, layers)? {
        let Some(spot) = layers.spots.get(*state) else {
            continue;
        };
        if *state != last {
            last = *state;
            let half = spot.lines.saturating_sub(1).saturating_mul(LINE) / 2;
            middle = spot.middle.saturating_sub(half);
        }
        lines.push(Line {
            state: last,
            arrow: layers.arrows.get(*arrow).copied(),
            middle,
        })?;
        middle = middle.saturating_add(LINE);
    }
    Ok(lines)
}

impl Line {
    /// The text of a line, whole.
    ///
    /// Fails where it gets no memory.
    pub(crate) fn whole_text(
        &self,
        alloc: Global,
        machine: &Machine<'_>,
        most_classes: usize,
    ) -> Result<String, AllocError> {
        let state = machine.states.get(self.state).copied().unwrap_or(0);
        let Some((_, to, first, end)) = self.arrow else {
            return machine.text_of_likes(alloc, state, most_classes);
        };
        let next = machine.states.get(to).copied().unwrap_or(0);
        let steps = machine.steps.get(first..end).unwrap_or(&[]);
        let deeds = machine.text_of(alloc, steps, most_classes)?;
        format!(in alloc; "\u{2192} {next} {deeds}")
    }

    /// The text of a line, cut where it is long.
    ///
    /// Fails where it gets no memory.
    pub(crate) fn cut_text(
        &self,
        alloc: Global,
        machine: &Machine<'_>,
    ) -> Result<String, AllocError> {
        let text = self.whole_text(alloc, machine, TOLD_CLASSES)?;
        let mut cut: String = text.chars().take(LONGEST).collect(alloc)?;
        if cut.len() < text.len() {
            cut.push_str("..")?;
        }
        Ok(cut)
    }
}
