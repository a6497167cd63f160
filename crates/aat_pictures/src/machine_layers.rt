//! Where the states of a machine stand in a picture.

use crate::machine::Machine;
use crate::rows::place_of;
use std::alloc::{AllocError, Global};

/// An arrow: the places of its two states among those of the machine, and from which to before which step it stands for,
/// which have the same deeds.
pub(crate) type Arrow = (usize, usize, usize, usize);

/// A wish for a spot: the column, what it is ordered by there, and whose it is.
type Wish = (usize, i64, usize);

/// What is found of a state: its layer, and the sum and the number of the places of those that lead to it from the layer
/// before.
#[derive(Clone, Copy)]
struct Reached {
    layer: usize,
    sum: i64,
    count: i64,
}

/// A state that no line reaches, or none yet.
const UNREACHED: Reached = Reached {
    layer: usize::MAX,
    sum: 0,
    count: 0,
};

/// A state of the first layer.
const FIRST: Reached = Reached {
    layer: 0,
    sum: 0,
    count: 0,
};

/// Where a state stands: its column, and how many pixels its middle is below the top of the columns.
#[derive(Clone, Copy)]
pub(crate) struct Spot {
    pub(crate) column: usize,
    pub(crate) middle: i64,
    /// How many lines are beside it.
    pub(crate) lines: i64,
}

/// The layout of the states of a machine.
#[derive(Drop)]
pub(crate) struct Layers {
    /// The arrows, which rise.
    pub(crate) arrows: Vec<Arrow>,
    /// The spots of the states.
    pub(crate) spots: Vec<Spot>,
    /// How many columns there are.
    pub(crate) columns: usize,
    /// How many columns have states that lines reach: all, or all but the last one.
    pub(crate) reached_columns: usize,
    /// How high the columns are, in pixels.
    pub(crate) height: i64,
}

/// The radius of a state's circle, in pixels.
pub(crate) const RADIUS: i64 = 18;

/// The height of a line beside a state, in pixels.
pub(crate) const LINE: i64 = 17;

/// What is left free between two states, in pixels.
const GAP: i64 = 16;

/// The arrows of a machine, which rise.
fn arrows_of(alloc: Global, machine: &Machine<'_>) -> Result<Vec<Arrow>, AllocError> {
    let mut arrows: Vec<Arrow> = Vec::new(alloc);
    let mut before = None;
    for (place, (from, to, deeds, _)) in machine.steps.iter().enumerate() {
        let end = place.saturating_add(1);
        let mut first = place;
        if before == Some((*from, *to, *deeds))
            && let Some(last) = arrows.pop()
        {
            first = last.2;
        }
        before = Some((*from, *to, *deeds));
        let from = machine.states.binary_search(from).unwrap_or(0);
        let to = machine.states.binary_search(to).unwrap_or(0);
        arrows.push((from, to, first, end))?;
    }
    Ok(arrows)
}

/// Goes on from a state, the one of a place in the order in which states are reached: those to which it leads are reached
/// too.
fn reach_next(
    reached: &mut [Reached],
    order: &mut Vec<usize>,
    arrows: &[Arrow],
    place: i64,
    state: usize,
) -> Result<(), AllocError> {
    let layer = match reached.get(state) {
        Some(from) => from.layer.saturating_add(1),
        None => return Ok(()),
    };
    let first = place_of(arrows, &(state, 0, 0, 0));
    for (from, to, _, _) in arrows.iter().skip(first) {
        if *from != state {
            break;
        }
        let Some(next) = reached.get_mut(*to) else {
            break;
        };
        if next.layer == usize::MAX {
            next.layer = layer;
            order.push(*to)?;
        }
        if next.layer == layer {
            next.sum = next.sum.saturating_add(place);
            next.count = next.count.saturating_add(1);
        }
    }
    Ok(())
}

/// What is found of so many states, of which the first two are those of the first layer, and how many layers there are.
fn reach_all(
    alloc: Global,
    arrows: &[Arrow],
    count: usize,
) -> Result<(Vec<Reached>, usize), AllocError> {
    let mut reached = Vec::new(alloc);
    reached.resize(count.min(2), FIRST)?;
    reached.resize(count, UNREACHED)?;
    let mut order = Vec::from_slice(alloc, &[0usize, 1])?;
    for place in 0..count {
        let Some(state) = order.get(place).copied() else {
            break;
        };
        let place = place.min(1 << 20) as i64;
        reach_next(&mut reached, &mut order, arrows, place, state)?;
    }
    let last = order.last().copied().unwrap_or(0);
    let layers = match reached.get(last) {
        Some(state) => state.layer.saturating_add(1),
        None => 1,
    };
    Ok((reached, layers))
}

/// How many lines are beside each state: one for each arrow, and one where it has entries of state 0.
fn lines_of(
    alloc: Global,
    machine: &Machine<'_>,
    arrows: &[Arrow],
) -> Result<Vec<i64>, AllocError> {
    let mut lines = Vec::new(alloc);
    for (place, state) in machine.states.iter().enumerate() {
        let first = place_of(arrows, &(place, 0, 0, 0));
        let end = place_of(arrows, &(place.saturating_add(1), 0, 0, 0));
        let count = end.saturating_sub(first).min(1 << 20) as i64;
        lines.push(count.saturating_add(i64::from(machine.has_likes(*state))))?;
    }
    Ok(lines)
}

/// The height of a state with so many lines beside it, in pixels.
fn height_of(lines: i64) -> i64 {
    lines
        .saturating_mul(LINE)
        .max(2 * RADIUS)
        .saturating_add(GAP)
}

/// The spots that states wish for: in the column of their layer by the mean place of those that lead to them, and in one
/// behind these where no line reaches them. Adds up the heights of the columns.
fn wishes_of(
    alloc: Global,
    reached: &[Reached],
    lines: &[i64],
    unreached: usize,
    heights: &mut [i64],
) -> Result<Vec<Wish>, AllocError> {
    let mut wishes = Vec::new(alloc);
    for (state, (found, lines)) in reached.iter().zip(lines).enumerate() {
        let column = found.layer.min(unreached);
        let sum = found.sum.saturating_mul(64);
        let mean = sum.checked_div(found.count).unwrap_or(0);
        if let Some(height) = heights.get_mut(column) {
            *height = height.saturating_add(height_of(*lines));
        }
        wishes.push((column, mean, state))?;
    }
    wishes.sort()?;
    Ok(wishes)
}

/// The spots that wishes get, which rise, in columns of such heights: in each one below the other, in the middle of its
/// height.
fn spots_of(
    alloc: Global,
    wishes: &[Wish],
    lines: &[i64],
    heights: &[i64],
    body: i64,
) -> Result<Vec<Spot>, AllocError> {
    let nowhere = Spot {
        column: 0,
        middle: 0,
        lines: 0,
    };
    let mut spots = vec![in alloc; nowhere; wishes.len()]?;
    let (mut last, mut pen) = (usize::MAX, 0i64);
    for (column, _, state) in wishes {
        if *column != last {
            last = *column;
            let height = heights.get(last).copied().unwrap_or(0);
            pen = body.saturating_sub(height) / 2;
        }
        let lines = lines.get(*state).copied().unwrap_or(0);
        let height = height_of(lines);
        if let Some(spot) = spots.get_mut(*state) {
            *spot = Spot {
                column: last,
                middle: pen.saturating_add(height / 2),
                lines,
            };
        }
        pen = pen.saturating_add(height);
    }
    Ok(spots)
}

impl Layers {
    /// The layout of the states of a machine: in columns by their distance from states 0 and 1, those that no line reaches in
    /// the last one.
    ///
    /// Fails where it gets no memory: some bytes for each state and each arrow.
    pub(crate) fn new(alloc: Global, machine: &Machine<'_>) -> Result<Layers, AllocError> {
        let arrows = arrows_of(alloc, machine)?;
        let lines = lines_of(alloc, machine, &arrows)?;
        let (reached, reached_columns) = reach_all(alloc, &arrows, machine.states.len())?;
        let mut heights = vec![in alloc; 0i64; reached_columns.saturating_add(1)]?;
        let wishes = wishes_of(alloc, &reached, &lines, reached_columns, &mut heights)?;
        let height = heights.iter().copied().max().unwrap_or(0);
        let spots = spots_of(alloc, &wishes, &lines, &heights, height)?;
        let columns = if heights.last().copied() == Some(0) {
            reached_columns
        } else {
            reached_columns.saturating_add(1)
        };
        Ok(Layers {
            arrows,
            spots,
            columns,
            reached_columns,
            height,
        })
    }
}
