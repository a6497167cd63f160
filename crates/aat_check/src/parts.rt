//! Lines of glyphs that are not what their two parts are, of subtables that are not settled.

use crate::fact::Fact;
use crate::finding::{Finding, GlyphLine, Place};
use crate::lines::{Order, glyphs_of, shown_classes};
use crate::search::{Search, is_shown, state_behind};
use aat_cuts::Unsettled;
use aat_font::hb_font_t;
use aat_layout::AatError;
use aat_layout::buffer::Direction;
use aat_machine_tables::entry_bits::{DONT_ADVANCE, NO_INDEX, class};
use aat_machine_tables::{Acting, ContextualSubtable, ExtendedStateTable, SubtableKind};
use aat_shaper::{Shaper, TextGlyph};
use std::alloc::{AllocError, Global};

/// The most first parts, and the most second parts, that are put together.
const MOST_PARTS: usize = 6;

/// How many lines are tried in which each part stands once.
const TRIES: usize = MOST_PARTS * MOST_PARTS;

/// How often a first part stands in a line at most: acts of rearrangement and of ligatures may need several glyphs.
const MOST_COPIES: usize = 4;

/// The most glyphs of a line that is shaped.
const MOST_GLYPHS: u32 = 64;

/// The most lines that are shaped for a font, each with its two parts.
const MOST_LINES: usize = 2048;

/// What shapes the lines of a font.
#[derive(Drop)]
struct Trials<'f> {
    /// The shaper of the font.
    shaper: Shaper<'f>,
    /// How many lines may still be shaped.
    left: usize,
}

/// What is asked of a subtable that is not settled.
#[derive(Clone, Copy)]
struct Asked {
    /// Why it is not.
    reason: Unsettled,
    /// The font has the glyphs below this number.
    glyph_count: u32,
    /// How the subtable goes over a line.
    order: Order,
}

/// The parts of lines that are tried: the state and the class at the last glyph of each, and the way to that state.
#[derive(Drop)]
struct Parts {
    /// The ways to states.
    search: Search,
    /// First parts, behind which the machine is in state 0: the first that is found, and those whose last entry sets
    /// something or acts.
    firsts: Vec<(u16, u16)>,
    /// Second parts, whose last entry acts: of each state the one at the end of the text and the one of the first class; and
    /// the first way back to state 0, which has an end there.
    seconds: Vec<(u16, u16)>,
}

impl Parts {
    /// The parts that are tried: of those that stand behind a cut, where a class is given, the ones that begin with it.
    fn of<T: Acting>(
        alloc: Global,
        table: &ExtendedStateTable<T>,
        shown: &[Option<u16>],
        first: Option<u16>,
    ) -> Result<Parts, AllocError> {
        let search = Search::everywhere(alloc, table, shown, first)?;
        let mut parts = Parts {
            search,
            firsts: Vec::new(alloc),
            seconds: Vec::new(alloc),
        };
        for place in 0..parts.search.order.len() {
            if let Some(state) = parts.search.order.get(place).copied() {
                parts.note(table, shown, state)?;
            }
        }
        if let Some(cell) = parts.firsts.first().copied() {
            parts.seconds.insert(0, cell)?;
        }
        Ok(parts)
    }

    /// Adds the parts that end in a state.
    fn note<T: Acting>(
        &mut self,
        table: &ExtendedStateTable<T>,
        shown: &[Option<u16>],
        state: u16,
    ) -> Result<(), AllocError> {
        let mut is_noted = false;
        for class in 0..table.class_count() {
            let Some(entry) = table.entry(state, class) else {
                return Ok(());
            };
            let acts = T::acts(&entry);
            let is_end = class == class::END_OF_TEXT;
            let is_glyph = !is_end && is_shown(shown, class);
            let has_room = self.seconds.len() < MOST_PARTS;
            if acts && !is_noted && has_room && (is_end || is_glyph) {
                self.seconds.push((state, class))?;
                is_noted = is_glyph;
            }
            let sets = acts || entry.flags & !DONT_ADVANCE != 0;
            let is_wanted = self.firsts.is_empty() || sets && self.firsts.len() < MOST_PARTS;
            if is_wanted && is_glyph && state_behind(table, state, class) == Some(0) {
                self.firsts.push((state, class))?;
            }
        }
        Ok(())
    }
}

/// The line of a first part and a second one, by the number of both, if there are such parts. The first one stands in it
/// once more at each further `TRIES` of the number.
fn line_of_parts(
    alloc: Global,
    order: Order,
    shown: &[Option<u16>],
    firsts: &Parts,
    seconds: &Parts,
    number: usize,
) -> Result<Option<GlyphLine>, AllocError> {
    let first = firsts.firsts.get(number % TRIES / MOST_PARTS).copied();
    let second = seconds.seconds.get(number % MOST_PARTS).copied();
    let (Some(first), Some(second)) = (first, second) else {
        return Ok(None);
    };
    let way = firsts.search.classes_to(alloc, first.0)?;
    let Some(before) = glyphs_of(alloc, shown, &way, first.1)? else {
        return Ok(None);
    };
    let way = seconds.search.classes_to(alloc, second.0)?;
    let Some(behind) = glyphs_of(alloc, shown, &way, second.1)? else {
        return Ok(None);
    };
    let mut glyphs = Vec::new(alloc);
    for _copy in 0..number / TRIES + 1 {
        glyphs.extend_from_slice(&before)?;
    }
    let mut cut = glyphs.len();
    glyphs.extend_from_slice(&behind)?;
    if order.is_backwards {
        glyphs.reverse();
        cut = behind.len();
    }
    Ok(Some(GlyphLine {
        glyphs,
        is_vertical: order.is_vertical,
        feature: None,
        cut: Some(cut),
    }))
}

/// The glyphs that are drawn, and their clusters.
#[derive(Drop)]
struct Drawn {
    glyphs: Vec<u16>,
    clusters: Vec<u32>,
}

/// Shapes a text, and adds what is drawn. Answers whether it is not refused.
fn draw(
    shaper: &mut Shaper<'_>,
    direction: Direction,
    text: &[TextGlyph],
    drawn: &mut Drawn,
) -> Result<bool, AllocError> {
    match shaper.shape(direction, text, &[]) {
        Err(AatError::OutOfMemory) => return Err(AllocError),
        Err(_) => return Ok(false),
        Ok(()) => {}
    }
    for glyph in shaper.glyphs() {
        drawn.glyphs.push(glyph.glyph_id)?;
        drawn.clusters.push(glyph.cluster)?;
    }
    Ok(true)
}

/// How a line is not what its two parts are.
#[derive(Clone, Copy)]
enum Difference {
    /// In its glyphs.
    Glyphs,
    /// In its clusters alone.
    Clusters,
}

/// How a line is not what its two parts are, each shaped by itself, if it is not.
fn compare(
    alloc: Global,
    trials: &mut Trials<'_>,
    line: &GlyphLine,
) -> Result<Option<Difference>, AllocError> {
    let direction = if line.is_vertical {
        Direction::TopToBottom
    } else {
        Direction::LeftToRight
    };
    let mut text = Vec::new(alloc);
    for (glyph, cluster) in line.glyphs.iter().zip(0..MOST_GLYPHS) {
        text.push(TextGlyph::new(*glyph, cluster))?;
    }
    let cut = line.cut.unwrap_or(0).min(text.len());
    let (before, behind) = text.split_at(cut);
    if before.is_empty() || behind.is_empty() || trials.left == 0 {
        return Ok(None);
    }
    trials.left -= 1;
    let mut whole = Drawn {
        glyphs: Vec::new(alloc),
        clusters: Vec::new(alloc),
    };
    let mut parts = Drawn {
        glyphs: Vec::new(alloc),
        clusters: Vec::new(alloc),
    };
    let is_shaped = draw(&mut trials.shaper, direction, &text, &mut whole)?
        && draw(&mut trials.shaper, direction, before, &mut parts)?
        && draw(&mut trials.shaper, direction, behind, &mut parts)?;
    if is_shaped && whole.glyphs.as_slice() != parts.glyphs.as_slice() {
        return Ok(Some(Difference::Glyphs));
    }
    if is_shaped && whole.clusters.as_slice() != parts.clusters.as_slice() {
        return Ok(Some(Difference::Clusters));
    }
    Ok(None)
}

/// A shortest of the first so many lines of two parts that are not what their parts are: one whose glyphs are not, if there
/// is one.
fn shortest_line(
    alloc: Global,
    trials: &mut Trials<'_>,
    order: Order,
    shown: &[Option<u16>],
    firsts: &Parts,
    seconds: &Parts,
    tries: usize,
) -> Result<Option<GlyphLine>, AllocError> {
    let mut best: Option<GlyphLine> = None;
    let mut bound = MOST_GLYPHS as usize + 1;
    let mut is_plain = true;
    for number in 0..tries {
        let line = line_of_parts(alloc, order, shown, firsts, seconds, number)?;
        if let Some(line) = line
            && (line.glyphs.len() < bound || line.glyphs.len() == bound && !is_plain)
            && let Some(found) = compare(alloc, trials, &line)?
        {
            let has_glyphs = matches!(found, Difference::Glyphs);
            if has_glyphs || line.glyphs.len() < bound {
                bound = line.glyphs.len();
                is_plain = has_glyphs;
                best = Some(line);
            }
        }
    }
    Ok(best)
}

/// A line that shows that a machine is not settled, where one is found: it comes to the cut in state 0, or to an entry
/// that may be taken for that of state 0.
fn line_of<T: Acting>(
    alloc: Global,
    trials: &mut Trials<'_>,
    table: &ExtendedStateTable<T>,
    preferred: &[(u16, u16)],
    asked: Asked,
) -> Result<Option<GlyphLine>, AllocError> {
    let order = asked.order;
    let shown = shown_classes(alloc, table, preferred, 1, asked.glyph_count)?;
    let mut parts = Parts::of(alloc, table, &shown, None)?;
    if let Unsettled::TakenForOne(_, state, taken) = asked.reason {
        let seconds = Parts::of(alloc, table, &shown, Some(taken))?;
        parts.firsts.clear();
        parts.firsts.push((state, class::END_OF_TEXT))?;
        return shortest_line(alloc, trials, order, &shown, &parts, &seconds, TRIES);
    }
    if let Unsettled::UsedBeforeSet(_, state, class) = asked.reason {
        parts.seconds.insert(0, (state, class))?;
    }
    let tries = MOST_COPIES * TRIES;
    shortest_line(alloc, trials, order, &shown, &parts, &parts, tries)
}

/// What the lookup changes that the entry of a reason names, or else the first lookup.
fn changed_pairs(
    alloc: Global,
    subtable: &ContextualSubtable,
    reason: Unsettled,
) -> Result<Vec<(u16, u16)>, AllocError> {
    let mut place = 0;
    if let Unsettled::UsedBeforeSet(_, state, class) = reason
        && let Some(entry) = subtable.state.entry(state, class)
    {
        place = match entry.extra.mark_index {
            NO_INDEX => entry.extra.current_index,
            index => index,
        };
    }
    match subtable.lookups.get(place as usize) {
        Some(lookup) => lookup.to_pairs(alloc),
        None => Ok(Vec::new(alloc)),
    }
}

/// A line that shows that a subtable of `morx` is not settled, where the subtable is on and one is found.
fn line_at(
    alloc: Global,
    trials: &mut Trials<'_>,
    place: Place,
    reason: Unsettled,
    glyph_count: u32,
) -> Result<Option<GlyphLine>, AllocError> {
    let Some((chain, subtable)) = place.subtable_in(trials.shaper.font()) else {
        return Ok(None);
    };
    if chain.default_flags & subtable.feature_flags == 0 {
        return Ok(None);
    }
    let asked = Asked {
        reason,
        glyph_count,
        order: Order::of(subtable.coverage),
    };
    match &subtable.kind {
        SubtableKind::Rearrangement(table) => line_of(alloc, trials, table, &[], asked),
        SubtableKind::Contextual(subtable) => {
            let pairs = changed_pairs(alloc, subtable, reason)?;
            line_of(alloc, trials, &subtable.state, &pairs, asked)
        }
        SubtableKind::Ligature(subtable) => line_of(alloc, trials, &subtable.state, &[], asked),
        _ => Ok(None),
    }
}

/// Gives each finding of a subtable that is not settled the line that shows it, where one is found among at most 144 that are put
/// together for the subtable, and the 2,048 first that are shaped for the font.
pub(crate) fn show_parts(
    alloc: Global,
    font: &hb_font_t,
    glyph_count: u32,
    found: &mut [Finding],
) -> Result<(), AllocError> {
    let mut trials = Trials {
        shaper: Shaper::new(alloc, font),
        left: MOST_LINES,
    };
    for finding in found.iter_mut() {
        if let Fact::NotSettled(reason) = finding.fact {
            finding.line = line_at(alloc, &mut trials, finding.place, reason, glyph_count)?;
        }
    }
    Ok(())
}
