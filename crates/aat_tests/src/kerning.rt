//! How a line is kerned, as data, and the fonts of that.

use aat_layout::buffer::{BufferError, Direction, GlyphPosition, hb_buffer_t, hb_glyph_info_t};
use aat_layout::font::{
    Acting, Ankr, EntryData, ExtendedStateTable, FaceTables, GenericStateEntry, Kern,
    KernEntryData, KernKind, KernMachine, KernSubtable, Kerx, KerxFormat, KerxSubtable, Pairs,
    Point, Subtable1, Subtable4, hb_font_t, hb_ot_shape_plan_t,
};
use aat_layout::{AatError, hb_aat_layout_position, hb_ot_layout_kern};
use aat_shape::described::drop_font;
use std::alloc::Global;
use std::test::Fail;

/// The bit of a mask by which a glyph asks for kerning, and that of the properties by which kerning skips it.
const ASKS: u32 = 8;

const MARK: u16 = 8;

/// An entry: its state, its class, the state that follows, its flags, and the index that it names.
pub(crate) type Rule = (u16, u16, u16, u16, u16);

/// The values of a machine.
#[derive(Clone, Copy)]
pub(crate) enum Values {
    Listed(&'static [i16]),
    /// As many as 16 bits can number: 8 is the last, and the others are 4.
    Many,
}

/// How the only subtable of a font kerns rows.
#[derive(Clone, Copy)]
pub(crate) enum Way {
    KernPairs(&'static [(u16, u16, i16)]),
    KerxPairs(&'static [(u16, u16, i16)]),
    KernStack(&'static [Rule], Values),
    /// With a tuple count.
    KerxStack(&'static [Rule], Values, u32),
    Anchors(&'static [Rule]),
}

/// The classes of glyphs, of which there are six. The glyph 65535 is of class 2, and all others are out of bounds.
const CLASSES: [(u16, u16); 4] = [(0, 4), (1, 4), (2, 5), (3, 65535)];

/// What an entry holds of the index that it names.
trait Extra: Acting {
    fn of(index: u16) -> Self;
}

impl Extra for KernEntryData {
    fn of(index: u16) -> KernEntryData {
        KernEntryData { value_index: index }
    }
}

impl Extra for EntryData {
    fn of(index: u16) -> EntryData {
        EntryData {
            action_index: index,
        }
    }
}

/// The state table of a machine.
fn machine_of<T: Extra>(alloc: Global, rules: &[Rule]) -> Result<ExtendedStateTable<T>, Fail> {
    let mut entries = Vec::new(alloc);
    for (state, class, new_state, flags, index) in rules {
        let entry = GenericStateEntry {
            new_state: *new_state,
            flags: *flags,
            extra: T::of(*index),
        };
        entries.push((*state, *class, entry))?;
    }
    Ok(ExtendedStateTable::new(alloc, 6, &CLASSES, &entries)?)
}

/// The values of a machine, as a list.
fn values_of(alloc: Global, values: Values) -> Result<Vec<i16>, Fail> {
    match values {
        Values::Listed(values) => Ok(Vec::from_slice(alloc, values)?),
        Values::Many => {
            let mut values = vec![in alloc; 4; 65535]?;
            values.push(8)?;
            Ok(values)
        }
    }
}

/// A `kern` table of a machine.
fn kern_machine(alloc: Global, rules: &[Rule], values: Values) -> Result<Kern, Fail> {
    let values = values_of(alloc, values)?;
    let state_table = machine_of(alloc, rules)?;
    let kind = KernKind::Machine(KernMachine {
        state_table,
        values,
    });
    Ok(Kern::new(vec![in alloc; KernSubtable::new(kind, true)]?)?)
}

/// The anchor points: 100, 200 of the glyphs 0 and 1, 30, -50 of 2, and those at both ends of 65535.
fn ankr_of(alloc: Global) -> Result<Ankr, Fail> {
    let mut rows = Vec::new(alloc);
    for (glyph, x, y) in [
        (0, 100, 200),
        (1, 100, 200),
        (2, 30, -50),
        (65535, -32768, 32767),
    ] {
        rows.push((glyph, vec![in alloc; Point { x, y }]?))?;
    }
    Ok(Ankr::new(rows)?)
}

/// A format of `kerx`.
fn format_of(alloc: Global, way: Way) -> Result<KerxFormat, Fail> {
    match way {
        Way::KerxPairs(pairs) => Ok(KerxFormat::Format0(Pairs::new(alloc, pairs)?)),
        Way::KerxStack(rules, values, _) => {
            let values = values_of(alloc, values)?;
            let state_table = machine_of(alloc, rules)?;
            Ok(KerxFormat::Format1(Subtable1 {
                state_table,
                values,
            }))
        }
        Way::Anchors(rules) => {
            let anchor_points = Vec::from_slice(alloc, &[(0, 0)])?;
            let state_table = machine_of(alloc, rules)?;
            Ok(KerxFormat::Format4(Subtable4 {
                state_table,
                anchor_points,
            }))
        }
        _ => Err(Fail::new("no format of kerx")),
    }
}

/// A `kern` table of pairs.
pub(crate) fn kern_pairs(alloc: Global, pairs: &[(u16, u16, i16)]) -> Result<Kern, Fail> {
    let kind = KernKind::Pairs(Pairs::new(alloc, pairs)?);
    Ok(Kern::new(vec![in alloc; KernSubtable::new(kind, true)]?)?)
}

/// A `kerx` table of one subtable.
fn kerx_of(alloc: Global, way: Way) -> Result<Kerx, Fail> {
    let tuple_count = match way {
        Way::KerxStack(_, _, count) => count,
        _ => 0,
    };
    let subtable = KerxSubtable {
        tuple_count,
        ..KerxSubtable::new(format_of(alloc, way)?, true)
    };
    Ok(Kerx::new(vec![in alloc; subtable]?)?)
}

/// The tables of a font of one subtable.
fn tables_of(alloc: Global, way: Way) -> Result<FaceTables, Fail> {
    match way {
        Way::KernPairs(pairs) => {
            let kern = kern_pairs(alloc, pairs)?;
            Ok(FaceTables::default().with_kern(kern))
        }
        Way::KernStack(rules, values) => {
            let kern = kern_machine(alloc, rules, values)?;
            Ok(FaceTables::default().with_kern(kern))
        }
        _ => {
            let ankr = ankr_of(alloc)?;
            let kerx = kerx_of(alloc, way)?;
            Ok(FaceTables::default().with_kerx(kerx).with_ankr(ankr))
        }
    }
}

/// A line that is kerned. Its glyphs ask for kerning, and have their places as clusters.
#[derive(Clone, Copy)]
pub(crate) struct Line {
    pub(crate) name: &'static str,
    pub(crate) way: Way,
    pub(crate) direction: Direction,
    /// The ids, again and again, so many in all.
    pub(crate) ids: &'static [u32],
    pub(crate) count: usize,
    /// Whether all glyphs but the first and the last are skipped.
    pub(crate) are_skipped: bool,
    /// The advances and the offsets of each glyph before, each in x and in y.
    pub(crate) start: (i32, i32),
    /// The budget, the turns, and what is left of the budget.
    pub(crate) budget: i32,
    pub(crate) turns: u64,
    pub(crate) left: i32,
    /// What is left of glyphs at some places.
    pub(crate) seen: &'static [Seen],
}

/// A place, and the flags, the advance in x, and the offsets in x and y of the glyph there.
pub(crate) type Seen = (usize, u32, i32, i32, i32);

/// The glyph at a place of a line.
fn glyph_at(line: &Line, place: usize) -> hb_glyph_info_t {
    let turn = place.checked_rem(line.ids.len()).unwrap_or(0);
    let is_skipped = line.are_skipped && 0 < place && place.saturating_add(1) < line.count;
    hb_glyph_info_t {
        mask: ASKS,
        glyph_props: if is_skipped { MARK } else { 0 },
        ..hb_glyph_info_t::new(
            line.ids.get(turn).copied().unwrap_or(0),
            (place % 0x1_0000_0000) as u32,
        )
    }
}

/// Gives each glyph the same position.
fn place_all(buffer: &mut hb_buffer_t, (advance, offset): (i32, i32)) -> Result<(), BufferError> {
    buffer.clear_positions()?;
    for place in 0..buffer.len() {
        if buffer.has_positions() && place < buffer.len() {
            *buffer.pos_mut(place) = GlyphPosition {
                x_advance: advance,
                y_advance: advance,
                x_offset: offset,
                y_offset: offset,
                ..GlyphPosition::default()
            };
        }
    }
    Ok(())
}

/// The glyphs of a line, with their positions.
fn buffer_of(alloc: Global, line: &Line) -> Result<hb_buffer_t, BufferError> {
    let mut buffer = hb_buffer_t::new(alloc, 16384, line.budget);
    buffer.set_direction(line.direction);
    for place in 0..line.count {
        buffer.add(glyph_at(line, place))?;
    }
    place_all(&mut buffer, line.start)?;
    Ok(buffer)
}

/// Kerns a line by its table. One that has no positions is refused as too long, as which neither call is.
fn kern(
    alloc: Global,
    way: Way,
    font: &hb_font_t,
    buffer: &mut hb_buffer_t,
) -> Result<u64, AatError> {
    let plan = hb_ot_shape_plan_t {
        requested_kerning: true,
        kern_mask: ASKS,
        ..hb_ot_shape_plan_t::new(Vec::new(alloc))
    };
    if !buffer.all_glyphs_16() || !buffer.has_positions() {
        return Err(AatError::TooLong);
    }
    match way {
        Way::KernPairs(_) | Way::KernStack(_, _) => hb_ot_layout_kern(&plan, font, buffer),
        _ => hb_aat_layout_position(&plan, font, buffer),
    }
}

/// Whether the glyph at a place is left so.
fn is_seen(buffer: &hb_buffer_t, seen: &Seen) -> bool {
    let (place, flags, x_advance, x_offset, y_offset) = *seen;
    if place >= buffer.len() || !buffer.has_positions() {
        return false;
    }
    let position = *buffer.pos(place);
    buffer.info(place).mask & 7 == flags
        && position.x_advance == x_advance
        && (position.x_offset, position.y_offset) == (x_offset, y_offset)
}

/// Whether a line is kerned as it says.
pub(crate) fn is_kerned(alloc: Global, line: &Line) -> Result<bool, Fail> {
    let font = hb_font_t::from_tables(tables_of(alloc, line.way)?);
    let is_kerned = is_kerned_in(alloc, &font, line);
    drop_font(font);
    Ok(is_kerned?)
}

/// Whether a line is kerned in a font as it says.
fn is_kerned_in(alloc: Global, font: &hb_font_t, line: &Line) -> Result<bool, BufferError> {
    let mut buffer = buffer_of(alloc, line)?;
    let answer = kern(alloc, line.way, font, &mut buffer);
    for seen in line.seen {
        if !is_seen(&buffer, seen) {
            return Ok(false);
        }
    }
    Ok(answer == Ok(line.turns) && buffer.max_ops() == line.left && buffer.len() == line.count)
}
