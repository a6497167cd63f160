//! What is told of a subtable that has run.
ghost use Rattle.std.specs.Prelude.{◌≡◌, List, IfOk, IfSome};
ghost use Rattle.aat_buffer.specs.Buffer.{glyph_at};
ghost use Rattle.aat_glyph.specs.declared.glyph.hb_glyph_info_t.{hb_glyph_info_t};
ghost use Rattle.aat_trace.specs.Told.{is_unsafe, newly_marked, told_in};
ghost use Rattle.aat_trace.specs.inside.Telling.{IsActed, told_by};

use crate::log::Log;
use crate::replay::{ids_of, leads};
use crate::traced::{TracedAct, TracedSubtable};
use crate::turns::are_of_turns;
use aat_buffer::{glyph_flag, hb_buffer_t, hb_glyph_info_t};
use std::alloc::{AllocError, Allocator, Global};

/// Which subtable ran, and how.
#[derive(Clone, Copy)]
pub(crate) struct SubtableTurns {
    pub(crate) chain: usize,
    pub(crate) subtable: usize,
    pub(crate) is_run: bool,
    pub(crate) is_reversed: bool,
    pub(crate) turns: u64,
}

/// The glyphs of a line.
pub(crate) fn glyphs_of<A: Allocator + Copy>(
    alloc: Global,
    buffer: &hb_buffer_t<A>,
) -> Result<Vec<hb_glyph_info_t>, AllocError>
    ensures { IfOk result (λ v. v.items ≡ buffer.now.line) }
{
    let mut glyphs = Vec::new(alloc);
    for i in 0..buffer.len() {
        glyphs.push(*buffer.info(i))?;
    }
    Ok(glyphs)
}

/// Whether a glyph has the mark `UNSAFE_TO_BREAK`.
fn is_unsafe(glyph: &hb_glyph_info_t) -> bool
    ensures { result ≡ is_unsafe glyph.now }
{
    glyph.mask & glyph_flag::UNSAFE_TO_BREAK == glyph_flag::UNSAFE_TO_BREAK
}

/// Whether the glyph at a place has that mark. Past the end there is none.
fn is_unsafe_at(glyphs: &[hb_glyph_info_t], place: usize) -> bool
    ensures { result ≡ is_unsafe (glyph_at glyphs.now place) }
{
    match glyphs.get(place) {
        Some(glyph) => is_unsafe(glyph),
        None => false,
    }
}

/// The places of a new line whose glyph has the mark where that of the old line at the same place has it not.
fn newly_marked(
    alloc: Global,
    before: &[hb_glyph_info_t],
    after: &[hb_glyph_info_t],
) -> Result<Vec<usize>, AllocError>
    ensures { IfOk result (λ v. v.items ≡ newly_marked before.now after.now) }
{
    after
        .iter()
        .enumerate()
        .filter(|(place, glyph)| is_unsafe(glyph) && !is_unsafe_at(before, *place))
        .map(|(place, _)| place)
        .collect(alloc)
}

/// What is told of a subtable that found these glyphs and left those, by these acts; nothing where the acts do not lead
/// from the ones to the others, or are not of its turns, one behind another.
fn told_of(
    alloc: Global,
    run: SubtableTurns,
    before: Vec<hb_glyph_info_t>,
    acts: Vec<TracedAct>,
    after: Vec<hb_glyph_info_t>,
) -> Result<Option<TracedSubtable>, AllocError>
    ensures told { IfOk result (λ answer. IfSome answer (λ t. told_in t ≡ told_by run before.items after.items)) }
    ensures acts { IfOk result (λ answer. IfSome answer IsActed) }
{
    let first = ids_of(alloc, &before, run.is_reversed)?;
    let last = ids_of(alloc, &after, run.is_reversed)?;
    if !leads(alloc, &acts, first, &last)? || !are_of_turns(&acts, run.turns, after.len()) {
        return Ok(None);
    }
    let marks = newly_marked(alloc, &before, &after)?;
    Ok(Some(TracedSubtable {
        chain: run.chain,
        subtable: run.subtable,
        is_run: run.is_run,
        is_reversed: run.is_reversed,
        turns: run.turns,
        before,
        acts,
        after,
        marks,
    }))
}

/// What is told of a subtable that found these glyphs, left the line of a buffer, and noted its acts; nothing where
/// memory is wanting.
pub(crate) fn tell<A: Allocator + Copy>(
    alloc: Global,
    run: SubtableTurns,
    before: Option<Vec<hb_glyph_info_t>>,
    log: Log,
    buffer: &hb_buffer_t<A>,
) -> Option<TracedSubtable>
    ensures told { (line : List hb_glyph_info_t) → IfSome before (λ v. v.items ≡ line)
        → IfSome result (λ t. told_in t ≡ told_by run line buffer.now.line) }
    ensures acts { IfSome result IsActed }
{
    let before = before?;
    let acts = log.into_acts()?;
    let after = glyphs_of(alloc, buffer).ok()?;
    told_of(alloc, run, before, acts, after).ok()?
}
