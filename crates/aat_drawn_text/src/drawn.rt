//! What is drawn of a line.
ghost use Rattle.std.specs.Prelude.{◌≡◌, ◌<◌, ◌≤◌, [], IfErr, IfOk, IfSome, MatchOption, OnOk, length, map, true};
ghost use Rattle.std.specs.List.{range_with_len};
ghost use Rattle.aat_glyph.specs.placement.Attachments.{IsUnattached, added_up, parent};
ghost use Rattle.aat_buffer.specs.Buffer.{Buffer, position_list};
ghost use Rattle.aat_buffer.specs.Clusters.{IsSmall, KeepsOrder};
ghost use Rattle.aat_kerning_machines.specs.Positions.{IsPlaced};
ghost use Rattle.aat_shaped_text.specs.Breaks.{kept_before};
ghost use Rattle.aat_shaped_text.specs.KernedPlaces.{ClosesChained};
ghost use Rattle.aat_drawn_text.specs.inside.Drawing.{IsDrawn, clusters_of, may_break};
ghost use Rattle.aat_drawn_text.specs.inside.Steady.{IsSteady};
ghost use Rattle.aat_shaped_text.specs.ShapedText.{drawn_glyph, drawn_glyphs, drawn_position, is_ignorable, is_mark, kept_place, kept_places, kind_of, with_clusters_of};

use crate::kerned::OpenPlaces;
use crate::kinds::kind_of_number;
use crate::line::{KIND, MARK};
use crate::steady::SteadySpan;
use crate::text_line::TextLine;
use aat_glyph::{add_up_attachments, parent_of};
use aat_layout::buffer::{GlyphPosition, hb_buffer_t, hb_glyph_info_t};
use aat_layout::{AatError, is_solid};
use aat_shaped_text::{
    BreakRules, CharacterKind, ShapedGlyph, close_chained, front_of, is_kept, may_break_at,
};
use std::alloc::{AllocError, Allocator};

/// What allows a line to be broken.
#[derive(Clone, Copy)]
pub(crate) struct Breaks<'f> {
    /// Whether the text and its machines allow it anywhere.
    pub(crate) is_allowed: bool,
    /// What is asked of the glyphs, where they decide.
    pub(crate) rules: BreakRules<'f>,
    /// Which places kerning leaves open.
    pub(crate) left_open: OpenPlaces<'f>,
}

/// Whether no glyph of a line has an attach type, so that none is attached to another. Where kerning is known to attach
/// nothing no glyph is asked.
fn is_unattached<H: Allocator + Copy>(attaches_none: bool, buffer: &hb_buffer_t<H>) -> bool
    requires placed { IsPlaced buffer.now }
    requires none { attaches_none ≡ true → IsUnattached buffer.now.direction (position_list buffer.now) }
    ensures { result ≡ true → IsUnattached buffer.now.direction (position_list buffer.now) }
{
    if attaches_none {
        return true;
    }
    for i in 0..buffer.len() {
        if buffer.pos(i).attach_type != 0 {
            return false;
        }
    }
    true
}

/// How many glyphs are kept before each place of a line.
fn kept_counts<H: Allocator + Copy>(
    alloc: H,
    buffer: &TextLine<'_, H>,
    line: &[hb_glyph_info_t],
) -> Result<Vec<u32, H>, AllocError>
    requires line { line.now ≡ buffer.now.line }
    ensures { IfOk result (λ counts. counts.items ≡ map (kept_before line.now) (range_with_len 0 (length line.now))) }
{
    let mut counts = Vec::with_capacity(alloc, buffer.len())?;
    let mut kept = 0;
    for i in 0..line.len() {
        counts.push(kept)?;
        if is_kept(&line[i]) {
            kept += 1;
        }
    }
    Ok(counts)
}

/// The positions of a line.
fn positions_of<H: Allocator + Copy>(
    alloc: H,
    buffer: &hb_buffer_t<H>,
) -> Result<Vec<GlyphPosition, H>, AllocError>
    requires placed { IsPlaced buffer.now }
    ensures { IfOk result (λ positions. positions.items ≡ position_list buffer.now) }
{
    let mut positions = Vec::with_capacity(alloc, buffer.len())?;
    for i in 0..buffer.len() {
        positions.push(*buffer.pos(i))?;
    }
    Ok(positions)
}

/// The same as `close_attached`, of a line with its own positions.
fn close_in<H: Allocator + Copy>(
    alloc: H,
    attaches_none: bool,
    buffer: &hb_buffer_t<H>,
    places: &mut [bool],
) -> Result<Option<Vec<GlyphPosition, H>>, AllocError>
    requires placed { IsPlaced buffer.now }
    requires none { attaches_none ≡ true → IsUnattached buffer.now.direction (position_list buffer.now) }
    ensures closed { length places.old ≡ length buffer.now.line → OnOk result
        (ClosesChained buffer.now.direction (position_list buffer.now) places.old places.new) }
    ensures attached { IfOk result (λ found. MatchOption found
        (IsUnattached buffer.now.direction (position_list buffer.now))
        (λ positions. positions.items ≡ position_list buffer.now)) }
{
    if is_unattached(attaches_none, buffer) {
        return Ok(None);
    }
    let positions = positions_of(alloc, buffer)?;
    if places.len() == buffer.len() {
        close_chained(buffer.direction(), &positions, places);
    }
    Ok(Some(positions))
}

/// Closes each place of a line in drawing order over which a glyph is attached, where each place of it is told of.
/// Answers the positions of the line, where some glyph of it may be attached to another, given whether kerning is
/// known to attach none.
#[tactic(auto, using(crate::proofs::TextLines::own_by))]
pub(crate) fn close_attached<H: Allocator + Copy>(
    alloc: H,
    attaches_none: bool,
    buffer: &TextLine<'_, H>,
    places: &mut [bool],
) -> Result<Option<Vec<GlyphPosition, H>>, AllocError>
    requires placed { IsPlaced buffer.now }
    requires none { attaches_none ≡ true → IsUnattached buffer.now.direction (position_list buffer.now) }
    ensures closed { length places.old ≡ length buffer.now.line → OnOk result
        (ClosesChained buffer.now.direction (position_list buffer.now) places.old places.new) }
    ensures attached { IfOk result (λ found. MatchOption found
        (IsUnattached buffer.now.direction (position_list buffer.now))
        (λ positions. positions.items ≡ position_list buffer.now)) }
{
    if buffer.placed_by.is_some() {
        return Ok(None);
    }
    close_in(alloc, attaches_none, &buffer.buffer, places)
}

/// A place of a line as one among the glyphs that are kept.
fn kept_place(line: &[hb_glyph_info_t], kept: &[u32], place: Option<usize>) -> Option<u32>
    requires in_line { IfSome place (λ j. j < length line.now) }
    requires kept { kept.now ≡ map (kept_before line.now) (range_with_len 0 (length line.now)) }
    ensures { result ≡ kept_place line.now place }
{
    match place {
        Some(j) if is_kept(&line[j]) => Some(kept[j]),
        _ => None,
    }
}

/// What is known of a line that is drawn, where glyphs may be attached to others.
#[derive(Clone, Copy)]
struct Drawn<'l> {
    /// Its positions, with the offsets added up.
    added: &'l [GlyphPosition],
    /// How many glyphs are kept before each place.
    kept: &'l [u32],
}

/// The position of the glyph at a place of a line that is drawn.
#[inline(always)]
fn drawn_position<H: Allocator + Copy>(
    buffer: &TextLine<'_, H>,
    line: &[hb_glyph_info_t],
    attached: Option<Drawn>,
    i: usize,
) -> GlyphPosition
    requires ids { IsSmall buffer.now }
    requires placed { IsPlaced buffer.now }
    requires line { line.now ≡ buffer.now.line }
    requires in_line { i < length line.now }
    requires attached { MatchOption attached (IsUnattached buffer.now.direction (position_list buffer.now))
        (IsDrawn buffer.now) }
    ensures { result ≡ drawn_position buffer.now i }
{
    match attached {
        Some(drawn) => drawn.added[i],
        None => buffer.pos(&line[i], i),
    }
}

/// What the glyph at a place of a line is attached to, as a place among the glyphs that are kept.
#[inline(always)]
fn attached_to<H: Allocator + Copy>(
    buffer: &TextLine<'_, H>,
    line: &[hb_glyph_info_t],
    attached: Option<Drawn>,
    i: usize,
) -> Option<u32>
    requires placed { IsPlaced buffer.now }
    requires in_line { i < length buffer.now.line }
    requires line { line.now ≡ buffer.now.line }
    requires attached { MatchOption attached (IsUnattached buffer.now.direction (position_list buffer.now))
        (IsDrawn buffer.now) }
    ensures { result ≡ kept_place buffer.now.line (parent buffer.now.direction (position_list buffer.now) i) }
{
    match attached {
        Some(drawn) => {
            let parent = parent_of(buffer.direction(), drawn.added, i);
            kept_place(line, drawn.kept, parent)
        }
        None => None,
    }
}

/// Whether a line in drawing order may be broken before the glyph at place `i`, which begins with the deleted glyphs of its
/// cluster in a row before it. `kept` glyphs are kept before it, and the features ask for the same over a span.
#[inline(always)]
fn may_break(
    breaks: Breaks,
    span: SteadySpan,
    line: &[hb_glyph_info_t],
    kept: usize,
    i: usize,
) -> bool
    requires steady { IsSteady breaks.rules.features.now span }
    requires in_line { i < length line.now }
    requires kept { kept ≡ kept_before line.now i }
    ensures { result ≡ may_break breaks.entry line.now i }
{
    if !breaks.is_allowed {
        return false;
    }
    let front = front_of(line, i);
    let rules = span.rules_at(breaks.rules, line, front);
    match breaks.left_open {
        OpenPlaces::Each => may_break_at(rules, line, kept, front),
        OpenPlaces::Solid(skips) => {
            is_solid(&line[front], skips) && may_break_at(rules, line, kept, front)
        }
        OpenPlaces::Told(places) => front < places.len() && places[front],
    }
}

/// Whether the features of a text are asked where its line may be broken.
fn asks_features(breaks: Breaks) -> bool {
    breaks.is_allowed
        && !breaks.rules.features.is_empty()
        && !matches!(breaks.left_open, OpenPlaces::Told(_))
}

/// The span over which features ask for the same that a cluster is in, where features are asked, behind another span.
#[inline(always)]
fn next_span(breaks: Breaks, span: SteadySpan, cluster: u32) -> SteadySpan
    requires { IsSteady breaks.rules.features.now span }
    ensures { IsSteady breaks.entry.rules.features.now result }
{
    if asks_features(breaks) {
        span.at(breaks.rules.features, cluster)
    } else {
        span
    }
}

/// Of what an ignorable character has on a line, the bit that the layer leaves as it is.
const IGNORABLE_CHARACTER: u16 = 0x40;

/// Whether a glyph stands for an ignorable character.
fn is_ignorable(glyph: &hb_glyph_info_t) -> bool
    ensures { result ≡ is_ignorable glyph.now }
{
    glyph.unicode_props & IGNORABLE_CHARACTER != 0
}

/// Whether a glyph has the property of marks.
fn is_mark(glyph: &hb_glyph_info_t) -> bool
    ensures { result ≡ is_mark glyph.now }
{
    glyph.glyph_props & MARK != 0
}

/// The kind of the character that a glyph stands for.
fn kind_of(glyph: &hb_glyph_info_t) -> CharacterKind
    ensures { result ≡ kind_of glyph.now }
{
    kind_of_number(glyph.unicode_props / KIND)
}

/// The glyph at a place of a line that is drawn, before which so many glyphs are kept.
#[inline(always)]
fn drawn_glyph<H: Allocator + Copy>(
    breaks: Breaks,
    span: SteadySpan,
    buffer: &TextLine<'_, H>,
    line: &[hb_glyph_info_t],
    attached: Option<Drawn>,
    kept: usize,
    i: usize,
) -> ShapedGlyph
    requires ids { IsSmall buffer.now }
    requires placed { IsPlaced buffer.now }
    requires line { line.now ≡ buffer.now.line }
    requires in_line { i < length buffer.now.line }
    requires attached { MatchOption attached (IsUnattached buffer.now.direction (position_list buffer.now))
        (IsDrawn buffer.now) }
    requires kept { kept ≡ kept_before buffer.now.line i }
    requires steady { IsSteady breaks.rules.features.now span }
    ensures { result ≡ drawn_glyph (may_break breaks.entry buffer.now.line) buffer.now i }
{
    let glyph = line[i];
    let position = drawn_position(buffer, line, attached, i);
    ShapedGlyph {
        glyph_id: glyph.glyph_id as u16,
        cluster: glyph.cluster,
        is_ignorable: is_ignorable(&glyph),
        is_mark: is_mark(&glyph),
        kind: kind_of(&glyph),
        x_advance: position.x_advance,
        y_advance: position.y_advance,
        x_offset: position.x_offset,
        y_offset: position.y_offset,
        attached_to: attached_to(buffer, line, attached, i),
        may_break_before: may_break(breaks, span, line, kept, i),
    }
}

/// Puts the glyphs of a line that are kept into a vector, which gets room for the whole line at once.
// it and what it calls stand in each caller anew, so that what is known there is asked of no glyph
#[inline(always)]
fn put_glyphs<H: Allocator + Copy, A: Allocator>(
    breaks: Breaks,
    buffer: &TextLine<'_, H>,
    line: &[hb_glyph_info_t],
    attached: Option<Drawn>,
    glyphs: &mut Vec<ShapedGlyph, A>,
) -> Result<(), AatError>
    requires ids { IsSmall buffer.now }
    requires placed { IsPlaced buffer.now }
    requires line { line.now ≡ buffer.now.line }
    requires attached { MatchOption attached (IsUnattached buffer.now.direction (position_list buffer.now))
        (IsDrawn buffer.now) }
    requires empty { glyphs.old.items ≡ [] }
    ensures ok { OnOk result (glyphs.new.items
        ≡ map (drawn_glyph (may_break breaks.entry buffer.now.line) buffer.now) (kept_places buffer.now.line)) }
    ensures memory { IfErr result (λ error. error ≡ AatError.OutOfMemory) }
{
    glyphs.reserve(line.len())?;
    let mut kept = 0;
    let mut span = SteadySpan::none();
    for i in 0..line.len() {
        span = next_span(breaks, span, line[i].cluster);
        if is_kept(&line[i]) {
            glyphs.push_reserved(drawn_glyph(breaks, span, buffer, line, attached, kept, i));
            kept += 1;
        }
    }
    Ok(())
}

/// Whether the glyphs of a line alone tell where it may be broken.
fn are_told_by_glyphs(breaks: Breaks) -> bool
    ensures allowed { result ≡ true → breaks.entry.is_allowed ≡ true }
    ensures features { result ≡ true → breaks.entry.rules.features.now ≡ [] }
    ensures open { result ≡ true → breaks.entry.left_open ≡ OpenPlaces.Each }
{
    breaks.is_allowed
        && breaks.rules.features.is_empty()
        && matches!(breaks.left_open, OpenPlaces::Each)
}

/// Puts the glyphs of a line that are kept into a vector, where none is attached to another. A line whose glyphs alone
/// tell where it may be broken has a loop of its own, of fewer steps a glyph.
fn put_unattached<H: Allocator + Copy, A: Allocator>(
    breaks: Breaks,
    buffer: &TextLine<'_, H>,
    line: &[hb_glyph_info_t],
    glyphs: &mut Vec<ShapedGlyph, A>,
) -> Result<(), AatError>
    requires ids { IsSmall buffer.now }
    requires placed { IsPlaced buffer.now }
    requires line { line.now ≡ buffer.now.line }
    requires attached { IsUnattached buffer.now.direction (position_list buffer.now) }
    requires empty { glyphs.old.items ≡ [] }
    ensures ok { OnOk result (glyphs.new.items
        ≡ map (drawn_glyph (may_break breaks.entry buffer.now.line) buffer.now) (kept_places buffer.now.line)) }
    ensures memory { IfErr result (λ error. error ≡ AatError.OutOfMemory) }
{
    if are_told_by_glyphs(breaks) {
        let by_glyphs = Breaks {
            is_allowed: true,
            rules: BreakRules {
                is_even: true,
                features: &[],
            },
            left_open: OpenPlaces::Each,
        };
        return put_glyphs(by_glyphs, buffer, line, None, glyphs);
    }
    put_glyphs(breaks, buffer, line, None, glyphs)
}

/// Puts the glyphs of a line that are kept into a vector, with what they are attached to, by its positions where some may be
/// attached.
fn put_drawn_glyphs<H: Allocator + Copy, A: Allocator>(
    alloc: H,
    breaks: Breaks,
    buffer: &TextLine<'_, H>,
    attached: Option<Vec<GlyphPosition, H>>,
    glyphs: &mut Vec<ShapedGlyph, A>,
) -> Result<(), AatError>
    requires ids { IsSmall buffer.now }
    requires placed { IsPlaced buffer.now }
    requires front { buffer.now.cursor ≡ 0 }
    requires attached { MatchOption attached (IsUnattached buffer.now.direction (position_list buffer.now))
        (λ positions. positions.items ≡ position_list buffer.now) }
    requires empty { glyphs.old.items ≡ [] }
    ensures ok { OnOk result (glyphs.new.items
        ≡ map (drawn_glyph (may_break breaks.entry buffer.now.line) buffer.now) (kept_places buffer.now.line)) }
    ensures memory { IfErr result (λ error. error ≡ AatError.OutOfMemory) }
{
    let line = buffer.from_cursor();
    let Some(mut added) = attached else {
        return put_unattached(breaks, buffer, line, glyphs);
    };
    add_up_attachments(alloc, buffer.direction(), &mut added)?;
    let kept = kept_counts(alloc, buffer, line)?;
    let drawn = Drawn {
        added: &added,
        kept: &kept,
    };
    put_glyphs(breaks, buffer, line, Some(drawn), glyphs)
}

/// Gives glyphs the clusters of those of a line.
fn take_clusters(line: &[hb_glyph_info_t], glyphs: &mut [ShapedGlyph])
    requires count { length glyphs.old ≡ length line.now }
    ensures { glyphs.new ≡ with_clusters_of line.now glyphs.old }
{
    for i in 0..glyphs.len() {
        glyphs[i].cluster = line[i].cluster;
    }
}

/// Puts what is drawn of a line, which stands in drawing order, into `glyphs`, by its positions where some glyph may be
/// attached to another, and takes deleted glyphs out of the line. Where there are some, its positions go too.
pub(crate) fn draw<H: Allocator + Copy, A: Allocator>(
    alloc: H,
    breaks: Breaks,
    buffer: &mut TextLine<'_, H>,
    attached: Option<Vec<GlyphPosition, H>>,
    glyphs: &mut Vec<ShapedGlyph, A>,
) -> Result<(), AatError>
    requires ids { IsSmall buffer.old }
    requires placed { IsPlaced buffer.old }
    requires attached { MatchOption attached (IsUnattached buffer.old.direction (position_list buffer.old))
        (λ positions. positions.items ≡ position_list buffer.old) }
    requires empty { glyphs.old.items ≡ [] }
    ensures ok { OnOk result (glyphs.new.items ≡ drawn_glyphs (may_break breaks.entry buffer.old.line) buffer.old) }
    ensures clusters { OnOk result (clusters_of glyphs.new.items ≡ map (λ g. g.cluster) buffer.new.line) }
    ensures order { OnOk result (KeepsOrder buffer.old.line buffer.new.line) }
    ensures count { OnOk result (length glyphs.new.items ≤ length buffer.old.line) }
    ensures memory { IfErr result (λ error. error ≡ AatError.OutOfMemory) }
{
    buffer.sync();
    put_drawn_glyphs(alloc, breaks, buffer, attached, glyphs)?;
    if glyphs.len() < buffer.len() {
        buffer.drop_deleted();
        take_clusters(buffer.from_cursor(), glyphs);
    }
    Ok(())
}
