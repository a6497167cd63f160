//! What is drawn of ignorable characters.
ghost use Rattle.std.specs.Prelude.{◌≡◌, ◌<◌, ◌-◌, ◌&&◌, length, map, IfOk};
ghost use Rattle.std.specs.List.{range_with_len};
ghost use Rattle.aat_shaped_text.specs.Parts.{shaped_at};
ghost use Rattle.aat_showing.specs.Ignorables.{as_space, drawn_without_ignorables, kept_glyph, kept_glyphs, kept_place, on_line, space_for, stays, with_spaces};
ghost use Rattle.aat_showing.specs.inside.Listed.{AreAtMost, listed_place};

use aat_glyph::Direction;
use aat_lookup::GlyphId;
use aat_shaped_text::ShapedGlyph;
use std::alloc::{AllocError, Allocator};

/// A glyph without its offset along the line.
fn on_line(direction: Direction, glyph: ShapedGlyph) -> ShapedGlyph
    ensures { result ≡ on_line direction glyph }
{
    if direction.is_vertical() {
        ShapedGlyph {
            y_offset: 0,
            ..glyph
        }
    } else {
        ShapedGlyph {
            x_offset: 0,
            ..glyph
        }
    }
}

/// A glyph as a space without width.
fn as_space(direction: Direction, space: GlyphId, glyph: ShapedGlyph) -> ShapedGlyph
    ensures { result ≡ as_space direction space glyph }
{
    let narrow = ShapedGlyph {
        glyph_id: space.0,
        x_advance: 0,
        y_advance: 0,
        ..glyph
    };
    on_line(direction, narrow)
}

/// A glyph, as a space where it is ignorable.
fn space_for(direction: Direction, space: GlyphId, glyph: ShapedGlyph) -> ShapedGlyph
    ensures { result ≡ space_for direction space glyph }
{
    if glyph.is_ignorable {
        as_space(direction, space, glyph)
    } else {
        glyph
    }
}

/// Draws ignorable glyphs as the space of the font, as [`hide_ignorables`] does where it has one.
///
/// It takes no memory, and cannot be refused.
pub fn hide_as_spaces(glyphs: &mut [ShapedGlyph], direction: Direction, space: GlyphId)
    ensures { glyphs.new ≡ with_spaces direction space glyphs.old }
{
    for i in 0..glyphs.len() {
        glyphs[i] = space_for(direction, space, glyphs[i]);
    }
}

/// Glyphs, with the ignorable ones as spaces.
fn with_spaces<A: Allocator>(
    alloc: A,
    direction: Direction,
    space: GlyphId,
    glyphs: &[ShapedGlyph],
) -> Result<Vec<ShapedGlyph, A>, AllocError>
    ensures { IfOk result (λ drawn. drawn.items ≡ with_spaces direction space glyphs.now) }
{
    let mut drawn = Vec::from_slice(alloc, glyphs)?;
    hide_as_spaces(&mut drawn, direction, space);
    Ok(drawn)
}

/// The place of each glyph among those that stay.
fn kept_places<A: Allocator>(
    alloc: A,
    glyphs: &[ShapedGlyph],
) -> Result<Vec<Option<usize>, A>, AllocError>
    ensures { IfOk result (λ places. places.items
        ≡ map (kept_place glyphs.now) (range_with_len 0 (length glyphs.now))) }
{
    let mut places = Vec::with_capacity(alloc, glyphs.len())?;
    let mut kept = 0;
    for glyph in glyphs {
        if glyph.is_ignorable {
            places.push(None)?;
        } else {
            places.push(Some(kept))?;
            kept += 1;
        }
    }
    Ok(places)
}

/// The place at which a glyph stays, if it does.
fn kept_place(places: &[Option<usize>], place: Option<u32>) -> Option<u32>
    requires { AreAtMost places.now }
    ensures { result ≡ listed_place places.now place }
{
    match places.get(place? as usize) {
        Some(Some(kept)) => Some(*kept as u32),
        _ => None,
    }
}

/// Whether the text may be broken before the glyph at a place, and the one before it stays.
fn may_break(glyphs: &[ShapedGlyph], i: usize) -> bool
    requires { i < length glyphs.now }
    ensures { result ≡ ((shaped_at glyphs.now i).may_break_before && stays (shaped_at glyphs.now (i - 1))) }
{
    glyphs[i].may_break_before && !glyphs[i.saturating_sub(1)].is_ignorable
}

/// A glyph that stays, attached among those that stay.
fn attached_glyph(
    places: &[Option<usize>],
    glyph: ShapedGlyph,
    may_break_before: bool,
) -> ShapedGlyph
    requires { AreAtMost places.now }
    ensures { result ≡ record glyph {
      attached_to = listed_place places.now glyph.attached_to;
      may_break_before = may_break_before;
    } }
{
    ShapedGlyph {
        attached_to: kept_place(places, glyph.attached_to),
        may_break_before,
        ..glyph
    }
}

/// The glyph at a place, which stays.
fn kept_glyph(places: &[Option<usize>], glyphs: &[ShapedGlyph], i: usize) -> ShapedGlyph
    requires in_glyphs { i < length glyphs.now }
    requires places { places.now ≡ map (kept_place glyphs.now) (range_with_len 0 (length glyphs.now)) }
    ensures { result ≡ kept_glyph glyphs.now i }
{
    attached_glyph(places, glyphs[i], may_break(glyphs, i))
}

/// Glyphs without the ignorable ones.
fn kept_glyphs<A: Allocator + Copy>(
    alloc: A,
    glyphs: &[ShapedGlyph],
) -> Result<Vec<ShapedGlyph, A>, AllocError>
    ensures { IfOk result (λ drawn. drawn.items ≡ kept_glyphs glyphs.now) }
{
    let places = kept_places(alloc, glyphs)?;
    let mut drawn = Vec::new(alloc);
    for i in 0..glyphs.len() {
        if !glyphs[i].is_ignorable {
            drawn.push(kept_glyph(&places, glyphs, i))?;
        }
    }
    Ok(drawn)
}

/// What is drawn of a text, where nothing is to be seen of its ignorable characters, as HarfBuzz has it. `glyphs` is
/// what a `Shaper` draws of the text, `direction` the one in which it runs, and `space` the glyph of the space in the
/// font, if it has one.
///
/// An ignorable glyph is drawn as the space, with advances of 0, and an offset along the line of 0; that across it
/// stays. Where the font has no space it is taken out, and `attached_to` of the others counts those that stay: it is
/// `None` where it was that of one that is taken out, or of no glyph. `may_break_before` of a glyph is `false` where
/// the one right before it is taken out. All else stays as it was.
///
/// Where the text may be broken before a glyph, its two parts, with their ignorable glyphs hidden, look by themselves
/// as they do here.
///
/// Refused where memory is wanting.
pub fn hide_ignorables<A: Allocator + Copy>(
    alloc: A,
    direction: Direction,
    space: Option<GlyphId>,
    glyphs: &[ShapedGlyph],
) -> Result<Vec<ShapedGlyph, A>, AllocError>
    ensures { IfOk result (λ drawn. drawn.items ≡ drawn_without_ignorables direction space glyphs.now) }
{
    match space {
        Some(space) => with_spaces(alloc, direction, space, glyphs),
        None => kept_glyphs(alloc, glyphs),
    }
}
