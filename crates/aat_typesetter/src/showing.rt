//! How what is drawn is shown.
ghost use Rattle.std.specs.Prelude.{◌≡◌, IfOk, option_map, true};
ghost use Rattle.std.specs.List.{list_all, list_any};
ghost use Rattle.aat_showing.specs.Columns.{in_columns};
ghost use Rattle.aat_showing.specs.FaceMetrics.{mark_placing};
ghost use Rattle.aat_showing.specs.Ignorables.{drawn_without_ignorables};
ghost use Rattle.aat_showing.specs.HiddenParts.{asked, positioned, shown};
ghost use Rattle.aat_showing.specs.MarkBoxes.{place_marks};
ghost use Rattle.aat_showing.specs.Marks.{zero_marks};
ghost use Rattle.aat_showing.specs.facts.Plain.{is_plain};
ghost use Rattle.aat_typesetter.specs.Typeset.{columns_for, showing_for};
ghost use Rattle.aat_typesetter.specs.inside.Drawn.{are_attached_within, are_kept_plain, drawn_by, is_within, keeps_all};
ghost use Rattle.aat_typesetter.specs.inside.Inside.{showing_by};

use crate::script_settings::{boxes_for, marks_for};
use aat_characters::ScriptRules;
use aat_face::Face;
use aat_font::hb_font_t;
use aat_glyph::Direction;
use aat_lookup::GlyphId;
use aat_shaped_text::{CharacterKind, ShapedGlyph};
use aat_showing::{
    hide_as_spaces, hide_ignorables, place_marks, set_in_columns, widen_spaces, zero_marks,
};
use std::alloc::{AllocError, Allocator};

/// How what is drawn of a text in a face is shown.
#[derive(Clone, Copy)]
pub(crate) struct Shown {
    /// The direction in which the text is shaped: where it is vertical, glyphs are set in columns.
    pub(crate) direction: Direction,
    /// Where marks lose their width, whether they move.
    pub(crate) marks: Option<bool>,
    /// Where marks are placed by boxes, whether those that lose their width move.
    pub(crate) boxes: Option<bool>,
    /// The space that ignorable glyphs become, if the font has one. They are taken out where it has none.
    pub(crate) space: Option<GlyphId>,
}

/// How what is drawn of a text with the rules of a script, if it has any, is shown.
#[tactic(auto, unfolding(crate::specs::Typeset::showing_for))]
pub(crate) fn shown_for(
    face: &Face<'_>,
    font: &hb_font_t,
    rules: Option<ScriptRules>,
    direction: Direction,
) -> Shown
    ensures { showing_by face.now result ≡ showing_for face.now font.now rules direction }
{
    Shown {
        direction,
        marks: marks_for(font, rules, direction),
        boxes: boxes_for(font, rules, direction),
        space: face.glyph_of(' '),
    }
}

/// Sets glyphs in columns, where the text is vertical.
fn turn_down(glyphs: &mut [ShapedGlyph], face: &Face<'_>, direction: Direction)
    ensures { glyphs.new ≡ asked in_columns (columns_for face.now direction) glyphs.old }
{
    if direction.is_vertical() {
        set_in_columns(glyphs, face);
    }
}

/// Has marks take no room, where that is asked.
fn narrow_marks(glyphs: &mut [ShapedGlyph], marks: Option<bool>)
    ensures { glyphs.new ≡ asked zero_marks marks glyphs.old }
{
    if let Some(moves) = marks {
        zero_marks(glyphs, moves);
    }
}

/// Places marks by boxes, where that is asked.
fn set_marks(glyphs: &mut [ShapedGlyph], face: &Face<'_>, direction: Direction, boxes: Option<bool>)
    ensures { glyphs.new ≡ asked place_marks (option_map (mark_placing face.now direction) boxes) glyphs.old }
{
    if let Some(moves) = boxes {
        place_marks(glyphs, face, direction, moves);
    }
}

/// Puts glyphs in their places.
fn position(glyphs: &mut [ShapedGlyph], face: &Face<'_>, showing: Shown)
    ensures { glyphs.new ≡ positioned (showing_by face.now showing) glyphs.old }
{
    turn_down(glyphs, face, showing.direction);
    widen_spaces(glyphs, face, showing.direction);
    narrow_marks(glyphs, showing.marks);
    set_marks(glyphs, face, showing.direction, showing.boxes);
}

/// Whether some glyph is ignorable.
fn has_ignorables(glyphs: &[ShapedGlyph]) -> bool
    ensures { result ≡ list_any (λ g. g.is_ignorable) glyphs.now }
{
    glyphs.iter().any(|glyph| glyph.is_ignorable)
}

/// Whether a place is one among so many, if it is any.
fn is_within(len: usize, place: Option<u32>) -> bool
    ensures { result ≡ is_within len place }
{
    match place {
        Some(place) => (place as usize) < len,
        None => true,
    }
}

/// Whether each of some glyphs is attached to none, or to one of them.
fn are_attached_within(glyphs: &[ShapedGlyph]) -> bool
    ensures { result ≡ are_attached_within glyphs.now }
{
    let len = glyphs.len();
    glyphs.iter().all(|glyph| is_within(len, glyph.attached_to))
}

/// Whether glyphs, none of which is ignorable, are as they were once ignorable ones are hidden: the font has a space,
/// so that no glyph is taken out, or each is attached to none, or to one of them.
fn keeps_all(space: Option<GlyphId>, glyphs: &[ShapedGlyph]) -> bool
    ensures { result ≡ keeps_all space glyphs.now }
{
    space.is_some() || are_attached_within(glyphs)
}

/// Hides the ignorable ones of some glyphs, without another copy where the font has a space, or none of them is
/// ignorable and none attached to one that is not there.
#[tactic(auto, using(crate::proofs::Unhidden::unhidden))]
fn hide<A: Allocator + Copy>(
    alloc: A,
    direction: Direction,
    space: Option<GlyphId>,
    glyphs: Vec<ShapedGlyph, A>,
) -> Result<Vec<ShapedGlyph, A>, AllocError>
    ensures { IfOk result (λ out. out.items ≡ drawn_without_ignorables direction space glyphs.items) }
{
    if !has_ignorables(&glyphs) && keeps_all(space, &glyphs) {
        return Ok(glyphs);
    }
    match space {
        Some(space) => {
            let mut shown = glyphs;
            hide_as_spaces(&mut shown, direction, space);
            Ok(shown)
        }
        None => hide_ignorables(alloc, direction, None, &glyphs),
    }
}

/// What is drawn of glyphs that were shaped.
#[derive(Drop)]
pub(crate) struct Drawn<A: Allocator> {
    /// Whether they are drawn as they are. `glyphs` does not count then.
    pub(crate) is_as_shaped: bool,
    /// What is drawn, where they are not.
    pub(crate) glyphs: Vec<ShapedGlyph, A>,
}

impl<A: Allocator> Drawn<A> {
    /// What is drawn of these glyphs that were shaped.
    pub(crate) fn of<'g>(&'g self, shaped: &'g [ShapedGlyph]) -> &'g [ShapedGlyph]
        ensures { result.now ≡ drawn_by self.now.is_as_shaped shaped.now self.now.glyphs.items }
    {
        if self.is_as_shaped {
            shaped
        } else {
            &self.glyphs
        }
    }
}

/// Whether a glyph of a text in rows is drawn as it is: it is neither ignorable nor a mark, nor is its character a mark,
/// or a space that the font lacks.
fn is_plain(glyph: &ShapedGlyph) -> bool
    ensures { result ≡ is_plain glyph.now }
{
    !glyph.is_ignorable && !glyph.is_mark && matches!(glyph.kind, CharacterKind::Other)
}

/// Whether all of some glyphs are drawn so, and stay as they are once ignorable ones are hidden. A glyph is asked both at
/// once: those of a long line are read from far.
fn are_kept_plain(space: Option<GlyphId>, glyphs: &[ShapedGlyph]) -> bool
    ensures { result ≡ are_kept_plain space glyphs.now }
{
    let len = glyphs.len();
    let keeps = space.is_some();
    glyphs.iter().all(|glyph| is_plain(glyph) && (keeps || is_within(len, glyph.attached_to)))
}

/// Whether glyphs are known to be drawn as they are.
#[tactic(auto, using(crate::proofs::Plain::shown_as_they_are))]
fn is_shown_as_shaped(face: &Face<'_>, showing: Shown, glyphs: &[ShapedGlyph]) -> bool
    ensures { result ≡ true → glyphs.now ≡ shown (showing_by face.now showing) glyphs.now }
{
    showing.direction.is_horizontal() && are_kept_plain(showing.space, glyphs)
}

/// Glyphs as they are shown, in the memory of a vector whose own glyphs are dropped.
fn shown_in<A: Allocator + Copy>(
    alloc: A,
    room: Vec<ShapedGlyph, A>,
    face: &Face<'_>,
    showing: Shown,
    glyphs: &[ShapedGlyph],
) -> Result<Vec<ShapedGlyph, A>, AllocError>
    ensures { IfOk result (λ out. out.items ≡ shown (showing_by face.now showing) glyphs.now) }
{
    let mut positioned = room;
    positioned.clear();
    positioned.extend_from_slice(glyphs)?;
    position(&mut positioned, face, showing);
    hide(alloc, showing.direction, showing.space, positioned)
}

/// Glyphs as they are shown, in the memory of `room`, whose own glyphs do not count. Where they are known to be drawn as
/// they are, nothing is copied.
pub(crate) fn show<A: Allocator + Copy>(
    alloc: A,
    room: Vec<ShapedGlyph, A>,
    face: &Face<'_>,
    showing: Shown,
    glyphs: &[ShapedGlyph],
) -> Result<Drawn<A>, AllocError>
    ensures { IfOk result (λ drawn.
        drawn_by drawn.is_as_shaped glyphs.now drawn.glyphs.items ≡ shown (showing_by face.now showing) glyphs.now) }
{
    if is_shown_as_shaped(face, showing, glyphs) {
        return Ok(Drawn {
            is_as_shaped: true,
            glyphs: room,
        });
    }
    Ok(Drawn {
        is_as_shaped: false,
        glyphs: shown_in(alloc, room, face, showing, glyphs)?,
    })
}
