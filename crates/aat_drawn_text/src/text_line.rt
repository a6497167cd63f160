//! The line of a text, with its positions.
ghost use Rattle.std.specs.Prelude.{◌≡◌, ◌<◌, ◌≤◌, ◌==◌, drop, filter, is_some, length, not};
ghost use Rattle.std.specs.Bool.{OnTrue};
ghost use Rattle.aat_buffer.specs.Buffer.{glyph_at, position_at, position_list, with_cursor, without_positions};
ghost use Rattle.aat_buffer.specs.Clusters.{IsSmall, KeepsOrder, ids};
ghost use Rattle.aat_buffer.specs.Removal.{deleted_glyph, is_deleted, removed};
ghost use Rattle.aat_font.specs.Face.{advance_of};
ghost use Rattle.aat_kerning_machines.specs.Positions.{IsPlaced};
ghost use Rattle.aat_layout.specs.Shaping.{advanced, with_advances};
ghost use Rattle.aat_kerning.specs.Positioning.{in_processing_order};
ghost use Rattle.aat_kerning.specs.Zeroing.{zeroed};
ghost use Rattle.aat_run.specs.Budget.{operations_left};
ghost use Rattle.aat_drawn_text.specs.inside.Placed.{place_of};

use aat_layout::buffer::{DELETED_GLYPH, Direction, GlyphPosition, hb_buffer_t, hb_glyph_info_t};
use aat_layout::font::{GlyphId, hb_font_t};
use aat_layout::hb_aat_layout_remove_deleted_glyphs;
use std::alloc::Allocator;
use std::marker::Model;

/// The line of a text. Positions that are those of advances alone take no memory: they are read of the font.
#[derive(Drop)]
pub(crate) struct TextLine<'f, H: Allocator + Copy> {
    /// The line. Its own positions do not count where a font places it.
    pub(crate) buffer: hb_buffer_t<H>,
    /// The font whose advances alone place the line, if one does.
    pub(crate) placed_by: Option<&'f hb_font_t>,
}

impl<'f, H: Allocator + Copy> Model for TextLine<'f, H> {
    ghost use Rattle.aat_buffer.specs.Buffer.{Buffer};
    ghost use Rattle.aat_drawn_text.specs.inside.Placed.{text_line_of};

    ghost Value = { Buffer };

    ghost view = { text_line_of };
}

/// The position that the advance of a glyph gives it.
fn advanced(face: &hb_font_t, is_horizontal: bool, glyph: &hb_glyph_info_t) -> GlyphPosition
    requires { glyph.now.glyph_id ≤ 0xFFFF }
    ensures { result ≡ advanced is_horizontal (advance_of face.now glyph.now.glyph_id) }
{
    let advance = i32::from(face.glyph_advance(GlyphId(glyph.glyph_id as u16)));
    if is_horizontal {
        GlyphPosition {
            x_advance: advance,
            ..GlyphPosition::default()
        }
    } else {
        GlyphPosition {
            y_advance: 0 - advance,
            ..GlyphPosition::default()
        }
    }
}

/// The position of a glyph that is placed by its advance alone: a deleted one takes no room.
fn place_of(face: &hb_font_t, is_horizontal: bool, glyph: &hb_glyph_info_t) -> GlyphPosition
    requires { glyph.now.glyph_id ≤ 0xFFFF }
    ensures { result ≡ place_of face.now is_horizontal glyph.now }
{
    if glyph.glyph_id == DELETED_GLYPH {
        GlyphPosition::default()
    } else {
        advanced(face, is_horizontal, glyph)
    }
}

impl<'f, H: Allocator + Copy> TextLine<'f, H> {
    /// A line with its own positions.
    pub(crate) fn of(buffer: hb_buffer_t<H>) -> TextLine<'f, H>
        ensures { result ≡ buffer }
    {
        TextLine {
            buffer,
            placed_by: None,
        }
    }

    /// How many glyphs the line has.
    pub(crate) fn len(&self) -> usize
        ensures count { result ≡ length self.now.line }
        ensures within { result ≤ self.now.max_len }
        ensures small { result ≤ 0x3FFFFFFF }
    {
        self.buffer.len()
    }

    /// The direction of the text.
    pub(crate) fn direction(&self) -> Direction
        ensures { result ≡ self.now.direction }
    {
        self.buffer.direction()
    }

    /// What is left of the budget of operations.
    pub(crate) fn max_ops(&self) -> i32
        ensures { result ≡ self.now.max_ops }
    {
        self.buffer.max_ops()
    }

    /// Whether positions stand.
    #[tactic(auto, using(crate::proofs::TextLines::placed_long))]
    pub(crate) fn has_positions(&self) -> bool
        ensures standing { result ≡ is_some self.now.positions }
        ensures placed { OnTrue result (length (position_list self.now) ≡ length self.now.line) }
    {
        match self.placed_by {
            Some(_) => true,
            None => self.buffer.has_positions(),
        }
    }

    /// The position of the glyph at a place.
    pub(crate) fn pos(&self, glyph: &hb_glyph_info_t, i: usize) -> GlyphPosition
        requires ids { IsSmall self.now }
        requires standing { i < length (position_list self.now) }
        requires in_line { i < length self.now.line }
        requires glyph { glyph.now ≡ glyph_at self.now.line i }
        ensures read { result ≡ position_at self.now i }
    {
        match self.placed_by {
            Some(face) => place_of(face, self.buffer.direction().is_horizontal(), glyph),
            None => *self.buffer.pos(i),
        }
    }

    /// The glyphs from the cursor on: all of the line where the cursor is at the start.
    pub(crate) fn from_cursor(&self) -> &[hb_glyph_info_t]
        ensures { result.now ≡ drop self.now.cursor self.now.line }
    {
        self.buffer.from_cursor()
    }

    /// Puts the cursor at the start.
    pub(crate) fn sync(&mut self)
        ensures { self.new ≡ with_cursor self.old 0 }
    {
        self.buffer.sync();
    }

    /// Gives each glyph the position that its advance in a font gives it. Deleted ones take no room.
    #[tactic(auto, using(crate::proofs::TextLines::advances_are, crate::proofs::TextLines::placed_long))]
    pub(crate) fn take_advances(&mut self, face: &'f hb_font_t)
        ensures after { self.new ≡ zeroed (with_advances (advance_of face.now) self.old) }
        ensures placed { IsPlaced self.new }
    {
        self.placed_by = Some(face);
    }

    /// Takes the deleted glyphs out, and drops the positions. The cursor is at the start then.
    pub(crate) fn drop_deleted(&mut self)
        ensures removed { self.new ≡ removed is_deleted (without_positions self.old) }
        ensures others { ids self.new.line ≡ filter (λ g. not (g == deleted_glyph)) (ids self.old.line) }
        ensures order { KeepsOrder self.old.line self.new.line }
    {
        self.placed_by = None;
        self.buffer.drop_positions();
        hb_aat_layout_remove_deleted_glyphs(&mut self.buffer);
    }
}

/// What is left of the budget of operations of a line, 0 where that is negative.
pub(crate) fn operations_left<H: Allocator + Copy>(line: &TextLine<'_, H>) -> u64
    ensures value { result ≡ operations_left line.now.max_ops }
{
    aat_shaped_text::operations_left(&line.buffer)
}

/// Turns a backward line round, so that one in reading order is in drawing order, and the other way.
#[tactic(auto, using(crate::proofs::TextLines::placed_turned))]
pub(crate) fn turn<H: Allocator + Copy>(buffer: &mut TextLine<'_, H>)
    ensures after { buffer.new ≡ in_processing_order buffer.old }
    ensures count { length buffer.new.line ≡ length buffer.old.line }
    ensures within { length buffer.new.line ≤ buffer.new.max_len }
{
    aat_shaped_text::turn(&mut buffer.buffer);
    let _within = buffer.len();
}
