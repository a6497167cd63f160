//! A text that is ready to be shaped.
ghost use Rattle.std.specs.Prelude.{◌≡◌, ◌≤◌, ◌^◌, ◌↔◌, length, map, IfOk, IsErrOf};
ghost use Rattle.aat_typesetter.specs.Prepared.{no_text, options_for_lines, prepared, shaped_direction, told_glyph};

use crate::options::TextOptions;
use aat_characters::{ScriptRules, native_direction, natural_direction, told_script};
use aat_face::Face;
use aat_glyph::Direction;
use aat_shaped_text::TextGlyph;
use aat_text::{TextError, prepare_text_in};
use std::alloc::{Allocator, Global};
use std::marker::Model;

/// A text that is ready to be shaped.
#[derive(Drop)]
pub(crate) struct PreparedText<A: Allocator = Global> {
    /// Its glyphs in the order in which they are shaped.
    pub(crate) glyphs: Vec<TextGlyph, A>,
    /// The rules of its script, if it is a text of characters.
    pub(crate) rules: Option<ScriptRules>,
    /// The direction in which it is shaped.
    pub(crate) direction: Direction,
}

impl<A: Allocator> Model for PreparedText<A> {
    ghost use Rattle.aat_typesetter.specs.Prepared.{Prepared};

    ghost Value = { Prepared };

    ghost view = { λ t. record { glyphs = t.glyphs.items; rules = t.rules; direction = t.direction } };
}

impl<A: Allocator> PreparedText<A> {
    /// No text, in the memory of a vector whose own glyphs go.
    pub(crate) fn none_in(room: Vec<TextGlyph, A>) -> PreparedText<A>
        ensures { result ≡ no_text }
    {
        let mut glyphs = room;
        glyphs.clear();
        PreparedText {
            glyphs,
            rules: None,
            direction: Direction::LeftToRight,
        }
    }

    /// Leaves nothing of the text.
    pub(crate) fn forget(&mut self)
        ensures { self.new ≡ no_text }
    {
        self.glyphs.clear();
        self.rules = None;
        self.direction = Direction::LeftToRight;
    }
}

/// A glyph of a text of characters: 0, which stands for one that the font lacks, is the glyph that is told for it.
fn told_glyph(not_found: u16, glyph: TextGlyph) -> TextGlyph
    ensures { result ≡ told_glyph not_found glyph }
{
    if glyph.glyph_id == 0 {
        TextGlyph {
            glyph_id: not_found,
            ..glyph
        }
    } else {
        glyph
    }
}

/// Has each character that the font lacks stand as the glyph that is told for it.
fn put_not_found(glyphs: &mut [TextGlyph], not_found: u16)
    ensures { glyphs.new ≡ map (told_glyph not_found) glyphs.old }
{
    if not_found == 0 {
        return;
    }
    for i in 0..glyphs.len() {
        glyphs[i] = told_glyph(not_found, glyphs[i]);
    }
}

/// A text made ready in a face, in the memory of a vector whose own glyphs go. What is needed on the way comes from
/// `scratch`.
pub(crate) fn prepare<B: Allocator + Copy, A: Allocator>(
    scratch: B,
    room: Vec<TextGlyph, A>,
    face: &Face,
    options: &TextOptions<'_>,
    text: &str,
) -> Result<PreparedText<A>, TextError>
    ensures ok { IfOk result (λ ready. ready ≡ prepared face.now options.now text.now) }
    ensures too_long { IsErrOf result TextError.TooLong ↔ (2 ^ 32 ≤ length text.now) }
{
    let ready = prepare_text_in(
        scratch,
        room,
        face,
        options.unit,
        options.level,
        options.script,
        options.direction,
        text,
    )?;
    let mut glyphs = ready.glyphs;
    put_not_found(&mut glyphs, options.not_found);
    Ok(PreparedText {
        glyphs,
        rules: Some(ScriptRules::of(ready.script, ready.direction)),
        direction: ready.direction,
    })
}

/// The direction in which a text is shaped.
fn shaped_direction(options: &TextOptions<'_>, text: &str) -> Direction
    ensures { result ≡ shaped_direction options.now text.now }
{
    let script = told_script(options.script, text);
    let told = options.direction.unwrap_or(natural_direction(script));
    native_direction(script, text, told)
}

/// The options of a text that is broken into lines: it is told the direction in which it is shaped, and so is not
/// turned.
pub(crate) fn options_for_lines<'o>(options: &TextOptions<'o>, text: &str) -> TextOptions<'o>
    ensures { result ≡ options_for_lines options.now text.now }
{
    TextOptions {
        direction: Some(shaped_direction(options, text)),
        ..*options
    }
}
