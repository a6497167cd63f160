//! A text as HarfBuzz hands it to the layer.
ghost use Rattle.std.specs.Prelude.{◌≡◌, ◌<◌, ◌≤◌, ◌^◌, ◌↔◌, ◌++◌, [], length, map, IfOk, IsErrOf, OnOk};
ghost use Rattle.aat_characters.specs.Native.{native_direction, told_script};
ghost use Rattle.aat_characters.specs.Decomposed.{has_glyph};
ghost use Rattle.aat_text.specs.Prepared.{is_turned, placed_glyph, prepared_glyphs, told_direction};
ghost use Rattle.aat_text.specs.inside.Turning.{characters_when, is_turned_to};

use crate::clusters::{ClusterLevel, placed_text, turned_text};
use crate::error::TextError;
use crate::glyphs::{LONGEST_TEXT, in_place};
use crate::known_glyphs::{KnownGlyphs, KnownTextGlyphs};
use crate::lone::{put_lone_glyphs, put_placed};
use crate::unit::ClusterUnit;
use aat_characters::{
    PlacedCharacter, Script, native_direction, natural_direction, normalized, told_script,
};
use aat_face::Face;
use aat_glyph::Direction;
use aat_shaped_text::TextGlyph;
use std::alloc::{AllocError, Allocator};

/// The text that a `Shaper` takes for a text, and the direction in which it takes it.
#[derive(Drop)]
pub struct PreparedText<A: Allocator> {
    /// The glyphs, in the order in which they are shaped.
    pub glyphs: Vec<TextGlyph, A>,
    /// The script of the text, if it has one.
    pub script: Option<Script>,
    /// The direction in which they are shaped.
    pub direction: Direction,
    /// Whether the clusters of the text are taken from last to first: `direction` is not that of the text.
    pub is_turned: bool,
}

/// Whether a text that runs in a direction is shaped in the other one, where `native` is the direction of its glyphs.
fn is_turned(direction: Direction, native: Direction) -> bool
    ensures { result ≡ is_turned_to direction native }
{
    if direction.is_forward() {
        native.is_backward()
    } else {
        native.is_forward()
    }
}

/// The characters of a text that runs in a direction, as they are shaped.
fn shaped_characters<A: Allocator + Copy>(
    alloc: A,
    face: &Face,
    unit: ClusterUnit,
    level: ClusterLevel,
    is_turned: bool,
    direction: Direction,
    text: &str,
) -> Result<Vec<PlacedCharacter, A>, AllocError>
    requires { length text.now < 2 ^ 32 }
    ensures { IfOk result (λ out. out.items
        ≡ characters_when (has_glyph face.now) is_turned direction level unit text.now) }
{
    if is_turned {
        let characters = turned_text(alloc, face, direction, unit, text)?;
        normalized(alloc, face, &characters)
    } else {
        let characters = placed_text(alloc, face, direction, level, unit, text)?;
        normalized(alloc, face, &characters)
    }
}

/// From how many characters on what is asked of each is kept: for fewer the room takes longer than it spares.
const MANY: usize = 32;

/// Puts the glyphs of many characters behind others.
fn put_many<A: Allocator>(
    face: &Face,
    characters: &[PlacedCharacter],
    glyphs: &mut Vec<TextGlyph, A>,
) -> Result<(), AllocError>
    ensures { OnOk result (glyphs.new.items ≡ glyphs.old.items ++ map (placed_glyph face.now) characters.now) }
{
    let mut known = KnownTextGlyphs::none();
    for character in characters {
        let glyph = known.text_glyph(face, character.place, character.character);
        glyphs.push(in_place(glyph, *character))?;
    }
    Ok(())
}

/// The glyphs of characters, in the memory of an empty vector.
fn glyphs_of<A: Allocator>(
    room: Vec<TextGlyph, A>,
    face: &Face,
    characters: &[PlacedCharacter],
) -> Result<Vec<TextGlyph, A>, AllocError>
    requires { room.items ≡ [] }
    ensures { IfOk result (λ glyphs. glyphs.items ≡ map (placed_glyph face.now) characters.now) }
{
    let mut glyphs = room;
    glyphs.reserve(characters.len())?;
    if characters.len() < MANY {
        put_placed(face, &mut KnownGlyphs::none(), characters, &mut glyphs)?;
    } else {
        put_many(face, characters, &mut glyphs)?;
    }
    Ok(glyphs)
}

/// The glyphs of a text that runs in a direction, in the memory of an empty vector.
#[tactic(auto, using(crate::proofs::LoneTexts::lone_text))]
fn prepared_glyphs<B: Allocator + Copy, A: Allocator>(
    scratch: B,
    room: Vec<TextGlyph, A>,
    face: &Face,
    unit: ClusterUnit,
    level: ClusterLevel,
    is_turned: bool,
    direction: Direction,
    text: &str,
) -> Result<Vec<TextGlyph, A>, AllocError>
    requires short { length text.now < 2 ^ 32 }
    requires empty { room.items ≡ [] }
    ensures { IfOk result (λ glyphs. glyphs.items
        ≡ map (placed_glyph face.now) (characters_when (has_glyph face.now) is_turned direction level unit text.now)) }
{
    let mut glyphs = room;
    if !is_turned && put_lone_glyphs(scratch, face, direction, unit, text, &mut glyphs)? {
        return Ok(glyphs);
    }
    glyphs.clear();
    let characters = shaped_characters(scratch, face, unit, level, is_turned, direction, text)?;
    glyphs_of(glyphs, face, &characters)
}

/// The text that a `Shaper` takes for a text in a face, as HarfBuzz has it for a font whose `morx`, `kerx` or `kern`
/// acts.
///
/// `script` is that of the text, and where there is none the first that its characters have (`text_script`).
/// `direction` is that of the text, and where there is none that of its script (`natural_direction`). The text is
/// shaped in its native direction (`native_direction`), which `direction` of the result tells. Where that is another
/// one, the text is turned: its clusters are taken from last to first.
///
/// A cluster is one character and those that continue it, as HarfBuzz 12.3.2 forms clusters: marks (`General_Category`
/// Mn, Mc or Me), modifiers of emoji, zero width joiners, `Extended_Pictographic` behind a zero width joiner, the
/// second of two regional indicators, tags (U+E0020 to U+E007F), and U+FF9E and U+FF9F. These are not Unicode's
/// extended grapheme clusters, which `text_of` and `line_ends` take.
///
/// - In backward text, so that `direction` is `RightToLeft` or `BottomToTop`, a character with a mirrored one for which
///   the font has a glyph becomes that one. In columns a character with a vertical form for which the font has a glyph
///   becomes that.
/// - A character behind which no mark stands stays where the font has it, and else is decomposed into as few characters
///   as the font has. A letter with marks is decomposed into as many as the font has. Where the text has a mark behind
///   another character, its marks are then put in order by the classes of HarfBuzz, at most 32 behind one character,
///   and a mark is composed with its starter where the font has the composite. A character with marks of which one is a
///   variation selector is not decomposed.
/// - Where the font has glyphs neither for U+00A0, U+2000 to U+200A, U+202F, U+205F or U+3000 nor for what it is
///   decomposed into, and has one for the space U+0020, that stands for it. So does U+2010 for U+2011.
///
/// A character is decomposed into the characters of its canonical decomposition, of which the first ones may be
/// composed again. HarfBuzz also stops at a character that is excluded from composition: it may write U+FB2C as U+FB49
/// and U+05C1.
///
/// A glyph's cluster is the place of its cluster or of its character, as `level` says: the number of bytes or of
/// characters of the text before it, as `unit` says. In a text that is turned it is that of its cluster. What is made
/// of several characters has the lesser of their places, and so has what stands between them. HarfBuzz moves a mark
/// right behind them too, where that one had been moved to the place of the mark that is composed.
///
/// Glyphs, `is_ignorable` and `is_mark` are as `text_of` has them of the characters that are shaped, and so is the kind
/// of a glyph, but where the space stands for another one: there it is `Space` with the width of that one, or `Other`
/// for U+00A0, which is as wide as the space.
///
/// Refused as 1 `TooLong` exactly where the text has more than 4,294,967,295 bytes, and else as 2 `OutOfMemory` where
/// memory is wanting.
pub fn prepare_text<A: Allocator + Copy>(
    alloc: A,
    face: &Face,
    unit: ClusterUnit,
    level: ClusterLevel,
    script: Option<Script>,
    direction: Option<Direction>,
    text: &str,
) -> Result<PreparedText<A>, TextError>
    ensures glyphs { IfOk result (λ prepared. let own = told_script script text.now in prepared.glyphs.items
        ≡ prepared_glyphs face.now unit level own (told_direction direction own) text.now) }
    ensures script { IfOk result (λ prepared. prepared.script ≡ told_script script text.now) }
    ensures direction { IfOk result (λ prepared. let own = told_script script text.now in prepared.direction
        ≡ native_direction own text.now (told_direction direction own)) }
    ensures turned { IfOk result (λ prepared. let own = told_script script text.now in prepared.is_turned
        ≡ is_turned own (told_direction direction own) text.now) }
    ensures too_long { IsErrOf result TextError.TooLong ↔ (2 ^ 32 ≤ length text.now) }
{
    prepare_text_in(
        alloc,
        Vec::new(alloc),
        face,
        unit,
        level,
        script,
        direction,
        text,
    )
}

/// What [`prepare_text`] makes of a text, in memory that is there: the glyphs of the result in that of `room`, whose own
/// glyphs go, and what is needed on the way from `scratch`.
///
/// Refused as [`prepare_text`] is.
pub fn prepare_text_in<B: Allocator + Copy, A: Allocator>(
    scratch: B,
    room: Vec<TextGlyph, A>,
    face: &Face,
    unit: ClusterUnit,
    level: ClusterLevel,
    script: Option<Script>,
    direction: Option<Direction>,
    text: &str,
) -> Result<PreparedText<A>, TextError>
    ensures glyphs { IfOk result (λ prepared. let own = told_script script text.now in prepared.glyphs.items
        ≡ prepared_glyphs face.now unit level own (told_direction direction own) text.now) }
    ensures script { IfOk result (λ prepared. prepared.script ≡ told_script script text.now) }
    ensures direction { IfOk result (λ prepared. let own = told_script script text.now in prepared.direction
        ≡ native_direction own text.now (told_direction direction own)) }
    ensures turned { IfOk result (λ prepared. let own = told_script script text.now in prepared.is_turned
        ≡ is_turned own (told_direction direction own) text.now) }
    ensures too_long { IsErrOf result TextError.TooLong ↔ (2 ^ 32 ≤ length text.now) }
{
    if text.len() > LONGEST_TEXT {
        return Err(TextError::TooLong);
    }
    let script = told_script(script, text);
    let direction = direction.unwrap_or(natural_direction(script));
    let native = native_direction(script, text, direction);
    let is_turned = is_turned(direction, native);
    let mut room = room;
    room.clear();
    Ok(PreparedText {
        glyphs: prepared_glyphs(scratch, room, face, unit, level, is_turned, direction, text)?,
        script,
        direction: native,
        is_turned,
    })
}
