//! The glyphs of a text.
ghost use Rattle.std.specs.Prelude.{◌≡◌, ◌<◌, ◌≤◌, ◌^◌, ◌↔◌, length, if◌then◌else◌, IfErr, IfOk, IsErrOf};
ghost use Rattle.aat_text.specs.Prepared.{placed_glyph};
ghost use Rattle.aat_face.specs.Faces.{FaceValue};
ghost use Rattle.aat_text.specs.inside.KnownGlyphs.{AreKnown, glyph_of_id};
ghost use Rattle.aat_text.specs.TextGlyphs.{is_mark_character, text_glyph, text_of};
ghost use Rattle.aat_text.specs.declared.error.TextError.TheVariants as errors;

use crate::cluster_starts::TextBefore;
use crate::error::TextError;
use crate::ignorable_characters::is_ignorable_character;
use crate::kinds::{character_kind, placed_kind};
use crate::known_glyphs::KnownGlyphs;
use crate::plain::is_plain;
use crate::unit::ClusterUnit;
use aat_characters::PlacedCharacter;
use aat_face::Face;
use aat_shaped_text::TextGlyph;
use std::alloc::Allocator;
use ucd_category::GeneralCategory;

/// The longest text, in bytes: its places have 32 bits.
pub(crate) const LONGEST_TEXT: usize = 0xFFFF_FFFF;

/// Whether a character is a nonspacing mark that is not ignorable.
fn is_mark_character(character: char) -> bool
    ensures { result ≡ is_mark_character character }
{
    match GeneralCategory::for_char(character) {
        GeneralCategory::NonspacingMark => !is_ignorable_character(character),
        _ => false,
    }
}

/// A character of a cluster as a glyph with a number.
pub(crate) fn glyph_of_id(glyph_id: u16, cluster: u32, character: char) -> TextGlyph
    ensures { result ≡ glyph_of_id glyph_id cluster character }
{
    if is_plain(character) {
        return TextGlyph::new(glyph_id, cluster);
    }
    TextGlyph {
        glyph_id,
        cluster,
        is_ignorable: is_ignorable_character(character),
        is_mark: is_mark_character(character),
        kind: character_kind(character),
    }
}

/// A character of a cluster as a glyph.
pub(crate) fn text_glyph(
    face: &Face,
    known: &mut KnownGlyphs,
    cluster: u32,
    character: char,
) -> TextGlyph
    requires { AreKnown face.now known.now }
    ensures glyph { result ≡ text_glyph face.now cluster character }
    ensures known { AreKnown face.now known.new }
{
    glyph_of_id(known.glyph_id(face, character), cluster, character)
}

/// The glyph of a character at its place: of the kind of the space for which it stands, if it stands for one.
pub(crate) fn in_place(glyph: TextGlyph, character: PlacedCharacter) -> TextGlyph
    ensures { (face : FaceValue) → glyph ≡ text_glyph face character.place character.character
        → result ≡ placed_glyph face character }
{
    match character.space {
        None => glyph,
        Some(_) => TextGlyph {
            kind: placed_kind(character),
            ..glyph
        },
    }
}

/// A character at its place as a glyph.
pub(crate) fn placed_glyph(
    face: &Face,
    known: &mut KnownGlyphs,
    character: PlacedCharacter,
) -> TextGlyph
    requires { AreKnown face.now known.now }
    ensures glyph { result ≡ placed_glyph face.now character }
    ensures known { AreKnown face.now known.new }
{
    let glyph = text_glyph(face, known, character.place, character.character);
    in_place(glyph, character)
}

/// The place of the cluster of a character: its own where a cluster begins there, and else that of the one before it.
fn cluster_start(begins: bool, place: usize, cluster: usize) -> usize
    ensures { result ≡ if begins then place else cluster }
{
    if begins { place } else { cluster }
}

/// The text that a `Shaper` takes for a text in a face: one glyph for each character, in the order of the text.
///
/// The glyph is that of the character in the font, and 0 where the font has none. Its cluster is the place at which the
/// extended grapheme cluster of the character begins, as Unicode has it: the number of bytes or of characters of the
/// text before it, as `unit` says. Clusters never fall along the text.
///
/// The glyph is ignorable (`is_ignorable`) where the character is a `Default_Ignorable_Code_Point`, but for those that
/// HarfBuzz 12.3.2 shows: U+115F, U+1160, U+180F, U+3164, U+FFA0, and U+1BCA0 to U+1BCA3. It is a mark (`is_mark`)
/// where the character is not ignorable and its `General_Category` is Mn. Its kind is `Mark`, with the class by which
/// HarfBuzz places marks by their boxes, where the `General_Category` is Mn, Mc or Me, also of an ignorable character,
/// and else `Other`.
///
/// Refused as 1 `TooLong` exactly where the text has more than 4,294,967,295 bytes, and else as 2 `OutOfMemory` where
/// memory is wanting.
pub fn text_of<A: Allocator>(
    alloc: A,
    face: &Face,
    unit: ClusterUnit,
    text: &str,
) -> Result<Vec<TextGlyph, A>, TextError>
    ensures ok { IfOk result (λ glyphs. glyphs.items ≡ text_of face.now unit text.now) }
    ensures too_long { IsErrOf result TextError.TooLong ↔ (2 ^ 32 ≤ length text.now) }
{
    if text.len() > LONGEST_TEXT {
        return Err(TextError::TooLong);
    }
    let mut glyphs = Vec::new(alloc);
    let mut known = KnownGlyphs::none();
    let mut before = TextBefore::nothing();
    let mut cluster = 0;
    let mut place = 0;
    for character in text.chars() {
        cluster = cluster_start(before.pass(character), place, cluster);
        glyphs.push(text_glyph(face, &mut known, cluster as u32, character))?;
        place += unit.width_of(character);
    }
    Ok(glyphs)
}
