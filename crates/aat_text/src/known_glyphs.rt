//! The glyphs of characters that were looked up before.
ghost use Rattle.std.specs.Prelude.{◌≡◌, ◌<◌};
ghost use Rattle.aat_face.specs.Faces.{FaceValue};
ghost use Rattle.aat_text.specs.TextGlyphs.{text_glyph};
ghost use Rattle.aat_text.specs.inside.KnownGlyphs.{glyph_id_in, AreKnown, AreKnownWhole};

use crate::glyphs::glyph_of_id;
use aat_face::Face;
use aat_shaped_text::TextGlyph;

/// How many characters are kept, as in HarfBuzz.
const KEPT: usize = 256;

/// The glyphs of the characters past ASCII that a text had last, one for each place that a character may have among so
/// many. A text has few different characters, and a font takes long to find one. Those of ASCII are asked of the face, which
/// mostly has them in a row.
#[derive(Drop)]
pub(crate) struct KnownGlyphs {
    /// The number of each character, 0 where there is none.
    characters: [u32; KEPT],
    /// The number of the glyph of each.
    glyphs: [u16; KEPT],
}

/// The number of the glyph of a character, 0 where the font has none.
fn glyph_id_of(face: &Face, character: char) -> u16
    ensures { result ≡ glyph_id_in face.now character }
{
    match face.glyph_of(character) {
        Some(glyph) => glyph.0,
        None => 0,
    }
}

impl KnownGlyphs {
    /// None is known.
    pub(crate) fn none() -> KnownGlyphs
        ensures { (face : FaceValue) → AreKnown face result }
    {
        KnownGlyphs {
            characters: [0; KEPT],
            glyphs: [0; KEPT],
        }
    }

    /// Keeps the glyph of a character.
    fn keep(&mut self, at: usize, character: u32, glyph_id: u16)
        requires { at < 256 }
        ensures { (face : FaceValue) → glyph_id ≡ glyph_id_in face character → AreKnown face self.old
            → AreKnown face self.new }
    {
        self.characters[at] = character;
        self.glyphs[at] = glyph_id;
    }

    /// The number of the glyph of a character, 0 where the font has none. It is kept.
    pub(crate) fn glyph_id(&mut self, face: &Face, character: char) -> u16
        requires { AreKnown face.now self.now }
        ensures id { result ≡ glyph_id_in face.now character }
        ensures known { AreKnown face.now self.new }
    {
        if character.is_ascii() {
            return glyph_id_of(face, character);
        }
        let number = character as u32;
        let at = number as usize % KEPT;
        if self.characters[at] == number {
            return self.glyphs[at];
        }
        let glyph_id = glyph_id_of(face, character);
        self.keep(at, number, glyph_id);
        glyph_id
    }
}

/// How many characters are kept with all that is asked of them.
const KEPT_WHOLE: usize = 128;

/// The glyphs of the characters that a text of many characters had last, with what is asked of their characters: one for each
/// place that a character may have among so many.
#[derive(Drop)]
pub(crate) struct KnownTextGlyphs {
    /// The number of each character, 0 where there is none.
    characters: [u32; KEPT_WHOLE],
    /// The glyph of each, as one of the cluster 0.
    glyphs: [TextGlyph; KEPT_WHOLE],
}

impl KnownTextGlyphs {
    /// None is known.
    pub(crate) fn none() -> KnownTextGlyphs
        ensures { (face : FaceValue) → AreKnownWhole face result }
    {
        KnownTextGlyphs {
            characters: [0; KEPT_WHOLE],
            glyphs: [TextGlyph::new(0, 0); KEPT_WHOLE],
        }
    }

    /// Keeps the glyph of a character.
    fn keep(&mut self, at: usize, character: u32, glyph: TextGlyph)
        requires { at < 128 }
        ensures { (face : FaceValue) → glyph ≡ text_glyph face 0 character → AreKnownWhole face self.old
            → AreKnownWhole face self.new }
    {
        self.characters[at] = character;
        self.glyphs[at] = glyph;
    }

    /// A character of a cluster as a glyph, which is kept.
    pub(crate) fn text_glyph(&mut self, face: &Face, cluster: u32, character: char) -> TextGlyph
        requires { AreKnownWhole face.now self.now }
        ensures glyph { result ≡ text_glyph face.now cluster character }
        ensures known { AreKnownWhole face.now self.new }
    {
        let number = character as u32;
        let at = number as usize % KEPT_WHOLE;
        if number != 0 && self.characters[at] == number {
            return TextGlyph {
                cluster,
                ..self.glyphs[at]
            };
        }
        let glyph = glyph_of_id(glyph_id_of(face, character), 0, character);
        self.keep(at, number, glyph);
        TextGlyph { cluster, ..glyph }
    }
}
