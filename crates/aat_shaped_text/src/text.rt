//! The glyphs of a text, and those that are drawn.
ghost use Rattle.std.specs.Prelude.{◌≡◌, false, true};

/// How wide a space is that the font lacks, for which its glyph of U+0020 stands, as HarfBuzz's space fallback has it.
#[derive(Clone, Copy, PartialEq, Eq, Debug)]
pub enum SpaceWidth {
    /// An em: U+2001 EM QUAD, U+2003 EM SPACE and U+3000 IDEOGRAPHIC SPACE.
    Em,
    /// Half an em: U+2000 EN QUAD and U+2002 EN SPACE.
    HalfEm,
    /// A third of an em: U+2004 THREE-PER-EM SPACE.
    ThirdOfEm,
    /// A fourth of an em: U+2005 FOUR-PER-EM SPACE.
    FourthOfEm,
    /// A fifth of an em: U+2009 THIN SPACE.
    FifthOfEm,
    /// A sixth of an em: U+2006 SIX-PER-EM SPACE.
    SixthOfEm,
    /// A sixteenth of an em: U+200A HAIR SPACE.
    SixteenthOfEm,
    /// Four eighteenths of an em: U+205F MEDIUM MATHEMATICAL SPACE.
    FourEighteenthsOfEm,
    /// As wide as a digit: U+2007 FIGURE SPACE.
    Figure,
    /// As wide as a full stop: U+2008 PUNCTUATION SPACE.
    Punctuation,
    /// Narrower than the font's space: U+202F NARROW NO-BREAK SPACE.
    Narrow,
}

/// What sort of character a glyph came from, as far as its glyph is placed by it.
#[derive(Clone, Copy, PartialEq, Eq, Debug)]
pub enum CharacterKind {
    /// A character that is placed as its glyph is.
    Other,
    /// A space of this width that the font lacks.
    Space(SpaceWidth),
    /// A mark (`General_Category` Mn, Mc or Me), and its combining class as HarfBuzz sorts marks and places them by
    /// their boxes, 0 where it has none.
    Mark(u8),
}

/// A glyph of a text, and the character that it stands for.
#[derive(Clone, Copy, PartialEq, Eq, Debug)]
pub struct TextGlyph {
    /// The number of the glyph in the font. 0xFFFF is a deleted glyph, which is not drawn.
    pub glyph_id: u16,
    /// The place of its character in the text.
    pub cluster: u32,
    /// Whether the character is ignorable by default, as `text_of` of `aat_text` has it of each character. Kerning by
    /// pairs then skips its glyph, unless the class of the glyph has the property 0x10: it is the right one of no pair,
    /// and the left one only at the start of the line, or behind a glyph for which kerning is turned off.
    pub is_ignorable: bool,
    /// Whether the character is a nonspacing mark (`General_Category` Mn) that is not ignorable. Where the font has no
    /// classes of glyphs, its glyph then has the property of marks (8), so that kerning by pairs skips it, as HarfBuzz
    /// 12.3.2 has it. Where it has classes, they alone say which glyphs are marks.
    pub is_mark: bool,
    /// The kind of the character.
    pub kind: CharacterKind,
}

impl TextGlyph {
    /// A glyph that stands for the character `cluster`, which is neither ignorable nor a mark, and no space that the font
    /// lacks.
    pub fn new(glyph_id: u16, cluster: u32) -> TextGlyph
        ensures { result ≡ record {
          glyph_id = glyph_id;
          cluster = cluster;
          is_ignorable = false;
          is_mark = false;
          kind = CharacterKind.Other;
        } }
    {
        TextGlyph {
            glyph_id,
            cluster,
            is_ignorable: false,
            is_mark: false,
            kind: CharacterKind::Other,
        }
    }

    /// A glyph that stands for the ignorable character `cluster`, which is no mark.
    pub fn ignorable(glyph_id: u16, cluster: u32) -> TextGlyph
        ensures { result ≡ record {
          glyph_id = glyph_id;
          cluster = cluster;
          is_ignorable = true;
          is_mark = false;
          kind = CharacterKind.Other;
        } }
    {
        TextGlyph {
            glyph_id,
            cluster,
            is_ignorable: true,
            is_mark: false,
            kind: CharacterKind::Other,
        }
    }
}

/// A glyph that is to be drawn. Lengths are in units of the font: to the right, and up.
///
/// A pen stands at the origin of the first glyph. Each glyph is drawn at the pen, moved by its offset, and then the pen
/// moves by its advance.
#[derive(Clone, Copy, PartialEq, Eq, Debug)]
// the short fields stand in a row, by which a glyph takes 36 bytes: lists of them are most of a long line's memory
pub struct ShapedGlyph {
    /// The number of the glyph in the font.
    pub glyph_id: u16,
    /// Whether the glyph of the text that it came from is ignorable.
    pub is_ignorable: bool,
    /// Whether it is a mark: whether it has the property of marks (8) when the line is kerned. A glyph of the text has
    /// it as the font says, or where the font has no classes of glyphs as the text says. A glyph that it is changed
    /// into keeps that, unless a lookup of a font with classes changed it: then the font says it of the new glyph.
    pub is_mark: bool,
    /// The kind of the character of the glyph of the text that it came from.
    pub kind: CharacterKind,
    /// Whether the text may be broken between the glyph that is drawn before it and this one: its two parts then look
    /// by themselves as they do here. Where it is `false` nothing is said. It is `false` at the first glyph.
    pub may_break_before: bool,
    /// The character that it came from, or the first of several.
    pub cluster: u32,
    /// How far the pen moves to the right.
    pub x_advance: i32,
    /// How far the pen moves up: in vertical text it is usually below 0.
    pub y_advance: i32,
    /// How far to the right of the pen it is drawn. What it is attached to is counted in.
    pub x_offset: i32,
    /// How far above the pen it is drawn. What it is attached to is counted in.
    pub y_offset: i32,
    /// The place, among the glyphs that are drawn, of the glyph that it is attached to, if any. That one stands before
    /// it. There is none where that glyph was deleted.
    pub attached_to: Option<u32>,
}
