//! Marks, and the classes by which they are ordered and placed.
ghost use Rattle.std.specs.Prelude.{◌≡◌, ◌≤◌};
ghost use Rattle.aat_characters.specs.Marks.{box_class, is_mark, is_nonspacing, mark_class, placed_classes, placed_marks, placing_class, shaping_class, value_among};
ghost use Rattle.ucd_category.specs.GeneralCategory.{general_category};

use aat_lookup::keys::row_at;
use ucd_category::{GeneralCategory, GeneralCategoryGroup};
use ucd_normal::canonical_combining_class;

/// The canonical combining classes for which HarfBuzz takes others, with these, rising.
pub(crate) static SHAPING_CLASSES: [(u16, u8); 28] = [
    // Hebrew points
    (10, 22),
    (11, 15),
    (12, 16),
    (13, 17),
    (14, 23),
    (15, 18),
    (16, 19),
    (17, 20),
    (18, 21),
    (19, 14),
    (20, 24),
    (21, 12),
    (22, 25),
    (23, 13),
    (24, 10),
    (25, 11),
    // Arabic vowel signs: shadda stands first
    (27, 28),
    (28, 29),
    (29, 30),
    (30, 31),
    (31, 32),
    (32, 33),
    (33, 27),
    // Telugu length marks
    (84, 4),
    (91, 5),
    // Thai u and uu
    (103, 3),
    // Tibetan vowel signs i and u
    (130, 132),
    (132, 131),
];

/// The class that HarfBuzz takes for a canonical combining class.
pub(crate) fn shaping_class(class: u8) -> u8
    ensures { result ≡ shaping_class class }
{
    match row_at(&SHAPING_CLASSES, class as u32) {
        Some(row) => row.1,
        None => class,
    }
}

/// Whether a character is a mark: its `General_Category` is Mn, Mc or Me.
pub(crate) fn is_mark(character: char) -> bool
    ensures { result ≡ is_mark character }
{
    GeneralCategoryGroup::Mark.contains(GeneralCategory::for_char(character))
}

/// The class by which a mark is ordered behind its letter, as HarfBuzz has it, and 0 of a character that is not moved.
/// No row of another class is looked for where there is none.
#[tactic(auto, using(crate::proofs::RowsRise::unmoved_class))]
pub(crate) fn mark_class(character: char) -> u8
    ensures { result ≡ mark_class character }
{
    match character {
        // Tai Tham sakot, and Tibetan padma
        '\u{1A60}' | '\u{FC6}' => 254,
        // Tibetan tsa-phru
        '\u{F39}' => 127,
        character => match canonical_combining_class(character) {
            0 => 0,
            class => shaping_class(class),
        },
    }
}

/// The marks of Thai and Lao, as a first one and a last one, for which HarfBuzz takes these classes to place them.
pub(crate) static PLACED_MARKS: [(u32, u32, u8); 10] = [
    (0xE31, 0xE31, 232),
    (0xE34, 0xE37, 232),
    (0xE3A, 0xE3A, 222),
    (0xE47, 0xE47, 232),
    (0xE4C, 0xE4E, 232),
    (0xEB1, 0xEB1, 230),
    (0xEB4, 0xEB7, 230),
    (0xEBB, 0xEBB, 230),
    (0xEBC, 0xEBC, 220),
    (0xECC, 0xECD, 230),
];

/// The classes by which marks are ordered, from one to another, for which HarfBuzz takes these to place them.
pub(crate) static PLACED_CLASSES: [(u32, u32, u8); 17] = [
    // Thai u and uu
    (3, 3, 222),
    // Hebrew shin dot, sin dot, rafe, holam, the other points but the dagesh, and varika with two Arabic vowel signs
    (10, 10, 232),
    (11, 11, 228),
    (13, 13, 214),
    (14, 14, 228),
    (15, 25, 220),
    (26, 29, 230),
    // Arabic kasratan, fatha and damma, kasra, and what is above
    (30, 30, 220),
    (31, 32, 230),
    (33, 33, 220),
    (34, 36, 230),
    // Thai tones
    (107, 107, 232),
    // Lao vowel signs and tones
    (118, 118, 220),
    (122, 122, 230),
    // Tibetan vowel signs aa, u and i
    (129, 129, 220),
    (131, 131, 220),
    (132, 132, 230),
];

/// The value of the row that holds a number, of rows of a first number, a last number and a value.
fn value_among(rows: &[(u32, u32, u8)], number: u32) -> Option<u8>
    ensures { result ≡ value_among rows.now number }
{
    for row in rows {
        if row.0 <= number && number <= row.1 {
            return Some(row.2);
        }
    }
    None
}

/// The class by which a nonspacing mark of an ordering class is placed.
fn placing_class(character: char, class: u8) -> u8
    ensures { result ≡ placing_class character class }
{
    if let Some(placed) = value_among(&PLACED_MARKS, character as u32) {
        return placed;
    }
    value_among(&PLACED_CLASSES, class as u32).unwrap_or(class)
}

/// The class by which a mark is placed by its box, as HarfBuzz 12.3.2 has it where a font tells no places of marks, and
/// none of a character that is no mark.
///
/// A mark whose `General_Category` is Mn has the class of the side of its letter at which it stands, from 200 on, where
/// Unicode or HarfBuzz tell one. Any other mark has the class by which HarfBuzz orders it, 0 where that is none.
pub fn box_class(character: char) -> Option<u8>
    ensures { result ≡ box_class character }
{
    match GeneralCategory::for_char(character) {
        GeneralCategory::NonspacingMark => Some(placing_class(character, mark_class(character))),
        GeneralCategory::SpacingMark | GeneralCategory::EnclosingMark => Some(mark_class(
            character,
        )),
        _ => None,
    }
}
