//! The characters of which nothing is to be seen.
ghost use Rattle.std.specs.Prelude.{◌≡◌};
ghost use Rattle.ucd_derived.specs.Binary.{is_default_ignorable_code_point};
ghost use Rattle.aat_text.specs.IgnorableCharacters.{is_ignorable_character, is_shown_character};

/// Whether a character is a `Default_Ignorable_Code_Point` of Unicode. There are few ranges of them, so that comparing
/// is quicker than a table, and none among the many letters that are asked for first.
#[tactic(auto, unfolding(ucd_table::specs::Rows::in_ranges, ucd_derived::specs::Binary::is_default_ignorable_code_point, ucd_derived::specs::DefaultIgnorableCodePointRanges::default_ignorable_code_point_ranges))]
fn is_default_ignorable(character: char) -> bool
    ensures { result ≡ is_default_ignorable_code_point character }
{
    match character {
        '\u{61D}'..='\u{115E}' => false,
        '\u{AD}' | '\u{34F}' | '\u{61C}' | '\u{115F}'..='\u{1160}' => true,
        '\u{17B4}'..='\u{17B5}' | '\u{180B}'..='\u{180F}' => true,
        '\u{200B}'..='\u{200F}' | '\u{202A}'..='\u{202E}' | '\u{2060}'..='\u{206F}' => true,
        '\u{3164}' | '\u{FE00}'..='\u{FE0F}' | '\u{FEFF}' | '\u{FFA0}' => true,
        '\u{FFF0}'..='\u{FFF8}' | '\u{1BCA0}'..='\u{1BCA3}' => true,
        '\u{1D173}'..='\u{1D17A}' | '\u{E0000}'..='\u{E0FFF}' => true,
        _ => false,
    }
}

/// Whether HarfBuzz 12.3.2 shows a character that is ignorable in Unicode.
fn is_shown_character(character: char) -> bool
    ensures { result ≡ is_shown_character character }
{
    match character {
        // Hangul fillers
        '\u{115F}' | '\u{1160}' | '\u{3164}' | '\u{FFA0}' => true,
        // the fourth free variation selector of Mongolian
        '\u{180F}' => true,
        // the format controls of shorthand
        '\u{1BCA0}'..='\u{1BCA3}' => true,
        _ => false,
    }
}

/// Whether a character is ignorable, as HarfBuzz 12.3.2 has it.
pub(crate) fn is_ignorable_character(character: char) -> bool
    ensures { result ≡ is_ignorable_character character }
{
    is_default_ignorable(character) && !is_shown_character(character)
}
