//! Characters of which all that a text asks is known without a look-up.
ghost use Rattle.std.specs.Prelude.{◌≡◌, ◌<◌, ◌≤◌};
ghost use Rattle.aat_text.specs.inside.Plain.{is_plain};

/// Whether a character from U+007F to U+0605 is plain.
#[tactic(auto, unfolding(ucd_table::specs::Rows::in_ranges))]
fn is_plain_western(character: char) -> bool
    requires from { 0x7F ≤ character }
    requires to { character < 0x606 }
    ensures { result ≡ is_plain character }
{
    match character {
        '\u{A0}'..='\u{A8}' | '\u{AA}'..='\u{AC}' | '\u{AF}'..='\u{2FF}' => true,
        '\u{370}'..='\u{482}' | '\u{48A}'..='\u{590}' | '\u{5CA}'..='\u{5FF}' => true,
        _ => false,
    }
}

/// Whether a character from U+0606 to U+06D5 is plain.
#[tactic(auto, unfolding(ucd_table::specs::Rows::in_ranges))]
fn is_plain_arabic(character: char) -> bool
    requires from { 0x606 ≤ character }
    requires to { character < 0x6D6 }
    ensures { result ≡ is_plain character }
{
    match character {
        '\u{61D}'..='\u{64A}' | '\u{671}'..='\u{6D5}' => true,
        '\u{606}'..='\u{60F}' | '\u{660}'..='\u{66F}' => true,
        _ => false,
    }
}

/// Whether a character from U+06D6 on is plain.
#[tactic(auto, unfolding(ucd_table::specs::Rows::in_ranges))]
fn is_plain_eastern(character: char) -> bool
    requires { 0x6D6 ≤ character }
    ensures { result ≡ is_plain character }
{
    match character {
        '\u{329A}'..='\u{A66E}' => true,
        '\u{1E00}'..='\u{200A}' | '\u{2010}'..='\u{2027}' | '\u{2E00}'..='\u{3029}' => true,
        '\u{303E}'..='\u{3098}' | '\u{309B}'..='\u{3163}' => true,
        _ => false,
    }
}

/// Whether a character is one of many of Latin, Greek, Cyrillic, Armenian, Hebrew, Arabic and East Asia, and of
/// punctuation, that are no marks, are shown, and are joined to another character only as `Prepend` and `Extend` join
/// each one. Most texts have few others, so that tables are seldom asked. ASCII comes first, and then it is told by a
/// few comparisons which ranges there are to ask.
#[tactic(auto, unfolding(ucd_table::specs::Rows::in_ranges))]
pub(crate) fn is_plain(character: char) -> bool
    ensures { result ≡ is_plain character }
{
    if character < '\u{7F}' {
        character >= ' '
    } else if character < '\u{606}' {
        is_plain_western(character)
    } else if character < '\u{6D6}' {
        is_plain_arabic(character)
    } else {
        is_plain_eastern(character)
    }
}
