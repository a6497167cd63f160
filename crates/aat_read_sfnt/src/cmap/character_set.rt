//! Under which numbers a subtable has characters.
ghost use Rattle.std.specs.Prelude.{◌≡◌, ◌<◌, ◌==◌, IfSome, length, slice_index};
ghost use Rattle.aat_read_sfnt.specs.CharacterSets.{mac_roman_code, place_of, private_symbol, set_of};

/// The characters of Mac Roman from 0x80 on.
const MAC_ROMAN: [char; 128] = [
    'Ä', 'Å', 'Ç', 'É', 'Ñ', 'Ö', 'Ü', 'á', 'à', 'â', 'ä', 'ã', 'å', 'ç', 'é', 'è', 'ê', 'ë', 'í',
    'ì', 'î', 'ï', 'ñ', 'ó', 'ò', 'ô', 'ö', 'õ', 'ú', 'ù', 'û', 'ü', '†', '°', '¢', '£', '§', '•',
    '¶', 'ß', '®', '©', '™', '´', '¨', '≠', 'Æ', 'Ø', '∞', '±', '≤', '≥', '¥', 'µ', '∂', '∑', '∏',
    'π', '∫', 'ª', 'º', 'Ω', 'æ', 'ø', '¿', '¡', '¬', '√', 'ƒ', '≈', '∆', '«', '»', '…', '\u{A0}',
    'À', 'Ã', 'Õ', 'Œ', 'œ', '–', '—', '“', '”', '‘', '’', '÷', '◊', 'ÿ', 'Ÿ', '⁄', '€', '‹', '›',
    'ﬁ', 'ﬂ', '‡', '·', '‚', '„', '‰', 'Â', 'Ê', 'Á', 'Ë', 'È', 'Í', 'Î', 'Ï', 'Ì', 'Ó', 'Ô',
    '\u{F8FF}', 'Ò', 'Ú', 'Û', 'Ù', '\u{131}', '\u{2C6}', '\u{2DC}', '¯', '\u{2D8}', '\u{2D9}',
    '\u{2DA}', '¸', '\u{2DD}', '\u{2DB}', '\u{2C7}',
];

/// Under which numbers a subtable has characters.
///
/// Apple's TrueType Reference Manual, "The 'cmap' table".
#[derive(Clone, Copy, PartialEq, Eq, Debug)]
pub enum CharacterSet {
    /// Their own.
    Unicode,
    /// Platform 3, encoding 0: their own, and those of one byte also from 0xF000 on.
    Symbol,
    /// Platform 1, encoding 0: ASCII its own, others those of Mac Roman.
    MacRoman,
}

/// The characters of a platform and encoding.
pub fn set_of(encoding: u32) -> CharacterSet
    ensures { result ≡ set_of encoding }
{
    match encoding {
        0x30000 => CharacterSet::Symbol,
        0x10000 => CharacterSet::MacRoman,
        _ => CharacterSet::Unicode,
    }
}

/// Where a character of one byte may stand besides.
pub fn private_symbol(character: char) -> Option<char>
    ensures { result ≡ private_symbol character }
{
    if character > '\u{FF}' {
        return None;
    }
    char::from_u32(0xF000 + character as u32)
}

/// Whether a character stands at a place of a list.
fn is_at(characters: &[char], place: usize, character: char) -> bool
    requires { place < length characters.now }
    ensures { result ≡ (slice_index characters.now place == character) }
{
    characters[place] == character
}

/// The place of a character in a list.
#[tactic(auto, unfolding(crate::specs::CharacterSets::place_of))]
fn place_of(characters: &[char], character: char) -> Option<usize>
    ensures first { result ≡ place_of characters.now character }
    ensures below { IfSome result (λ i. i < length characters.now) }
{
    (0..characters.len()).find(|place| is_at(characters, *place, character))
}

/// The number of a character of Mac Roman, of those from 0x80 on. HarfBuzz 12.3.2 takes a character above 0xFFFF by its
/// low 16 bits.
pub fn mac_roman_code(character: char) -> Option<char>
    ensures { result ≡ mac_roman_code character }
{
    match place_of(&MAC_ROMAN, character) {
        Some(place) => Some((0x80 + place as u8) as char),
        None => None,
    }
}
