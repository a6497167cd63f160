//! The characters that are exchanged for others by the direction of a text.
ghost use Rattle.std.specs.Prelude.{◌≡◌};
ghost use Rattle.aat_lookup.specs.Keys.{first, value_in, IsRising};
ghost use Rattle.aat_characters.specs.Exchanges.{mirrored, vertical_form};

use crate::mirrored_rows::MIRRORED;
use crate::vertical_rows::VERTICAL;
use aat_lookup::keys::row_at;

/// The character that rows have for one, if they have one.
fn partner(rows: &[(u16, char)], character: char) -> Option<char>
    requires { IsRising first rows.now }
    ensures { result ≡ value_in rows.now character }
{
    row_at(rows, character as u32).map(|row| row.1)
}

/// The mirrored character of one, as a closing bracket of an opening one, and the character itself where Unicode's
/// `Bidi_Mirroring_Glyph` has none.
pub fn mirrored(character: char) -> char
    ensures { result ≡ mirrored character }
{
    partner(&MIRRORED, character).unwrap_or(character)
}

/// The vertical form of a character, as HarfBuzz has it, and the character itself where it has none.
pub fn vertical_form(character: char) -> char
    ensures { result ≡ vertical_form character }
{
    partner(&VERTICAL, character).unwrap_or(character)
}
