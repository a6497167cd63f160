//! The script of a text, and the direction in which a script is written.
ghost use Rattle.std.specs.Prelude.{◌≡◌};
ghost use Rattle.aat_characters.specs.Scripts.{script_direction, specific_script, text_script};

use aat_glyph::Direction;
pub use ucd_script::Script;

/// The script of a character, if it is one of characters of its own.
fn specific_script(character: char) -> Option<Script>
    ensures { result ≡ specific_script character }
{
    match Script::for_char(character) {
        Script::Common | Script::Inherited | Script::Unknown => None,
        script => Some(script),
    }
}

/// The script of a text: that of its first character whose `Script` is none of Common, Inherited and Unknown. A text
/// without such a character has none.
pub fn text_script(text: &str) -> Option<Script>
    ensures { result ≡ text_script text.now }
{
    for character in text.chars() {
        let script = specific_script(character);
        if script.is_some() {
            return script;
        }
    }
    None
}

/// The direction in which a script is written along rows, as HarfBuzz has it: there is none for Old Hungarian, Old
/// Italic, Runic and Tifinagh, which are written both ways.
pub fn script_direction(script: Script) -> Option<Direction>
    ensures { result ≡ script_direction script }
{
    match script {
        Script::OldHungarian | Script::OldItalic | Script::Runic | Script::Tifinagh => None,
        // of Unicode 1.1 to 4.1
        Script::Arabic
        | Script::Cypriot
        | Script::Hebrew
        | Script::Kharoshthi
        | Script::Syriac
        | Script::Thaana => Some(Direction::RightToLeft),
        // of Unicode 5.0 to 5.2
        Script::Avestan
        | Script::ImperialAramaic
        | Script::InscriptionalPahlavi
        | Script::InscriptionalParthian
        | Script::Lydian
        | Script::Nko => Some(Direction::RightToLeft),
        Script::OldSouthArabian | Script::OldTurkic | Script::Phoenician | Script::Samaritan => {
            Some(Direction::RightToLeft)
        }
        // of Unicode 6.0 to 7.0
        Script::Mandaic
        | Script::Manichaean
        | Script::MendeKikakui
        | Script::MeroiticCursive
        | Script::MeroiticHieroglyphs => Some(Direction::RightToLeft),
        Script::Nabataean | Script::OldNorthArabian | Script::Palmyrene | Script::PsalterPahlavi =>
            Some(Direction::RightToLeft),
        // of Unicode 8.0 to 17.0
        Script::Adlam
        | Script::Chorasmian
        | Script::Elymaic
        | Script::HanifiRohingya
        | Script::Hatran
        | Script::OldSogdian => Some(Direction::RightToLeft),
        Script::Garay | Script::OldUyghur | Script::Sidetic | Script::Sogdian | Script::Yezidi =>
            Some(Direction::RightToLeft),
        _ => Some(Direction::LeftToRight),
    }
}
