//! What HarfBuzz's shaper of a script does around the layer.
ghost use Rattle.std.specs.Prelude.{◌≡◌};
ghost use Rattle.aat_characters.specs.ScriptRules.{applies_kern, mark_widths, script_rules, script_rules_of};

use aat_glyph::Direction;
use ucd_script::Script;

/// HarfBuzz's shapers of scripts, as it takes them for a font without `GSUB`.
#[derive(Clone, Copy, PartialEq, Eq, Debug)]
pub enum ScriptRules {
    /// The default, which most scripts have.
    Default,
    /// Arabic and Syriac along rows.
    Arabic,
    /// Hebrew.
    Hebrew,
    /// Hangul.
    Hangul,
    /// Thai and Lao.
    Thai,
    /// Nine scripts of India.
    Indic,
    /// Khmer.
    Khmer,
    /// Myanmar.
    Myanmar,
    /// The Universal Shaping Engine, which many other scripts of South and Southeast Asia have.
    Universal,
}

/// What becomes of the advances of glyphs that are marks. The classes of `GDEF` tell which are, and where the font has
/// no classes of glyphs their characters do.
#[derive(Clone, Copy, PartialEq, Eq, Debug)]
pub enum MarkWidths {
    /// They stay.
    Kept,
    /// They are made zero before glyphs are positioned.
    ZeroEarly,
    /// They are made zero after glyphs are positioned.
    ZeroLate,
}

impl ScriptRules {
    /// The rules of a text with this script, if it has one, that runs in this direction.
    pub fn of(script: Option<Script>, direction: Direction) -> ScriptRules
        ensures { result ≡ script_rules_of script direction }
    {
        let Some(script) = script else {
            return ScriptRules::Default;
        };
        match ScriptRules::of_script(script) {
            ScriptRules::Arabic if direction.is_vertical() => ScriptRules::Default,
            rules => rules,
        }
    }

    /// The rules of a script along rows.
    fn of_script(script: Script) -> ScriptRules
        ensures { result ≡ script_rules script }
    {
        match script {
            Script::Arabic | Script::Syriac => ScriptRules::Arabic,
            Script::Hebrew => ScriptRules::Hebrew,
            Script::Hangul => ScriptRules::Hangul,
            Script::Thai | Script::Lao => ScriptRules::Thai,
            Script::Bengali | Script::Devanagari | Script::Gujarati | Script::Gurmukhi =>
                ScriptRules::Indic,
            Script::Kannada | Script::Malayalam | Script::Oriya | Script::Tamil | Script::Telugu =>
                ScriptRules::Indic,
            Script::Khmer => ScriptRules::Khmer,
            Script::Myanmar => ScriptRules::Myanmar,
            // of Unicode 2.0
            Script::Tibetan => ScriptRules::Universal,
            // of Unicode 3.0
            Script::Mongolian | Script::Sinhala => ScriptRules::Universal,
            // of Unicode 3.2
            Script::Buhid | Script::Hanunoo | Script::Tagalog | Script::Tagbanwa =>
                ScriptRules::Universal,
            // of Unicode 4.0
            Script::Limbu | Script::TaiLe => ScriptRules::Universal,
            // of Unicode 4.1
            Script::Buginese | Script::Kharoshthi | Script::SylotiNagri | Script::Tifinagh =>
                ScriptRules::Universal,
            // of Unicode 5.0
            Script::Balinese | Script::Nko | Script::PhagsPa => ScriptRules::Universal,
            // of Unicode 5.1
            Script::Cham
            | Script::KayahLi
            | Script::Lepcha
            | Script::Rejang
            | Script::Saurashtra
            | Script::Sundanese => ScriptRules::Universal,
            // of Unicode 5.2
            Script::EgyptianHieroglyphs
            | Script::Javanese
            | Script::Kaithi
            | Script::MeeteiMayek
            | Script::TaiTham
            | Script::TaiViet => ScriptRules::Universal,
            // of Unicode 6.0
            Script::Batak | Script::Brahmi | Script::Mandaic => ScriptRules::Universal,
            // of Unicode 6.1
            Script::Chakma | Script::Miao | Script::Sharada | Script::Takri =>
                ScriptRules::Universal,
            // of Unicode 7.0
            Script::Duployan
            | Script::Grantha
            | Script::Khojki
            | Script::Khudawadi
            | Script::Mahajani
            | Script::Manichaean => ScriptRules::Universal,
            Script::Modi
            | Script::PahawhHmong
            | Script::PsalterPahlavi
            | Script::Siddham
            | Script::Tirhuta => ScriptRules::Universal,
            // of Unicode 8.0
            Script::Ahom | Script::Multani => ScriptRules::Universal,
            // of Unicode 9.0
            Script::Adlam | Script::Bhaiksuki | Script::Marchen | Script::Newa =>
                ScriptRules::Universal,
            // of Unicode 10.0
            Script::MasaramGondi | Script::Soyombo | Script::ZanabazarSquare =>
                ScriptRules::Universal,
            // of Unicode 11.0
            Script::Dogra
            | Script::GunjalaGondi
            | Script::HanifiRohingya
            | Script::Makasar
            | Script::Medefaidrin
            | Script::OldSogdian => ScriptRules::Universal,
            Script::Sogdian => ScriptRules::Universal,
            // of Unicode 12.0
            Script::Elymaic | Script::Nandinagari | Script::NyiakengPuachueHmong | Script::Wancho =>
                ScriptRules::Universal,
            // of Unicode 13.0
            Script::Chorasmian | Script::DivesAkuru | Script::KhitanSmallScript | Script::Yezidi =>
                ScriptRules::Universal,
            // of Unicode 14.0
            Script::CyproMinoan
            | Script::OldUyghur
            | Script::Tangsa
            | Script::Toto
            | Script::Vithkuqi => ScriptRules::Universal,
            // of Unicode 15.0
            Script::Kawi | Script::NagMundari => ScriptRules::Universal,
            // of Unicode 16.0
            Script::Garay
            | Script::GurungKhema
            | Script::KiratRai
            | Script::OlOnal
            | Script::Sunuwar
            | Script::Todhri => ScriptRules::Universal,
            Script::TuluTigalari => ScriptRules::Universal,
            // of Unicode 17.0
            Script::BeriaErfe | Script::Sidetic | Script::TaiYo | Script::TolongSiki =>
                ScriptRules::Universal,
            _ => ScriptRules::Default,
        }
    }

    /// Whether the table `kern` is applied, where a font has no `kerx`: not for Thai, Indic, Khmer, Myanmar and the
    /// scripts of the Universal Shaping Engine.
    pub fn applies_kern(self) -> bool
        ensures { result ≡ applies_kern self }
    {
        matches!(
            self,
            ScriptRules::Default | ScriptRules::Arabic | ScriptRules::Hebrew | ScriptRules::Hangul
        )
    }

    /// What becomes of the widths of marks, where neither `kerx` nor a machine of `kern` acts. With `morx` those of all
    /// but the default rules stay.
    pub fn mark_widths(self, has_morx: bool) -> MarkWidths
        ensures { result ≡ mark_widths self has_morx }
    {
        match (self, has_morx) {
            (ScriptRules::Default, _) => MarkWidths::ZeroLate,
            (_, true) => MarkWidths::Kept,
            (ScriptRules::Arabic | ScriptRules::Hebrew | ScriptRules::Thai, false) =>
                MarkWidths::ZeroLate,
            (ScriptRules::Myanmar | ScriptRules::Universal, false) => MarkWidths::ZeroEarly,
            (ScriptRules::Hangul | ScriptRules::Indic | ScriptRules::Khmer, false) =>
                MarkWidths::Kept,
        }
    }
}
