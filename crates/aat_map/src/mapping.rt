//! Which feature of an Apple font stands for an OpenType feature.
ghost use Rattle.std.specs.Prelude.{◌≡◌};
ghost use Rattle.aat_map.specs.Mappings.{mapping_of};

use aat_font::{constants, hb_tag_t};
use aat_lookup::keys::{Keyed, row_at};

/// A row of the table of features: an OpenType tag, and the type and the two selectors of the
/// feature that stands for it.
#[derive(Clone, Copy, PartialEq, Eq, Debug)]
pub struct hb_aat_feature_mapping_t {
    pub ot_feature_tag: hb_tag_t,
    pub aat_feature_type: u8,
    /// The selector for a value that is not 0.
    pub selector_to_enable: u8,
    /// The selector for the value 0.
    pub selector_to_disable: u8,
}

/// A row of a tag, a feature type and two selectors.
macro_rules! mapping {
    ($tag:literal, $kind:expr, $enable:expr, $disable:expr) => {
        hb_aat_feature_mapping_t {
            ot_feature_tag: hb_tag_t($tag),
            aat_feature_type: $kind,
            selector_to_enable: $enable,
            selector_to_disable: $disable,
        }
    };
}

/// The table of features, strictly rising by tag, which `worked::mappings_rise` proves.
///
/// The features are those of Apple's TrueType Reference Manual, "The 'feat' table" and its font
/// feature registry.
pub static feature_mappings: [hb_aat_feature_mapping_t; 78] = [
    // afrc
    mapping!(
        0x61667263,
        constants::HB_AAT_LAYOUT_FEATURE_TYPE_FRACTIONS,
        constants::HB_AAT_LAYOUT_FEATURE_SELECTOR_VERTICAL_FRACTIONS,
        constants::HB_AAT_LAYOUT_FEATURE_SELECTOR_NO_FRACTIONS
    ),
    // c2pc
    mapping!(
        0x63327063,
        constants::HB_AAT_LAYOUT_FEATURE_TYPE_UPPER_CASE,
        constants::HB_AAT_LAYOUT_FEATURE_SELECTOR_UPPER_CASE_PETITE_CAPS,
        constants::HB_AAT_LAYOUT_FEATURE_SELECTOR_DEFAULT_UPPER_CASE
    ),
    // c2sc
    mapping!(
        0x63327363,
        constants::HB_AAT_LAYOUT_FEATURE_TYPE_UPPER_CASE,
        constants::HB_AAT_LAYOUT_FEATURE_SELECTOR_UPPER_CASE_SMALL_CAPS,
        constants::HB_AAT_LAYOUT_FEATURE_SELECTOR_DEFAULT_UPPER_CASE
    ),
    // calt
    mapping!(
        0x63616C74,
        constants::HB_AAT_LAYOUT_FEATURE_TYPE_CONTEXTUAL_ALTERNATIVES,
        constants::HB_AAT_LAYOUT_FEATURE_SELECTOR_CONTEXTUAL_ALTERNATES_ON,
        constants::HB_AAT_LAYOUT_FEATURE_SELECTOR_CONTEXTUAL_ALTERNATES_OFF
    ),
    // case
    mapping!(
        0x63617365,
        constants::HB_AAT_LAYOUT_FEATURE_TYPE_CASE_SENSITIVE_LAYOUT,
        constants::HB_AAT_LAYOUT_FEATURE_SELECTOR_CASE_SENSITIVE_LAYOUT_ON,
        constants::HB_AAT_LAYOUT_FEATURE_SELECTOR_CASE_SENSITIVE_LAYOUT_OFF
    ),
    // clig
    mapping!(
        0x636C6967,
        constants::HB_AAT_LAYOUT_FEATURE_TYPE_LIGATURES,
        constants::HB_AAT_LAYOUT_FEATURE_SELECTOR_CONTEXTUAL_LIGATURES_ON,
        constants::HB_AAT_LAYOUT_FEATURE_SELECTOR_CONTEXTUAL_LIGATURES_OFF
    ),
    // cpsp
    mapping!(
        0x63707370,
        constants::HB_AAT_LAYOUT_FEATURE_TYPE_CASE_SENSITIVE_LAYOUT,
        constants::HB_AAT_LAYOUT_FEATURE_SELECTOR_CASE_SENSITIVE_SPACING_ON,
        constants::HB_AAT_LAYOUT_FEATURE_SELECTOR_CASE_SENSITIVE_SPACING_OFF
    ),
    // cswh
    mapping!(
        0x63737768,
        constants::HB_AAT_LAYOUT_FEATURE_TYPE_CONTEXTUAL_ALTERNATIVES,
        constants::HB_AAT_LAYOUT_FEATURE_SELECTOR_CONTEXTUAL_SWASH_ALTERNATES_ON,
        constants::HB_AAT_LAYOUT_FEATURE_SELECTOR_CONTEXTUAL_SWASH_ALTERNATES_OFF
    ),
    // dlig
    mapping!(
        0x646C6967,
        constants::HB_AAT_LAYOUT_FEATURE_TYPE_LIGATURES,
        constants::HB_AAT_LAYOUT_FEATURE_SELECTOR_RARE_LIGATURES_ON,
        constants::HB_AAT_LAYOUT_FEATURE_SELECTOR_RARE_LIGATURES_OFF
    ),
    // expt
    mapping!(
        0x65787074,
        constants::HB_AAT_LAYOUT_FEATURE_TYPE_CHARACTER_SHAPE,
        constants::HB_AAT_LAYOUT_FEATURE_SELECTOR_EXPERT_CHARACTERS,
        16
    ),
    // frac
    mapping!(
        0x66726163,
        constants::HB_AAT_LAYOUT_FEATURE_TYPE_FRACTIONS,
        constants::HB_AAT_LAYOUT_FEATURE_SELECTOR_DIAGONAL_FRACTIONS,
        constants::HB_AAT_LAYOUT_FEATURE_SELECTOR_NO_FRACTIONS
    ),
    // fwid
    mapping!(
        0x66776964,
        constants::HB_AAT_LAYOUT_FEATURE_TYPE_TEXT_SPACING,
        constants::HB_AAT_LAYOUT_FEATURE_SELECTOR_MONOSPACED_TEXT,
        7
    ),
    // halt
    mapping!(
        0x68616C74,
        constants::HB_AAT_LAYOUT_FEATURE_TYPE_TEXT_SPACING,
        constants::HB_AAT_LAYOUT_FEATURE_SELECTOR_ALT_HALF_WIDTH_TEXT,
        7
    ),
    // hist
    mapping!(0x68697374, 40, 0, 1),
    // hkna
    mapping!(
        0x686B6E61,
        constants::HB_AAT_LAYOUT_FEATURE_TYPE_ALTERNATE_KANA,
        constants::HB_AAT_LAYOUT_FEATURE_SELECTOR_ALTERNATE_HORIZ_KANA_ON,
        constants::HB_AAT_LAYOUT_FEATURE_SELECTOR_ALTERNATE_HORIZ_KANA_OFF
    ),
    // hlig
    mapping!(
        0x686C6967,
        constants::HB_AAT_LAYOUT_FEATURE_TYPE_LIGATURES,
        constants::HB_AAT_LAYOUT_FEATURE_SELECTOR_HISTORICAL_LIGATURES_ON,
        constants::HB_AAT_LAYOUT_FEATURE_SELECTOR_HISTORICAL_LIGATURES_OFF
    ),
    // hngl
    mapping!(
        0x686E676C,
        constants::HB_AAT_LAYOUT_FEATURE_TYPE_TRANSLITERATION,
        constants::HB_AAT_LAYOUT_FEATURE_SELECTOR_HANJA_TO_HANGUL,
        constants::HB_AAT_LAYOUT_FEATURE_SELECTOR_NO_TRANSLITERATION
    ),
    // hojo
    mapping!(
        0x686F6A6F,
        constants::HB_AAT_LAYOUT_FEATURE_TYPE_CHARACTER_SHAPE,
        constants::HB_AAT_LAYOUT_FEATURE_SELECTOR_HOJO_CHARACTERS,
        16
    ),
    // hwid
    mapping!(
        0x68776964,
        constants::HB_AAT_LAYOUT_FEATURE_TYPE_TEXT_SPACING,
        constants::HB_AAT_LAYOUT_FEATURE_SELECTOR_HALF_WIDTH_TEXT,
        7
    ),
    // ital
    mapping!(
        0x6974616C,
        constants::HB_AAT_LAYOUT_FEATURE_TYPE_ITALIC_CJK_ROMAN,
        constants::HB_AAT_LAYOUT_FEATURE_SELECTOR_CJK_ITALIC_ROMAN_ON,
        constants::HB_AAT_LAYOUT_FEATURE_SELECTOR_CJK_ITALIC_ROMAN_OFF
    ),
    // jp04
    mapping!(
        0x6A703034,
        constants::HB_AAT_LAYOUT_FEATURE_TYPE_CHARACTER_SHAPE,
        constants::HB_AAT_LAYOUT_FEATURE_SELECTOR_JIS2004_CHARACTERS,
        16
    ),
    // jp78
    mapping!(
        0x6A703738,
        constants::HB_AAT_LAYOUT_FEATURE_TYPE_CHARACTER_SHAPE,
        constants::HB_AAT_LAYOUT_FEATURE_SELECTOR_JIS1978_CHARACTERS,
        16
    ),
    // jp83
    mapping!(
        0x6A703833,
        constants::HB_AAT_LAYOUT_FEATURE_TYPE_CHARACTER_SHAPE,
        constants::HB_AAT_LAYOUT_FEATURE_SELECTOR_JIS1983_CHARACTERS,
        16
    ),
    // jp90
    mapping!(
        0x6A703930,
        constants::HB_AAT_LAYOUT_FEATURE_TYPE_CHARACTER_SHAPE,
        constants::HB_AAT_LAYOUT_FEATURE_SELECTOR_JIS1990_CHARACTERS,
        16
    ),
    // liga
    mapping!(
        0x6C696761,
        constants::HB_AAT_LAYOUT_FEATURE_TYPE_LIGATURES,
        constants::HB_AAT_LAYOUT_FEATURE_SELECTOR_COMMON_LIGATURES_ON,
        constants::HB_AAT_LAYOUT_FEATURE_SELECTOR_COMMON_LIGATURES_OFF
    ),
    // lnum
    mapping!(
        0x6C6E756D,
        constants::HB_AAT_LAYOUT_FEATURE_TYPE_NUMBER_CASE,
        constants::HB_AAT_LAYOUT_FEATURE_SELECTOR_UPPER_CASE_NUMBERS,
        2
    ),
    // mgrk
    mapping!(
        0x6D67726B,
        constants::HB_AAT_LAYOUT_FEATURE_TYPE_MATHEMATICAL_EXTRAS,
        constants::HB_AAT_LAYOUT_FEATURE_SELECTOR_MATHEMATICAL_GREEK_ON,
        constants::HB_AAT_LAYOUT_FEATURE_SELECTOR_MATHEMATICAL_GREEK_OFF
    ),
    // nlck
    mapping!(
        0x6E6C636B,
        constants::HB_AAT_LAYOUT_FEATURE_TYPE_CHARACTER_SHAPE,
        constants::HB_AAT_LAYOUT_FEATURE_SELECTOR_NLCCHARACTERS,
        16
    ),
    // onum
    mapping!(
        0x6F6E756D,
        constants::HB_AAT_LAYOUT_FEATURE_TYPE_NUMBER_CASE,
        constants::HB_AAT_LAYOUT_FEATURE_SELECTOR_LOWER_CASE_NUMBERS,
        2
    ),
    // ordn
    mapping!(
        0x6F72646E,
        constants::HB_AAT_LAYOUT_FEATURE_TYPE_VERTICAL_POSITION,
        constants::HB_AAT_LAYOUT_FEATURE_SELECTOR_ORDINALS,
        constants::HB_AAT_LAYOUT_FEATURE_SELECTOR_NORMAL_POSITION
    ),
    // palt
    mapping!(
        0x70616C74,
        constants::HB_AAT_LAYOUT_FEATURE_TYPE_TEXT_SPACING,
        constants::HB_AAT_LAYOUT_FEATURE_SELECTOR_ALT_PROPORTIONAL_TEXT,
        7
    ),
    // pcap
    mapping!(
        0x70636170,
        constants::HB_AAT_LAYOUT_FEATURE_TYPE_LOWER_CASE,
        constants::HB_AAT_LAYOUT_FEATURE_SELECTOR_LOWER_CASE_PETITE_CAPS,
        constants::HB_AAT_LAYOUT_FEATURE_SELECTOR_DEFAULT_LOWER_CASE
    ),
    // pkna
    mapping!(
        0x706B6E61,
        constants::HB_AAT_LAYOUT_FEATURE_TYPE_TEXT_SPACING,
        constants::HB_AAT_LAYOUT_FEATURE_SELECTOR_PROPORTIONAL_TEXT,
        7
    ),
    // pnum
    mapping!(
        0x706E756D,
        constants::HB_AAT_LAYOUT_FEATURE_TYPE_NUMBER_SPACING,
        constants::HB_AAT_LAYOUT_FEATURE_SELECTOR_PROPORTIONAL_NUMBERS,
        4
    ),
    // pwid
    mapping!(
        0x70776964,
        constants::HB_AAT_LAYOUT_FEATURE_TYPE_TEXT_SPACING,
        constants::HB_AAT_LAYOUT_FEATURE_SELECTOR_PROPORTIONAL_TEXT,
        7
    ),
    // qwid
    mapping!(
        0x71776964,
        constants::HB_AAT_LAYOUT_FEATURE_TYPE_TEXT_SPACING,
        constants::HB_AAT_LAYOUT_FEATURE_SELECTOR_QUARTER_WIDTH_TEXT,
        7
    ),
    // rlig
    mapping!(
        0x726C6967,
        constants::HB_AAT_LAYOUT_FEATURE_TYPE_LIGATURES,
        constants::HB_AAT_LAYOUT_FEATURE_SELECTOR_REQUIRED_LIGATURES_ON,
        constants::HB_AAT_LAYOUT_FEATURE_SELECTOR_REQUIRED_LIGATURES_OFF
    ),
    // ruby
    mapping!(
        0x72756279,
        constants::HB_AAT_LAYOUT_FEATURE_TYPE_RUBY_KANA,
        constants::HB_AAT_LAYOUT_FEATURE_SELECTOR_RUBY_KANA_ON,
        constants::HB_AAT_LAYOUT_FEATURE_SELECTOR_RUBY_KANA_OFF
    ),
    // sinf
    mapping!(
        0x73696E66,
        constants::HB_AAT_LAYOUT_FEATURE_TYPE_VERTICAL_POSITION,
        constants::HB_AAT_LAYOUT_FEATURE_SELECTOR_SCIENTIFIC_INFERIORS,
        constants::HB_AAT_LAYOUT_FEATURE_SELECTOR_NORMAL_POSITION
    ),
    // smcp
    mapping!(
        0x736D6370,
        constants::HB_AAT_LAYOUT_FEATURE_TYPE_LOWER_CASE,
        constants::HB_AAT_LAYOUT_FEATURE_SELECTOR_LOWER_CASE_SMALL_CAPS,
        constants::HB_AAT_LAYOUT_FEATURE_SELECTOR_DEFAULT_LOWER_CASE
    ),
    // smpl
    mapping!(
        0x736D706C,
        constants::HB_AAT_LAYOUT_FEATURE_TYPE_CHARACTER_SHAPE,
        constants::HB_AAT_LAYOUT_FEATURE_SELECTOR_SIMPLIFIED_CHARACTERS,
        16
    ),
    // ss01
    mapping!(
        0x73733031,
        constants::HB_AAT_LAYOUT_FEATURE_TYPE_STYLISTIC_ALTERNATIVES,
        constants::HB_AAT_LAYOUT_FEATURE_SELECTOR_STYLISTIC_ALT_ONE_ON,
        constants::HB_AAT_LAYOUT_FEATURE_SELECTOR_STYLISTIC_ALT_ONE_OFF
    ),
    // ss02
    mapping!(
        0x73733032,
        constants::HB_AAT_LAYOUT_FEATURE_TYPE_STYLISTIC_ALTERNATIVES,
        constants::HB_AAT_LAYOUT_FEATURE_SELECTOR_STYLISTIC_ALT_TWO_ON,
        constants::HB_AAT_LAYOUT_FEATURE_SELECTOR_STYLISTIC_ALT_TWO_OFF
    ),
    // ss03
    mapping!(
        0x73733033,
        constants::HB_AAT_LAYOUT_FEATURE_TYPE_STYLISTIC_ALTERNATIVES,
        constants::HB_AAT_LAYOUT_FEATURE_SELECTOR_STYLISTIC_ALT_THREE_ON,
        constants::HB_AAT_LAYOUT_FEATURE_SELECTOR_STYLISTIC_ALT_THREE_OFF
    ),
    // ss04
    mapping!(
        0x73733034,
        constants::HB_AAT_LAYOUT_FEATURE_TYPE_STYLISTIC_ALTERNATIVES,
        constants::HB_AAT_LAYOUT_FEATURE_SELECTOR_STYLISTIC_ALT_FOUR_ON,
        constants::HB_AAT_LAYOUT_FEATURE_SELECTOR_STYLISTIC_ALT_FOUR_OFF
    ),
    // ss05
    mapping!(
        0x73733035,
        constants::HB_AAT_LAYOUT_FEATURE_TYPE_STYLISTIC_ALTERNATIVES,
        constants::HB_AAT_LAYOUT_FEATURE_SELECTOR_STYLISTIC_ALT_FIVE_ON,
        constants::HB_AAT_LAYOUT_FEATURE_SELECTOR_STYLISTIC_ALT_FIVE_OFF
    ),
    // ss06
    mapping!(
        0x73733036,
        constants::HB_AAT_LAYOUT_FEATURE_TYPE_STYLISTIC_ALTERNATIVES,
        constants::HB_AAT_LAYOUT_FEATURE_SELECTOR_STYLISTIC_ALT_SIX_ON,
        constants::HB_AAT_LAYOUT_FEATURE_SELECTOR_STYLISTIC_ALT_SIX_OFF
    ),
    // ss07
    mapping!(
        0x73733037,
        constants::HB_AAT_LAYOUT_FEATURE_TYPE_STYLISTIC_ALTERNATIVES,
        constants::HB_AAT_LAYOUT_FEATURE_SELECTOR_STYLISTIC_ALT_SEVEN_ON,
        constants::HB_AAT_LAYOUT_FEATURE_SELECTOR_STYLISTIC_ALT_SEVEN_OFF
    ),
    // ss08
    mapping!(
        0x73733038,
        constants::HB_AAT_LAYOUT_FEATURE_TYPE_STYLISTIC_ALTERNATIVES,
        constants::HB_AAT_LAYOUT_FEATURE_SELECTOR_STYLISTIC_ALT_EIGHT_ON,
        constants::HB_AAT_LAYOUT_FEATURE_SELECTOR_STYLISTIC_ALT_EIGHT_OFF
    ),
    // ss09
    mapping!(
        0x73733039,
        constants::HB_AAT_LAYOUT_FEATURE_TYPE_STYLISTIC_ALTERNATIVES,
        constants::HB_AAT_LAYOUT_FEATURE_SELECTOR_STYLISTIC_ALT_NINE_ON,
        constants::HB_AAT_LAYOUT_FEATURE_SELECTOR_STYLISTIC_ALT_NINE_OFF
    ),
    // ss10
    mapping!(
        0x73733130,
        constants::HB_AAT_LAYOUT_FEATURE_TYPE_STYLISTIC_ALTERNATIVES,
        constants::HB_AAT_LAYOUT_FEATURE_SELECTOR_STYLISTIC_ALT_TEN_ON,
        constants::HB_AAT_LAYOUT_FEATURE_SELECTOR_STYLISTIC_ALT_TEN_OFF
    ),
    // ss11
    mapping!(
        0x73733131,
        constants::HB_AAT_LAYOUT_FEATURE_TYPE_STYLISTIC_ALTERNATIVES,
        constants::HB_AAT_LAYOUT_FEATURE_SELECTOR_STYLISTIC_ALT_ELEVEN_ON,
        constants::HB_AAT_LAYOUT_FEATURE_SELECTOR_STYLISTIC_ALT_ELEVEN_OFF
    ),
    // ss12
    mapping!(
        0x73733132,
        constants::HB_AAT_LAYOUT_FEATURE_TYPE_STYLISTIC_ALTERNATIVES,
        constants::HB_AAT_LAYOUT_FEATURE_SELECTOR_STYLISTIC_ALT_TWELVE_ON,
        constants::HB_AAT_LAYOUT_FEATURE_SELECTOR_STYLISTIC_ALT_TWELVE_OFF
    ),
    // ss13
    mapping!(
        0x73733133,
        constants::HB_AAT_LAYOUT_FEATURE_TYPE_STYLISTIC_ALTERNATIVES,
        constants::HB_AAT_LAYOUT_FEATURE_SELECTOR_STYLISTIC_ALT_THIRTEEN_ON,
        constants::HB_AAT_LAYOUT_FEATURE_SELECTOR_STYLISTIC_ALT_THIRTEEN_OFF
    ),
    // ss14
    mapping!(
        0x73733134,
        constants::HB_AAT_LAYOUT_FEATURE_TYPE_STYLISTIC_ALTERNATIVES,
        constants::HB_AAT_LAYOUT_FEATURE_SELECTOR_STYLISTIC_ALT_FOURTEEN_ON,
        constants::HB_AAT_LAYOUT_FEATURE_SELECTOR_STYLISTIC_ALT_FOURTEEN_OFF
    ),
    // ss15
    mapping!(
        0x73733135,
        constants::HB_AAT_LAYOUT_FEATURE_TYPE_STYLISTIC_ALTERNATIVES,
        constants::HB_AAT_LAYOUT_FEATURE_SELECTOR_STYLISTIC_ALT_FIFTEEN_ON,
        constants::HB_AAT_LAYOUT_FEATURE_SELECTOR_STYLISTIC_ALT_FIFTEEN_OFF
    ),
    // ss16
    mapping!(
        0x73733136,
        constants::HB_AAT_LAYOUT_FEATURE_TYPE_STYLISTIC_ALTERNATIVES,
        constants::HB_AAT_LAYOUT_FEATURE_SELECTOR_STYLISTIC_ALT_SIXTEEN_ON,
        constants::HB_AAT_LAYOUT_FEATURE_SELECTOR_STYLISTIC_ALT_SIXTEEN_OFF
    ),
    // ss17
    mapping!(
        0x73733137,
        constants::HB_AAT_LAYOUT_FEATURE_TYPE_STYLISTIC_ALTERNATIVES,
        constants::HB_AAT_LAYOUT_FEATURE_SELECTOR_STYLISTIC_ALT_SEVENTEEN_ON,
        constants::HB_AAT_LAYOUT_FEATURE_SELECTOR_STYLISTIC_ALT_SEVENTEEN_OFF
    ),
    // ss18
    mapping!(
        0x73733138,
        constants::HB_AAT_LAYOUT_FEATURE_TYPE_STYLISTIC_ALTERNATIVES,
        constants::HB_AAT_LAYOUT_FEATURE_SELECTOR_STYLISTIC_ALT_EIGHTEEN_ON,
        constants::HB_AAT_LAYOUT_FEATURE_SELECTOR_STYLISTIC_ALT_EIGHTEEN_OFF
    ),
    // ss19
    mapping!(
        0x73733139,
        constants::HB_AAT_LAYOUT_FEATURE_TYPE_STYLISTIC_ALTERNATIVES,
        constants::HB_AAT_LAYOUT_FEATURE_SELECTOR_STYLISTIC_ALT_NINETEEN_ON,
        constants::HB_AAT_LAYOUT_FEATURE_SELECTOR_STYLISTIC_ALT_NINETEEN_OFF
    ),
    // ss20
    mapping!(
        0x73733230,
        constants::HB_AAT_LAYOUT_FEATURE_TYPE_STYLISTIC_ALTERNATIVES,
        constants::HB_AAT_LAYOUT_FEATURE_SELECTOR_STYLISTIC_ALT_TWENTY_ON,
        constants::HB_AAT_LAYOUT_FEATURE_SELECTOR_STYLISTIC_ALT_TWENTY_OFF
    ),
    // subs
    mapping!(
        0x73756273,
        constants::HB_AAT_LAYOUT_FEATURE_TYPE_VERTICAL_POSITION,
        constants::HB_AAT_LAYOUT_FEATURE_SELECTOR_INFERIORS,
        constants::HB_AAT_LAYOUT_FEATURE_SELECTOR_NORMAL_POSITION
    ),
    // sups
    mapping!(
        0x73757073,
        constants::HB_AAT_LAYOUT_FEATURE_TYPE_VERTICAL_POSITION,
        constants::HB_AAT_LAYOUT_FEATURE_SELECTOR_SUPERIORS,
        constants::HB_AAT_LAYOUT_FEATURE_SELECTOR_NORMAL_POSITION
    ),
    // swsh
    mapping!(
        0x73777368,
        constants::HB_AAT_LAYOUT_FEATURE_TYPE_CONTEXTUAL_ALTERNATIVES,
        constants::HB_AAT_LAYOUT_FEATURE_SELECTOR_SWASH_ALTERNATES_ON,
        constants::HB_AAT_LAYOUT_FEATURE_SELECTOR_SWASH_ALTERNATES_OFF
    ),
    // titl
    mapping!(
        0x7469746C,
        constants::HB_AAT_LAYOUT_FEATURE_TYPE_STYLE_OPTIONS,
        constants::HB_AAT_LAYOUT_FEATURE_SELECTOR_TITLING_CAPS,
        constants::HB_AAT_LAYOUT_FEATURE_SELECTOR_NO_STYLE_OPTIONS
    ),
    // tnam
    mapping!(
        0x746E616D,
        constants::HB_AAT_LAYOUT_FEATURE_TYPE_CHARACTER_SHAPE,
        constants::HB_AAT_LAYOUT_FEATURE_SELECTOR_TRADITIONAL_NAMES_CHARACTERS,
        16
    ),
    // tnum
    mapping!(
        0x746E756D,
        constants::HB_AAT_LAYOUT_FEATURE_TYPE_NUMBER_SPACING,
        constants::HB_AAT_LAYOUT_FEATURE_SELECTOR_MONOSPACED_NUMBERS,
        4
    ),
    // trad
    mapping!(
        0x74726164,
        constants::HB_AAT_LAYOUT_FEATURE_TYPE_CHARACTER_SHAPE,
        constants::HB_AAT_LAYOUT_FEATURE_SELECTOR_TRADITIONAL_CHARACTERS,
        16
    ),
    // twid
    mapping!(
        0x74776964,
        constants::HB_AAT_LAYOUT_FEATURE_TYPE_TEXT_SPACING,
        constants::HB_AAT_LAYOUT_FEATURE_SELECTOR_THIRD_WIDTH_TEXT,
        7
    ),
    // unic
    mapping!(
        0x756E6963,
        constants::HB_AAT_LAYOUT_FEATURE_TYPE_LETTER_CASE,
        14,
        15
    ),
    // valt
    mapping!(
        0x76616C74,
        constants::HB_AAT_LAYOUT_FEATURE_TYPE_TEXT_SPACING,
        constants::HB_AAT_LAYOUT_FEATURE_SELECTOR_ALT_PROPORTIONAL_TEXT,
        7
    ),
    // vert
    mapping!(
        0x76657274,
        constants::HB_AAT_LAYOUT_FEATURE_TYPE_VERTICAL_SUBSTITUTION,
        constants::HB_AAT_LAYOUT_FEATURE_SELECTOR_SUBSTITUTE_VERTICAL_FORMS_ON,
        constants::HB_AAT_LAYOUT_FEATURE_SELECTOR_SUBSTITUTE_VERTICAL_FORMS_OFF
    ),
    // vhal
    mapping!(
        0x7668616C,
        constants::HB_AAT_LAYOUT_FEATURE_TYPE_TEXT_SPACING,
        constants::HB_AAT_LAYOUT_FEATURE_SELECTOR_ALT_HALF_WIDTH_TEXT,
        7
    ),
    // vkna
    mapping!(
        0x766B6E61,
        constants::HB_AAT_LAYOUT_FEATURE_TYPE_ALTERNATE_KANA,
        constants::HB_AAT_LAYOUT_FEATURE_SELECTOR_ALTERNATE_VERT_KANA_ON,
        constants::HB_AAT_LAYOUT_FEATURE_SELECTOR_ALTERNATE_VERT_KANA_OFF
    ),
    // vpal
    mapping!(
        0x7670616C,
        constants::HB_AAT_LAYOUT_FEATURE_TYPE_TEXT_SPACING,
        constants::HB_AAT_LAYOUT_FEATURE_SELECTOR_ALT_PROPORTIONAL_TEXT,
        7
    ),
    // vrt2
    mapping!(
        0x76727432,
        constants::HB_AAT_LAYOUT_FEATURE_TYPE_VERTICAL_SUBSTITUTION,
        constants::HB_AAT_LAYOUT_FEATURE_SELECTOR_SUBSTITUTE_VERTICAL_FORMS_ON,
        constants::HB_AAT_LAYOUT_FEATURE_SELECTOR_SUBSTITUTE_VERTICAL_FORMS_OFF
    ),
    // vrtr
    mapping!(
        0x76727472,
        constants::HB_AAT_LAYOUT_FEATURE_TYPE_VERTICAL_SUBSTITUTION,
        2,
        3
    ),
    // zero
    mapping!(
        0x7A65726F,
        constants::HB_AAT_LAYOUT_FEATURE_TYPE_TYPOGRAPHIC_EXTRAS,
        constants::HB_AAT_LAYOUT_FEATURE_SELECTOR_SLASHED_ZERO_ON,
        constants::HB_AAT_LAYOUT_FEATURE_SELECTOR_SLASHED_ZERO_OFF
    ),
];

/// The row of a tag, if there is one.
pub(crate) fn mapping_of(tag: hb_tag_t) -> Option<hb_aat_feature_mapping_t>
    ensures { result ≡ mapping_of tag.0 }
{
    row_at(&feature_mappings, tag.0)
}

impl Keyed for hb_aat_feature_mapping_t {
    ghost use Rattle.aat_map.specs.Mappings.{mapped_tag};

    ghost key_of = { mapped_tag };

    fn key(&self) -> u32 {
        self.ot_feature_tag.0
    }
}
