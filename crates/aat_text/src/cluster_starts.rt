//! Where the extended grapheme clusters of a text begin.
ghost use Rattle.std.specs.Prelude.{◌≡◌, ℕ, true, List, [], ◌∷◌};
ghost use Rattle.ucd_breaks.specs.GraphemeClusterBreak.{grapheme_cluster_break};
ghost use Rattle.ucd_derived.specs.IndicConjunctBreak.{indic_conjunct_break};
ghost use Rattle.unicode_segmentation.specs.Grapheme.{break_by_pair, is_consonant};
ghost use Rattle.aat_text.specs.inside.ClusterStarts.{begins_at, begins_behind, goes_on_linked, is_joined, is_prepend, keeps_base, known_behind, known_behind_plain, IsBehind};

use crate::plain::is_plain;
use ucd_breaks::GraphemeClusterBreak;
use ucd_derived::IndicConjunctBreak;
use ucd_emoji::is_extended_pictographic;

/// What of the characters before a place says whether an extended grapheme cluster begins there.
#[derive(Clone, Copy)]
pub(crate) struct TextBefore {
    /// The `Grapheme_Cluster_Break` of the last one, and that of a control character where there is none.
    last: GraphemeClusterBreak,
    /// The one that the last ones extend, and maybe a zero width joiner behind them. Where the last one extends none it
    /// is that itself.
    base: char,
    /// Whether they end in a linker of consonants, maybe with marks behind it.
    is_linked: bool,
    /// Whether they end in the first half of a flag.
    is_half_flag: bool,
}

/// Whether a cluster ends between characters of two values, where the two alone decide it.
fn break_by_pair(left: GraphemeClusterBreak, right: GraphemeClusterBreak) -> Option<bool>
    ensures { result ≡ break_by_pair true left right }
{
    use GraphemeClusterBreak::*;
    match (left, right) {
        (Cr, Lf) => Some(false),
        (Control | Cr | Lf, _) | (_, Control | Cr | Lf) => Some(true),
        (L, L | V | Lv | Lvt) | (Lv | V, V | T) | (Lvt | T, T) => Some(false),
        (_, Extend | Zwj | SpacingMark) | (Prepend, _) => Some(false),
        _ => None,
    }
}

/// Whether a character of a value leaves the base before it.
fn keeps_base(last: GraphemeClusterBreak, value: GraphemeClusterBreak) -> bool
    ensures { result ≡ keeps_base last value }
{
    use GraphemeClusterBreak::*;
    matches!(value, Extend | Zwj) && !matches!(last, Zwj)
}

/// Whether characters end in a linker with maybe marks behind it, where one more has a value.
fn goes_on_linked(is_linked: bool, value: IndicConjunctBreak) -> bool
    ensures { result ≡ goes_on_linked is_linked value }
{
    match value {
        IndicConjunctBreak::Linker => true,
        IndicConjunctBreak::Extend => is_linked,
        _ => false,
    }
}

/// Whether a character is a consonant that is joined to one behind a linker.
fn is_consonant(character: char) -> bool
    ensures { result ≡ is_consonant (indic_conjunct_break character) }
{
    matches!(
        IndicConjunctBreak::for_char(character),
        IndicConjunctBreak::Consonant
    )
}

impl TextBefore {
    /// The start of a text.
    #[tactic(auto, using(crate::proofs::ClusterStarts::nothing_behind))]
    pub(crate) fn nothing() -> TextBefore
        ensures { IsBehind [] result }
    {
        TextBefore {
            last: GraphemeClusterBreak::Control,
            base: '\0',
            is_linked: false,
            is_half_flag: false,
        }
    }

    /// What is known behind a plain character.
    fn behind_plain(character: char) -> TextBefore
        ensures { result ≡ known_behind_plain character }
    {
        TextBefore {
            last: GraphemeClusterBreak::Other,
            base: character,
            is_linked: false,
            is_half_flag: false,
        }
    }

    /// Whether a plain character is joined to those before it.
    fn is_prepended(self) -> bool
        ensures { result ≡ is_prepend self.last }
    {
        matches!(self.last, GraphemeClusterBreak::Prepend)
    }

    /// Whether a character of a value ends a conjunct, a sequence of emoji or a flag.
    fn is_joined(self, character: char, value: GraphemeClusterBreak) -> bool
        ensures { result ≡ is_joined self character value }
    {
        (self.is_linked && is_consonant(character))
            || (matches!(self.last, GraphemeClusterBreak::Zwj)
                && is_extended_pictographic(self.base)
                && is_extended_pictographic(character))
            || (self.is_half_flag && matches!(value, GraphemeClusterBreak::RegionalIndicator))
    }

    /// Whether a cluster begins at a character of a value.
    fn begins_at(self, character: char, value: GraphemeClusterBreak) -> bool
        ensures { result ≡ begins_at self character value }
    {
        match break_by_pair(self.last, value) {
            Some(is_break) => is_break,
            None => !self.is_joined(character, value),
        }
    }

    /// What is known behind a character of a value.
    fn behind(self, character: char, value: GraphemeClusterBreak) -> TextBefore
        ensures { result ≡ known_behind self character value }
    {
        TextBefore {
            last: value,
            base: if keeps_base(self.last, value) {
                self.base
            } else {
                character
            },
            is_linked: goes_on_linked(self.is_linked, IndicConjunctBreak::for_char(character)),
            is_half_flag: matches!(value, GraphemeClusterBreak::RegionalIndicator)
                && !self.is_half_flag,
        }
    }

    /// Passes a character, and tells whether an extended grapheme cluster begins at it.
    pub(crate) fn pass(&mut self, character: char) -> bool
        ensures begins { (before : List ℕ) → IsBehind before self.old → result ≡ begins_behind before character }
        ensures behind { (before : List ℕ) → IsBehind before self.old → IsBehind (character ∷ before) self.new }
    {
        let known = *self;
        if is_plain(character) {
            *self = TextBefore::behind_plain(character);
            return !known.is_prepended();
        }
        let value = GraphemeClusterBreak::for_char(character);
        *self = known.behind(character, value);
        known.begins_at(character, value)
    }
}
