//! What a character does at the end of a line.
ghost use Rattle.std.specs.Prelude.{◌≡◌};
ghost use Rattle.aat_text.specs.LineEnds.{end_between, is_mark, role_at_end, role_at_start, role_of, role_of_class};

use ucd_breaks::LineBreak;

/// What a character does at the end of a line, by its class in Unicode's `Line_Break`.
#[derive(Clone, Copy, PartialEq, Eq, Debug)]
pub(crate) enum LineRole {
    /// BK and NL.
    Break,
    /// CR.
    CarriageReturn,
    /// LF.
    LineFeed,
    /// SP.
    Space,
    /// ZW.
    ZeroWidthSpace,
    /// WJ and GL.
    Joiner,
    /// CM and ZWJ.
    Mark,
    /// CL, CP, EX, SY and IS.
    Closing,
    /// NS, CJ and IN.
    Nonstarter,
    /// QU.
    Quotation,
    /// BA and HH.
    BreakAfter,
    /// HY.
    Hyphen,
    /// OP.
    Opening,
    /// NU.
    Number,
    /// AL and HL.
    Letter,
    /// ID, EB, EM, H2 and H3.
    Ideograph,
    /// The other classes.
    Other,
}

/// Whether a line may end at a place.
#[derive(Clone, Copy, PartialEq, Eq, Debug)]
pub(crate) enum Ending {
    /// It may not.
    Never,
    /// It may.
    Allowed,
    /// It has to.
    Forced,
}

impl LineRole {
    /// The role of a class.
    fn of_class(class: LineBreak) -> LineRole
        ensures { result ≡ role_of_class class }
    {
        match class {
            LineBreak::MandatoryBreak | LineBreak::NextLine => LineRole::Break,
            LineBreak::CarriageReturn => LineRole::CarriageReturn,
            LineBreak::LineFeed => LineRole::LineFeed,
            LineBreak::Space => LineRole::Space,
            LineBreak::ZWSpace => LineRole::ZeroWidthSpace,
            LineBreak::WordJoiner | LineBreak::Glue => LineRole::Joiner,
            LineBreak::CombiningMark | LineBreak::Zwj => LineRole::Mark,
            LineBreak::ClosePunctuation
            | LineBreak::CloseParenthesis
            | LineBreak::Exclamation
            | LineBreak::BreakSymbols
            | LineBreak::InfixNumeric => LineRole::Closing,
            LineBreak::Nonstarter
            | LineBreak::ConditionalJapaneseStarter
            | LineBreak::Inseparable => LineRole::Nonstarter,
            LineBreak::Quotation => LineRole::Quotation,
            LineBreak::BreakAfter | LineBreak::UnambiguousHyphen => LineRole::BreakAfter,
            LineBreak::Hyphen => LineRole::Hyphen,
            LineBreak::OpenPunctuation => LineRole::Opening,
            LineBreak::Numeric => LineRole::Number,
            LineBreak::Alphabetic | LineBreak::HebrewLetter => LineRole::Letter,
            LineBreak::Ideographic
            | LineBreak::EBase
            | LineBreak::EModifier
            | LineBreak::H2
            | LineBreak::H3 => LineRole::Ideograph,
            _ => LineRole::Other,
        }
    }

    /// The role of a character.
    fn of(character: char) -> LineRole
        ensures { result ≡ role_of character }
    {
        LineRole::of_class(LineBreak::for_char(character))
    }

    /// Whether it is that of a mark.
    fn is_mark(self) -> bool
        ensures { result ≡ is_mark self }
    {
        matches!(self, LineRole::Mark)
    }

    /// The role of a cluster for what stands before it.
    pub(crate) fn at_start(piece: &str) -> LineRole
        ensures { result ≡ role_at_start piece.now }
    {
        match piece.chars().next() {
            Some(character) => LineRole::of(character),
            None => LineRole::Letter,
        }
    }

    /// The role of a cluster for what follows it: that of its last character that is no mark.
    pub(crate) fn at_end(piece: &str) -> LineRole
        ensures { result ≡ role_at_end piece.now }
    {
        let mut last = LineRole::Letter;
        for character in piece.chars() {
            let role = LineRole::of(character);
            if !role.is_mark() {
                last = role;
            }
        }
        last
    }
}

/// Whether a line may end between two clusters.
pub(crate) fn end_between(before: LineRole, after: LineRole) -> Ending
    ensures { result ≡ end_between before after }
{
    use LineRole::*;
    match (before, after) {
        (CarriageReturn, LineFeed) => Ending::Never,
        (Break | CarriageReturn | LineFeed, _) => Ending::Forced,
        (_, Break | CarriageReturn | LineFeed | Space | ZeroWidthSpace) => Ending::Never,
        (ZeroWidthSpace, _) => Ending::Allowed,
        (_, Closing | Joiner | Mark) | (Joiner, _) => Ending::Never,
        (Space, _) => Ending::Allowed,
        (_, Nonstarter | Quotation | BreakAfter | Hyphen) => Ending::Never,
        (BreakAfter, _) => Ending::Allowed,
        (Hyphen, Number) => Ending::Never,
        (Hyphen, _) => Ending::Allowed,
        (Ideograph, Ideograph | Letter | Number | Opening) => Ending::Allowed,
        (Letter | Number | Closing | Nonstarter, Ideograph) => Ending::Allowed,
        _ => Ending::Never,
    }
}
