//! Where a line of a text may end.
ghost use Rattle.std.specs.Prelude.{◌≡◌, ◌≤◌, ◌^◌, ◌↔◌, length, IfOk, IsErrOf, option_and_then};
ghost use Rattle.aat_text.specs.LineEnds.{end_between, line_end, line_ends, role_at_start};

use crate::error::TextError;
use crate::glyphs::LONGEST_TEXT;
use crate::role::{Ending, LineRole, end_between};
use crate::unit::ClusterUnit;
use std::alloc::Allocator;
use unicode_segmentation::UnicodeSegmentation;

/// A place of a text where a line may end.
#[derive(Clone, Copy, PartialEq, Eq, Debug)]
pub struct LineEnd {
    /// The number of bytes or characters of the text before it. The next line begins there.
    pub place: u32,
    /// Whether the line has to end there.
    pub is_forced: bool,
}

/// The end of a line at a place, if there may be one.
fn line_end(place: u32, ending: Ending) -> Option<LineEnd>
    ensures { result ≡ line_end place ending }
{
    match ending {
        Ending::Never => None,
        Ending::Allowed => Some(LineEnd {
            place,
            is_forced: false,
        }),
        Ending::Forced => Some(LineEnd {
            place,
            is_forced: true,
        }),
    }
}

/// The end of a line before a cluster at a place, if there is a cluster before it.
fn end_before(before: Option<LineRole>, place: u32, piece: &str) -> Option<LineEnd>
    ensures { result ≡ option_and_then (λ role. line_end place (end_between role (role_at_start piece.now))) before }
{
    let ending = end_between(before?, LineRole::at_start(piece));
    line_end(place, ending)
}

/// The places of a text where a line may end, in the order of the text: the number of bytes or of characters before
/// them, as `unit` says. Each is between two extended grapheme clusters, so that none is 0 or the end of the text.
///
/// The classes of `Line_Break` on both sides decide, as Unicode has them: before the place that of the last character
/// of its cluster that is no mark (CM or ZWJ), or AL where there is none, and behind it that of the first character.
/// The first of these rules that is for the two holds:
///
/// - A line has to end behind BK, NL, LF, and CR, but not between CR and LF.
/// - It does not end before these and SP and ZW.
/// - It may end behind ZW.
/// - It does not end before CM, ZWJ, CL, CP, EX, SY and IS, also behind spaces, nor before or behind WJ and GL.
/// - It may end behind SP.
/// - It does not end before NS, CJ, IN, QU, BA, HH and HY.
/// - It may end behind BA, HH and HY, but not between HY and NU.
/// - It may end between two of ID, EB, EM, H2 and H3, behind one of these before AL, HL, NU and OP, and before one of
///   these behind AL, HL, NU, CL, CP, EX, SY, IS, NS, CJ and IN.
/// - Elsewhere it does not end.
///
/// Other rules of Unicode's UAX 14 are not done: those that look past spaces to an opening bracket, a quotation mark or
/// a dash, the others of quotation marks, of hyphens before a word and of numbers, and those of regional indicators,
/// of parts of Hangul syllables and of aksaras. Nor are LB8a and LB21a: a line may end behind U+200D as behind the
/// character before it, and behind a hyphen that follows a Hebrew letter. Words of Southeast Asia are not found.
///
/// Refused as 1 `TooLong` exactly where the text has more than 4,294,967,295 bytes, and else as 2 `OutOfMemory` where
/// memory is wanting.
pub fn line_ends<A: Allocator>(
    alloc: A,
    unit: ClusterUnit,
    text: &str,
) -> Result<Vec<LineEnd, A>, TextError>
    ensures ok { IfOk result (λ ends. ends.items ≡ line_ends unit text.now) }
    ensures too_long { IsErrOf result TextError.TooLong ↔ (2 ^ 32 ≤ length text.now) }
{
    if text.len() > LONGEST_TEXT {
        return Err(TextError::TooLong);
    }
    let mut ends = Vec::new(alloc);
    let mut place = 0;
    let mut before = None;
    for piece in text.graphemes(true) {
        if let Some(end) = end_before(before, place as u32, piece) {
            ends.push(end)?;
        }
        before = Some(LineRole::at_end(piece));
        place += unit.count_of(piece);
    }
    Ok(ends)
}
