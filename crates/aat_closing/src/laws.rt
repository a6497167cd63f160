//! Laws of the definitions as theorems. These calls do nothing: what is proved is their contracts.

ghost use Rattle.aat_closing.specs.ClosingCuts.{KindsLeavePartsAtFall, KindsLeavePartsAtRise};
ghost use Rattle.aat_closing.specs.CutsAbout.{ChainsLeaveLimitedPartsAbout, ChainsLeavePartsAbout, KindsLeavePartsAboutFall, KindsLeavePartsAboutRise, ListsLeavePartsAbout};
ghost use Rattle.aat_closing.specs.LimitedParts.{ChainsTellOfLimitedPartsAbout};
ghost use Rattle.aat_closing.specs.Unflagged.{ChainsFlagAlone, ClosingFlagsAlone, ListsFlagAlone};

/// Whatever its table, with a slot for components: where all clusters before a place inside the line are below some c,
/// none from there on is, the clusters never fall along the line and merge at its level, the subtable is on at the place,
/// and its closing run comes to the end of the line, and leaves c open and some of the budget, this run leaves what it
/// leaves of the line up to there, and behind it what it leaves of the rest, with their masks, and of neither part less of
/// the budget; and both of these runs come to their ends.
pub fn open_rise_leaves_parts()
    ensures { KindsLeavePartsAtRise }
{}

/// The same where no cluster before the place is below c, all from there on are, and the clusters never rise along the
/// line, unless the subtable is one of rearrangement.
pub fn open_fall_leaves_parts()
    ensures { KindsLeavePartsAtFall }
{}

/// The same as `open_rise_leaves_parts` at a rise to c of a subtable that is on at each cluster from some `low` through c,
/// or off at each of them, whatever it is elsewhere, where its closing run leaves a glyph with a cluster from `low` on and
/// below c.
pub fn alike_rise_leaves_parts()
    ensures { KindsLeavePartsAboutRise }
{}

/// The same at a fall below c, unless the subtable is one of rearrangement.
pub fn alike_fall_leaves_parts()
    ensures { KindsLeavePartsAboutFall }
{}

/// With a slot for components, the closing runs of subtables in a row, each in the order of its coverage, leave the parts of
/// a line as in `open_rise_leaves_parts`, without positions, the cursor at its front, where all come to their ends, the
/// last leaves c open, some of the budget, and a glyph with a cluster from some `low` on and below c, each is on at each
/// cluster from `low` through c, or off at each of them, and none of rearrangement runs from the other end of the line.
/// Those of the parts come to their ends too.
pub fn subtables_leave_parts()
    ensures { ListsLeavePartsAbout }
{}

/// With a slot for components, the closing runs of all chains over a line of text, as in `open_rise_leaves_parts`, of a
/// direction, the cursor at its front, no marks against joining asked for: where all come to their ends, and leave c open,
/// some of the budget, and a glyph with a cluster from some `low` on and below c, they leave its parts. Each subtable is
/// left out of texts of the direction, or substitutes each glyph by itself, or is on at each cluster from `low` through c,
/// or off at each of them, whatever it is elsewhere; none of rearrangement runs from the other end of the line.
pub fn chains_leave_parts()
    ensures { ChainsLeavePartsAbout }
{}

/// The same of parts with budgets and greatest lengths of their own, where the runs over the whole take less of its budget
/// than either part has: the line is that of the one part, and behind it that of the other, with their masks.
pub fn chains_leave_limited_parts()
    ensures { ChainsLeaveLimitedPartsAbout }
{}

/// Both of these parts are told of then: the runs over each come to their ends, and take no more operations than the runs
/// over the whole.
pub fn chains_tell_of_limited_parts()
    ensures { ChainsTellOfLimitedPartsAbout }
{}

/// The closing run of a subtable leaves what its run leaves, but for the flags of the glyphs, in the same number of turns,
/// whatever flags stood before.
pub fn closing_flags_alone()
    ensures { ClosingFlagsAlone }
{}

/// The same of subtables one after another, each in the order of its coverage.
pub fn closing_lists_flag_alone()
    ensures { ListsFlagAlone }
{}

/// The same of all chains: their closing runs leave what substitution leaves, but for those flags.
pub fn closing_chains_flag_alone()
    ensures { ChainsFlagAlone }
{}
