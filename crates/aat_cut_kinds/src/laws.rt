//! Laws of the definitions as theorems. These calls do nothing: what is proved is their contracts.

ghost use Rattle.std.specs.Prelude.{ℕ, Bool};
ghost use Rattle.aat_buffer.specs.Buffer.{Buffer};
ghost use Rattle.aat_cut_kinds.specs.Cuts.{AnyBackwardInsertionLeavesParts, AnyInsertionLeavesParts, AnyInsertionLeavesPartsAtFall, BackwardInsertionLeavesParts, ContextualLeavesParts, InsertionLeavesParts, InsertionLeavesPartsAtFall, NoncontextualLeavesParts, ReversedLeavesParts};
ghost use Rattle.aat_cut_kinds.specs.SettledCuts.{AnySettledBackwardInsertionLeavesParts, AnySettledInsertionLeavesParts, AnySettledInsertionLeavesPartsAtFall, SettledBackwardInsertionLeavesParts, SettledContextualLeavesParts, SettledInsertionLeavesParts, SettledInsertionLeavesPartsAtFall};
ghost use Rattle.aat_cut_kinds.specs.Cut.{CutLabels, IsLabelledCut, LeavesItsParts, MeetsCutLaws};
ghost use Rattle.aat_machine_tables.specs.Table.{TableValue};
ghost use Rattle.aat_machine_tables.specs.declared.state_table.GenericStateEntry.{GenericStateEntry};
ghost use Rattle.aat_run.specs.Context.{machine_with};
ghost use Rattle.aat_run.specs.Driven.{context_from};

use aat_machine_tables::Acting;
use aat_run::driver_context_t;

/// Where a machine meets the laws of a cut by labels of its states, which admit the line and its two parts, and its run
/// from fresh registers is on at a place inside the line, comes to the end of the line, and leaves the cut there without
/// a mark by the labels, and some of the budget, the line that the run leaves is that which its front part leaves, and behind it that
/// which its back part leaves, and no less of the budget is left of either part.
pub fn unmarked_cut_leaves_parts<T: Acting, C: driver_context_t<T>>()
    ensures { (on : ℕ → Bool) (table : TableValue (GenericStateEntry T)) (r : C) (labels : CutLabels C)
        (q : ℕ) (b : Buffer) → C.is_fresh r
        → MeetsCutLaws (machine_with on table C.advances C.actionable C.act) C.fits r labels
        → IsLabelledCut on table (context_from C.stays_in_place C.advances C.actionable C.act r) labels q b
        → LeavesItsParts on table (context_from C.stays_in_place C.advances C.actionable C.act r) q b }
{}

/// Where a settled contextual subtable is on at a start of a cluster, and leaves, of the two glyphs there, the one with
/// the greater cluster without the mark, and some of the budget, it leaves the glyphs that it leaves of the line up to
/// there, and behind them those that it leaves of the rest, with their masks, and of neither part less of the budget.
pub fn unmarked_contextual_cut()
    ensures { ContextualLeavesParts }
{}

/// A noncontextual subtable takes each glyph by itself, so that a line can be cut anywhere.
pub fn noncontextual_cut()
    ensures { NoncontextualLeavesParts }
{}

/// Where all clusters before a place inside the line are below some c, none from there on is, and a complete insertion
/// subtable is on there, and leaves the first glyph not below c unmarked, and some of the budget, it leaves what it
/// leaves of the line up to there, then of the rest, with masks, and of neither part less of the budget. An entry that
/// puts no glyphs in has to name no run.
pub fn unmarked_insertion_cut()
    ensures { InsertionLeavesParts }
{}

/// The same where none before is below c and all from there on are: the last glyph not below c is left unmarked.
pub fn unmarked_falling_insertion_cut()
    ensures { InsertionLeavesPartsAtFall }
{}

/// A run on the line in the opposite order leaves the parts of a line where the run itself leaves those of the line
/// turned round, at the same place from its end.
pub fn reversed_cut()
    ensures { ReversedLeavesParts }
{}

/// Where all clusters before a place inside the line are below some c, none from there on is, and a complete insertion
/// subtable takes the line from its end, and is on at the glyph before the place, and leaves the first glyph not below
/// c unmarked, and some of the budget, it leaves what it leaves of the line up to there, then of the rest, with masks,
/// and of neither part less of the budget. An entry that puts no glyphs in has to name no run.
pub fn unmarked_backward_insertion_cut()
    ensures { BackwardInsertionLeavesParts }
{}

/// The same as `unmarked_insertion_cut` of any complete insertion subtable, but for the masks: these may be others
/// where an entry that puts no glyphs in names a run.
pub fn any_unmarked_insertion_cut()
    ensures { AnyInsertionLeavesParts }
{}

/// The same where none before is below c and all from there on are: the last glyph not below c is left unmarked.
pub fn any_unmarked_falling_insertion_cut()
    ensures { AnyInsertionLeavesPartsAtFall }
{}

/// The same as `unmarked_backward_insertion_cut` of any complete insertion subtable, but for the masks.
pub fn any_unmarked_backward_insertion_cut()
    ensures { AnyBackwardInsertionLeavesParts }
{}

/// Where a contextual subtable is settled as `aat_cuts` says it, and is on at a start of a cluster, and its run leaves,
/// of the two glyphs there, the one with the greater cluster without the mark, and some of the budget, the run leaves the
/// glyphs that it leaves of the line up to there, and behind them those that it leaves of the rest, with their masks, and
/// of neither part less of the budget.
pub fn settled_contextual_cut()
    ensures { SettledContextualLeavesParts }
{}

/// Where all clusters before a place inside the line are below some c, none from there on is, and an insertion
/// subtable that is settled as `aat_cuts` says it is on there, and its run leaves the first glyph not below c
/// unmarked, and some of the budget, the run leaves what it leaves of the line up to there, then of the rest, with
/// masks, and of neither part less of the budget. An entry that puts no glyphs in has to name no run.
pub fn settled_insertion_cut()
    ensures { SettledInsertionLeavesParts }
{}

/// The same where none before is below c and all from there on are: the last glyph not below c is left unmarked.
pub fn settled_falling_insertion_cut()
    ensures { SettledInsertionLeavesPartsAtFall }
{}

/// The same as `settled_insertion_cut` where the subtable takes the line from its end, and is on at the glyph before
/// the place: it need not be on at the one behind it.
pub fn settled_backward_insertion_cut()
    ensures { SettledBackwardInsertionLeavesParts }
{}

/// The same as `settled_insertion_cut` of any settled insertion subtable, but for the masks: these may be others where
/// an entry that puts no glyphs in names a run.
pub fn any_settled_insertion_cut()
    ensures { AnySettledInsertionLeavesParts }
{}

/// The same where none before is below c and all from there on are: the last glyph not below c is left unmarked.
pub fn any_settled_falling_insertion_cut()
    ensures { AnySettledInsertionLeavesPartsAtFall }
{}

/// The same as `settled_backward_insertion_cut` of any settled insertion subtable, but for the masks.
pub fn any_settled_backward_insertion_cut()
    ensures { AnySettledBackwardInsertionLeavesParts }
{}
