//! Laws of the definitions as theorems. These calls do nothing: what is proved is their contracts.

ghost use Rattle.std.specs.Prelude.{ℕ, Bool, length};
ghost use Rattle.aat_buffer.specs.Buffer.{Buffer};
ghost use Rattle.aat_machine_tables.specs.Table.{TableValue};
ghost use Rattle.aat_machine_tables.specs.declared.state_table.GenericStateEntry.{GenericStateEntry};
ghost use Rattle.aat_run.specs.Budget.{FloorIsUnseen};
ghost use Rattle.aat_run.specs.Context.{machine_with};
ghost use Rattle.aat_run.specs.Driven.{context_from, machine_run};
ghost use Rattle.aat_run.specs.Laws.{HasOrderOf, MeetsLaws, RunsEnd};
ghost use Rattle.aat_run.specs.Machine.{turn};

use crate::driver_context::driver_context_t;
use aat_machine_tables::Acting;

/// The least budget that a buffer holds changes no test and no payment of a run.
#[tactic(auto, using(crate::proofs::FloorUnseen::floor_is_unseen))]
pub fn floor_is_unseen()
    ensures { FloorIsUnseen }
{}

/// Each context meets the eleven laws of `driver_context_t`, as one word.
pub fn contexts_meet_laws<T: Acting, C: driver_context_t<T>>()
    ensures { MeetsLaws C.act C.fits C.is_fresh C.stays_in_place C.keeps_length }
{}

/// Each run of a context ends by itself, within the turns that it is given, and more turns would change nothing.
pub fn runs_end<T: Acting, C: driver_context_t<T>>()
    ensures { (on : ℕ → Bool) (table : TableValue (GenericStateEntry T))
        → RunsEnd (turn (machine_with on table C.advances C.actionable C.act)) C.fits }
{}

/// A run of a context keeps an order of the clusters along the line, unless clusters stay apart, and makes no new
/// cluster.
pub fn runs_keep_order<T: Acting, C: driver_context_t<T>>()
    ensures { (on : ℕ → Bool) (table : TableValue (GenericStateEntry T)) (r : C) (b : Buffer)
        → C.fits r 0 (length b.line)
        → HasOrderOf b
        (machine_run on table (context_from C.stays_in_place C.advances C.actionable C.act r) b).buffer }
{}
