//! Laws of the runs of kerning as theorems. These calls do nothing: what is proved is their contracts.

ghost use Rattle.std.specs.Prelude.{ℕ, Bool};
ghost use Rattle.aat_machine_tables.specs.Table.{TableValue};
ghost use Rattle.aat_machine_tables.specs.declared.state_table.GenericStateEntry.{GenericStateEntry};
ghost use Rattle.aat_kerning_machines.specs.KerningLaws.{PaysForStaying};
ghost use Rattle.aat_kerning_machines.specs.KerningMachine.{driver_from, kerning_machine_of, kerning_turn};
ghost use Rattle.aat_run.specs.Laws.{RunsEnd};

use crate::state_table_driver::StateTableDriver;
use aat_machine_tables::Acting;

/// Each run of a driver ends by itself, within the turns that it is given, and more turns would change nothing. A turn
/// that goes on and leaves the cursor where it was took an operation from a budget above 0, which was above 0 behind
/// that payment too where the machine pays first.
pub fn kerning_runs_end<Table, E: Acting, D: StateTableDriver<Table, E>>()
    ensures ends { (pays_first : Bool) (state_table : TableValue (GenericStateEntry E))
        (table : Table) (is_cross : Bool) (kern_mask tuple_count : ℕ) (fresh : D) →
        let driver = driver_from D.actionable (D.act table is_cross kern_mask tuple_count) fresh in
        RunsEnd (kerning_turn (kerning_machine_of pays_first state_table driver)) D.fits }
    ensures staying { (pays_first : Bool) (state_table : TableValue (GenericStateEntry E))
        (table : Table) (is_cross : Bool) (kern_mask tuple_count : ℕ) (fresh : D) →
        let driver = driver_from D.actionable (D.act table is_cross kern_mask tuple_count) fresh in
        PaysForStaying (kerning_machine_of pays_first state_table driver) D.fits }
{}
