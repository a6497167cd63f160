//! The question of a subtable.
ghost use Rattle.std.specs.Prelude.{◌≡◌, ℕ, IfOk, None, Some};
ghost use Rattle.aat_cuts.specs.Kinds.{IsVerdictOn};

use crate::held::find_in_ligature;
use crate::settled::{find_in_contextual, find_in_insertion, find_in_rearrangement};
use crate::unsettled::Unsettled;
use aat_machine_tables::SubtableKind;
use std::alloc::{AllocError, Global};

/// Finds why a subtable is not settled, if it is not.
///
/// `None` says that it is settled. A contextual machine and a rearrangement are settled where each reached state has
/// an entry for each class, and where states can be labelled with registers, all set there since state 0, so that an
/// entry uses only those of its state or, of a rearrangement, that it sets itself (at the end of the text a current
/// lookup uses the mark), and none is taken for that of state 0 for its class where the two set one differently that
/// the next state has. A settled rearrangement also moves nothing at the end of the text by an entry that ends the
/// span. A ligature machine is settled where each such entry is there, and where states can be labelled with up to 64
/// components, all held there since state 0, so that none takes more than are held behind its own push, and none is
/// taken for that of state 0 where only one of the two pushes and the next state has components. An insertion machine
/// needs its entries alone. Noncontextual subtables have no machine, and are always settled.
///
/// A reason says that it is not settled, and shows what [`Unsettled`] says of it.
///
/// For each subtable with a machine it walks 65,536 states and the entries of its table. A state has a label of 0 or 1
/// for each thing that is asked, and for the components of ligatures one of up to 65. For each of these an entry is
/// looked at once at the start, and once more for each rise of the label of the state that it looks at. Fails where
/// memory is wanting for labels and links of 65,536 states, or for lists of classes, entries and states whose labels
/// rose.
///
/// Apple's TrueType Reference Manual, "The 'morx' table", and "Font Tables", section on state tables.
pub fn find_unsettled(alloc: Global, kind: &SubtableKind) -> Result<Option<Unsettled>, AllocError>
    ensures { IfOk result (IsVerdictOn kind.now) }
{
    match kind {
        SubtableKind::Rearrangement(table) => find_in_rearrangement(alloc, table),
        SubtableKind::Contextual(subtable) => {
            find_in_contextual(alloc, &subtable.state, &subtable.lookups)
        }
        SubtableKind::Ligature(subtable) => {
            find_in_ligature(alloc, &subtable.state, &subtable.ligature_actions)
        }
        SubtableKind::NonContextual(_) => Ok(None),
        SubtableKind::Insertion(subtable) => find_in_insertion(alloc, &subtable.state),
    }
}
