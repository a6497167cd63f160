//! The entries of machines.

use crate::known::Known;
use crate::values::{Members, Told, Word, at, bits, members};
use aat_machine_tables::entry_bits::{
    DONT_ADVANCE, NO_INDEX, anchor, contextual, insertion, ligature, rearrangement, stack,
};
use aat_machine_tables::{
    Acting, ContextualEntryData, EntryData, GenericStateEntry, InsertionEntryData, KernEntryData,
};
use anyhow::Result;
use serde_json::Value;

/// The flags of all kinds of machines.
const FLAGS: [Word; 11] = [
    ("dont_advance", DONT_ADVANCE),
    ("mark_first", rearrangement::MARK_FIRST),
    ("mark_last", rearrangement::MARK_LAST),
    ("set_mark", contextual::SET_MARK),
    ("set_component", ligature::SET_COMPONENT),
    ("perform_action", ligature::PERFORM_ACTION),
    ("current_insert_before", insertion::CURRENT_INSERT_BEFORE),
    ("marked_insert_before", insertion::MARKED_INSERT_BEFORE),
    ("push", stack::PUSH),
    ("reset", stack::RESET),
    ("mark", anchor::MARK),
];

/// What an entry names: lookups, glyphs, actions or values by their places.
#[derive(Clone, Copy)]
pub(crate) struct Named {
    mark: u16,
    current: u16,
    action: Option<u16>,
}

/// What an entry holds beside a state and flags.
pub(crate) trait Extra: Acting + Drop {
    /// What an entry holds that names these.
    fn extra(named: Named) -> Self;
}

impl Extra for () {
    fn extra(_named: Named) {}
}

impl Extra for ContextualEntryData {
    fn extra(named: Named) -> ContextualEntryData {
        ContextualEntryData {
            mark_index: named.mark,
            current_index: named.current,
        }
    }
}

impl Extra for u16 {
    fn extra(named: Named) -> u16 {
        named.action.unwrap_or(0)
    }
}

impl Extra for InsertionEntryData {
    fn extra(named: Named) -> InsertionEntryData {
        InsertionEntryData {
            current_insert_index: named.current,
            marked_insert_index: named.mark,
        }
    }
}

impl Extra for EntryData {
    fn extra(named: Named) -> EntryData {
        EntryData {
            action_index: named.action.unwrap_or(NO_INDEX),
        }
    }
}

impl Extra for KernEntryData {
    fn extra(named: Named) -> KernEntryData {
        KernEntryData {
            value_index: named.action.unwrap_or(NO_INDEX),
        }
    }
}

/// The entry that goes to state 0 and does nothing.
pub(crate) fn nothing<T: Extra>() -> GenericStateEntry<T> {
    let named = Named {
        mark: NO_INDEX,
        current: NO_INDEX,
        action: None,
    };
    GenericStateEntry {
        new_state: 0,
        flags: 0,
        extra: T::extra(named),
    }
}

/// The flags of an entry, with the numbers that stand among them.
fn flags(known: &mut Known, members: &Members) -> Result<u16> {
    let verb: u16 = at(known, members, "verb", 0)?;
    let current: u16 = at(known, members, "current_count", 0)?;
    let marked: u16 = at(known, members, "mark_count", 0)?;
    let flags = bits(members, "flags", &FLAGS, 0)?;
    Ok(flags | verb.min(15) | current.min(31) * 32 | marked.min(31))
}

impl<T: Extra> Told for GenericStateEntry<T> {
    fn of(known: &mut Known, value: &Value) -> Result<GenericStateEntry<T>> {
        let keys = "next flags verb current current_count mark mark_count action";
        let members = members(value, keys)?;
        let action = match members.get("action") {
            Some(_) => Some(at(known, members, "action", 0)?),
            None => None,
        };
        let named = Named {
            mark: at(known, members, "mark", NO_INDEX)?,
            current: at(known, members, "current", NO_INDEX)?,
            action,
        };
        Ok(GenericStateEntry {
            new_state: at(known, members, "next", 0)?,
            flags: flags(known, members)?,
            extra: T::extra(named),
        })
    }
}
