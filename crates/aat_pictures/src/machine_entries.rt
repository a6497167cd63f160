//! What the entries of machines do, in words.

use aat_machine_tables::entry_bits::{
    DONT_ADVANCE, NO_INDEX, contextual, insertion, ligature, rearrangement,
};
use aat_machine_tables::{
    Acting, ContextualEntryData, GenericStateEntry, InsertionEntryData, SubtableKind,
};
use std::alloc::AllocError;

/// What an entry does: its flags, and what it names for the marked glyph and for the current one, 0xFFFF for nothing.
pub(crate) type Deeds = (u16, u16, u16);

/// The deeds of an entry that does nothing.
pub(crate) const NOTHING: Deeds = (0, NO_INDEX, NO_INDEX);

/// The bit by which a glyph is marked first, held as a component, or marked.
const HOLDS: u16 = contextual::SET_MARK;

/// What the entries of a kind of machine hold, of which a picture tells what they do.
pub(crate) trait DrawnEntry: Acting {
    /// What an entry does. Flags and indexes that do nothing are left out.
    fn deeds(entry: &GenericStateEntry<Self>) -> Deeds;
}

impl DrawnEntry for () {
    fn deeds(entry: &GenericStateEntry<()>) -> Deeds {
        let told = HOLDS | rearrangement::MARK_LAST | rearrangement::VERB | DONT_ADVANCE;
        (entry.flags & told, NO_INDEX, NO_INDEX)
    }
}

impl DrawnEntry for ContextualEntryData {
    fn deeds(entry: &GenericStateEntry<ContextualEntryData>) -> Deeds {
        let flags = entry.flags & (HOLDS | DONT_ADVANCE);
        (flags, entry.extra.mark_index, entry.extra.current_index)
    }
}

impl DrawnEntry for u16 {
    fn deeds(entry: &GenericStateEntry<u16>) -> Deeds {
        let flags = entry.flags & (HOLDS | DONT_ADVANCE);
        if entry.flags & ligature::PERFORM_ACTION == 0 {
            return (flags, NO_INDEX, NO_INDEX);
        }
        (flags | ligature::PERFORM_ACTION, NO_INDEX, entry.extra)
    }
}

impl DrawnEntry for InsertionEntryData {
    fn deeds(entry: &GenericStateEntry<InsertionEntryData>) -> Deeds {
        let (mut marked, mut current) = (
            entry.extra.marked_insert_index,
            entry.extra.current_insert_index,
        );
        let mut flags = entry.flags & (HOLDS | DONT_ADVANCE);
        if marked == NO_INDEX || entry.flags & insertion::MARKED_INSERT_COUNT == 0 {
            marked = NO_INDEX;
        } else {
            let told = insertion::MARKED_INSERT_COUNT | insertion::MARKED_INSERT_BEFORE;
            flags |= entry.flags & told;
        }
        if current == NO_INDEX || entry.flags & insertion::CURRENT_INSERT_COUNT == 0 {
            current = NO_INDEX;
        } else {
            let told = insertion::CURRENT_INSERT_COUNT | insertion::CURRENT_INSERT_BEFORE;
            flags |= entry.flags & told;
        }
        (flags, marked, current)
    }
}

/// The words for insertions: the glyphs behind the first one's place, and where they go.
fn add_insertions(text: &mut String, (flags, marked, current): Deeds) -> Result<(), AllocError> {
    if marked != NO_INDEX {
        let count = flags & insertion::MARKED_INSERT_COUNT;
        let side = if flags & insertion::MARKED_INSERT_BEFORE == 0 {
            "behind"
        } else {
            "before"
        };
        write!(text, "inserts {count} at {marked} {side} marked, ")?;
    }
    if current != NO_INDEX {
        let count = (flags & insertion::CURRENT_INSERT_COUNT) >> 5;
        let side = if flags & insertion::CURRENT_INSERT_BEFORE == 0 {
            "behind"
        } else {
            "before"
        };
        write!(text, "inserts {count} at {current} {side} current, ")?;
    }
    Ok(())
}

/// Adds what entries of a kind of subtable do, each deed with a comma and a space behind it.
///
/// Fails where the text gets no memory. A part may be added then.
pub(crate) fn add_deeds(
    text: &mut String,
    kind: &SubtableKind,
    (flags, marked, current): Deeds,
) -> Result<(), AllocError> {
    if flags & HOLDS != 0 {
        text.push_str(match kind {
            SubtableKind::Rearrangement(_) => "marks first, ",
            SubtableKind::Ligature(_) => "push, ",
            _ => "marks, ",
        })?;
    }
    match kind {
        SubtableKind::Rearrangement(_) => {
            if flags & rearrangement::MARK_LAST != 0 {
                text.push_str("marks last, ")?;
            }
            if flags & rearrangement::VERB != 0 {
                write!(text, "verb {}, ", flags & rearrangement::VERB)?;
            }
        }
        SubtableKind::Contextual(_) => {
            if marked != NO_INDEX {
                write!(text, "replaces marked by lookup {marked}, ")?;
            }
            if current != NO_INDEX {
                let before = if marked == NO_INDEX { "replaces " } else { "" };
                write!(text, "{before}current by lookup {current}, ")?;
            }
        }
        SubtableKind::Ligature(_) => {
            if flags & ligature::PERFORM_ACTION != 0 {
                write!(text, "action {current}, ")?;
            }
        }
        _ => add_insertions(text, (flags, marked, current))?,
    }
    if flags & DONT_ADVANCE != 0 {
        text.push_str("stays, ")?;
    }
    Ok(())
}
