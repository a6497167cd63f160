//! The bits of entries and of actions, and the states and classes that the manual names, by the names that the crate
//! gives them: for who builds a table.

/// Every kind of machine: the cursor stays at the glyph, while the budget of operations lasts.
pub const DONT_ADVANCE: u16 = 0x4000;

/// No index, of an entry that names none. The entries of ligatures always have one: there `PERFORM_ACTION` tells
/// whether it counts.
pub const NO_INDEX: u16 = 0xFFFF;

/// The states that every table has.
pub mod state {
    /// The machine is in it at the start of the text.
    pub const START_OF_TEXT: u16 = 0;
    /// The start of a line. No run here begins in it.
    pub const START_OF_LINE: u16 = 1;
}

/// The classes that every table has.
pub mod class {
    /// The end of the text, behind its last glyph. A glyph has it only where a table lists it.
    pub const END_OF_TEXT: u16 = 0;
    /// A glyph that has no other class.
    pub const OUT_OF_BOUNDS: u16 = 1;
    /// The deleted glyph, 0xFFFF, whatever a table lists for it.
    pub const DELETED_GLYPH: u16 = 2;
    /// The end of a line. A glyph has it only where a table lists it.
    pub const END_OF_LINE: u16 = 3;
}

/// Entries of rearrangement.
pub mod rearrangement {
    /// The span begins at the cursor.
    pub const MARK_FIRST: u16 = 0x8000;
    /// The span ends behind the glyph at the cursor, or with the text.
    pub const MARK_LAST: u16 = 0x2000;
    /// The verb, from 0 to 15: which glyphs at the two ends of the span change places, and how. 0 moves none.
    pub const VERB: u16 = 0x000F;
}

/// Entries of contextual substitution.
pub mod contextual {
    /// The cursor is marked, at the end of the action. A missing lookup ends that before.
    pub const SET_MARK: u16 = 0x8000;
}

/// Entries of ligatures, and the actions that they name.
pub mod ligature {
    /// The glyph at the cursor is held as a component.
    pub const SET_COMPONENT: u16 = 0x8000;
    /// The actions from the entry's index on are done, after the glyph is held.
    pub const PERFORM_ACTION: u16 = 0x2000;
    /// The last action of its list. It stores a ligature too.
    pub const LIG_ACTION_LAST: u32 = 0x8000_0000;
    /// The action stores a ligature.
    pub const LIG_ACTION_STORE: u32 = 0x4000_0000;
    /// What is added to the component's glyph id, as a signed number of 30 bits, for its place among the numbers that
    /// are summed up.
    pub const LIG_ACTION_OFFSET: u32 = 0x3FFF_FFFF;
}

/// Entries of insertion.
pub mod insertion {
    /// The cursor is marked, between the insertion at the mark and that at the cursor. A budget that is used up at the
    /// mark ends the action before.
    pub const SET_MARK: u16 = 0x8000;
    /// The glyphs at the cursor go in before the glyph there, and without the bit behind it. At the end of the text
    /// they go in before the end in both cases.
    pub const CURRENT_INSERT_BEFORE: u16 = 0x0800;
    /// The glyphs at the mark go in before the glyph there, and without the bit behind it.
    pub const MARKED_INSERT_BEFORE: u16 = 0x0400;
    /// How many glyphs go in at the cursor, as a number from bit 5 on.
    pub const CURRENT_INSERT_COUNT: u16 = 0x03E0;
    /// How many glyphs go in at the mark.
    pub const MARKED_INSERT_COUNT: u16 = 0x001F;
}

/// Entries of the stack machines of `kerx` and `kern`.
pub mod stack {
    /// The cursor is pushed. A push onto a stack of eight places empties it instead.
    pub const PUSH: u16 = 0x8000;
    /// The stack is emptied first. Of `kerx` alone.
    pub const RESET: u16 = 0x2000;
}

/// Entries of the anchor machines of `kerx`.
pub mod anchor {
    /// The cursor is marked, at the end of the action. A missing pair of points ends that before.
    pub const MARK: u16 = 0x8000;
}
