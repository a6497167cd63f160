//! What the entries of state tables hold beside a state and flags, one kind for each kind of machine.

/// What a contextual entry names: by their places in the subtable, the lookup for the marked glyph and that for the
/// current one. 0xFFFF is none.
///
/// Apple's TrueType Reference Manual, "The 'morx' table", contextual glyph substitution.
#[derive(Clone, Copy, PartialEq, Eq, Debug)]
pub struct ContextualEntryData {
    /// The lookup for the marked glyph.
    pub mark_index: u16,
    /// The lookup for the current glyph.
    pub current_index: u16,
}

/// What an insertion entry names: where in the subtable's glyphs those begin that go in at the cursor, and those that
/// go in at the mark. 0xFFFF is none.
///
/// Apple's TrueType Reference Manual, "The 'morx' table", glyph insertion.
#[derive(Clone, Copy, PartialEq, Eq, Debug)]
pub struct InsertionEntryData {
    /// Where the glyphs for the cursor begin.
    pub current_insert_index: u16,
    /// Where the glyphs for the mark begin.
    pub marked_insert_index: u16,
}

/// What an entry of a machine of the `kerx` table names. 0xFFFF is none.
///
/// Apple's TrueType Reference Manual, "The 'kerx' table".
#[derive(Clone, Copy, PartialEq, Eq, Debug)]
pub struct EntryData {
    /// The place of the first value, or of the pair of point indexes.
    pub action_index: u16,
}

/// What an entry of a machine of the `kern` table names. 0xFFFF is none.
///
/// Apple's TrueType Reference Manual, "The 'kern' table".
#[derive(Clone, Copy, PartialEq, Eq, Debug)]
pub struct KernEntryData {
    /// The place of the first value.
    pub value_index: u16,
}
