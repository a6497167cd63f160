//! Why a subtable is not settled.

use thiserror::Error;

/// What an entry of a machine can set, and another one use.
#[derive(Clone, Copy, PartialEq, Eq, Debug, Error)]
pub enum UsedRegister {
    /// The mark of a contextual machine.
    #[error("the mark")]
    Mark,
    /// The start of the span of a rearrangement.
    #[error("the start of the span")]
    SpanStart,
    /// The end of the span of a rearrangement.
    #[error("the end of the span")]
    SpanEnd,
    /// The components of a ligature machine.
    #[error("the components")]
    Components,
}

/// Why a subtable is not settled. States and classes are those of its machine. Each state that is named is reached: it is
/// state 0, or an entry of a reached state leads to it.
#[derive(Clone, Copy, PartialEq, Eq, Debug, Error)]
pub enum Unsettled {
    /// This state has no entry for this class.
    #[error("state {0} has no entry for class {1}")]
    MissingEntry(u16, u16),
    /// The entry of this state and this class uses the register, and a run may come to the state that has not set it
    /// since it was in state 0.
    #[error("the entry of state {1} and class {2} uses {0}, which may not be set")]
    UsedBeforeSet(UsedRegister, u16, u16),
    /// The entry of this state and this class, which some glyph has, may be taken for that of state 0, since neither has
    /// to act and both do the same next. But only one of them sets the register, and it may be used behind them before it
    /// is set. Of components: only one of them pushes, and behind them a component has to be held.
    #[error("the entry of state {1} and class {2} may be taken for that of state 0, but only one of them sets {0}")]
    TakenForOne(UsedRegister, u16, u16),
    /// The entry of this state for the end of the text has both a verb and the bit that sets the end of the span.
    #[error("the entry of state {0} for the end of the text sets the end of the span and moves glyphs")]
    MovesAtEnd(u16),
    /// Wherever as many components are held as actions take, this state holds more than it may: some in state 0, or in
    /// another state more than 64, which is how many slots there are.
    #[error("state {0} would have to hold more components than it may")]
    TooFewComponents(u16),
}
