//! What comes of a call.

/// What comes of a call.
#[derive(Clone, Copy)]
pub(crate) enum Outcome {
    /// It was done as it has to be.
    Done,
    /// It was refused for want of memory, left what it has to leave, and was done when it was made again with memory.
    Refused,
    /// Anything else.
    Wrong,
}

/// What comes of a call that leaves nothing: whether its answer is right, or its error is that for want of memory.
pub(crate) fn outcome_of<E: PartialEq + Drop>(answer: Result<bool, E>, want: E) -> Outcome {
    match answer {
        Ok(true) => Outcome::Done,
        Err(error) if error == want => Outcome::Refused,
        _ => Outcome::Wrong,
    }
}

/// A refusal or nothing, by whether what it left was right.
pub(crate) fn refused_if(is_right: bool) -> Outcome {
    if is_right {
        Outcome::Refused
    } else {
        Outcome::Wrong
    }
}

/// An answer, by whether it was right.
pub(crate) fn done_if(is_right: bool) -> Outcome {
    if is_right {
        Outcome::Done
    } else {
        Outcome::Wrong
    }
}
