//! What is known of spans of the line, as long as nothing else is written in them.

/// A span that has its marks of `unsafe_to_break`: it need not be marked again, and one that begins there and is longer
/// needs the marks of what it has more.
#[derive(Clone, Copy)]
pub(crate) struct MarkedSpan {
    pub(crate) start: usize,
    /// The first place with the least cluster of the span.
    pub(crate) low: usize,
    pub(crate) end: usize,
    /// The least cluster of the span.
    pub(crate) least: u32,
}

/// A span that is one cluster: a merge from one of its places on need not look at the others.
#[derive(Clone, Copy)]
pub(crate) struct MergedSpan {
    pub(crate) start: usize,
    pub(crate) end: usize,
    pub(crate) cluster: u32,
}
