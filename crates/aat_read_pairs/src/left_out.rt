//! Subtables of `kern` and `kerx` that are left out.

use aat_bytes::Fault;

/// A subtable of `kern` or of `kerx` that is left out.
#[derive(Clone, Copy, PartialEq, Eq, Debug)]
pub struct LeftOutSubtable {
    /// Its number in the order of the table, from 0 on.
    pub number: u32,
    /// Why: 2, `UnknownFormat`, with the place of what is not known. In `kern` that is the format, if that is not read,
    /// and else the coverage, which is of variations. In `kerx` it is the coverage, of which the format is the lowest
    /// byte, for an unknown format and for variations.
    pub fault: Fault,
}
