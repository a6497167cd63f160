//! The stops of a text.
ghost use Rattle.std.specs.Prelude.{◌≡◌, IfOk, IsTrue};
ghost use Rattle.aat_shaper.specs.Lines.{stops_behind};

use crate::lines::LineStop;
use std::alloc::{AllocError, Allocator};

/// Whether stops are those of a text of `len` glyphs as they are: they rise, and end with it.
pub(crate) fn is_row(len: usize, stops: &[LineStop]) -> bool
    ensures { IsTrue result → stops_behind 0 len stops.now ≡ stops.now }
{
    let mut place = 0;
    for stop in stops {
        if stop.place <= place || len < stop.place {
            return false;
        }
        place = stop.place;
    }
    place == len
}

/// The stops of a text of `len` glyphs: those that rise, and its end.
pub(crate) fn stops_of<A: Allocator>(
    alloc: A,
    len: usize,
    stops: &[LineStop],
) -> Result<Vec<LineStop, A>, AllocError>
    ensures { IfOk result (λ row. row.items ≡ stops_behind 0 len stops.now) }
{
    let mut row = Vec::with_capacity(alloc, stops.len())?;
    let mut place = 0;
    for stop in stops {
        if place < stop.place && stop.place <= len {
            row.push(*stop)?;
            place = stop.place;
        }
    }
    if place < len {
        row.push(LineStop {
            place: len,
            hang: None,
            is_forced: true,
        })?;
    }
    Ok(row)
}
