//! Records that stand one behind the other.
ghost use Rattle.std.specs.Prelude.{◌≡◌, ◌+◌, ◌≤◌, length, IfOk};
ghost use Rattle.aat_read_extended.specs.morx.InTurn.{end_at};

use aat_bytes::{Fault, FaultKind, be32};
use aat_read_machine::MORX;

/// Where a record ends that starts at a place: its header has so many bytes, and its length stands so many bytes behind
/// the place.
#[tactic(auto, unfolding(crate::specs::morx::InTurn::end_at))]
pub(crate) fn end_at(bytes: &[u8], place: usize, header: u8, field: u8) -> Result<usize, Fault>
    requires starts { place ≤ length bytes.now }
    requires field { field + 4 ≤ header }
    ensures end { result ≡ end_at bytes.now place header field }
    ensures header { IfOk result (λ end. place + header ≤ end) }
    ensures inside { IfOk result (λ end. end ≤ length bytes.now) }
{
    let header = header as usize;
    if bytes.len() < place + header {
        return Err(Fault::new(MORX, FaultKind::PastEnd, place));
    }
    let field = place + field as usize;
    let length = be32(bytes, field) as usize;
    if length < header {
        return Err(Fault::new(MORX, FaultKind::ShortLength, field));
    }
    if bytes.len() < place + length {
        return Err(Fault::new(MORX, FaultKind::PastEnd, field));
    }
    Ok(place + length)
}
