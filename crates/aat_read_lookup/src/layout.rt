//! How the values of a lookup stand in the table.
ghost use Rattle.std.specs.Prelude.{◌≡◌, ◌+◌, ◌≤◌, length, IfOk};
ghost use Rattle.aat_read_lookup.specs.Layouts.{array_of, layout_at, searched_at, sized_array_at, trimmed_array_at};
ghost use Rattle.aat_read_lookup.specs.Segments.{values_place};
ghost use Rattle.aat_read_lookup.specs.inside.Sound.{IsSound};

use crate::segment::{Segment, ValueKind, Values};
use crate::units::{UnitKind, Units};
use aat_bytes::{Fault, FaultKind, Tag, be16};

/// How the values of a lookup stand in the table.
#[derive(Clone, Copy)]
pub(crate) enum Layout {
    /// Formats 0, 8 and 10: an array of values.
    Array(Segment),
    /// Formats 2, 4 and 6: units.
    Searched(Units),
}

/// An array whose values stand inside, without those of glyphs above 0xFFFF.
#[tactic(auto, unfolding(crate::specs::Layouts::array_of))]
fn array_of(table: Tag, bytes: &[u8], segment: Segment) -> Result<Layout, Fault>
    requires near { values_place segment.values ≤ length bytes.now + 65536 }
    requires few { segment.count ≤ 65535 }
    requires first { segment.first ≤ 65535 }
    ensures is { result ≡ array_of table bytes.now segment }
    ensures sound { IfOk result (λ layout. IsSound bytes.now layout) }
{
    if segment.is_past_end(bytes) {
        return Err(Fault::new(table, FaultKind::PastEnd, segment.values.place()));
    }
    Ok(Layout::Array(Segment {
        first: segment.first,
        count: segment.count.min(65536 - segment.first),
        values: segment.values,
    }))
}

/// A lookup of format 8.
#[tactic(auto, unfolding(crate::specs::Layouts::trimmed_array_at))]
fn trimmed_array_at(
    table: Tag,
    bytes: &[u8],
    place: usize,
    kind: ValueKind,
) -> Result<Layout, Fault>
    requires { place + 2 ≤ length bytes.now }
    ensures is { result ≡ trimmed_array_at table bytes.now place kind }
    ensures sound { IfOk result (λ layout. IsSound bytes.now layout) }
{
    if bytes.len() < place + 6 {
        return Err(Fault::new(table, FaultKind::PastEnd, place));
    }
    let segment = Segment {
        first: be16(bytes, place + 2) as usize,
        count: be16(bytes, place + 4) as usize,
        values: Values::Each(kind, place + 6),
    };
    array_of(table, bytes, segment)
}

/// A lookup of format 10.
#[tactic(auto, unfolding(crate::specs::Layouts::sized_array_at))]
fn sized_array_at(table: Tag, bytes: &[u8], place: usize, kind: ValueKind) -> Result<Layout, Fault>
    requires { place + 2 ≤ length bytes.now }
    ensures is { result ≡ sized_array_at table bytes.now place kind }
    ensures sound { IfOk result (λ layout. IsSound bytes.now layout) }
{
    if bytes.len() < place + 8 {
        return Err(Fault::new(table, FaultKind::PastEnd, place));
    }
    let first = be16(bytes, place + 4) as usize;
    let count = be16(bytes, place + 6) as usize;
    let values = match be16(bytes, place + 2) {
        1 => Values::Bytes(place + 8),
        2 => Values::Each(ValueKind::Word, place + 8),
        4 if kind.is_long() => Values::Each(ValueKind::Long, place + 8),
        _ => return Err(Fault::new(table, FaultKind::UnknownFormat, place + 2)),
    };
    array_of(
        table,
        bytes,
        Segment {
            first,
            count,
            values,
        },
    )
}

/// A lookup of format 2, 4 or 6.
#[tactic(auto, unfolding(crate::specs::Layouts::searched_at))]
fn searched_at(
    table: Tag,
    bytes: &[u8],
    place: usize,
    unit: UnitKind,
    kind: ValueKind,
) -> Result<Layout, Fault>
    requires { place + 2 ≤ length bytes.now }
    ensures is { result ≡ searched_at table bytes.now place unit kind }
    ensures sound { IfOk result (λ layout. IsSound bytes.now layout) }
{
    let units = Units::checked(table, bytes, place, unit, kind)?;
    if units.are_crowded(bytes) {
        return Err(Fault::new(table, FaultKind::PastEnd, place));
    }
    Ok(Layout::Searched(units))
}

impl Layout {
    /// The layout of the lookup at a place, by its format, whose values are of a kind.
    #[tactic(auto, unfolding(crate::specs::Layouts::layout_at))]
    pub(crate) fn read(
        table: Tag,
        bytes: &[u8],
        place: usize,
        glyph_count: u16,
        kind: ValueKind,
    ) -> Result<Layout, Fault>
        ensures is { result ≡ layout_at table bytes.now place glyph_count kind }
        ensures sound { IfOk result (λ layout. IsSound bytes.now layout) }
    {
        if bytes.len() < 2 || place > bytes.len() - 2 {
            return Err(Fault::new(table, FaultKind::PastEnd, place));
        }
        match be16(bytes, place) {
            0 => array_of(
                table,
                bytes,
                Segment {
                    first: 0,
                    count: glyph_count as usize,
                    values: Values::Each(kind, place + 2),
                },
            ),
            2 => searched_at(table, bytes, place, UnitKind::SegmentSingle, kind),
            4 => searched_at(table, bytes, place, UnitKind::SegmentArray, kind),
            6 => searched_at(table, bytes, place, UnitKind::Single, kind),
            8 => trimmed_array_at(table, bytes, place, kind),
            10 => sized_array_at(table, bytes, place, kind),
            _ => Err(Fault::new(table, FaultKind::UnknownFormat, place)),
        }
    }
}
