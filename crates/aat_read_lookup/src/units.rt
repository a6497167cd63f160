//! Units: the records of the formats 2, 4 and 6, which are found by bisection, as in HarfBuzz.
ghost use Rattle.std.specs.Prelude.{◌≡◌, ◌+◌, ◌-◌, ◌*◌, ◌<◌, ◌≤◌, length, IfOk, IsTrue};
ghost use Rattle.aat_bytes.specs.Bisection.{nearest};
ghost use Rattle.aat_read_lookup.specs.Layouts.{checked_units, glyphs_found, is_terminator, record_size, segment_at, segment_of, unit_at, unit_fault, unit_place, units_at, units_fault, without_terminator};
ghost use Rattle.aat_read_lookup.specs.Segments.{values_place};
ghost use Rattle.aat_read_lookup.specs.inside.Sound.{AreInside, AreSound, DoRise, Fits};
ghost use Rattle.aat_read_lookup.specs.declared.units.UnitKind.TheVariants.{Single};

use crate::segment::{Segment, ValueKind, Values};
use aat_bytes::{Fault, FaultKind, Tag, be16};

/// What a unit says.
#[derive(Clone, Copy)]
pub(crate) enum UnitKind {
    /// Format 2: a segment and one value.
    SegmentSingle,
    /// Format 4: a segment and the offset of its values.
    SegmentArray,
    /// Format 6: a glyph and its value.
    Single,
}

impl UnitKind {
    /// How many bytes the record of a unit has whose values are of a kind.
    pub(crate) fn record_size(self, values: ValueKind) -> u16
        ensures { result ≡ record_size self values }
    {
        match self {
            UnitKind::SegmentSingle => 4 + values.size(1) as u16,
            UnitKind::SegmentArray => 6,
            UnitKind::Single => 2 + values.size(1) as u16,
        }
    }
}

/// Whether the terminator stands at a place.
fn is_terminator(bytes: &[u8], kind: UnitKind, values: ValueKind, at: usize) -> bool
    requires { at + record_size kind values ≤ length bytes.now }
    ensures { result ≡ is_terminator bytes.now kind at }
{
    match kind {
        UnitKind::SegmentSingle => be16(bytes, at) == 0xFFFF && be16(bytes, at + 2) == 0xFFFF,
        UnitKind::SegmentArray => be16(bytes, at) == 0xFFFF && be16(bytes, at + 2) == 0xFFFF,
        UnitKind::Single => be16(bytes, at) == 0xFFFF,
    }
}

/// A number, or the nearest one of those from one to another.
fn nearest(from: usize, to: usize, number: usize) -> usize
    ensures { result ≡ nearest from to number }
{
    number.max(from).min(to)
}

/// The segment of the unit at a place.
fn segment_at(bytes: &[u8], kind: UnitKind, values: ValueKind, start: usize, at: usize) -> Segment
    requires starts { start ≤ at }
    requires inside { at + record_size kind values ≤ length bytes.now }
    ensures is { result ≡ segment_at bytes.now kind values start at }
    ensures glyphs { result.first + result.count ≤ 65536 }
    ensures near { values_place result.values ≤ length bytes.now + 65536 }
{
    let first = be16(bytes, at + 2) as usize;
    let end = be16(bytes, at) as usize + 1;
    match kind {
        UnitKind::SegmentSingle => Segment {
            first,
            count: end.saturating_sub(first),
            values: Values::Shared(values, at + 4),
        },
        UnitKind::SegmentArray => Segment {
            first,
            count: end.saturating_sub(first),
            values: Values::Each(values, start + be16(bytes, at + 4) as usize),
        },
        UnitKind::Single => Segment {
            first: be16(bytes, at) as usize,
            count: 1,
            values: Values::Shared(values, at + 2),
        },
    }
}

/// The units of a lookup that starts at a place.
#[derive(Clone, Copy)]
pub(crate) struct Units {
    /// What a unit says.
    pub(crate) kind: UnitKind,
    /// The kind of its values.
    pub(crate) values: ValueKind,
    /// Where the lookup starts.
    pub(crate) start: usize,
    /// How many bytes a unit has.
    pub(crate) size: u16,
    /// How many units there are, without the terminator.
    pub(crate) count: u16,
}

impl Units {
    /// The place of a unit.
    fn place(self, i: u16, bytes: &[u8]) -> usize
        requires inside { AreInside bytes.now self }
        requires below { i < self.count }
        ensures is { result ≡ unit_place self i }
        ensures inside { result + record_size self.kind self.values ≤ length bytes.now }
    {
        self.start + 12 + self.size as usize * i as usize
    }

    /// All glyphs of a unit, with their values.
    pub(crate) fn unit(self, i: u16, bytes: &[u8]) -> Segment
        requires inside { AreInside bytes.now self }
        requires below { i < self.count }
        ensures is { result ≡ unit_at bytes.now self i }
        ensures glyphs { result.first + result.count ≤ 65536 }
        ensures near { values_place result.values ≤ length bytes.now + 65536 }
    {
        segment_at(
            bytes,
            self.kind,
            self.values,
            self.start,
            self.place(i, bytes),
        )
    }

    /// The glyphs by which a bisection finds a unit, from the first one up to the one behind the last. On its way each
    /// unit that it passes leaves the glyphs below its own, or those above them.
    ///
    /// It stands apart, so that units that rise are read in a short loop.
    #[inline(never)]
    fn glyphs_found(self, i: u16, bytes: &[u8]) -> (usize, usize)
        requires inside { AreInside bytes.now self }
        requires below { i < self.count }
        ensures is { result ≡ glyphs_found bytes.now self i }
        ensures rise { result.0 ≤ result.1 }
        ensures few { result.1 ≤ 65536 }
    {
        let wanted = i as usize;
        let mut from = 0;
        let mut to = self.count as usize;
        let mut first = 0;
        let mut end = 65536;
        'way: loop {
            let middle = (from + (to - 1)) / 2;
            let unit = self.unit(middle as u16, bytes);
            let start = nearest(first, end, unit.first);
            let stop = nearest(first, end, unit.first + unit.count);
            if wanted < middle {
                to = middle;
                end = start;
            } else if middle < wanted {
                from = middle + 1;
                first = stop;
            } else {
                return (start, stop);
            }
        }
    }

    /// The same units, which are glyphs, with a kind that is seen to be so: what is done with each needs then no test of it.
    #[inline(always)]
    pub(crate) fn as_singles(self) -> Units
        requires { self.kind ≡ Single }
        ensures { result ≡ self }
    {
        Units {
            kind: UnitKind::Single,
            values: self.values,
            start: self.start,
            size: self.size,
            count: self.count,
        }
    }

    /// Whether each unit begins behind the end of those before it, as units ought to.
    pub(crate) fn do_rise(self, bytes: &[u8]) -> bool
        requires { AreInside bytes.now self }
        ensures { IsTrue result → DoRise bytes.now self }
    {
        if self.kind.is_single() {
            return self.as_singles().is_rising(bytes);
        }
        self.is_rising(bytes)
    }

    /// Whether each unit begins behind the end of those before it.
    #[inline(always)]
    fn is_rising(self, bytes: &[u8]) -> bool
        requires { AreInside bytes.now self }
        ensures { IsTrue result → DoRise bytes.now self }
    {
        let mut end = 0;
        for i in 0..self.count {
            let unit = self.unit(i, bytes);
            if unit.first < end {
                return false;
            }
            end = unit.first + unit.count;
        }
        true
    }

    /// The segment of a unit: those of its glyphs by which a bisection finds it. Where units rise these are all of them,
    /// and no bisection is needed.
    ///
    /// It is inlined, since a call for each unit takes longer than to read most of them.
    #[inline(always)]
    pub(crate) fn segment(self, i: u16, bytes: &[u8], rise: bool) -> Segment
        requires sound { AreSound bytes.now self }
        requires below { i < self.count }
        requires rise { IsTrue rise → DoRise bytes.now self }
        ensures is { result ≡ segment_of bytes.now self i }
        ensures fits { Fits bytes.now result }
    {
        if rise {
            return self.unit(i, bytes);
        }
        let (first, end) = self.glyphs_found(i, bytes);
        self.unit(i, bytes).part(first, end)
    }

    /// The units without the terminator.
    fn without_terminator(self, bytes: &[u8]) -> Units
        requires { AreInside bytes.now self }
        ensures is { result ≡ without_terminator bytes.now self }
        ensures inside { AreInside bytes.now result }
    {
        if self.count == 0 {
            return self;
        }
        let last = self.place(self.count - 1, bytes);
        if is_terminator(bytes, self.kind, self.values, last) {
            return Units {
                kind: self.kind,
                values: self.values,
                start: self.start,
                size: self.size,
                count: self.count - 1,
            };
        }
        self
    }

    /// The units of the header at a place.
    #[tactic(auto, unfolding(crate::specs::Layouts::units_at))]
    fn read(
        table: Tag,
        bytes: &[u8],
        place: usize,
        kind: UnitKind,
        values: ValueKind,
    ) -> Result<Units, Fault>
        requires { place + 2 ≤ length bytes.now }
        ensures is { result ≡ units_at table bytes.now place kind values }
        ensures inside { IfOk result (λ units. AreInside bytes.now units) }
    {
        if bytes.len() < place + 12 {
            return Err(Fault::new(table, FaultKind::PastEnd, place));
        }
        let size = be16(bytes, place + 2);
        let count = be16(bytes, place + 4);
        if size < kind.record_size(values) {
            return Err(Fault::new(table, FaultKind::ShortLength, place + 2));
        }
        let first = place + 12;
        if bytes.len() < first + size as usize * count as usize {
            let whole = (bytes.len() - first) / size as usize;
            return Err(Fault::new(table, FaultKind::PastEnd, first + size as usize * whole));
        }
        let units = Units {
            kind,
            values,
            start: place,
            size,
            count,
        };
        Ok(units.without_terminator(bytes))
    }

    /// The fault of a unit.
    fn unit_fault(self, table: Tag, bytes: &[u8], i: u16) -> Option<Fault>
        requires inside { AreInside bytes.now self }
        requires below { i < self.count }
        ensures { result ≡ unit_fault table bytes.now self i }
    {
        let unit = self.unit(i, bytes);
        if self.kind.has_offset() && unit.count == 0 {
            return Some(Fault::new(table, FaultKind::NotRising, self.place(i, bytes)));
        }
        if unit.is_past_end(bytes) {
            return Some(Fault::new(table, FaultKind::PastEnd, unit.values.place()));
        }
        None
    }

    /// The first fault of the units. Without an offset they have none, since a value stands in the record of its unit.
    fn fault(self, table: Tag, bytes: &[u8]) -> Option<Fault>
        requires { AreInside bytes.now self }
        ensures { result ≡ units_fault table bytes.now self }
    {
        if !self.kind.has_offset() {
            return None;
        }
        for i in 0..self.count {
            if let Some(fault) = self.unit_fault(table, bytes, i) {
                return Some(fault);
            }
        }
        None
    }

    /// The units of the lookup at a place, which have no fault.
    #[tactic(auto, unfolding(crate::specs::Layouts::checked_units))]
    pub(crate) fn checked(
        table: Tag,
        bytes: &[u8],
        place: usize,
        kind: UnitKind,
        values: ValueKind,
    ) -> Result<Units, Fault>
        requires { place + 2 ≤ length bytes.now }
        ensures is { result ≡ checked_units table bytes.now place kind values }
        ensures sound { IfOk result (λ units. AreSound bytes.now units) }
    {
        let units = Units::read(table, bytes, place, kind, values)?;
        match units.fault(table, bytes) {
            Some(fault) => Err(fault),
            None => Ok(units),
        }
    }
}
