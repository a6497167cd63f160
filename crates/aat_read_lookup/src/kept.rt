//! What is kept of the values of a lookup, and lookups that are kept as segments.
ghost use Rattle.std.specs.Prelude.{◌≡◌, ◌+◌, ◌*◌, ◌++◌, ◌<◌, ◌≤◌, ◌^◌, length, map, IfOk, IsTrue, OnOk};
ghost use Rattle.std.specs.List.{flat_map, range_with_len};
ghost use Rattle.aat_bytes.specs.Numbers.{be16};
ghost use Rattle.aat_read_lookup.specs.Kept.{kept_count, kept_segments, kept_value, layout_segments, row_of, single_segment, whole_segment};
ghost use Rattle.aat_read_lookup.specs.Layouts.{unit_segments};
ghost use Rattle.aat_read_lookup.specs.Segments.{pairs_by};
ghost use Rattle.aat_read_lookup.specs.inside.Sound.{AreSound, CanKeep, DoRise, Fits, IsSound, Rises};
ghost use Rattle.aat_read_lookup.specs.declared.kept.Keep.TheVariants.{Value};
ghost use Rattle.aat_read_lookup.specs.declared.layout.Layout.TheVariants.{Searched};

use crate::layout::Layout;
use crate::segment::{Segment, ValueKind, Values};
use crate::units::Units;
use aat_bytes::be16;
use aat_lookup::LookupSegment;
use std::alloc::{AllocError, Allocator};

/// What is kept of a value.
#[derive(Clone, Copy)]
pub(crate) enum Keep {
    /// A value of 16 bits.
    Value,
    /// The row of a value of 16 bits, where rows have so many values.
    Row(u16),
    /// The row of a value of up to 32 bits, where rows have so many values, or the last row of 16 bits.
    LongRow(u16),
}

/// The row of a value, where rows have so many values: the last one of 16 bits where it is further.
fn row_of(width: u16, value: u32) -> u16
    requires { 0 < width }
    ensures { result ≡ row_of width value }
{
    (value / width as u32).min(65535) as u16
}

/// So many numbers of 16 bits from a place on.
fn words_at<A: Allocator>(
    alloc: A,
    bytes: &[u8],
    at: usize,
    count: usize,
) -> Result<Vec<u16, A>, AllocError>
    requires { at + 2 * count ≤ length bytes.now }
    ensures { IfOk result (λ words. words.items ≡ map (λ k. be16 bytes.now (at + 2 * k)) (range_with_len 0 count)) }
{
    let bytes = &bytes[at..at + 2 * count];
    let mut words = vec![in alloc; 0; count]?;
    for k in 0..count {
        words[k] = be16(bytes, 2 * k);
    }
    Ok(words)
}

impl Segment {
    /// What is kept of the value of the glyph that stands so many glyphs behind the first.
    ///
    /// It is inlined, since a call for each glyph takes longer than to read its value.
    #[inline(always)]
    fn kept(self, bytes: &[u8], k: usize, keep: Keep) -> u16
        requires can { CanKeep keep }
        requires fits { Fits bytes.now self }
        requires below { k < self.count }
        ensures { result ≡ kept_value bytes.now keep self.values k }
    {
        match keep {
            Keep::Value => self.value(bytes, k),
            Keep::Row(width) => self.value(bytes, k) / width,
            Keep::LongRow(width) => row_of(width, self.long_value(bytes, k)),
        }
    }

    /// Appends the pairs of the segment.
    #[inline(always)]
    pub(crate) fn append<A: Allocator>(
        self,
        bytes: &[u8],
        keep: Keep,
        pairs: &mut Vec<(u16, u16), A>,
    ) -> Result<(), AllocError>
        requires can { CanKeep keep }
        requires fits { Fits bytes.now self }
        ensures { OnOk result (pairs.new.items ≡ pairs.old.items ++ pairs_by (kept_value bytes.now keep) self) }
    {
        for k in 0..self.count {
            pairs.push(((self.first + k) as u16, self.kept(bytes, k, keep)))?;
        }
        Ok(())
    }

    /// What is kept of the values of the segment, in memory of their own size.
    pub(crate) fn kept_values<A: Allocator>(
        self,
        alloc: A,
        bytes: &[u8],
        keep: Keep,
    ) -> Result<Vec<u16, A>, AllocError>
        requires can { CanKeep keep }
        requires fits { Fits bytes.now self }
        ensures { IfOk result (λ values. values.items
            ≡ map (kept_value bytes.now keep self.values) (range_with_len 0 self.count)) }
    {
        if let (Keep::Value, Values::Each(ValueKind::Word, at)) = (keep, self.values) {
            return words_at(alloc, bytes, at, self.count);
        }
        let mut values = Vec::with_capacity(alloc, self.count)?;
        for k in 0..self.count {
            values.push(self.kept(bytes, k, keep))?;
        }
        Ok(values)
    }

    /// The segment as it is kept, if its glyphs have one value.
    #[inline(always)]
    fn whole(self, bytes: &[u8], keep: Keep) -> LookupSegment
        requires can { CanKeep keep }
        requires fits { Fits bytes.now self }
        requires some { 0 < self.count }
        ensures { result ≡ whole_segment bytes.now keep self }
    {
        let last = self.first + self.count - 1;
        LookupSegment::new(self.first as u16, last as u16, self.kept(bytes, 0, keep))
    }

    /// Appends a segment for each glyph.
    #[inline(never)]
    fn append_singles<A: Allocator>(
        self,
        bytes: &[u8],
        keep: Keep,
        segments: &mut Vec<LookupSegment, A>,
    ) -> Result<(), AllocError>
        requires can { CanKeep keep }
        requires fits { Fits bytes.now self }
        ensures { OnOk result (segments.new.items
            ≡ segments.old.items ++ map (single_segment bytes.now keep self) (range_with_len 0 self.count)) }
    {
        for k in 0..self.count {
            let glyph = (self.first + k) as u16;
            segments.push(LookupSegment::new(glyph, glyph, self.kept(bytes, k, keep)))?;
        }
        Ok(())
    }

    /// Appends what the segment is kept as.
    #[inline(always)]
    fn append_kept<A: Allocator>(
        self,
        bytes: &[u8],
        keep: Keep,
        segments: &mut Vec<LookupSegment, A>,
    ) -> Result<(), AllocError>
        requires can { CanKeep keep }
        requires fits { Fits bytes.now self }
        ensures { OnOk result (segments.new.items ≡ segments.old.items ++ kept_segments bytes.now keep self) }
    {
        if !self.values.is_shared() {
            return self.append_singles(bytes, keep, segments);
        }
        if self.count > 0 {
            segments.push(self.whole(bytes, keep))?;
        }
        Ok(())
    }

    /// How many segments the segment is kept as.
    fn kept_count(self) -> usize
        ensures is { result ≡ kept_count self }
        ensures few { result ≤ self.count }
    {
        if !self.values.is_shared() {
            return self.count;
        }
        self.count.min(1)
    }
}

impl Units {
    /// How many segments the units are kept as.
    fn segment_count(self, bytes: &[u8], rise: bool) -> usize
        requires sound { AreSound bytes.now self }
        requires rise { IsTrue rise → DoRise bytes.now self }
        ensures is { result ≡ length (layout_segments bytes.now Value (Searched self)) }
        ensures few { result < 2 ^ 32 }
    {
        if self.are_singles(rise) {
            return self.count as usize;
        }
        let mut count = 0;
        for i in 0..self.count {
            count += self.segment(i, bytes, rise).kept_count();
        }
        count
    }

    /// Appends what the segments of the units are kept as.
    fn append_kept<A: Allocator>(
        self,
        bytes: &[u8],
        rise: bool,
        keep: Keep,
        segments: &mut Vec<LookupSegment, A>,
    ) -> Result<(), AllocError>
        requires can { CanKeep keep }
        requires sound { AreSound bytes.now self }
        requires rise { IsTrue rise → DoRise bytes.now self }
        ensures { OnOk result (segments.new.items
            ≡ segments.old.items ++ flat_map (kept_segments bytes.now keep) (unit_segments bytes.now self)) }
    {
        if self.are_singles(rise) {
            return self
                .as_singles()
                .append_each_kept(bytes, true, keep, segments);
        }
        self.append_each_kept(bytes, rise, keep, segments)
    }

    /// Appends what the segments of the units are kept as, one after the other.
    #[inline(always)]
    fn append_each_kept<A: Allocator>(
        self,
        bytes: &[u8],
        rise: bool,
        keep: Keep,
        segments: &mut Vec<LookupSegment, A>,
    ) -> Result<(), AllocError>
        requires can { CanKeep keep }
        requires sound { AreSound bytes.now self }
        requires rise { IsTrue rise → DoRise bytes.now self }
        ensures { OnOk result (segments.new.items
            ≡ segments.old.items ++ flat_map (kept_segments bytes.now keep) (unit_segments bytes.now self)) }
    {
        for i in 0..self.count {
            self.segment(i, bytes, rise)
                .append_kept(bytes, keep, segments)?;
        }
        Ok(())
    }
}

impl Layout {
    /// The number of segments that the layout is kept as.
    pub(crate) fn segment_count(self, bytes: &[u8], rise: bool) -> usize
        requires sound { IsSound bytes.now self }
        requires rise { IsTrue rise → Rises bytes.now self }
        ensures is { result ≡ length (layout_segments bytes.now Value self) }
        ensures few { result < 2 ^ 32 }
    {
        match self {
            Layout::Array(segment) => segment.kept_count(),
            Layout::Searched(units) => units.segment_count(bytes, rise),
        }
    }

    /// The segments that the layout is kept as.
    pub(crate) fn segments<A: Allocator>(
        self,
        alloc: A,
        bytes: &[u8],
        rise: bool,
        keep: Keep,
    ) -> Result<Vec<LookupSegment, A>, AllocError>
        requires can { CanKeep keep }
        requires sound { IsSound bytes.now self }
        requires rise { IsTrue rise → Rises bytes.now self }
        ensures { IfOk result (λ segments. segments.items ≡ layout_segments bytes.now keep self) }
    {
        let mut segments = Vec::with_capacity(alloc, self.segment_count(bytes, rise))?;
        match self {
            Layout::Array(segment) => segment.append_kept(bytes, keep, &mut segments)?,
            Layout::Searched(units) => units.append_kept(bytes, rise, keep, &mut segments)?,
        }
        Ok(segments)
    }
}
