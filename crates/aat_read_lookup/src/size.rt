//! How much memory a lookup that is read takes at most, and how many bytes it is read from.
ghost use Rattle.std.specs.Prelude.{◌≡◌, ◌+◌, ◌*◌, ◌^◌, ◌≤◌, ◌<◌, IsTrue};
ghost use Rattle.aat_lookup.specs.Keys.{first};
ghost use Rattle.aat_lookup.specs.GlyphSpans.{glyph_span};
ghost use Rattle.aat_read_lookup.specs.LongSizes.{long_bytes_at};
ghost use Rattle.aat_read_lookup.specs.Lookups.{pairs_of};
ghost use Rattle.aat_read_lookup.specs.Sizes.{bytes_of, cells_beside, is_spread, layout_size, lookup_bytes_at, lookup_size_at, pairs_size};
ghost use Rattle.aat_read_lookup.specs.Layouts.{glyphs_of};
ghost use Rattle.aat_read_lookup.specs.inside.Ends.{ends_with};
ghost use Rattle.aat_read_lookup.specs.inside.Sound.{AreSound, DoRise, IsSound, Rises};
ghost use Rattle.aat_read_lookup.specs.declared.layout.Layout.TheVariants.{Searched};

use crate::layout::Layout;
use crate::segment::{Segment, ValueKind};
use crate::units::Units;
use aat_bytes::{Fault, Tag};
use aat_lookup::LookupSegment;
use std::mem::size_of;

/// The number of bytes of memory for each byte that a lookup is read from, above which it is kept as segments.
const MEMORY_A_BYTE: usize = 7;

/// The number of cells beside so many pairs whose glyphs span so many.
fn cells_beside(count: usize, span: usize) -> usize
    requires { count < 2 ^ 32 }
    ensures { result ≡ cells_beside count span }
{
    if count == 0 {
        return 0;
    }
    if span / 32 <= count {
        return span;
    }
    if count < 8 {
        return 0;
    }
    256 + 256 * (count / 8)
}

/// The bytes of so many pairs whose glyphs span so many, and of the cells beside them.
fn size_of_pairs(count: usize, span: usize) -> usize
    requires few { count < 2 ^ 32 }
    requires short { span ≤ 65536 }
    ensures { result ≡ 4 * count + 4 * cells_beside count span }
{
    count * size_of::<(u16, u16)>() + cells_beside(count, span) * size_of::<Option<u16>>()
}

/// The first of some glyphs and the one behind the last of them, with those of a segment behind them. Where there are
/// none, 0 stands for the one behind the last.
fn ends_with(ends: (usize, usize), segment: Segment) -> (usize, usize)
    requires { segment.first + segment.count ≤ 65536 }
    ensures { result ≡ ends_with ends segment }
{
    if segment.count == 0 {
        return ends;
    }
    let first = if ends.1 == 0 { segment.first } else { ends.0 };
    (first, segment.first + segment.count)
}

impl Units {
    /// The number of glyphs from the first to the last by which the units are found.
    fn span(self, bytes: &[u8], rise: bool) -> usize
        requires sound { AreSound bytes.now self }
        requires rise { IsTrue rise → DoRise bytes.now self }
        requires some { 0 < glyphs_of bytes.now self }
        ensures is { result ≡ glyph_span first (0, 0) (pairs_of bytes.now (Searched self)) }
        ensures short { result ≤ 65536 }
    {
        if self.are_singles(rise) {
            let lowest = self.unit(0, bytes).first;
            let highest = self.unit(self.count - 1, bytes).first;
            return highest - lowest + 1;
        }
        let mut ends = (0, 0);
        for i in 0..self.count {
            ends = ends_with(ends, self.segment(i, bytes, rise));
        }
        (ends.1 - 1).saturating_sub(ends.0) + 1
    }

    /// The bytes of the pairs of the units, and of the cells beside them.
    fn pairs_size(self, bytes: &[u8], rise: bool) -> usize
        requires sound { AreSound bytes.now self }
        requires rise { IsTrue rise → DoRise bytes.now self }
        ensures { result ≡ pairs_size (pairs_of bytes.now (Searched self)) }
    {
        let glyphs = self.glyphs(bytes, rise);
        if glyphs == 0 {
            return 0;
        }
        size_of_pairs(glyphs, self.span(bytes, rise))
    }
}

impl Layout {
    /// How many bytes of the table the layout is read from.
    fn bytes(self, bytes: &[u8]) -> usize
        requires { IsSound bytes.now self }
        ensures is { result ≡ bytes_of bytes.now self }
        ensures few { result < 2 ^ 35 }
    {
        match self {
            Layout::Array(segment) => segment.values.size(segment.count),
            Layout::Searched(units) => units.bytes(bytes),
        }
    }

    /// The bytes of the pairs of the layout, and of the cells beside them.
    fn pairs_size(self, bytes: &[u8], rise: bool) -> usize
        requires sound { IsSound bytes.now self }
        requires rise { IsTrue rise → Rises bytes.now self }
        ensures { result ≡ pairs_size (pairs_of bytes.now self) }
    {
        match self {
            Layout::Array(segment) => size_of_pairs(segment.count, segment.count),
            Layout::Searched(units) => units.pairs_size(bytes, rise),
        }
    }

    /// Whether the layout is kept as segments.
    pub(crate) fn is_spread(self, bytes: &[u8], rise: bool) -> bool
        requires sound { IsSound bytes.now self }
        requires rise { IsTrue rise → Rises bytes.now self }
        ensures { result ≡ is_spread bytes.now self }
    {
        MEMORY_A_BYTE * self.bytes(bytes) < self.pairs_size(bytes, rise)
    }

    /// The bytes of the lookup of the layout.
    fn size(self, bytes: &[u8]) -> usize
        requires { IsSound bytes.now self }
        ensures { result ≡ layout_size bytes.now self }
    {
        let rise = self.does_rise(bytes);
        if self.is_spread(bytes, rise) {
            return self.segment_count(bytes, rise) * size_of::<LookupSegment>();
        }
        self.pairs_size(bytes, rise)
    }
}

/// How many bytes of memory the lookup takes at most that `read_lookup` makes of the same arguments, besides those of
/// `Lookup` itself, with the same faults. It takes no memory, and the time of some bisections for each unit.
///
/// As pairs it takes 4 bytes for each glyph that has a value, and 2 or 4 for each cell beside them, counted as 4: for
/// each glyph from the first to the last, where these are at most about 32 for each pair. The values of the formats 0, 8
/// and 10 are counted so too, and take 3 bytes for each glyph. As segments it takes 6 bytes for each unit of the formats
/// 2 and 6, and for each glyph of the others. Either is at most 7 for each byte that `lookup_bytes` counts.
pub fn lookup_size(table: Tag, bytes: &[u8], place: usize, glyph_count: u16) -> Result<usize, Fault>
    ensures { result ≡ lookup_size_at table bytes.now place glyph_count }
{
    let layout = Layout::read(table, bytes, place, glyph_count, ValueKind::Word)?;
    Ok(layout.size(bytes))
}

/// How many bytes of the table the lookup of the same arguments is read from, behind its header, with the faults of
/// `read_lookup`: the records of its units, without what fills them up, and its values, of units that are not found too.
/// Values that units of format 4 share count for each unit. They are no more than the bytes from `place` to the end of
/// the table. It takes no memory, and time linear in the units.
pub fn lookup_bytes(
    table: Tag,
    bytes: &[u8],
    place: usize,
    glyph_count: u16,
) -> Result<usize, Fault>
    ensures { result ≡ lookup_bytes_at table bytes.now place glyph_count }
{
    let layout = Layout::read(table, bytes, place, glyph_count, ValueKind::Word)?;
    Ok(layout.bytes(bytes))
}

/// How many bytes of the table the lookup of the same arguments is read from, behind its header, with the faults of
/// `read_long_rows`: the records of its units, without what fills them up, and its values, of units that are not found
/// too. Values that units of format 4 share count for each unit. They are no more than the bytes from `place` to the end
/// of the table. It takes no memory, and time linear in the units.
///
/// Apple's TrueType Reference Manual, "Font Tables", section on lookup tables.
pub fn long_lookup_bytes(
    table: Tag,
    bytes: &[u8],
    place: usize,
    glyph_count: u16,
) -> Result<usize, Fault>
    ensures { result ≡ long_bytes_at table bytes.now place glyph_count }
{
    let layout = Layout::read(table, bytes, place, glyph_count, ValueKind::Long)?;
    Ok(layout.bytes(bytes))
}
