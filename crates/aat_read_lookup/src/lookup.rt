//! Lookups from bytes.
ghost use Rattle.std.specs.Prelude.{◌≡◌, ◌++◌, None, Ok, IfOk, IsTrue, OnOk, MatchResult};
ghost use Rattle.std.specs.List.{flat_map};
ghost use Rattle.aat_lookup.specs.Keys.{first};
ghost use Rattle.aat_lookup.specs.Segments.{first_segment_fall, pairs_of_segments};
ghost use Rattle.aat_read_lookup.specs.Kept.{kept_pairs};
ghost use Rattle.aat_read_lookup.specs.Lookups.{Gives, Refuses, lookup_at};
ghost use Rattle.aat_read_lookup.specs.inside.Sound.{AreSound, CanKeep, DoRise, Fits, IsSound, Rises};
ghost use Rattle.aat_read_lookup.specs.declared.layout.Layout.TheVariants.{Array, Searched};

use crate::kept::Keep;
use crate::layout::Layout;
use crate::segment::{Segment, ValueKind};
use crate::units::Units;
use aat_bytes::{ReadError, Tag};
use aat_lookup::{Lookup, LookupSegment, TableError};
use std::alloc::{AllocError, Allocator};

/// Appends the pairs of units, one after the other.
#[inline(always)]
fn append_each<A: Allocator>(
    units: Units,
    bytes: &[u8],
    rise: bool,
    keep: Keep,
    pairs: &mut Vec<(u16, u16), A>,
) -> Result<(), AllocError>
    requires can { CanKeep keep }
    requires sound { AreSound bytes.now units }
    requires rise { IsTrue rise → DoRise bytes.now units }
    ensures { OnOk result (pairs.new.items ≡ pairs.old.items ++ kept_pairs bytes.now keep (Searched units)) }
{
    for i in 0..units.count {
        units.segment(i, bytes, rise).append(bytes, keep, pairs)?;
    }
    Ok(())
}

/// Appends the pairs of units.
fn append_units<A: Allocator>(
    units: Units,
    bytes: &[u8],
    rise: bool,
    keep: Keep,
    pairs: &mut Vec<(u16, u16), A>,
) -> Result<(), AllocError>
    requires can { CanKeep keep }
    requires sound { AreSound bytes.now units }
    requires rise { IsTrue rise → DoRise bytes.now units }
    ensures { OnOk result (pairs.new.items ≡ pairs.old.items ++ kept_pairs bytes.now keep (Searched units)) }
{
    if units.are_singles(rise) {
        return append_each(units.as_singles(), bytes, true, keep, pairs);
    }
    append_each(units, bytes, rise, keep, pairs)
}

/// The pairs of a layout, in memory of their own size.
fn pairs_of<A: Allocator>(
    alloc: A,
    layout: Layout,
    bytes: &[u8],
    rise: bool,
    keep: Keep,
) -> Result<Vec<(u16, u16), A>, AllocError>
    requires can { CanKeep keep }
    requires sound { IsSound bytes.now layout }
    requires rise { IsTrue rise → Rises bytes.now layout }
    ensures { IfOk result (λ pairs. pairs.items ≡ kept_pairs bytes.now keep layout) }
{
    let mut pairs = Vec::with_capacity(alloc, layout.glyphs(bytes, rise))?;
    match layout {
        Layout::Array(segment) => segment.append(bytes, keep, &mut pairs)?,
        Layout::Searched(units) => append_units(units, bytes, rise, keep, &mut pairs)?,
    }
    Ok(pairs)
}

/// The lookup of segments. Fails only where it gets no memory.
fn lookup_of_segments<A: Allocator + Copy>(
    alloc: A,
    segments: &[LookupSegment],
) -> Result<Lookup<A>, AllocError>
    requires { first_segment_fall segments.now ≡ None }
    ensures { IfOk result (λ lookup. lookup ≡ pairs_of_segments segments.now) }
{
    match Lookup::from_segments(alloc, segments) {
        Ok(lookup) => Ok(lookup),
        Err(TableError::OutOfMemory) => Err(AllocError),
        Err(_) => unreachable!(),
    }
}

/// The lookup of the values of an array. Fails only where it gets no memory.
fn array_lookup<A: Allocator + Copy>(
    alloc: A,
    segment: Segment,
    bytes: &[u8],
    keep: Keep,
) -> Result<Lookup<A>, AllocError>
    requires can { CanKeep keep }
    requires sound { Fits bytes.now segment }
    ensures { IfOk result (λ lookup. lookup ≡ kept_pairs bytes.now keep (Array segment)) }
{
    if segment.count == 0 {
        return Lookup::of_rising_list(alloc, Vec::new(alloc));
    }
    let values = segment.kept_values(alloc, bytes, keep)?;
    Lookup::of_values_from(alloc, segment.first as u16, values)
}

/// The lookup of a layout that is kept as pairs. Fails only where it gets no memory.
fn listed_lookup<A: Allocator + Copy>(
    alloc: A,
    layout: Layout,
    bytes: &[u8],
    rise: bool,
    keep: Keep,
) -> Result<Lookup<A>, AllocError>
    requires can { CanKeep keep }
    requires sound { IsSound bytes.now layout }
    requires rise { IsTrue rise → Rises bytes.now layout }
    ensures { IfOk result (λ lookup. lookup ≡ kept_pairs bytes.now keep layout) }
{
    if let Layout::Array(segment) = layout {
        return array_lookup(alloc, segment, bytes, keep);
    }
    let pairs = pairs_of(alloc, layout, bytes, rise, keep)?;
    Lookup::of_rising_list(alloc, pairs)
}

/// The lookup of a layout that is kept as segments. Fails only where it gets no memory.
pub(crate) fn spread_lookup<A: Allocator + Copy>(
    alloc: A,
    layout: Layout,
    bytes: &[u8],
    rise: bool,
    keep: Keep,
) -> Result<Lookup<A>, AllocError>
    requires can { CanKeep keep }
    requires sound { IsSound bytes.now layout }
    requires rise { IsTrue rise → Rises bytes.now layout }
    ensures { IfOk result (λ lookup. lookup ≡ kept_pairs bytes.now keep layout) }
{
    let segments = layout.segments(alloc, bytes, rise, keep)?;
    lookup_of_segments(alloc, &segments)
}

/// The lookup of a layout. Fails only where it gets no memory.
pub(crate) fn lookup_of<A: Allocator + Copy>(
    alloc: A,
    layout: Layout,
    bytes: &[u8],
    keep: Keep,
) -> Result<Lookup<A>, AllocError>
    requires can { CanKeep keep }
    requires sound { IsSound bytes.now layout }
    ensures { IfOk result (λ lookup. lookup ≡ kept_pairs bytes.now keep layout) }
{
    let rise = layout.does_rise(bytes);
    if layout.is_spread(bytes, rise) {
        return spread_lookup(alloc, layout, bytes, rise, keep);
    }
    listed_lookup(alloc, layout, bytes, rise, keep)
}

/// Reads the pairs of the lookup that starts at a place of a table, as `read_lookup` does, with the same faults.
pub fn read_pairs<A: Allocator>(
    alloc: A,
    table: Tag,
    bytes: &[u8],
    place: usize,
    glyph_count: u16,
) -> Result<Vec<(u16, u16), A>, ReadError>
    ensures { let read = lookup_at table bytes.now place glyph_count in
        MatchResult result (λ pairs. read ≡ Ok pairs.items) (Refuses read) }
{
    let layout = Layout::read(table, bytes, place, glyph_count, ValueKind::Word)?;
    let rise = layout.does_rise(bytes);
    Ok(pairs_of(alloc, layout, bytes, rise, Keep::Value)?)
}

/// Reads the lookup that starts at a place of a table, in bytes from the start of the table. `bytes` is the whole
/// table: the lists of a lookup may reach to its end, and its offsets count from the start of the lookup. The formats
/// are 0, 2, 4, 6, 8, and 10 with values of one or two bytes. `glyph_count` is the number of glyphs of `maxp`, which
/// format 0 has values for.
///
/// The first fault in this order, of `table`, with its place from the start of the table. 1, `PastEnd`, a lookup whose
/// format is not there, and 2, `UnknownFormat`, one of another format, both at `place`. Of formats 0, 8 and 10: 1, a
/// header that is not there, at `place`; 2, values of another size than 1 or 2, at the size; 1, values that are not
/// there, at the first value. Of formats 2, 4 and 6: 1, a header of 12 bytes that is not there, at `place`; 3,
/// `ShortLength`, units that are smaller than their records, at their size; 1, units that are not there, at the first
/// of them; then for each unit of format 4 in the order of the file, found or not, 5, `NotRising`, at the unit, if its
/// last glyph is below its first one, and 1, values that are not there, at the first value; and last 1, units of format 4
/// that share so many values that these, counted for each unit, and the records of the units are more bytes than stand
/// from `place` to the end of the table, at `place`. A unit may be wider than its record. A terminator that is counted as
/// the last unit is none.
///
/// A glyph has the value of the unit that a bisection over all units finds for it, as in HarfBuzz. Where units rise, each
/// is found for all its glyphs; else some are found for a part of them, or for none.
///
/// `OutOfMemory` comes only if the bytes have no fault. There are at most 65,536 glyphs. They are kept as pairs, of the
/// formats 0, 8 and 10 as values alone, and as segments where pairs and the cells beside them would take more than 7
/// bytes for each byte that the lookup is read from, as of format 10 with values of one byte: so it takes at most 7
/// bytes for each. As segments its list is in memory twice until it is read. `lookup_size` tells how many bytes it
/// takes at most, and `lookup_bytes` how many it is read from.
///
/// Apple's TrueType Reference Manual, "Font Tables", section on lookup tables.
pub fn read_lookup<A: Allocator + Copy>(
    alloc: A,
    table: Tag,
    bytes: &[u8],
    place: usize,
    glyph_count: u16,
) -> Result<Lookup<A>, ReadError>
    ensures { Gives result (lookup_at table bytes.now place glyph_count) }
{
    let layout = Layout::read(table, bytes, place, glyph_count, ValueKind::Word)?;
    Ok(lookup_of(alloc, layout, bytes, Keep::Value)?)
}
