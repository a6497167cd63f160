//! Laws of reading as theorems. These calls do nothing: what is proved is their contracts.
ghost use Rattle.aat_read_lookup.specs.LookupLaws.{ValuesAreThoseFound, ValuesAreThoseOfSegments};
ghost use Rattle.aat_read_lookup.specs.LongLaws as long;
ghost use Rattle.aat_read_lookup.specs.SizeLaws.{ArraysAreCounted, BytesAreInside, LookupsAreBounded, PairsRise};

/// A lookup that is read gives each glyph the value that the bytes have for it: that of the one segment that has it. Where
/// it has units, whether they rise or not, this is the value of the unit that a bisection over all of them finds.
pub fn values_are_those_of_segments()
    ensures segments { ValuesAreThoseOfSegments }
    ensures units { ValuesAreThoseFound }
{}

/// The pairs of a lookup that is read rise strictly by glyph.
pub fn pairs_rise()
    ensures { PairsRise }
{}

/// A lookup takes at most 7 bytes of memory for each byte that it is read from, the cells of an array beside its pairs
/// with them, and is read from no more bytes than stand from its place to the end of the table.
pub fn lookups_are_bounded()
    ensures memory { LookupsAreBounded }
    ensures cells { ArraysAreCounted }
    ensures bytes { BytesAreInside }
{}

/// The pairs of a lookup with values of 32 bits that is read rise strictly by glyph.
pub fn long_pairs_rise()
    ensures { long.PairsRise }
{}

/// The rows of a lookup with values of 32 bits take at most 6 bytes of memory for each byte that it is read from, and it
/// is read from no more bytes than stand from its place to the end of the table.
pub fn long_lookups_are_bounded()
    ensures memory { long.LookupsAreBounded }
    ensures bytes { long.BytesAreInside }
{}
