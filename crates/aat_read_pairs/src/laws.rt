//! Laws of pairs that are read, as theorems. These calls do nothing: what is proved is their contracts.
ghost use Rattle.aat_read_pairs.specs.PairLaws.{ClassValuesAreBounded, ExtendedPairsAreBounded, ExtendedPairsAreThoseFound, ExtendedPairsRise, OffsetsAreAddedUp, PairsAreBounded, PairsAreThoseFound, PairsRise, RisingPairsAreAll};

/// Pairs that are read rise strictly by left, then by right glyph.
pub fn pairs_rise()
    ensures kern { PairsRise }
    ensures kerx { ExtendedPairsRise }
{}

/// Two glyphs have, by pairs that are read, the value of the row that a bisection over all rows finds for them, if it finds
/// one. Where rows rise strictly, all are read.
pub fn pairs_are_those_found()
    ensures kern { PairsAreThoseFound }
    ensures kerx { ExtendedPairsAreThoseFound }
    ensures rising { RisingPairsAreAll }
{}

/// Two glyphs have, by a subtable of format 2 of `kern` that is read, the value that stands as far from the start of the
/// subtable as the sum of their offsets says. It is 0 where the left glyph has no offset, and where that place is past
/// the end.
pub fn offsets_are_added_up()
    ensures { OffsetsAreAddedUp }
{}

/// Pairs that are read have 6 bytes each, and a subtable of format 2 of `kern` that is read has at most a value for each
/// byte from its start on: the values take at most 2 bytes of memory for each such byte.
pub fn pairs_are_bounded()
    ensures kern { PairsAreBounded }
    ensures kerx { ExtendedPairsAreBounded }
    ensures classes { ClassValuesAreBounded }
{}
