//! Laws of the extended kerning table and of anchor points. These calls do nothing: what is proved is their contracts.
ghost use Rattle.aat_read_extended.specs.kerx.AnchorLaws.{PointsAreBounded, PointsAreThoseOfBytes};
ghost use Rattle.aat_read_extended.specs.kerx.KerxLaws.{KerxIsBounded, MachinesAreBounded, SubtablesAreThoseOfBytes};

/// A table of anchor points that is read has, for each glyph and index, the point of its bytes: the lookup gives the
/// glyph the offset of its points.
pub fn points_are_those_of_bytes()
    ensures { PointsAreThoseOfBytes }
{}

/// It takes at most 24 bytes of memory for each byte of the table. What a `Vec` has room for beyond what it holds does
/// not count.
pub fn points_are_bounded()
    ensures { PointsAreBounded }
{}

/// An extended kerning table that is read has the subtables of its bytes, in their order, each with what its header and
/// its bytes say at its place. Those that kern are in the table, and those that are left out are told.
pub fn subtables_are_those_of_bytes()
    ensures { SubtablesAreThoseOfBytes }
{}

/// A machine of formats 1 or 4 that is read takes at most 17 bytes of memory for each byte from its place on: its rules
/// with the cells beside them, its list and its classes. What a `Vec` has room for beyond what it holds does not count.
pub fn machines_are_bounded()
    ensures { MachinesAreBounded }
{}

/// An extended kerning table that is read takes at most 32 bytes of memory for each of its bytes: its subtables, with
/// their pairs, classes, machines and lists, and what is told of those that are left out. What a `Vec` has room for
/// beyond what it holds does not count.
pub fn kerx_is_bounded()
    ensures { KerxIsBounded }
{}
