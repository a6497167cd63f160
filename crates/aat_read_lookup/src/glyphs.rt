//! The number of glyphs of lookups, and of the bytes of units.
ghost use Rattle.std.specs.Prelude.{◌≡◌, ◌<◌, ◌^◌, IsTrue};
ghost use Rattle.std.specs.List.{sum_by};
ghost use Rattle.aat_read_lookup.specs.Layouts.{are_crowded, glyphs_of, has_offset, named_glyphs, segments_of, unit_bytes};
ghost use Rattle.aat_read_lookup.specs.inside.Sound.{AreInside, AreSound, DoRise, IsSound, Rises};
ghost use Rattle.aat_read_lookup.specs.declared.units.UnitKind.TheVariants.{Single};

use crate::layout::Layout;
use crate::units::{UnitKind, Units};

impl UnitKind {
    /// Whether a unit has the offset of its values.
    pub(crate) fn has_offset(self) -> bool
        ensures { result ≡ has_offset self }
    {
        match self {
            UnitKind::SegmentSingle => false,
            UnitKind::SegmentArray => true,
            UnitKind::Single => false,
        }
    }

    /// Whether a unit is a glyph.
    pub(crate) fn is_single(self) -> bool
        ensures { IsTrue result → self ≡ Single }
    {
        match self {
            UnitKind::SegmentSingle => false,
            UnitKind::SegmentArray => false,
            UnitKind::Single => true,
        }
    }
}

impl Units {
    /// Whether each unit is a glyph, and they rise, so that each is found.
    pub(crate) fn are_singles(self, rise: bool) -> bool
        ensures rise { IsTrue result → IsTrue rise }
        ensures single { IsTrue result → self.kind ≡ Single }
    {
        rise && self.kind.is_single()
    }

    /// The number of glyphs by which the units are found.
    pub(crate) fn glyphs(self, bytes: &[u8], rise: bool) -> usize
        requires sound { AreSound bytes.now self }
        requires rise { IsTrue rise → DoRise bytes.now self }
        ensures is { result ≡ glyphs_of bytes.now self }
        ensures few { result < 2 ^ 32 }
    {
        if self.are_singles(rise) {
            return self.count as usize;
        }
        let mut glyphs = 0;
        for i in 0..self.count {
            glyphs += self.segment(i, bytes, rise).count;
        }
        glyphs
    }

    /// The number of all glyphs of the units.
    fn named_glyphs(self, bytes: &[u8]) -> usize
        requires { AreInside bytes.now self }
        ensures is { result ≡ named_glyphs bytes.now self }
        ensures few { result < 2 ^ 32 }
    {
        let mut glyphs = 0;
        for i in 0..self.count {
            glyphs += self.unit(i, bytes).count;
        }
        glyphs
    }

    /// How many bytes the units are read from: their records, and the values of all their glyphs, if they have an offset.
    pub(crate) fn bytes(self, bytes: &[u8]) -> usize
        requires { AreInside bytes.now self }
        ensures is { result ≡ unit_bytes bytes.now self }
        ensures few { result < 2 ^ 35 }
    {
        let records = self.kind.record_size(self.values) as usize * self.count as usize;
        if self.kind.has_offset() {
            return records + self.values.size(self.named_glyphs(bytes));
        }
        records
    }

    /// Whether the units share so many values that their bytes are more than those from the start of the lookup to the
    /// end of the table.
    pub(crate) fn are_crowded(self, bytes: &[u8]) -> bool
        requires { AreInside bytes.now self }
        ensures { result ≡ are_crowded bytes.now self }
    {
        self.kind.has_offset() && bytes.len() - self.start < self.bytes(bytes)
    }
}

impl Layout {
    /// Whether its units each begin behind the end of those before it. An array has none.
    pub(crate) fn does_rise(self, bytes: &[u8]) -> bool
        requires { IsSound bytes.now self }
        ensures { IsTrue result → Rises bytes.now self }
    {
        match self {
            Layout::Array(_) => true,
            Layout::Searched(units) => units.do_rise(bytes),
        }
    }

    /// The number of glyphs of a layout.
    pub(crate) fn glyphs(self, bytes: &[u8], rise: bool) -> usize
        requires sound { IsSound bytes.now self }
        requires rise { IsTrue rise → Rises bytes.now self }
        ensures is { result ≡ sum_by (λ segment. segment.count) (segments_of bytes.now self) }
        ensures few { result < 2 ^ 32 }
    {
        match self {
            Layout::Array(segment) => segment.count,
            Layout::Searched(units) => units.glyphs(bytes, rise),
        }
    }
}
