//! Segments: glyphs that follow one another, with their values.
ghost use Rattle.std.specs.Prelude.{◌≡◌, ◌+◌, ◌*◌, ◌<◌, ◌≤◌, ◌^◌, length, nat_lt};
ghost use Rattle.aat_read_lookup.specs.Segments.{is_long, is_shared, long_value_at, number_at, numbers_size, part_of, value_at, values_behind, values_end, values_place, values_size};
ghost use Rattle.aat_read_lookup.specs.inside.Sound.{Fits};

use aat_bytes::{be16, be32};

/// How many bits a value has.
#[derive(Clone, Copy)]
pub(crate) enum ValueKind {
    /// 16.
    Word,
    /// 32.
    Long,
}

impl ValueKind {
    /// Whether a value has 32 bits.
    pub(crate) fn is_long(self) -> bool
        ensures { result ≡ is_long self }
    {
        match self {
            ValueKind::Word => false,
            ValueKind::Long => true,
        }
    }

    /// How many bytes so many values take.
    pub(crate) fn size(self, count: usize) -> usize
        requires { count < 2 ^ 32 }
        ensures is { result ≡ numbers_size self count }
        ensures few { result ≤ 4 * count }
    {
        match self {
            ValueKind::Word => 2 * count,
            ValueKind::Long => 4 * count,
        }
    }

    /// The value at a place.
    fn number(self, bytes: &[u8], at: usize) -> u32
        requires { at + numbers_size self 1 ≤ length bytes.now }
        ensures { result ≡ number_at bytes.now self at }
    {
        match self {
            ValueKind::Word => be16(bytes, at) as u32,
            ValueKind::Long => be32(bytes, at),
        }
    }
}

/// Where the values of a segment stand in the table.
#[derive(Clone, Copy)]
pub(crate) enum Values {
    /// One number, the value of each glyph.
    Shared(ValueKind, usize),
    /// A number for each glyph.
    Each(ValueKind, usize),
    /// A byte for each glyph.
    Bytes(usize),
}

impl Values {
    /// The place of the first value.
    pub(crate) fn place(self) -> usize
        ensures { result ≡ values_place self }
    {
        match self {
            Values::Shared(_, at) => at,
            Values::Each(_, at) => at,
            Values::Bytes(at) => at,
        }
    }

    /// How many bytes the values of so many glyphs take.
    pub(crate) fn size(self, count: usize) -> usize
        requires { count ≤ 65536 }
        ensures is { result ≡ values_size self count }
        ensures few { result < 2 ^ 20 }
    {
        match self {
            Values::Shared(kind, _) => kind.size(1),
            Values::Each(kind, _) => kind.size(count),
            Values::Bytes(_) => count,
        }
    }

    /// The values without those of so many glyphs in front.
    fn behind(self, count: usize) -> Values
        requires near { values_place self < 2 ^ 63 + 2 ^ 32 }
        requires few { count ≤ 65536 }
        ensures { result ≡ values_behind self count }
    {
        match self {
            Values::Shared(kind, at) => Values::Shared(kind, at),
            Values::Each(kind, at) => Values::Each(kind, at + kind.size(count)),
            Values::Bytes(at) => Values::Bytes(at + count),
        }
    }

    /// Whether all glyphs have one value.
    pub(crate) fn is_shared(self) -> bool
        ensures { result ≡ is_shared self }
    {
        match self {
            Values::Shared(_, _) => true,
            Values::Each(_, _) => false,
            Values::Bytes(_) => false,
        }
    }
}

/// Glyphs that follow one another, with their values.
#[derive(Clone, Copy)]
pub(crate) struct Segment {
    /// The first glyph.
    pub(crate) first: usize,
    /// The number of glyphs.
    pub(crate) count: usize,
    /// Where their values stand.
    pub(crate) values: Values,
}

impl Segment {
    /// The segment without the glyphs below one, and without those from another one on.
    pub(crate) fn part(self, first: usize, end: usize) -> Segment
        requires near { values_place self.values < 2 ^ 63 + 2 ^ 32 }
        requires few { self.count ≤ 65536 }
        requires rise { first ≤ end }
        ensures { result ≡ part_of self (first, end) }
    {
        let skipped = first.saturating_sub(self.first).min(self.count);
        Segment {
            first,
            count: end - first,
            values: self.values.behind(skipped),
        }
    }

    /// Whether a value stands past the end of the table.
    pub(crate) fn is_past_end(self, bytes: &[u8]) -> bool
        requires near { values_place self.values ≤ length bytes.now + 65536 }
        requires few { self.count ≤ 65536 }
        ensures { result ≡ nat_lt (length bytes.now) (values_end self) }
    {
        bytes.len() < self.values.place() + self.values.size(self.count)
    }

    /// The value of 16 bits of the glyph that stands so many glyphs behind the first.
    #[inline(always)]
    pub(crate) fn value(self, bytes: &[u8], k: usize) -> u16
        requires fits { Fits bytes.now self }
        requires below { k < self.count }
        ensures { result ≡ value_at bytes.now self.values k }
    {
        match self.values {
            Values::Shared(_, at) => be16(bytes, at),
            Values::Each(kind, at) => be16(bytes, at + kind.size(k)),
            Values::Bytes(at) => bytes[at + k] as u16,
        }
    }

    /// The value of up to 32 bits of the glyph that stands so many glyphs behind the first.
    pub(crate) fn long_value(self, bytes: &[u8], k: usize) -> u32
        requires fits { Fits bytes.now self }
        requires below { k < self.count }
        ensures { result ≡ long_value_at bytes.now self.values k }
    {
        match self.values {
            Values::Shared(kind, at) => kind.number(bytes, at),
            Values::Each(kind, at) => kind.number(bytes, at + kind.size(k)),
            Values::Bytes(at) => bytes[at + k] as u32,
        }
    }
}
