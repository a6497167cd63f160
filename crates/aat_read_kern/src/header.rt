//! The headers of subtables of the kerning table.
ghost use Rattle.std.specs.Prelude.{◌≡◌, ◌+◌, ◌≤◌, length, IfOk};
ghost use Rattle.aat_read_kern.specs.Kern.{apples_list_of, coverage_at, format_at, format_place, header_size, is_cross_stream, is_horizontal, is_read, is_variable, length_at, length_place, list_of};

use aat_bytes::{Fault, FaultKind, be16, be32};
use aat_read_pairs::KERN;

/// Which header a kerning table has.
#[derive(Clone, Copy)]
pub(crate) enum KernHeader {
    /// That of Apple's tables.
    Apple,
    /// That of OpenType's tables.
    OpenType,
}

/// The subtables of a kerning table.
#[derive(Clone, Copy)]
pub(crate) struct KernList {
    /// Which header they have.
    pub(crate) header: KernHeader,
    /// Where the first one starts.
    pub(crate) place: usize,
    /// How many there are.
    pub(crate) count: u32,
}

impl KernList {
    /// The subtables of a table.
    #[tactic(auto, unfolding(crate::specs::Kern::list_of))]
    pub(crate) fn read(bytes: &[u8]) -> Result<KernList, Fault>
        ensures is { result ≡ list_of bytes.now }
        ensures inside { IfOk result (λ list. list.place ≤ length bytes.now) }
        ensures few { IfOk result (λ list. list.count ≤ 65535) }
    {
        if bytes.len() < 4 {
            return Err(Fault::new(KERN, FaultKind::PastEnd, 0));
        }
        match be16(bytes, 0) {
            0 => Ok(KernList {
                header: KernHeader::OpenType,
                place: 4,
                count: be16(bytes, 2) as u32,
            }),
            1 => KernList::of_apple(bytes),
            _ => Err(Fault::new(KERN, FaultKind::UnknownFormat, 0)),
        }
    }

    /// The subtables of a table of Apple's version.
    fn of_apple(bytes: &[u8]) -> Result<KernList, Fault>
        ensures is { result ≡ apples_list_of bytes.now }
        ensures inside { IfOk result (λ list. list.place ≤ length bytes.now) }
        ensures few { IfOk result (λ list. list.count ≤ 65535) }
    {
        if bytes.len() < 8 {
            return Err(Fault::new(KERN, FaultKind::PastEnd, 0));
        }
        let count = be32(bytes, 4);
        if count > 65535 {
            return Err(Fault::new(KERN, FaultKind::PastEnd, 4));
        }
        Ok(KernList {
            header: KernHeader::Apple,
            place: 8,
            count,
        })
    }
}

impl KernHeader {
    /// How many bytes the header of a subtable has.
    pub(crate) fn size(self) -> usize
        ensures { result ≡ header_size self }
    {
        match self {
            KernHeader::Apple => 8,
            KernHeader::OpenType => 6,
        }
    }

    /// Where the length of a subtable stands.
    pub(crate) fn length_place(self, place: usize, bytes: &[u8]) -> usize
        requires { place + header_size self ≤ length bytes.now }
        ensures { result ≡ length_place self place }
    {
        match self {
            KernHeader::Apple => place,
            KernHeader::OpenType => place + 2,
        }
    }

    /// The length of a subtable.
    pub(crate) fn length_at(self, place: usize, bytes: &[u8]) -> u32
        requires { place + header_size self ≤ length bytes.now }
        ensures { result ≡ length_at bytes.now self place }
    {
        match self {
            KernHeader::Apple => be32(bytes, place),
            KernHeader::OpenType => be16(bytes, place + 2) as u32,
        }
    }

    /// The format of a subtable.
    pub(crate) fn format_at(self, place: usize, bytes: &[u8]) -> u8
        requires { place + header_size self ≤ length bytes.now }
        ensures { result ≡ format_at bytes.now self place }
    {
        match self {
            KernHeader::Apple => bytes[place + 5],
            KernHeader::OpenType => bytes[place + 4],
        }
    }

    /// Where the format of a subtable stands.
    pub(crate) fn format_place(self, place: usize, bytes: &[u8]) -> usize
        requires { place + header_size self ≤ length bytes.now }
        ensures { result ≡ format_place self place }
    {
        match self {
            KernHeader::Apple => place + 5,
            KernHeader::OpenType => place + 4,
        }
    }

    /// Whether a format is read with this header.
    pub(crate) fn is_read(self, format: u8) -> bool
        ensures { result ≡ is_read self format }
    {
        match self {
            KernHeader::Apple => format < 4,
            KernHeader::OpenType => format == 0 || format == 2,
        }
    }

    /// The coverage of a subtable.
    pub(crate) fn coverage_at(self, place: usize, bytes: &[u8]) -> u8
        requires { place + header_size self ≤ length bytes.now }
        ensures { result ≡ coverage_at bytes.now self place }
    {
        match self {
            KernHeader::Apple => bytes[place + 4],
            KernHeader::OpenType => bytes[place + 5],
        }
    }

    /// Whether a subtable is for horizontal text.
    pub(crate) fn is_horizontal(self, coverage: u8) -> bool
        ensures { result ≡ is_horizontal self coverage }
    {
        match self {
            KernHeader::Apple => coverage & 0x80 == 0,
            KernHeader::OpenType => coverage & 0x01 != 0,
        }
    }

    /// Whether its values move glyphs across the line.
    pub(crate) fn is_cross_stream(self, coverage: u8) -> bool
        ensures { result ≡ is_cross_stream self coverage }
    {
        match self {
            KernHeader::Apple => coverage & 0x40 != 0,
            KernHeader::OpenType => coverage & 0x04 != 0,
        }
    }

    /// Whether its values are those of variations.
    pub(crate) fn is_variable(self, coverage: u8) -> bool
        ensures { result ≡ is_variable self coverage }
    {
        match self {
            KernHeader::Apple => coverage & 0x20 != 0,
            KernHeader::OpenType => false,
        }
    }
}
