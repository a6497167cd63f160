//! Named bits.
ghost use Rattle.std.specs.Prelude.{⊤, [], ◌∷◌, codes};

use bitflags::{Flag, Flags, bitflag_items};

/// What the caller asks of the buffer. `PRODUCE_UNSAFE_TO_CONCAT`: the marks of `unsafe_to_concat` are wanted.
#[derive(Clone, Copy, PartialEq, Eq, Debug)]
pub struct BufferFlags(u32);

bitflag_items! {
    impl BufferFlags: u32 {
        const PRODUCE_UNSAFE_TO_CONCAT = 0x40;
    }
}

impl Flags for BufferFlags {
    type Bits = u32;

    ghost exact = { ⊤ };

    ghost table = { (codes "PRODUCE_UNSAFE_TO_CONCAT", 64) ∷ [] };

    ghost set_of = { λ f. f.0 };

    fn flags<'a>() -> &'a [Flag<BufferFlags>] {
        BufferFlags::FLAGS
    }

    fn bits(&self) -> u32 {
        let BufferFlags(own) = *self;
        own
    }

    fn from_bits_retain(bits: u32) -> BufferFlags {
        BufferFlags(bits)
    }
}

/// What shaping found out. `HAS_GPOS_ATTACHMENT`: some glyph is attached to another.
#[derive(Clone, Copy, PartialEq, Eq, Debug)]
pub struct ScratchFlags(u32);

bitflag_items! {
    impl ScratchFlags: u32 {
        const HAS_GPOS_ATTACHMENT = 0x08;
    }
}

impl Flags for ScratchFlags {
    type Bits = u32;

    ghost exact = { ⊤ };

    ghost table = { (codes "HAS_GPOS_ATTACHMENT", 8) ∷ [] };

    ghost set_of = { λ f. f.0 };

    fn flags<'a>() -> &'a [Flag<ScratchFlags>] {
        ScratchFlags::FLAGS
    }

    fn bits(&self) -> u32 {
        let ScratchFlags(own) = *self;
        own
    }

    fn from_bits_retain(bits: u32) -> ScratchFlags {
        ScratchFlags(bits)
    }
}

/// Properties of the character behind a glyph. `IGNORABLE`: it is drawn only where a font asks for that.
#[derive(Clone, Copy, PartialEq, Eq, Debug)]
pub struct UnicodeProps(u16);

bitflag_items! {
    impl UnicodeProps: u16 {
        const IGNORABLE = 0x20;
    }
}

impl Flags for UnicodeProps {
    type Bits = u16;

    ghost exact = { ⊤ };

    ghost table = { (codes "IGNORABLE", 32) ∷ [] };

    ghost set_of = { λ f. f.0 };

    fn flags<'a>() -> &'a [Flag<UnicodeProps>] {
        UnicodeProps::FLAGS
    }

    fn bits(&self) -> u16 {
        let UnicodeProps(own) = *self;
        own
    }

    fn from_bits_retain(bits: u16) -> UnicodeProps {
        UnicodeProps(bits)
    }
}
