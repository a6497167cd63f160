//! How a picture looks.

use std::fmt;
use std::io::{self, Write};

/// A colour: how red, how green, how blue and how opaque it is.
#[derive(Clone, Copy)]
pub struct Colour(pub [u8; 4]);

impl Colour {
    /// The colour of a number as `0xRRGGBB`, which is opaque.
    pub const fn opaque(number: u32) -> Colour {
        let [_, red, green, blue] = number.to_be_bytes();
        Colour([red, green, blue, 0xFF])
    }
}

impl fmt::Display for Colour {
    /// As SVG writes it: by six digits where it is opaque, else by eight.
    fn fmt<W: fmt::Write>(&self, f: &mut fmt::Formatter<W>) -> fmt::Result {
        let number = u32::from_be_bytes(self.0);
        if self.0[3] == 0xFF {
            write!(f, "#{:06x}", number >> 8)
        } else {
            write!(f, "#{number:08x}")
        }
    }
}

/// The colours of what is numbered, each for every eighth one.
const COLOURS: [u32; 8] = [
    0x1668BD, 0xC2410C, 0x15803D, 0x7E22CE, 0xA16207, 0xBE185D, 0x0E7490, 0x4D7C0F,
];

/// The colour of what has a number, as a subtable or a state: every eighth number has the same one.
pub fn colour_by(number: usize) -> Colour {
    Colour::opaque(COLOURS[number % 8])
}

/// How a picture looks.
#[derive(Clone, Copy)]
pub struct Paint {
    /// What stands behind the lines.
    pub background: Colour,
    /// The colour of glyphs that no subtable changed.
    pub foreground: Colour,
    /// How many pixels an em has, where a pixel counts 65536.
    pub em: u32,
    /// How many pixels are left free at the ends of lines, and half as many beside them; half an em and a quarter where
    /// none are asked.
    pub margin: Option<u16>,
}

impl Paint {
    /// Dark glyphs on white, of 64 pixels an em.
    pub fn plain() -> Paint {
        Paint {
            background: Colour::opaque(0xFFFFFF),
            foreground: Colour::opaque(0x222222),
            em: 64 << 16,
            margin: None,
        }
    }
}

/// Writes the head of a picture of a width and a height, and its ground.
pub(crate) fn write_head<W: Write>(
    out: &mut W,
    paint: &Paint,
    width: i64,
    height: i64,
) -> io::Result<()> {
    let ground = paint.background;
    write!(
        out,
        "<svg xmlns=\"http://www.w3.org/2000/svg\" viewBox=\"0 0 {width} {height}\""
    )?;
    write!(out, " width=\"{width}\" height=\"{height}\"")?;
    writeln!(out, " font-family=\"sans-serif\" font-size=\"11\">")?;
    writeln!(
        out,
        "<path d=\"M0 0H{width}V{height}H0Z\" fill=\"{ground}\"/>"
    )
}
