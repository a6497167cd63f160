//! The outlines that a picture is drawn by.

use aat_bytes::Fault;
use aat_read_charstrings::CharStrings;
use aat_read_outlines::Outlines;
use aat_read_sfnt::FontFile;

/// The outlines of a font.
#[derive(Drop)]
pub enum FontOutlines<'a> {
    /// Those of `glyf`, which have quadratic curves.
    Quadratic(Outlines<'a>),
    /// Those of `CFF `, which have cubic ones.
    Cubic(CharStrings<'a>),
}

impl<'a> FontOutlines<'a> {
    ghost use Rattle.std.specs.Prelude.{◌≡◌};
    ghost use Rattle.aat_pictures.specs.FontOutlines.{outlines_in};

    /// The outlines of a font file: those of `glyf`, without it those of `CFF `, and `None` where it has neither table.
    ///
    /// The first fault in this order: what `Outlines::of_file` finds; without `glyf` what `CharStrings::of_file` finds.
    pub fn of_file(file: &FontFile<'a>) -> Result<Option<FontOutlines<'a>>, Fault>
        ensures { result ≡ outlines_in file.now }
    {
        if let Some(outlines) = Outlines::of_file(file)? {
            return Ok(Some(FontOutlines::Quadratic(outlines)));
        }
        match CharStrings::of_file(file)? {
            Some(charstrings) => Ok(Some(FontOutlines::Cubic(charstrings))),
            None => Ok(None),
        }
    }
}
