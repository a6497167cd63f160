//! The charstrings of a font file.

use crate::font::CharStrings;
use crate::tags::CFF;
use aat_bytes::{Fault, FaultKind};
use aat_read_sfnt::FontFile;

impl<'a> CharStrings<'a> {
    ghost use Rattle.std.specs.Prelude.{◌≡◌};
    ghost use Rattle.aat_read_charstrings.specs.Files.{charstrings_in};

    /// The charstrings of a font file, or `None` where it has no table `CFF `.
    ///
    /// The first fault in this order: that the table reaches past the end of the file, 1, `PastEnd`, at 0; what `new`
    /// finds.
    pub fn of_file(file: &FontFile<'a>) -> Result<Option<CharStrings<'a>>, Fault>
        ensures { result ≡ charstrings_in file.now }
    {
        match file.table(CFF) {
            Ok(cff) => Ok(Some(CharStrings::new(cff)?)),
            Err(fault) => match fault.kind {
                FaultKind::Missing => Ok(None),
                _ => Err(fault),
            },
        }
    }
}
