//! Tables of a font file that may be missing, and the numbers that metrics need of them. A table that the directory
//! does not name is missing, which is no fault.
ghost use Rattle.std.specs.Prelude.{◌≡◌, MatchResult, option_copied};
ghost use Rattle.aat_read_sfnt.specs.Directory.{cut_table_of};
ghost use Rattle.aat_read_metrics.specs.Tables.{found_in, glyph_count_in, number_in, unless_missing, units_per_em_in};

use aat_bytes::{Fault, FaultKind, Tag};
use aat_read_sfnt::FontFile;
use aat_read_sfnt::tags::{HEAD, MAXP};

/// The bytes of a table as far as the file has them, or `None` where the directory does not name it.
///
/// Refused as `FontFile::cut_table` of `aat_read_sfnt`, but for 4, `Missing`.
pub fn optional_table<'a>(file: &FontFile<'a>, tag: Tag) -> Result<Option<&'a [u8]>, Fault>
    ensures { let table = unless_missing (cut_table_of file.now tag) in
        MatchResult result (λ t. table ≡ Ok (option_copied t)) (λ fault. table ≡ Err fault) }
{
    match file.cut_table(tag) {
        Ok(bytes) => Ok(Some(bytes)),
        Err(fault) => match fault.kind {
            FaultKind::Missing => Ok(None),
            _ => Err(fault),
        },
    }
}

/// The number of glyphs of the table `maxp`, `None` where it is missing. Refused as `optional_table`, and then as
/// `glyph_count` of `aat_read_sfnt`.
///
/// Apple's TrueType Reference Manual, "The 'maxp' table".
pub fn glyph_count_in(file: &FontFile<'_>) -> Result<Option<u16>, Fault>
    ensures { result ≡ glyph_count_in file.now }
{
    match optional_table(file, MAXP)? {
        Some(bytes) => Ok(Some(aat_read_sfnt::glyph_count(bytes)?)),
        None => Ok(None),
    }
}

/// The units of the em of the table `head`, `None` where it is missing. Refused as `optional_table`, and then as
/// `units_per_em` of `aat_read_sfnt`.
///
/// Apple's TrueType Reference Manual, "The 'head' table".
pub fn units_per_em_in(file: &FontFile<'_>) -> Result<Option<u16>, Fault>
    ensures { result ≡ units_per_em_in file.now }
{
    match optional_table(file, HEAD)? {
        Some(bytes) => Ok(Some(aat_read_sfnt::units_per_em(bytes)?)),
        None => Ok(None),
    }
}

/// What is read of a table that is there and has no fault, else `None`.
pub fn found_in<X>(reading: Result<Option<X>, Fault>) -> Option<X>
    ensures { result ≡ found_in reading }
{
    match reading {
        Ok(found) => found,
        Err(_) => None,
    }
}

/// The number that is read of a table, 0 where it is missing or has a fault.
pub fn number_in(reading: &Result<Option<u16>, Fault>) -> u16
    ensures { result ≡ number_in reading.now }
{
    match reading {
        Ok(Some(number)) => *number,
        _ => 0,
    }
}
