//! How much room a line takes.

use aat_bytes::i16_at;
use aat_read_sfnt::FontFile;
use aat_read_sfnt::tags::HHEA;

/// How far a line reaches above and below its baseline, in units of the font.
#[derive(Clone, Copy, PartialEq, Eq, Debug)]
pub struct LineMetrics {
    /// The units of the em.
    pub units_per_em: u16,
    /// How far it reaches above the baseline.
    pub ascent: i32,
    /// How far below the baseline it reaches, usually below 0.
    pub descent: i32,
}

impl LineMetrics {
    /// The metrics that the table `hhea` has. Where it is missing, has a fault or has no height, a line reaches 0.8 of the
    /// em up and 0.2 down.
    ///
    /// Apple's TrueType Reference Manual, "The 'hhea' table".
    pub fn of_file(file: &FontFile<'_>, units_per_em: u16) -> LineMetrics {
        let em = i32::from(units_per_em);
        let plain = LineMetrics {
            units_per_em,
            ascent: em * 4 / 5,
            descent: -(em / 5),
        };
        let Ok(hhea) = file.table(HHEA) else {
            return plain;
        };
        match (i16_at(hhea, 4), i16_at(hhea, 6)) {
            (Some(ascent), Some(descent)) if ascent > descent => LineMetrics {
                units_per_em,
                ascent: i32::from(ascent),
                descent: i32::from(descent),
            },
            _ => plain,
        }
    }

    /// The height of a line, with a gap of a tenth of the em.
    pub(crate) fn height(&self) -> i64 {
        let gap = i64::from(self.units_per_em / 10);
        i64::from(self.ascent) - i64::from(self.descent) + gap
    }
}
