//! What the run of a subtable is given besides the line.
ghost use Rattle.std.specs.Prelude.{◌≡◌};
ghost use Rattle.aat_run.specs.Ranges.{switch_for};

use aat_font::hb_font_t;
use aat_glyph::hb_mask_t;
use aat_run::{Wakers, is_on, range_flags_t};

/// What the run of a subtable is given besides the line.
#[derive(Clone, Copy)]
pub struct SubtableRun<'a> {
    /// The font, for the classes of its glyphs.
    pub face: &'a hb_font_t,
    /// The ranges of the subtable's chain with their flags, empty where none are compiled.
    pub ranges: &'a [range_flags_t],
    /// The subtable is on where the chain's flags share a bit with these.
    pub feature_flags: hb_mask_t,
    /// Which glyphs may wake the subtable, where that is known.
    pub wakers: Option<Wakers<'a>>,
}

impl SubtableRun<'_> {
    /// Whether the subtable is on at a cluster: always where no ranges are compiled.
    pub fn is_on(&self, cluster: u32) -> bool
        ensures { result ≡ (switch_for self.now.ranges.now).is_on self.now.feature_flags cluster }
    {
        is_on(self.ranges, self.feature_flags, cluster)
    }
}
