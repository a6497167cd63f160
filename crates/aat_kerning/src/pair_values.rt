//! The kerning values of pairs of glyphs, however a table has them.
ghost use Rattle.std.specs.Prelude.{◌≡◌, ◌≤◌};
ghost use Rattle.aat_kerning.specs.Values.{values_of};

use aat_kerning_tables::{ClassPairs, Pairs};
use aat_lookup::GlyphId;

/// The kerning values of pairs of glyphs.
#[derive(Clone, Copy)]
pub enum PairValues<'a> {
    /// Pairs that are listed.
    Listed(&'a Pairs),
    /// Pairs of classes.
    Classes(&'a ClassPairs),
}

/// The kerning value of two glyphs, in units of the font: 0 where the table has none. Each glyph id has to be at most
/// 0xFFFF. It takes a search of the pairs, or two look-ups of classes.
#[inline(always)]
pub fn value_of(values: PairValues, left: u32, right: u32) -> i16
    requires left_id { left ≤ 65535 }
    requires right_id { right ≤ 65535 }
    ensures { result ≡ values_of values.entry left right }
{
    let left = GlyphId(left as u16);
    let right = GlyphId(right as u16);
    match values {
        PairValues::Listed(pairs) => pairs.glyphs_kerning(left, right).unwrap_or(0),
        PairValues::Classes(pairs) => pairs.glyphs_kerning(left, right),
    }
}
