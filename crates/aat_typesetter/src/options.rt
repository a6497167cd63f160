//! How a text is to be typeset.
ghost use Rattle.std.specs.Prelude.{◌≡◌, [], None};
ghost use Rattle.aat_text.specs.declared.clusters.ClusterLevel.TheVariants as levels;
ghost use Rattle.aat_text.specs.declared.unit.ClusterUnit.TheVariants as units;

use aat_characters::Script;
use aat_font::Feature;
use aat_glyph::Direction;
use aat_text::{ClusterLevel, ClusterUnit};

/// How a text is to be typeset.
///
/// ```
/// let options = TextOptions { size: Some(12 << 16), ..TextOptions::new() };
/// ```
#[derive(Clone, Copy, Debug)]
pub struct TextOptions<'o> {
    /// The direction. `None` is that of the script, and left to right where that is written both ways or the text has
    /// none.
    pub direction: Option<Direction>,
    /// The script. `None` is the first that a character of the text has.
    pub script: Option<Script>,
    /// The features, each over its range of clusters, in an order as `Shaper::shape` of `aat_shaper` takes them.
    pub features: &'o [Feature],
    /// The point size at which the text is tracked, a 16.16 fixed number: 65536 is a point. Without one it is 12 points
    /// where the file has the table `STAT`, as in HarfBuzz, and else the text is not tracked; nor is it where the size
    /// is 0, or the font has no tracks.
    pub size: Option<u32>,
    /// What clusters count.
    pub unit: ClusterUnit,
    /// What has a cluster of its own.
    pub level: ClusterLevel,
    /// The glyph of a character that the font has no glyph for, as HarfBuzz's `hb_buffer_set_not_found_glyph` has it.
    /// Here 0xFFFF, a deleted glyph, leaves them out.
    pub not_found: u16,
}

impl TextOptions<'_> {
    /// No direction, no script, no features and no size. Clusters are graphemes, and count bytes. A character that the
    /// font has no glyph for has the glyph 0.
    pub fn new() -> Self
        ensures direction { result.direction ≡ None }
        ensures script { result.script ≡ None }
        ensures features { result.features.now ≡ [] }
        ensures size { result.size ≡ None }
        ensures unit { result.unit ≡ units.Bytes }
        ensures level { result.level ≡ levels.Graphemes }
        ensures not_found { result.not_found ≡ 0 }
    {
        TextOptions {
            direction: None,
            script: None,
            features: &[],
            size: None,
            unit: ClusterUnit::Bytes,
            level: ClusterLevel::Graphemes,
            not_found: 0,
        }
    }
}

impl Default for TextOptions<'_> {
    fn default() -> Self {
        TextOptions::new()
    }
}
