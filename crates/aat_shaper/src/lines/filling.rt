//! What lines are filled by.
ghost use Rattle.std.specs.Prelude.{◌≡◌, ◌<◌, ◌≤◌, length};
ghost use Rattle.aat_shaper.specs.Lines.{start_of, stop_at};
ghost use Rattle.aat_shaper.specs.inside.Filling.{IsReady};

use crate::lines::LineStop;
use aat_layout::buffer::Direction;
use aat_layout::font::{Feature, hb_font_t};
use aat_shaped_text::{ShapedGlyph, TextGlyph};

/// A text that is broken into lines.
#[derive(Drop)]
pub(crate) struct Filling<'a> {
    /// The value by which it is tracked.
    pub(crate) value: i32,
    /// Its font.
    pub(crate) font: &'a hb_font_t,
    /// Its direction.
    pub(crate) direction: Direction,
    /// Its features.
    pub(crate) features: &'a [Feature],
    /// The text.
    pub(crate) text: &'a [TextGlyph],
    /// Its stops.
    pub(crate) stops: &'a [LineStop],
    /// Whether ignorable glyphs count for no width.
    pub(crate) hides_ignorables: bool,
    /// The greatest width of a line.
    pub(crate) width: u64,
    /// What is drawn of the whole text in one line.
    pub(crate) whole: &'a [ShapedGlyph],
}

impl Filling<'_> {
    /// Where the line begins whose first stop has a number.
    pub(crate) fn start_of(&self, first: usize) -> usize
        requires { first ≤ length self.now.stops.now }
        ensures { result ≡ start_of self.now.stops.now first }
    {
        if first == 0 {
            0
        } else {
            self.stops[first - 1].place
        }
    }
}
