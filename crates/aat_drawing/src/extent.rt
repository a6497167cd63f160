//! Where lines stand in a picture.

use crate::line::DrawnLine;
use crate::metrics::LineMetrics;
use aat_layout::buffer::Direction;

/// The room that lines take in a picture, in units of the font. Text in columns stands from right to left.
#[derive(Clone, Copy)]
pub(crate) struct Extent {
    /// How wide the picture is.
    pub(crate) width: i64,
    /// How high it is, without what stands below the lines.
    pub(crate) height: i64,
    /// What is left free on each side.
    margin: i64,
    /// How far the lines are apart.
    step: i64,
    /// How far the first line of a text in rows stands from the top.
    ascent: i64,
    /// Whether the text stands in columns.
    is_vertical: bool,
}

/// The length of the longest line.
fn longest(lines: &[DrawnLine]) -> i64 {
    let mut most = 0u64;
    for line in lines {
        most = most.max(line.length());
    }
    most.min(1 << 40) as i64
}

/// A picture is as big as that many lines at most.
const MOST_LINES: usize = 1 << 20;

impl Extent {
    /// The room of lines, with so much left free on each side.
    pub(crate) fn new(metrics: &LineMetrics, margin: i64, lines: &[DrawnLine]) -> Extent {
        let step = metrics.height();
        let length = longest(lines).saturating_add(margin.saturating_mul(2));
        let count = lines.len().clamp(1, MOST_LINES) as i64;
        let depth = step.saturating_mul(count).saturating_add(margin);
        let is_vertical = lines.iter().any(|line| !line.direction.is_horizontal());
        Extent {
            width: if is_vertical { depth } else { length },
            height: if is_vertical {
                length.saturating_add(step)
            } else {
                depth
            },
            margin,
            step,
            ascent: i64::from(metrics.ascent),
            is_vertical,
        }
    }

    /// The origin of a line of a number, from the left and from the top.
    pub(crate) fn origin(&self, number: usize, line: &DrawnLine) -> (i64, i64) {
        let number = number.min(MOST_LINES) as i64;
        let across = self.step.saturating_mul(number);
        if self.is_vertical {
            let right = self.width.saturating_sub(self.margin / 2);
            let left = right.saturating_sub(across).saturating_sub(self.step);
            return (left, self.margin.saturating_add(self.ascent));
        }
        let down = across
            .saturating_add(self.margin / 2)
            .saturating_add(self.ascent);
        if line.direction == Direction::RightToLeft {
            let length = line.length().min(1 << 40) as i64;
            let left = self.width.saturating_sub(self.margin);
            return (left.saturating_sub(length), down);
        }
        (self.margin, down)
    }
}
