//! The path that a charstring draws.
ghost use Rattle.std.specs.Prelude.{◌≡◌, OnOk};
ghost use Rattle.aat_read_charstrings.specs.Paths.{offset_by, stepped};

use std::alloc::{AllocError, Allocator};
use std::marker::Model;

/// A point, or a step from one point to another, in 65536ths of a unit of the font.
#[derive(Clone, Copy)]
pub struct FixedPoint {
    /// How far to the right it stands.
    pub x: i32,
    /// How far up it stands.
    pub y: i32,
}

/// A part of a contour. Each begins where the one before it ends.
#[derive(Clone, Copy)]
pub enum CubicSegment {
    /// The contour begins here.
    MoveTo(FixedPoint),
    /// A straight line.
    LineTo(FixedPoint),
    /// A cubic curve.
    CubicTo {
        /// Its first control point.
        first: FixedPoint,
        /// Its second control point.
        second: FixedPoint,
        /// Where it ends.
        to: FixedPoint,
    },
    /// The contour ends where it began, by a straight line if it is not there yet.
    Close,
}

/// A step of the pen.
#[derive(Clone, Copy)]
pub(crate) enum Step {
    /// A line, by so much.
    Line(FixedPoint),
    /// A curve: its control points and its end, each by how far it stands from the one before.
    Curve(FixedPoint, FixedPoint, FixedPoint),
}

/// A coordinate after a step.
pub(crate) fn stepped(from: i32, by: i32) -> i32
    ensures { result ≡ stepped from by }
{
    from.saturating_add(by)
}

/// A point after a step.
fn offset_by(point: FixedPoint, by: FixedPoint) -> FixedPoint
    ensures { result ≡ offset_by point by }
{
    FixedPoint {
        x: stepped(point.x, by.x),
        y: stepped(point.y, by.y),
    }
}

/// The segments drawn so far, where the pen is, and whether a contour is begun. A contract sees it as `Drawing`.
#[derive(Drop)]
pub(crate) struct Path<A: Allocator> {
    pen: FixedPoint,
    is_open: bool,
    segments: Vec<CubicSegment, A>,
}

impl<A: Allocator> Model for Path<A> {
    ghost use Rattle.aat_read_charstrings.specs.Paths.{Drawing};

    ghost Value = { Drawing };

    ghost view = { λ m. record { pen = m.pen; is_open = m.is_open; segments = m.segments.items } };
}

impl<A: Allocator> Path<A> {
    ghost use Rattle.aat_read_charstrings.specs.Paths.{begun, closed, drawn, moved, nothing_drawn};

    /// Nothing drawn, and the pen at the origin.
    pub(crate) fn new(alloc: A) -> Path<A>
        ensures { result ≡ nothing_drawn }
    {
        Path {
            pen: FixedPoint { x: 0, y: 0 },
            is_open: false,
            segments: Vec::new(alloc),
        }
    }

    /// Begins a contour where the pen is, if none is begun.
    fn begin(&mut self) -> Result<(), AllocError>
        ensures { OnOk result (self.new ≡ begun self.old) }
    {
        if !self.is_open {
            self.segments.push(CubicSegment::MoveTo(self.pen))?;
            self.is_open = true;
        }
        Ok(())
    }

    /// Closes the contour, if one is begun.
    pub(crate) fn close(&mut self) -> Result<(), AllocError>
        ensures { OnOk result (self.new ≡ closed self.old) }
    {
        if self.is_open {
            self.segments.push(CubicSegment::Close)?;
            self.is_open = false;
        }
        Ok(())
    }

    /// Closes the contour, and moves the pen.
    pub(crate) fn move_by(&mut self, by: FixedPoint) -> Result<(), AllocError>
        ensures { OnOk result (self.new ≡ moved self.old by) }
    {
        self.close()?;
        self.pen = offset_by(self.pen, by);
        Ok(())
    }

    /// Draws a step.
    #[tactic(auto, unfolding(crate::specs::Paths::drawn))]
    pub(crate) fn draw(&mut self, step: Step) -> Result<(), AllocError>
        ensures { OnOk result (self.new ≡ drawn self.old step) }
    {
        self.begin()?;
        match step {
            Step::Line(by) => {
                self.pen = offset_by(self.pen, by);
                self.segments.push(CubicSegment::LineTo(self.pen))?;
            }
            Step::Curve(by_first, by_second, by_end) => {
                let first = offset_by(self.pen, by_first);
                let second = offset_by(first, by_second);
                let to = offset_by(second, by_end);
                self.pen = to;
                self.segments
                    .push(CubicSegment::CubicTo { first, second, to })?;
            }
        }
        Ok(())
    }

    /// The segments.
    pub(crate) fn into_segments(self) -> Vec<CubicSegment, A>
        ensures { result.items ≡ self.segments }
    {
        let Path {
            pen: _,
            is_open: _,
            segments,
        } = self;
        segments
    }
}
