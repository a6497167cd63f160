//! The segments of a contour.
ghost use Rattle.std.specs.Prelude.{◌≡◌, ◌+ℤ◌, ◌++◌, IfOk, None, OnOk};
ghost use Rattle.aat_read_outlines.specs.Segments.{begun, doubled, drawn, halfway, last_of, segments_of};

use crate::outline::OutlinePoint;
use std::alloc::{AllocError, Allocator};

/// A point in half units of the font, in which a point halfway between two points is exact.
#[derive(Clone, Copy, PartialEq, Eq, Debug)]
pub struct HalfPoint {
    /// How far to the right it stands, in half units.
    pub x: i64,
    /// How far up it stands, in half units.
    pub y: i64,
}

/// A part of a contour. Each begins where the one before it ends.
#[derive(Clone, Copy, PartialEq, Eq, Debug)]
pub enum Segment {
    /// The contour begins here.
    MoveTo(HalfPoint),
    /// A straight line.
    LineTo(HalfPoint),
    /// A quadratic curve.
    QuadraticTo {
        /// Its control point.
        control: HalfPoint,
        /// Where it ends.
        to: HalfPoint,
    },
    /// The contour ends where it began, by a straight line if it is not there yet.
    Close,
}

/// The sum of two numbers.
fn sum(first: i32, second: i32) -> i64
    ensures { result ≡ first +ℤ second }
{
    first as i64 + second as i64
}

/// The point halfway between two points.
fn halfway(first: OutlinePoint, second: OutlinePoint) -> HalfPoint
    ensures { result ≡ halfway first second }
{
    HalfPoint {
        x: sum(first.x, second.x),
        y: sum(first.y, second.y),
    }
}

/// A point in half units.
fn doubled(point: OutlinePoint) -> HalfPoint
    ensures { result ≡ doubled point }
{
    halfway(point, point)
}

/// Puts the segments through points, back to where the contour began, behind others.
fn append_drawn<A: Allocator>(
    segments: &mut Vec<Segment, A>,
    start: HalfPoint,
    points: &[OutlinePoint],
) -> Result<(), AllocError>
    ensures { OnOk result (segments.new.items ≡ segments.old.items ++ drawn start None points.now) }
{
    let mut waiting: Option<OutlinePoint> = None;
    for point in points {
        match (waiting, point.is_on_curve) {
            (None, true) => segments.push(Segment::LineTo(doubled(*point)))?,
            (None, false) => {}
            (Some(control), true) => segments.push(Segment::QuadraticTo {
                control: doubled(control),
                to: doubled(*point),
            })?,
            (Some(control), false) => segments.push(Segment::QuadraticTo {
                control: doubled(control),
                to: halfway(control, *point),
            })?,
        }
        waiting = if point.is_on_curve {
            None
        } else {
            Some(*point)
        };
    }
    if let Some(control) = waiting {
        segments.push(Segment::QuadraticTo {
            control: doubled(control),
            to: start,
        })?;
    }
    segments.push(Segment::Close)?;
    Ok(())
}

/// The last of a point and those behind it.
fn last_of(first: OutlinePoint, points: &[OutlinePoint]) -> OutlinePoint
    ensures { result ≡ last_of first points.now }
{
    points.last().copied().unwrap_or(first)
}

/// Puts the segments from a start on through points behind others.
fn append_begun<A: Allocator>(
    segments: &mut Vec<Segment, A>,
    start: HalfPoint,
    points: &[OutlinePoint],
) -> Result<(), AllocError>
    ensures { OnOk result (segments.new.items ≡ segments.old.items ++ begun start points.now) }
{
    segments.push(Segment::MoveTo(start))?;
    append_drawn(segments, start, points)
}

/// The segments of a contour, whose coordinates are in half units. A contour without points has none.
///
/// Where two points off the curve follow each other, the curve goes through the point halfway between them. A contour
/// begins at its first point if that is on the curve, else at its last one if that is, else halfway between both.
///
/// Apple's TrueType Reference Manual, "The 'glyf' table" and "Digitizing Letterform Designs".
pub fn segments<A: Allocator>(
    alloc: A,
    contour: &[OutlinePoint],
) -> Result<Vec<Segment, A>, AllocError>
    ensures { IfOk result (λ segments. segments.items ≡ segments_of contour.now) }
{
    let mut segments = Vec::new(alloc);
    let [first, points @ ..] = contour else {
        return Ok(segments);
    };
    let last = last_of(*first, points);
    if first.is_on_curve {
        append_begun(&mut segments, doubled(*first), points)?;
    } else if last.is_on_curve {
        append_begun(&mut segments, doubled(last), &contour[..points.len()])?;
    } else {
        append_begun(&mut segments, halfway(last, *first), contour)?;
    }
    Ok(segments)
}
