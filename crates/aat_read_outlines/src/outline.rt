//! The points of an outline, contour by contour.
ghost use Rattle.std.specs.Prelude.{◌≡◌, ◌↔◌, ◌<◌, ◌≤◌, IfOk, IfSome, IsSome, IsTrue, length, option_copied, slice_index, slice_range};
ghost use Rattle.aat_read_outlines.specs.Outlines.{Divides, IsOutline, contour_of, no_points, start_of};
ghost use Rattle.aat_read_outlines.specs.Composites.{joined};

use crate::components::Component;
use crate::composites::{append_ends, append_placed};
use std::alloc::{AllocError, Allocator, Global};
use std::marker::Model;

/// A point of a contour, in units of the font.
#[derive(Clone, Copy, PartialEq, Eq, Debug)]
pub struct OutlinePoint {
    /// How far to the right it stands.
    pub x: i32,
    /// How far up it stands.
    pub y: i32,
    /// Whether the contour goes through it. Else it is the control point of a quadratic curve.
    pub is_on_curve: bool,
}

/// The outline of a glyph: up to 65,536 points, and for each contour how many points there are up to its end. Each
/// contour has a point, and the last one ends with the points. A contract sees it as `PointLists`.
#[derive(Drop)]
pub struct Outline<A: Allocator = Global> {
    points: Vec<OutlinePoint, A>,
    ends: Vec<u32, A>,
}

impl<A: Allocator> Model for Outline<A> {
    ghost use Rattle.aat_read_outlines.specs.Outlines.{IsOutline, PointLists};

    ghost Value = { PointLists };

    ghost view = { λ m. record { points = m.points.items; ends = m.ends.items } };

    ghost invariant = { λ m. IsOutline m.points.items m.ends.items };
}

/// Whether ends of contours that each have a point go up to so many.
fn divides(ends: &[u32], count: u32) -> bool
    ensures { IsTrue result ↔ Divides 0 ends.now count }
{
    let mut start = 0;
    for end in ends {
        if *end <= start {
            return false;
        }
        start = *end;
    }
    start == count
}

/// Where a contour begins.
fn start_of(ends: &[u32], index: usize) -> u32
    requires { index < length ends.now }
    ensures { result ≡ start_of ends.now index }
{
    if index == 0 { 0 } else { ends[index - 1] }
}

/// Where a contour ends.
fn end_of(ends: &[u32], index: usize) -> u32
    requires { index < length ends.now }
    ensures { result ≡ slice_index ends.now index }
{
    ends[index]
}

/// The points from one place up to another.
fn between(points: &[OutlinePoint], start: u32, end: u32) -> &[OutlinePoint]
    requires ordered { start ≤ end }
    requires inside { end ≤ length points.now }
    ensures { result.now ≡ slice_range points.now start end }
{
    &points[start as usize..end as usize]
}

impl<A: Allocator> Outline<A> {
    /// The outline of these points and, for each contour, this number of points up to its end. `None` where a contour
    /// has no point, the last one does not end with the points, or there are more than 65,536. Takes no memory.
    pub fn new(points: Vec<OutlinePoint, A>, ends: Vec<u32, A>) -> Option<Outline<A>>
        ensures outline { IfSome result (λ outline. outline ≡ record { points = points.items; ends = ends.items }) }
        ensures made { IsSome result ↔ IsOutline points.items ends.items }
    {
        if points.len() > 65536 || !divides(&ends, points.len() as u32) {
            return None;
        }
        Some(Outline { points, ends })
    }

    /// The outline of points and ends that are known to be one.
    pub(crate) fn of_parts(points: Vec<OutlinePoint, A>, ends: Vec<u32, A>) -> Outline<A>
        requires { IsOutline points.items ends.items }
        ensures { result ≡ record { points = points.items; ends = ends.items } }
    {
        Outline { points, ends }
    }

    /// The outline without contours.
    pub(crate) fn empty(alloc: A) -> Outline<A>
    where
        A: Copy,
        ensures { result ≡ no_points }
    {
        Outline {
            points: Vec::new(alloc),
            ends: Vec::new(alloc),
        }
    }

    /// The outline with that of a component behind it, unless both have more than 65,536 points.
    pub(crate) fn joined(
        self,
        component: Component,
        inner: &Outline<A>,
    ) -> Result<Outline<A>, AllocError>
        ensures { IfOk result (λ outline. outline ≡ joined self component inner.now) }
    {
        let count = self.points.len();
        if count + inner.points.len() > 65536 {
            return Ok(self);
        }
        let Outline {
            mut points,
            mut ends,
        } = self;
        append_placed(&mut points, component, &inner.points)?;
        append_ends(&mut ends, count as u32, &inner.ends)?;
        Ok(Outline { points, ends })
    }

    /// The points of all contours, one contour behind the other.
    pub fn points(&self) -> &[OutlinePoint]
        ensures points { result.now ≡ self.now.points }
        ensures few { length result.now ≤ 65536 }
    {
        &self.points
    }

    /// For each contour, how many points there are up to its end.
    pub fn ends(&self) -> &[u32]
        ensures ends { result.now ≡ self.now.ends }
        ensures divided { Divides 0 result.now (length self.now.points) }
    {
        let _ = &self.points;
        &self.ends
    }

    /// The points of a contour, or `None` if the outline has no such contour.
    pub fn contour(&self, index: usize) -> Option<&[OutlinePoint]>
        ensures { option_copied result ≡ contour_of self.now index }
    {
        if index >= self.ends.len() {
            return None;
        }
        let start = start_of(&self.ends, index);
        let end = end_of(&self.ends, index);
        Some(between(&self.points, start, end))
    }
}
