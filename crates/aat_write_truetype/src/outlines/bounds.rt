//! The bounds of points.
ghost use Rattle.std.specs.Prelude.{◌≡◌, slice_index_or, true};
ghost use Rattle.std.specs.Int.{int_max, int_min};
ghost use Rattle.std.specs.List.{list_all};
ghost use Rattle.aat_write_truetype.specs.outlines.inside.Near.{AreShort, IsShortRange};
ghost use Rattle.aat_write_truetype.specs.outlines.GlyphData.{bounds_at, bounds_of, is_near, is_short, origin, range_at, widened, wider};

use aat_read_outlines::OutlinePoint;

/// Where the steps of a glyph begin.
pub(crate) const ORIGIN: OutlinePoint = OutlinePoint {
    x: 0,
    y: 0,
    is_on_curve: true,
};

/// The least and the greatest of numbers.
#[derive(Clone, Copy)]
pub(crate) struct Range {
    pub(crate) least: i32,
    pub(crate) greatest: i32,
}

/// The ranges of coordinates.
#[derive(Clone, Copy)]
pub(crate) struct Bounds {
    pub(crate) x: Range,
    pub(crate) y: Range,
}

/// The lesser of two coordinates.
#[tactic(auto, using(crate::proofs::outlines::Near::least_short))]
fn least(first: i32, second: i32) -> i32
    requires first { is_short first ≡ true }
    requires second { is_short second ≡ true }
    ensures least { result ≡ int_min first second }
    ensures short { is_short result ≡ true }
{
    first.min(second)
}

/// The greater of two coordinates.
#[tactic(auto, using(crate::proofs::outlines::Near::greatest_short))]
fn greatest(first: i32, second: i32) -> i32
    requires first { is_short first ≡ true }
    requires second { is_short second ≡ true }
    ensures greatest { result ≡ int_max first second }
    ensures short { is_short result ≡ true }
{
    first.max(second)
}

/// The range of one number.
fn range_at(number: i32) -> Range
    requires { is_short number ≡ true }
    ensures range { result ≡ range_at number }
    ensures short { IsShortRange result }
{
    Range {
        least: number,
        greatest: number,
    }
}

/// A range that a number widens.
fn wider(range: Range, number: i32) -> Range
    requires range { IsShortRange range }
    requires number { is_short number ≡ true }
    ensures range { result ≡ wider range number }
    ensures short { IsShortRange result }
{
    Range {
        least: least(range.least, number),
        greatest: greatest(range.greatest, number),
    }
}

/// A range that the x of a point widens.
fn wider_by_x(range: Range, point: OutlinePoint) -> Range
    requires range { IsShortRange range }
    requires point { is_near point ≡ true }
    ensures range { result ≡ wider range point.x }
    ensures short { IsShortRange result }
{
    wider(range, point.x)
}

/// A range that the y of a point widens.
fn wider_by_y(range: Range, point: OutlinePoint) -> Range
    requires range { IsShortRange range }
    requires point { is_near point ≡ true }
    ensures range { result ≡ wider range point.y }
    ensures short { IsShortRange result }
{
    wider(range, point.y)
}

/// The bounds of a point.
fn bounds_at(point: OutlinePoint) -> Bounds
    requires { is_near point ≡ true }
    ensures bounds { result ≡ bounds_at point }
    ensures short { AreShort result }
{
    Bounds {
        x: range_at(point.x),
        y: range_at(point.y),
    }
}

/// Bounds that a point widens.
fn widened(bounds: Bounds, point: OutlinePoint) -> Bounds
    requires bounds { AreShort bounds }
    requires point { is_near point ≡ true }
    ensures bounds { result ≡ widened bounds point }
    ensures short { AreShort result }
{
    Bounds {
        x: wider_by_x(bounds.x, point),
        y: wider_by_y(bounds.y, point),
    }
}

/// The first of points, or the origin where there is none.
fn first_of(points: &[OutlinePoint]) -> OutlinePoint
    ensures { result ≡ slice_index_or points.now 0 origin }
{
    if points.is_empty() { ORIGIN } else { points[0] }
}

/// The bounds of points, all 0 where there is none.
pub(crate) fn bounds_of(points: &[OutlinePoint]) -> Bounds
    requires { list_all is_near points.now ≡ true }
    ensures bounds { result ≡ bounds_of points.now }
    ensures short { AreShort result }
{
    let mut bounds = bounds_at(first_of(points));
    for point in points {
        bounds = widened(bounds, *point);
    }
    bounds
}
