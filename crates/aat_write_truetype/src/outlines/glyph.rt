//! The data of a simple glyph.
ghost use Rattle.std.specs.Prelude.{◌≡◌, ◌+◌, ◌<◌, ◌≤◌, ◌++◌, ◌-ℤ◌, ℕ, OnOk, length, map, slice_index, true};
ghost use Rattle.std.specs.List.{list_all};
ghost use Rattle.aat_write_truetype.specs.outlines.GlyphData.{are_short_steps, bounds_words, flag_of, glyph_data, is_near, is_short, is_short_step, last_points, origin, padding, simple_bytes, word_of, x_words, y_words};
ghost use Rattle.aat_write_truetype.specs.outlines.inside.Near.{AreShort, IsShortRange};
ghost use Rattle.aat_write_machine.specs.Words.{word_bytes};

use crate::outlines::bounds::{Bounds, ORIGIN, Range, bounds_of};
use aat_read_outlines::{Outline, OutlinePoint};
use aat_write_machine::append_words;
use std::alloc::{AllocError, Allocator};

/// How far one coordinate is from another.
fn step(from: i32, to: i32) -> i64
    ensures { result ≡ to -ℤ from }
{
    to as i64 - from as i64
}

/// Whether 16 bits hold a number.
fn is_short(number: i64) -> bool
    ensures { result ≡ is_short number }
{
    -32768 <= number && number <= 32767
}

/// A number of 16 bits.
fn word_of(number: i64) -> u16
    requires { is_short number ≡ true }
    ensures { result ≡ word_of number }
{
    (number as i16).cast_unsigned()
}

/// Whether the coordinates of a point are short.
pub(crate) fn is_near(point: OutlinePoint) -> bool
    ensures { result ≡ is_near point }
{
    is_short(point.x as i64) && is_short(point.y as i64)
}

/// Whether the steps from a point to another are short.
fn is_short_step(from: OutlinePoint, to: OutlinePoint) -> bool
    ensures { result ≡ is_short_step from to }
{
    is_short(step(from.x, to.x)) && is_short(step(from.y, to.y))
}

/// Whether all steps through points are short.
pub(crate) fn are_short_steps(points: &[OutlinePoint]) -> bool
    ensures { result ≡ are_short_steps origin points.now }
{
    let mut from = ORIGIN;
    for point in points {
        if !is_short_step(from, *point) {
            return false;
        }
        from = *point;
    }
    true
}

/// The step along x from a point to another.
fn x_word(from: OutlinePoint, to: OutlinePoint) -> u16
    requires { is_short (to.x -ℤ from.x) ≡ true }
    ensures { result ≡ word_of (to.x -ℤ from.x) }
{
    word_of(step(from.x, to.x))
}

/// The step along y from a point to another.
fn y_word(from: OutlinePoint, to: OutlinePoint) -> u16
    requires { is_short (to.y -ℤ from.y) ≡ true }
    ensures { result ≡ word_of (to.y -ℤ from.y) }
{
    word_of(step(from.y, to.y))
}

/// Appends the steps along x.
fn append_x<A: Allocator>(out: &mut Vec<u8, A>, points: &[OutlinePoint]) -> Result<(), AllocError>
    requires { are_short_steps origin points.now ≡ true }
    ensures { OnOk result (out.new.items ≡ out.old.items ++ word_bytes (x_words origin points.now)) }
{
    let mut from = ORIGIN;
    for point in points {
        append_words(out, &[x_word(from, *point)])?;
        from = *point;
    }
    Ok(())
}

/// Appends the steps along y.
fn append_y<A: Allocator>(out: &mut Vec<u8, A>, points: &[OutlinePoint]) -> Result<(), AllocError>
    requires { are_short_steps origin points.now ≡ true }
    ensures { OnOk result (out.new.items ≡ out.old.items ++ word_bytes (y_words origin points.now)) }
{
    let mut from = ORIGIN;
    for point in points {
        append_words(out, &[y_word(from, *point)])?;
        from = *point;
    }
    Ok(())
}

/// The flag of a point.
fn flag_of(point: OutlinePoint) -> u8
    ensures { result ≡ flag_of point }
{
    if point.is_on_curve { 1 } else { 0 }
}

/// Appends the flags of points.
fn append_flags<A: Allocator>(
    out: &mut Vec<u8, A>,
    points: &[OutlinePoint],
) -> Result<(), AllocError>
    ensures { OnOk result (out.new.items ≡ out.old.items ++ map flag_of points.now) }
{
    for point in points {
        out.push(flag_of(*point))?;
    }
    Ok(())
}

/// Appends the numbers of the last points of contours.
fn append_last_points<A: Allocator>(out: &mut Vec<u8, A>, ends: &[u32]) -> Result<(), AllocError>
    requires some { (k : ℕ) → k < length ends.now → 0 < slice_index ends.now k }
    requires few { (k : ℕ) → k < length ends.now → slice_index ends.now k ≤ 65536 }
    ensures { OnOk result (out.new.items ≡ out.old.items ++ word_bytes (last_points ends.now)) }
{
    for end in ends {
        append_words(out, &[(*end - 1) as u16])?;
    }
    Ok(())
}

/// Appends what is wanting to a multiple of four bytes.
fn append_padding<A: Allocator>(out: &mut Vec<u8, A>, size: usize) -> Result<(), AllocError>
    ensures { OnOk result (out.new.items ≡ out.old.items ++ padding size) }
{
    for _done in 0..(4 - size % 4) % 4 {
        out.push(0)?;
    }
    Ok(())
}

/// The word of the least number of a range.
fn least_word(range: Range) -> u16
    requires { IsShortRange range }
    ensures { result ≡ word_of range.least }
{
    word_of(range.least as i64)
}

/// The word of the greatest number of a range.
fn greatest_word(range: Range) -> u16
    requires { IsShortRange range }
    ensures { result ≡ word_of range.greatest }
{
    word_of(range.greatest as i64)
}

/// Appends bounds.
fn append_bounds<A: Allocator>(out: &mut Vec<u8, A>, bounds: Bounds) -> Result<(), AllocError>
    requires { AreShort bounds }
    ensures { OnOk result (out.new.items ≡ out.old.items ++ word_bytes (bounds_words bounds)) }
{
    append_words(out, &[least_word(bounds.x), least_word(bounds.y)])?;
    append_words(out, &[greatest_word(bounds.x), greatest_word(bounds.y)])
}

/// Appends the data of points and ends, of which there are some.
fn append_simple<A: Allocator>(
    out: &mut Vec<u8, A>,
    points: &[OutlinePoint],
    ends: &[u32],
) -> Result<(), AllocError>
    requires contours { length ends.now ≤ 32767 }
    requires near { list_all is_near points.now ≡ true }
    requires steps { are_short_steps origin points.now ≡ true }
    requires some { (k : ℕ) → k < length ends.now → 0 < slice_index ends.now k }
    requires few { (k : ℕ) → k < length ends.now → slice_index ends.now k ≤ 65536 }
    ensures { OnOk result (out.new.items ≡ out.old.items ++
        simple_bytes (record { points = points.now; ends = ends.now })) }
{
    append_words(out, &[ends.len() as u16])?;
    append_bounds(out, bounds_of(points))?;
    append_last_points(out, ends)?;
    append_words(out, &[0])?;
    append_flags(out, points)?;
    append_x(out, points)?;
    append_y(out, points)
}

/// Appends the data of a glyph.
pub(crate) fn append_glyph<A: Allocator, B: Allocator>(
    out: &mut Vec<u8, A>,
    outline: &Outline<B>,
) -> Result<(), AllocError>
    requires contours { length outline.now.ends ≤ 32767 }
    requires near { list_all is_near outline.now.points ≡ true }
    requires steps { are_short_steps origin outline.now.points ≡ true }
    ensures { OnOk result (out.new.items ≡ out.old.items ++ glyph_data outline.now) }
{
    let (points, ends) = (outline.points(), outline.ends());
    if ends.is_empty() {
        return Ok(());
    }
    let start = out.len();
    append_simple(out, points, ends)?;
    append_padding(out, out.len() - start)
}
