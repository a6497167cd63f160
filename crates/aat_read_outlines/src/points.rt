//! The points of a simple glyph.
ghost use Rattle.std.specs.Prelude.{◌≡◌, ◌+◌, ◌≤◌, ◌+ℤ◌, ◌≤ℤ◌, IfOk, MatchResult, Ok, length, negsuc, pos, sum_by, unsigned_abs};
ghost use Rattle.aat_read_outlines.specs.Reading.{Refuses};
ghost use Rattle.aat_read_outlines.specs.Points.{moved, point_at, points_from, points_of, step_at, step_size, x_size, y_size};

use crate::flags::{Flags, ON_CURVE, X_SAME, X_SHORT, Y_SAME, Y_SHORT, has};
use crate::glyph::GlyphBytes;
use crate::outline::OutlinePoint;
use aat_bytes::{ReadError, be16};
use std::alloc::{AllocError, Allocator};

/// How many bytes a step takes.
fn step_size(is_short: bool, is_same: bool) -> usize
    ensures size { result ≡ step_size is_short is_same }
    ensures few { result ≤ 2 }
{
    if is_short {
        1
    } else if is_same {
        0
    } else {
        2
    }
}

/// The step at a place.
fn step_at(bytes: &[u8], place: usize, is_short: bool, is_same: bool) -> i32
    requires { place + step_size is_short is_same ≤ length bytes.now }
    ensures step { result ≡ step_at bytes.now place is_short is_same }
    ensures low { negsuc 32767 ≤ℤ result }
    ensures high { result ≤ℤ pos 32767 }
{
    if is_short {
        let length = bytes[place] as i32;
        return if is_same { length } else { -length };
    }
    if is_same {
        return 0;
    }
    be16(bytes, place).cast_signed() as i32
}

/// A coordinate after the step at a place.
fn stepped(bytes: &[u8], from: i32, place: usize, is_short: bool, is_same: bool) -> i32
    requires inside { place + step_size is_short is_same ≤ length bytes.now }
    requires near { unsigned_abs from ≤ 2147450880 }
    ensures value { result ≡ from +ℤ step_at bytes.now place is_short is_same }
    ensures near { unsigned_abs result ≤ unsigned_abs from + 32768 }
{
    from + step_at(bytes, place, is_short, is_same)
}

/// How many bytes a flag's step along x takes.
fn x_size(flag: u8) -> usize
    ensures size { result ≡ x_size flag }
    ensures few { result ≤ 2 }
{
    step_size(has(flag, X_SHORT), has(flag, X_SAME))
}

/// How many bytes a flag's step along y takes.
fn y_size(flag: u8) -> usize
    ensures size { result ≡ y_size flag }
    ensures few { result ≤ 2 }
{
    step_size(has(flag, Y_SHORT), has(flag, Y_SAME))
}

/// Where a pen is, and the places of its next steps.
#[derive(Clone, Copy)]
struct Pen {
    x_place: usize,
    y_place: usize,
    x: i32,
    y: i32,
}

/// A pen after the step of a flag.
fn moved(bytes: &[u8], pen: Pen, flag: u8) -> Pen
    requires x_inside { pen.x_place + x_size flag ≤ length bytes.now }
    requires y_inside { pen.y_place + y_size flag ≤ length bytes.now }
    requires x_near { unsigned_abs pen.x ≤ 2147450880 }
    requires y_near { unsigned_abs pen.y ≤ 2147450880 }
    ensures pen { result ≡ moved bytes.now pen flag }
    ensures x_near { unsigned_abs result.x ≤ unsigned_abs pen.x + 32768 }
    ensures y_near { unsigned_abs result.y ≤ unsigned_abs pen.y + 32768 }
{
    let (x_place, y_place) = (pen.x_place, pen.y_place);
    Pen {
        x_place: x_place + x_size(flag),
        y_place: y_place + y_size(flag),
        x: stepped(bytes, pen.x, x_place, has(flag, X_SHORT), has(flag, X_SAME)),
        y: stepped(bytes, pen.y, y_place, has(flag, Y_SHORT), has(flag, Y_SAME)),
    }
}

/// The point where a pen is.
fn point_at(pen: Pen, flag: u8) -> OutlinePoint
    ensures { result ≡ point_at pen flag }
{
    OutlinePoint {
        x: pen.x,
        y: pen.y,
        is_on_curve: has(flag, ON_CURVE),
    }
}

/// The points of flags.
fn points_from<A: Allocator>(
    alloc: A,
    bytes: &[u8],
    pen: Pen,
    flags: &[u8],
) -> Result<Vec<OutlinePoint, A>, AllocError>
    requires few { length flags.now ≤ 65536 }
    requires x_inside { pen.x_place + sum_by x_size flags.now ≤ length bytes.now }
    requires y_inside { pen.y_place + sum_by y_size flags.now ≤ length bytes.now }
    requires x { pen.x ≡ pos 0 }
    requires y { pen.y ≡ pos 0 }
    ensures points { IfOk result (λ points. points.items ≡ points_from bytes.now pen flags.now) }
    ensures counted { IfOk result (λ points. length points.items ≡ length flags.now) }
{
    let mut points = Vec::with_capacity(alloc, flags.len())?;
    let mut now = pen;
    for flag in flags {
        now = moved(bytes, now, *flag);
        points.push(point_at(now, *flag))?;
    }
    Ok(points)
}

/// How many bytes the steps of flags along x take.
fn x_sizes(flags: &[u8]) -> usize
    requires { length flags.now ≤ 65536 }
    ensures { result ≡ sum_by x_size flags.now }
{
    flags.iter().map(|flag| x_size(*flag)).sum()
}

/// How many bytes the steps of flags along y take.
fn y_sizes(flags: &[u8]) -> usize
    requires { length flags.now ≤ 65536 }
    ensures { result ≡ sum_by y_size flags.now }
{
    flags.iter().map(|flag| y_size(*flag)).sum()
}

/// The points of flags whose steps stand behind them.
#[tactic(auto, using(crate::proofs::Steps::sizes_are_few))]
pub(crate) fn points_of<A: Allocator, B: Allocator>(
    alloc: A,
    glyph: &GlyphBytes<'_>,
    flags: &Flags<B>,
) -> Result<Vec<OutlinePoint, A>, ReadError>
    requires few { length flags.now.flags ≤ 65536 }
    requires inside { flags.now.place ≤ length glyph.now.bytes }
    ensures read { MatchResult result
        (λ points. points_of glyph.now flags.now ≡ Ok points.items)
        (λ error. Refuses (points_of glyph.now flags.now) error) }
    ensures counted { IfOk result (λ points. length points.items ≡ length flags.now.flags) }
{
    let bytes = glyph.bytes();
    let x_place = flags.place();
    let y_place = x_place + x_sizes(flags.flags());
    if y_place + y_sizes(flags.flags()) > bytes.len() {
        return Err(ReadError::Fault(glyph.past(x_place)));
    }
    let pen = Pen {
        x_place,
        y_place,
        x: 0,
        y: 0,
    };
    Ok(points_from(alloc, bytes, pen, flags.flags())?)
}
