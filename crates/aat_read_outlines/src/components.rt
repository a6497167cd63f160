//! The components of a composite glyph.
ghost use Rattle.std.specs.Prelude.{◌≡◌, ◌+◌, ◌*◌, ◌^◌, ◌≤◌, ◌+ℤ◌, ◌*ℤ◌, Ok, IfOk, MatchResult, length, pos};
ghost use Rattle.std.specs.Int.{saturate_to_bits};
ghost use Rattle.aat_read_outlines.specs.Components.{argument_size, component_at, component_size, components_from, coordinate_of, flags_at, matrix_at, matrix_size, nearest_unit, offset_at, part_at, placed, scales};
ghost use Rattle.aat_read_outlines.specs.Flags.{has};
ghost use Rattle.aat_read_outlines.specs.Reading.{Refuses};
ghost use Rattle.aat_read_outlines.specs.inside.Within.{IsWithin};

use crate::glyph::GlyphBytes;
use crate::outline::OutlinePoint;
use aat_bytes::{Fault, ReadError, be16};
use std::alloc::Allocator;

/// The arguments have 16 bits. Else they have 8.
pub(crate) const ARE_WORDS: u16 = 0x0001;
/// The arguments are offsets. Else they are numbers of points.
pub(crate) const ARE_OFFSETS: u16 = 0x0002;
/// There is one scale.
pub(crate) const HAS_SCALE: u16 = 0x0008;
/// Another component is behind this one.
pub(crate) const HAS_MORE: u16 = 0x0020;
/// There is a scale along x and one along y.
pub(crate) const HAS_TWO_SCALES: u16 = 0x0040;
/// There is a matrix of four numbers.
pub(crate) const HAS_MATRIX: u16 = 0x0080;

/// A matrix, of whose numbers 16384 is 1.
#[derive(Clone, Copy)]
pub(crate) struct Matrix {
    xx: i16,
    yx: i16,
    xy: i16,
    yy: i16,
}

/// A component: a glyph, and how its points are placed.
#[derive(Clone, Copy)]
pub(crate) struct Component {
    pub(crate) glyph: u16,
    matrix: Matrix,
    dx: i16,
    dy: i16,
}

/// Whether flags have a bit.
fn has(flags: u16, bit: u16) -> bool
    ensures { result ≡ has flags bit }
{
    flags & bit != 0
}

/// How many bytes each argument takes.
fn argument_size(flags: u16) -> usize
    ensures size { result ≡ argument_size flags }
    ensures few { result ≤ 2 }
{
    if has(flags, ARE_WORDS) { 2 } else { 1 }
}

/// How many bytes the numbers of the matrix take.
fn matrix_size(flags: u16) -> usize
    ensures size { result ≡ matrix_size flags }
    ensures few { result ≤ 8 }
{
    if has(flags, HAS_SCALE) {
        2
    } else if has(flags, HAS_TWO_SCALES) {
        4
    } else if has(flags, HAS_MATRIX) {
        8
    } else {
        0
    }
}

/// How many bytes a component takes.
fn component_size(flags: u16) -> usize
    ensures size { result ≡ component_size flags }
    ensures few { result ≤ 16 }
{
    4 + 2 * argument_size(flags) + matrix_size(flags)
}

/// The offset in an argument.
fn offset_at(bytes: &[u8], place: usize, flags: u16) -> i16
    requires { place + argument_size flags ≤ length bytes.now }
    ensures { result ≡ offset_at bytes.now place flags }
{
    if !has(flags, ARE_OFFSETS) {
        0
    } else if has(flags, ARE_WORDS) {
        be16(bytes, place).cast_signed()
    } else {
        bytes[place].cast_signed() as i16
    }
}

/// The signed number at a place.
fn part_at(bytes: &[u8], place: usize) -> i16
    requires { place + 2 ≤ length bytes.now }
    ensures { result ≡ part_at bytes.now place }
{
    be16(bytes, place).cast_signed()
}

/// A matrix of two scales.
fn scales(x: i16, y: i16) -> Matrix
    ensures { result ≡ scales x y }
{
    Matrix {
        xx: x,
        yx: 0,
        xy: 0,
        yy: y,
    }
}

/// The matrix at a place.
fn matrix_at(bytes: &[u8], place: usize, flags: u16) -> Matrix
    requires { place + matrix_size flags ≤ length bytes.now }
    ensures { result ≡ matrix_at bytes.now place flags }
{
    if has(flags, HAS_SCALE) {
        let scale = part_at(bytes, place);
        scales(scale, scale)
    } else if has(flags, HAS_TWO_SCALES) {
        scales(part_at(bytes, place), part_at(bytes, place + 2))
    } else if has(flags, HAS_MATRIX) {
        Matrix {
            xx: part_at(bytes, place),
            yx: part_at(bytes, place + 2),
            xy: part_at(bytes, place + 4),
            yy: part_at(bytes, place + 6),
        }
    } else {
        scales(16384, 16384)
    }
}

/// The component at a place that has these flags.
fn component_at(bytes: &[u8], place: usize, flags: u16) -> Component
    requires { place + component_size flags ≤ length bytes.now }
    ensures { result ≡ component_at bytes.now place flags }
{
    let size = argument_size(flags);
    Component {
        glyph: be16(bytes, place + 2),
        matrix: matrix_at(bytes, place + 4 + 2 * size, flags),
        dx: offset_at(bytes, place + 4, flags),
        dy: offset_at(bytes, place + 4 + size, flags),
    }
}

/// The flags of the component at a place, if it is there as a whole.
fn flags_at(glyph: &GlyphBytes<'_>, place: usize) -> Result<u16, Fault>
    requires { place ≤ length glyph.now.bytes }
    ensures flags { result ≡ flags_at glyph.now place }
    ensures whole { IfOk result (λ flags. place + component_size flags ≤ length glyph.now.bytes) }
{
    let bytes = glyph.bytes();
    if bytes.len() < place + 4 {
        return Err(glyph.past(place));
    }
    let flags = be16(bytes, place);
    if bytes.len() < place + component_size(flags) {
        return Err(glyph.past(place));
    }
    Ok(flags)
}

/// The components of a glyph, up to so many.
pub(crate) fn components_of<A: Allocator>(
    alloc: A,
    glyph: &GlyphBytes<'_>,
    limit: u8,
) -> Result<Vec<Component, A>, ReadError>
    requires { 10 ≤ length glyph.now.bytes }
    ensures read { MatchResult result
        (λ components. components_from glyph.now 10 limit ≡ Ok components.items)
        (λ error. Refuses (components_from glyph.now 10 limit) error) }
    ensures few { IfOk result (λ components. length components.items ≤ limit) }
{
    let bytes = glyph.bytes();
    let mut components = Vec::new(alloc);
    let mut place = 10;
    for _done in 0..limit {
        let flags = flags_at(glyph, place)?;
        components.push(component_at(bytes, place, flags))?;
        if !has(flags, HAS_MORE) {
            return Ok(components);
        }
        place += component_size(flags);
    }
    Ok(components)
}

/// The product of two numbers.
fn product(a: i16, b: i32) -> i64
    ensures value { result ≡ a *ℤ b }
    ensures within { IsWithin (2 ^ 49) result }
{
    a as i64 * b as i64
}

/// The sum of three numbers.
fn sum(first: i64, second: i64, third: i64) -> i64
    requires first { IsWithin (2 ^ 49) first }
    requires second { IsWithin (2 ^ 49) second }
    requires third { IsWithin (2 ^ 49) third }
    ensures value { result ≡ first +ℤ second +ℤ third }
    ensures within { IsWithin (2 ^ 51) result }
{
    first + second + third
}

/// A number of 16384ths, rounded to the nearest unit, halves up.
fn nearest_unit(parts: i64) -> i64
    requires { IsWithin (2 ^ 51) parts }
    ensures { result ≡ nearest_unit parts }
{
    (parts + 8192).div_euclid(16384)
}

/// The number of 32 bits that is nearest to a number.
fn saturated(number: i64) -> i32
    ensures { result ≡ saturate_to_bits 31 number }
{
    number.clamp(i32::MIN as i64, i32::MAX as i64) as i32
}

/// A coordinate of a point under a row of a matrix and an offset.
fn coordinate_of(first: i16, second: i16, offset: i16, point: OutlinePoint) -> i32
    ensures { result ≡ coordinate_of first second offset point }
{
    let parts = sum(
        product(first, point.x),
        product(second, point.y),
        product(offset, 16384),
    );
    saturated(nearest_unit(parts))
}

impl Component {
    /// A point of the component's glyph, placed in the composite glyph.
    pub(crate) fn placed(self, point: OutlinePoint) -> OutlinePoint
        ensures { result ≡ placed self point }
    {
        OutlinePoint {
            x: coordinate_of(self.matrix.xx, self.matrix.xy, self.dx, point),
            y: coordinate_of(self.matrix.yx, self.matrix.yy, self.dy, point),
            is_on_curve: point.is_on_curve,
        }
    }
}
