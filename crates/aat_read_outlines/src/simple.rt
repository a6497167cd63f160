//! Simple glyphs: contours of points.
ghost use Rattle.std.specs.Prelude.{◌≡◌, ◌+◌, ◌*◌, ◌^◌, ◌<◌, ◌≤◌, IfOk, IfSome, None, length};
ghost use Rattle.aat_read_sfnt.specs.RisingEnds.{end_falls};
ghost use Rattle.aat_read_outlines.specs.Reading.{Gives};
ghost use Rattle.aat_read_outlines.specs.SimpleGlyphs.{end_of, ends_fault, ends_of, falling_end, flags_place, simple_outline};

use crate::flags::flags_from;
use crate::glyph::GlyphBytes;
use crate::outline::Outline;
use crate::points::points_of;
use aat_bytes::{Fault, FaultKind, ReadError, be16};
use std::alloc::{AllocError, Allocator};

/// How many points there are up to the end of a contour.
fn end_of(bytes: &[u8], contour: u16) -> u32
    requires { 12 + 2 * contour ≤ length bytes.now }
    ensures end { result ≡ end_of bytes.now contour }
    ensures low { result ≤ 65536 }
{
    be16(bytes, 10 + 2 * contour as usize) as u32 + 1
}

/// Whether the end of a contour is not above that of the one before.
fn end_falls(bytes: &[u8], contour: u16) -> bool
    requires { 12 + 2 * contour ≤ length bytes.now }
    ensures { result ≡ end_falls (end_of bytes.now) contour }
{
    contour > 0 && end_of(bytes, contour) <= end_of(bytes, contour - 1)
}

/// The first of so many contours whose end is not above that of the one before.
fn falling_end(bytes: &[u8], contours: u16) -> Option<u16>
    requires { 12 + 2 * contours ≤ length bytes.now }
    ensures first { result ≡ falling_end bytes.now contours }
    ensures inside { IfSome result (λ k. k < contours) }
{
    (0..contours).find(|contour| end_falls(bytes, *contour))
}

/// The place of the flags, behind the instructions.
fn flags_place(bytes: &[u8], contours: u16) -> usize
    requires { 12 + 2 * contours ≤ length bytes.now }
    ensures place { result ≡ flags_place bytes.now contours }
    ensures low { result < 2 ^ 18 }
{
    let place = 10 + 2 * contours as usize;
    place + 2 + be16(bytes, place) as usize
}

/// The fault of the ends of contours and of the instructions.
fn ends_fault(glyph: &GlyphBytes<'_>, contours: u16) -> Option<Fault>
    requires { 10 ≤ length glyph.now.bytes }
    ensures fault { result ≡ ends_fault glyph.now contours }
    ensures whole { result ≡ None → 12 + 2 * contours ≤ length glyph.now.bytes }
    ensures flags { result ≡ None → flags_place glyph.now.bytes contours ≤ length glyph.now.bytes }
    ensures rising { result ≡ None → falling_end glyph.now.bytes contours ≡ None }
{
    let bytes = glyph.bytes();
    if bytes.len() < 12 + 2 * contours as usize {
        return Some(glyph.past(10));
    }
    if let Some(contour) = falling_end(bytes, contours) {
        return Some(glyph.fault(FaultKind::NotRising, 10 + 2 * contour as usize));
    }
    if bytes.len() < flags_place(bytes, contours) {
        return Some(glyph.past(12 + 2 * contours as usize));
    }
    None
}

/// The ends of contours.
fn ends_of<A: Allocator>(alloc: A, bytes: &[u8], contours: u16) -> Result<Vec<u32, A>, AllocError>
    requires { 12 + 2 * contours ≤ length bytes.now }
    ensures { IfOk result (λ ends. ends.items ≡ ends_of bytes.now contours) }
{
    let mut ends = Vec::with_capacity(alloc, contours as usize)?;
    for contour in 0..contours {
        ends.push(end_of(bytes, contour))?;
    }
    Ok(ends)
}

/// The outline of a simple glyph of so many contours.
pub(crate) fn simple_outline<A: Allocator + Copy>(
    alloc: A,
    glyph: &GlyphBytes<'_>,
    contours: u16,
) -> Result<Outline<A>, ReadError>
    requires header { 10 ≤ length glyph.now.bytes }
    requires some { 0 < contours }
    ensures { Gives result (simple_outline glyph.now contours) }
{
    if let Some(fault) = ends_fault(glyph, contours) {
        return Err(ReadError::Fault(fault));
    }
    let bytes = glyph.bytes();
    let place = flags_place(bytes, contours);
    let count = end_of(bytes, contours - 1);
    let Some(flags) = flags_from(alloc, bytes, place, count)? else {
        return Err(ReadError::Fault(glyph.past(bytes.len())));
    };
    let points = points_of(alloc, glyph, &flags)?;
    let ends = ends_of(alloc, bytes, contours)?;
    Ok(Outline::of_parts(points, ends))
}
