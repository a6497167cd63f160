//! The tables of outlines.
ghost use Rattle.std.specs.Prelude.{◌≡◌, ◌≤◌, None, length, not, true};
ghost use Rattle.std.specs.List.{list_all};
ghost use Rattle.aat_write_truetype.specs.outlines.GlyphData.{is_near};
ghost use Rattle.aat_write_truetype.specs.outlines.OutlineWriteErrors.{Writes};
ghost use Rattle.aat_write_truetype.specs.outlines.Tables.{error_in, error_of, has_far_point, has_far_step, has_many_contours};

use crate::outlines::error::OutlineWriteError;
use crate::outlines::glyph::{append_glyph, are_short_steps, is_near};
use aat_read_outlines::{Outline, OutlinePoint};
use aat_write_machine::append_longs;
use std::alloc::{Allocator, Global};
use std::marker::Model;

/// The two tables of outlines. A contract sees them as `Written`.
#[derive(Drop)]
pub struct OutlineBytes<A: Allocator = Global> {
    glyf: Vec<u8, A>,
    loca: Vec<u8, A>,
}

impl<A: Allocator> Model for OutlineBytes<A> {
    ghost use Rattle.aat_write_truetype.specs.outlines.Tables.{Written};

    ghost Value = { Written };

    ghost view = { λ m. record { glyf = m.glyf.items; loca = m.loca.items } };
}

impl<A: Allocator> OutlineBytes<A> {
    /// The table `glyf`.
    pub fn glyf(&self) -> &[u8]
        ensures { result.now ≡ self.now.glyf }
    {
        &self.glyf
    }

    /// The table `loca`, whose offsets have 32 bits.
    pub fn loca(&self) -> &[u8]
        ensures { result.now ≡ self.now.loca }
    {
        &self.loca
    }
}

/// Whether all coordinates are short.
fn are_near(points: &[OutlinePoint]) -> bool
    ensures { result ≡ list_all is_near points.now }
{
    points.iter().all(|point| is_near(*point))
}

/// The first error of the outline at an index.
fn error_in<B: Allocator>(index: u16, outline: &Outline<B>) -> Option<OutlineWriteError>
    ensures { result ≡ error_in index outline.now }
{
    if outline.ends().len() > 32767 {
        return Some(OutlineWriteError::TooManyContours(index));
    }
    if !are_near(outline.points()) {
        return Some(OutlineWriteError::FarPoint(index));
    }
    if !are_short_steps(outline.points()) {
        return Some(OutlineWriteError::FarStep(index));
    }
    None
}

/// The error of outlines.
fn error_of<B: Allocator>(outlines: &[Outline<B>]) -> Option<OutlineWriteError>
    ensures { result ≡ error_of outlines.now }
{
    if outlines.len() > 65535 {
        return Some(OutlineWriteError::TooMany);
    }
    for index in 0..outlines.len() {
        if let Some(error) = error_in(index as u16, &outlines[index]) {
            return Some(error);
        }
    }
    None
}

/// Writes outlines as simple glyphs: the table `glyf`, and the table `loca` with offsets of 32 bits, one more than there
/// are outlines. An outline without contours has no data. The box of a glyph is that of its points, each step between
/// points has 16 bits, no flag is repeated, and the data of a glyph is padded to four bytes.
///
/// Refused in this order: 1, `TooMany`, more than 65,535 outlines; then of the first outline that has an error, with its
/// index: 2, `TooManyContours`, more than 32,767 of them; 3, `FarPoint`, a coordinate of more than 16 bits; 4, `FarStep`,
/// a step of more than 16 bits from a point to the next. Then 5, `TooLong`, where the data of glyphs has more than
/// 4,294,967,295 bytes. 6, `OutOfMemory`, comes only where none of the first four holds.
///
/// Apple's TrueType Reference Manual, "The 'glyf' table" and "The 'loca' table".
pub fn write_outlines<A: Allocator + Copy, B: Allocator>(
    alloc: A,
    outlines: &[Outline<B>],
) -> Result<OutlineBytes<A>, OutlineWriteError>
    ensures { Writes result outlines.now }
{
    if let Some(error) = error_of(outlines) {
        return Err(error);
    }
    let mut glyf = Vec::new(alloc);
    let mut loca = Vec::new(alloc);
    for outline in outlines {
        append_longs(&mut loca, &[glyf.len() as u32])?;
        append_glyph(&mut glyf, outline)?;
        if glyf.len() > 4_294_967_295 {
            return Err(OutlineWriteError::TooLong);
        }
    }
    append_longs(&mut loca, &[glyf.len() as u32])?;
    Ok(OutlineBytes { glyf, loca })
}
