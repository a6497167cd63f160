//! The anchor point table from bytes.
ghost use Rattle.std.specs.Prelude.{◌≡◌, ◌+◌, ◌*◌, ◌<◌, ◌≤◌, ◌^◌, IfOk, length, MatchResult, None, Ok, vec_len};
ghost use Rattle.aat_bytes.specs.Numbers.{be32};
ghost use Rattle.aat_kerning_tables.specs.AnchorPoints.{glyph_of_row, points_in_rows};
ghost use Rattle.aat_lookup.specs.Keys.{first, first_fall};
ghost use Rattle.aat_read_machine.specs.Within.{GivesWithin, RefusesWithin};
ghost use Rattle.aat_read_extended.specs.kerx.Anchors.{ankr_of, point_at, points_at, points_within, row_size, rows_within};

use aat_bytes::tags::ANKR;
use aat_bytes::{Fault, FaultKind, ReadError, be16, be32};
use aat_kerning_tables::{Ankr, Point};
use aat_read_lookup::read_pairs;
use std::alloc::{AllocError, Global};

/// How many bytes of memory the glyphs and their points may take for each byte of the table.
const MEMORY_A_BYTE: usize = 24;

/// The point at a place.
fn point_at(bytes: &[u8], place: usize) -> Point
    requires { place + 4 ≤ length bytes.now }
    ensures { result ≡ point_at bytes.now place }
{
    Point {
        x: be16(bytes, place).cast_signed(),
        y: be16(bytes, place + 2).cast_signed(),
    }
}

/// The points whose number stands at a place.
fn points_at(alloc: Global, bytes: &[u8], place: usize) -> Result<Vec<Point>, AllocError>
    requires number { place + 4 ≤ length bytes.now }
    requires inside { place + 4 + 4 * be32 bytes.now place ≤ length bytes.now }
    ensures points { IfOk result (λ points. points.items ≡ points_at bytes.now place) }
    ensures count { IfOk result (λ points. vec_len points ≡ be32 bytes.now place) }
{
    let count = be32(bytes, place) as usize;
    (0..count)
        .map(|i| point_at(bytes, place + 4 + 4 * i))
        .collect(alloc)
}

/// How many bytes of memory a glyph and so many points take.
fn row_size(count: u32) -> usize
    ensures { result ≡ row_size count }
{
    32 + 4 * count as usize
}

/// The points at a place, if they stand inside and have room beside what is used.
#[tactic(auto, unfolding(crate::specs::kerx::Anchors::points_within))]
fn points_within(
    alloc: Global,
    bytes: &[u8],
    used: usize,
    place: usize,
) -> Result<Vec<Point>, ReadError>
    requires near { place < 2 ^ 33 }
    requires used { used < 2 ^ 62 }
    ensures gives { let read = points_within bytes.now used place in
        MatchResult result (λ points. read ≡ Ok points.items) (RefusesWithin read) }
    ensures few { IfOk result (λ points. vec_len points < 2 ^ 32) }
{
    let past_end = ReadError::Fault(Fault::new(ANKR, FaultKind::PastEnd, place));
    if bytes.len() < place + 4 {
        return Err(past_end);
    }
    let count = be32(bytes, place);
    if bytes.len() < place + 4 + 4 * count as usize {
        return Err(past_end);
    }
    if bytes.len().saturating_mul(MEMORY_A_BYTE) < used + row_size(count) {
        return Err(past_end);
    }
    Ok(points_at(alloc, bytes, place)?)
}

/// The number of glyphs, which rise, and so are no more than up to the last one.
fn count_of(glyphs: &[(u16, u16)]) -> usize
    requires { first_fall first glyphs.now ≡ None }
    ensures count { result ≡ length glyphs.now }
    ensures few { result ≤ 65536 }
{
    if glyphs.is_empty() {
        return 0;
    }
    let (last, _) = glyphs[glyphs.len() - 1];
    glyphs.len().min(last as usize + 1)
}

/// The points of glyphs by their offsets.
fn rows(
    alloc: Global,
    bytes: &[u8],
    glyphs: &[(u16, u16)],
) -> Result<Vec<(u16, Vec<Point>)>, ReadError>
    requires header { 12 ≤ length bytes.now }
    requires rising { first_fall first glyphs.now ≡ None }
    ensures gives { let read = rows_within bytes.now 0 glyphs.now in
        MatchResult result (λ rows. read ≡ Ok (points_in_rows rows.items)) (RefusesWithin read) }
    ensures rising { IfOk result (λ rows. first_fall glyph_of_row rows.items ≡ None) }
{
    let start = be32(bytes, 8) as usize;
    let mut rows = Vec::new(alloc);
    let mut used = 0;
    for i in 0..count_of(glyphs) {
        let (glyph, offset) = glyphs[i];
        let points = points_within(alloc, bytes, used, start + offset as usize)?;
        used += row_size(points.len() as u32);
        rows.push((glyph, points))?;
    }
    Ok(rows)
}

/// Reads the anchor point table of a font of so many glyphs. Its version is 0. `bytes` is the whole table. Glyphs may
/// share points, and each has its own copy of them in memory.
///
/// The first fault in this order, of the table `ankr`, with its place from the start of the table: 1, `PastEnd`, a
/// header of 12 bytes that is not there, at 0; 2, `UnknownFormat`, another version, at 0; those of `read_lookup` of
/// the lookup that gives glyphs the offsets of their points; then for each glyph 1, points that are not there as a
/// whole, or that have no room, at their number. The room is 24 bytes of memory for each byte of the table, of which a
/// glyph takes 32 and a point 4. `OutOfMemory` may come before any of these is met.
///
/// Apple's TrueType Reference Manual, "The 'ankr' table".
#[tactic(auto, unfolding(crate::specs::kerx::Anchors::ankr_of))]
pub fn read_ankr(alloc: Global, bytes: &[u8], glyph_count: u16) -> Result<Ankr, ReadError>
    ensures { GivesWithin result (ankr_of bytes.now glyph_count) }
{
    if bytes.len() < 12 {
        return Err(ReadError::Fault(Fault::new(ANKR, FaultKind::PastEnd, 0)));
    }
    if be16(bytes, 0) != 0 {
        return Err(ReadError::Fault(Fault::new(ANKR, FaultKind::UnknownFormat, 0)));
    }
    let glyphs = read_pairs(alloc, ANKR, bytes, be32(bytes, 4) as usize, glyph_count)?;
    let rows = rows(alloc, bytes, &glyphs)?;
    match Ankr::new(rows) {
        Ok(ankr) => Ok(ankr),
        Err(_) => unreachable!(),
    }
}
