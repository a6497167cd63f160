//! The table of anchor points to bytes.
ghost use Rattle.std.specs.Prelude.{◌≡◌, ◌++◌, ◌<◌, ◌≤◌, ◌^◌, length, All, IfOk, OnOk, None};
ghost use Rattle.std.specs.List.{flat_map};
ghost use Rattle.aat_kerning_tables.specs.AnchorPoints.{points_in_rows};
ghost use Rattle.aat_write_machine.specs.Lookups.{lookup_written};
ghost use Rattle.aat_write_machine.specs.WriteErrors.{Writes};
ghost use Rattle.aat_write_machine.specs.Words.{word_bytes};
ghost use Rattle.aat_write_kerx.specs.AnkrBytes.{HasFewPoints, ankr_bytes, ankr_written, offsets_from, point_words, points_bytes, points_size, refusal_from};
ghost use Rattle.aat_write_kerx.specs.AnkrWriteErrors.{WritesWithin};

use crate::ankr_error::AnkrWriteError;
use aat_kerning_tables::{Ankr, Point};
use aat_write_machine::{WriteError, append_longs, append_words, write_lookup};
use std::alloc::{AllocError, Global};

/// How many bytes the points of a glyph take.
fn points_size(points: &[Point]) -> u32
    requires { length points.now ≤ 65536 }
    ensures { result ≡ points_size points.now }
{
    4 + 4 * points.len() as u32
}

/// Why the rows are not written.
fn refusal(rows: &[(u16, Vec<Point>)]) -> Option<AnkrWriteError>
    ensures { result ≡ refusal_from 0 0 (points_in_rows rows.now) }
{
    let mut offset = 0;
    for (place, row) in rows.iter().enumerate() {
        if offset > 65535 {
            return Some(AnkrWriteError::TooFar(place));
        }
        if row.1.len() > 65536 {
            return Some(AnkrWriteError::TooManyPoints(place));
        }
        offset += points_size(&row.1);
    }
    None
}

/// Each glyph with the offset of its points.
fn offsets(alloc: Global, rows: &[(u16, Vec<Point>)]) -> Result<Vec<(u16, u16)>, AllocError>
    requires { refusal_from 0 0 (points_in_rows rows.now) ≡ None }
    ensures { IfOk result (λ offsets. offsets.items ≡ offsets_from 0 (points_in_rows rows.now)) }
{
    let mut offsets = Vec::new(alloc);
    let mut offset = 0;
    for row in rows {
        offsets.push((row.0, offset as u16))?;
        offset += points_size(&row.1);
    }
    Ok(offsets)
}

/// Appends points.
fn append_points(out: &mut Vec<u8>, points: &[Point]) -> Result<(), AllocError>
    ensures { OnOk result (out.new.items ≡ out.old.items ++ word_bytes (flat_map point_words points.now)) }
{
    for point in points {
        append_words(out, &[point.x.cast_unsigned(), point.y.cast_unsigned()])?;
    }
    Ok(())
}

/// Appends the points of a glyph, with their number.
fn append_row(out: &mut Vec<u8>, points: &[Point]) -> Result<(), AllocError>
    requires { length points.now ≤ 65536 }
    ensures { OnOk result (out.new.items ≡ out.old.items ++ points_bytes points.now) }
{
    append_longs(out, &[points.len() as u32])?;
    append_points(out, points)
}

/// Appends the points of glyphs.
fn append_rows(out: &mut Vec<u8>, rows: &[(u16, Vec<Point>)]) -> Result<(), AllocError>
    requires { All HasFewPoints (points_in_rows rows.now) }
    ensures { OnOk result (out.new.items ≡ out.old.items
        ++ flat_map (λ row. points_bytes row.1) (points_in_rows rows.now)) }
{
    for row in rows {
        append_row(out, &row.1)?;
    }
    Ok(())
}

/// The bytes of the lookup of the offsets of rows.
fn offset_lookup(alloc: Global, offsets: &[(u16, u16)]) -> Result<Vec<u8>, WriteError>
    ensures writes { Writes result (lookup_written offsets.now) }
    ensures short { IfOk result (λ lookup. length lookup.items < 2 ^ 20) }
{
    let lookup = write_lookup(alloc, offsets)?;
    Ok(lookup)
}

/// The bytes of a table with those of its lookup.
fn ankr_bytes(
    alloc: Global,
    lookup: &[u8],
    rows: &[(u16, Vec<Point>)],
) -> Result<Vec<u8>, AllocError>
    requires short { length lookup.now < 2 ^ 20 }
    requires few { All HasFewPoints (points_in_rows rows.now) }
    ensures { IfOk result (λ out. out.items ≡ ankr_bytes lookup.now (points_in_rows rows.now)) }
{
    let mut out = Vec::new(alloc);
    append_longs(&mut out, &[0, 12, 12 + lookup.len() as u32])?;
    out.extend_from_slice(lookup)?;
    append_rows(&mut out, rows)?;
    Ok(out)
}

/// Writes the table of anchor points: version 0, a lookup of format 6 of the offsets of points, and the points of each
/// glyph, one row behind the other.
///
/// Refused in this order: at the first row that is, as 1, `TooFar`, with its place, where its points start more than
/// 65,535 bytes behind those of the first row, or as 2, `TooManyPoints`, with its place, where it has more than 65,536
/// points; then 3, `Lookup`, with the error of the lookup, which never comes, since the rows of a typed table rise. 4,
/// `OutOfMemory`, may come before any of these is met.
///
/// `read_ankr` reads the same rows again, if there is memory. Apple's TrueType Reference Manual, "The 'ankr' table".
#[tactic(auto, using(crate::proofs::AnkrRows::few_rows))]
pub fn write_ankr(alloc: Global, ankr: &Ankr) -> Result<Vec<u8>, AnkrWriteError>
    ensures { WritesWithin result (ankr_written ankr.now) }
{
    let rows = ankr.rows();
    if let Some(error) = refusal(rows) {
        return Err(error);
    }
    let offsets = offsets(alloc, rows)?;
    let lookup = offset_lookup(alloc, &offsets)?;
    Ok(ankr_bytes(alloc, &lookup, rows)?)
}
