//! The anchor point table.
ghost use Rattle.std.specs.Prelude.{◌≡◌, IfOk, IfErr, OnOk, None, slice_get};
ghost use Rattle.aat_kerning_tables.specs.AnchorPoints.{glyph_of_row, points_in_rows, listed_point};
ghost use Rattle.aat_lookup.specs.Keys.{first_fall};
ghost use Rattle.aat_lookup.specs.TableErrors.{RefusesFall};

use aat_lookup::keys::{first_fall, row_close};
use aat_lookup::{GlyphId, TableError};
use std::marker::Model;

/// An anchor point of a glyph, in units of the font.
///
/// Apple's TrueType Reference Manual, "The 'ankr' table".
#[derive(Clone, Copy, PartialEq, Eq, Debug)]
pub struct Point {
    pub x: i16,
    pub y: i16,
}

/// The anchor points of glyphs, in units of the font. A contract sees it as `Points`, the list of the glyphs, each with
/// the list of its points.
///
/// Apple's TrueType Reference Manual, "The 'ankr' table".
#[derive(Drop)]
pub struct Ankr {
    rows: Vec<(u16, Vec<Point>)>,
}

impl Model for Ankr {
    ghost use Rattle.aat_kerning_tables.specs.AnchorPoints.{Points, glyph_of_row, points_in_rows};
    ghost use Rattle.aat_lookup.specs.Keys.{IsRising};

    ghost Value = { Points };

    ghost view = { λ m. points_in_rows m.rows.items };

    ghost invariant = { λ m. IsRising glyph_of_row m.rows.items };
}

impl Ankr {
    /// Makes the table of rows of a glyph and its points, which have to rise strictly by glyph, and which are kept as
    /// they are handed in. Takes no memory.
    ///
    /// Refused as 1, `NotRising`, with the place of the first row that is not above the one before it, and never else.
    /// The rows are then dropped.
    pub fn new(rows: Vec<(u16, Vec<Point>)>) -> Result<Ankr, TableError>
        ensures ok { IfOk result (λ ankr. ankr ≡ points_in_rows rows.items) }
        ensures rising { OnOk result (first_fall glyph_of_row rows.items ≡ None) }
        ensures refused { IfErr result (RefusesFall (first_fall glyph_of_row rows.items)) }
    {
        if let Some(place) = first_fall(&rows) {
            return Err(TableError::NotRising(place));
        }
        Ok(Ankr { rows })
    }

    /// The rows of a glyph and its points, strictly rising by glyph.
    pub fn rows(&self) -> &[(u16, Vec<Point>)]
        ensures { points_in_rows result.now ≡ self.now }
    {
        &self.rows
    }

    /// The point that is listed for a glyph at an index, if there is one. The glyph is looked for where it stands if
    /// all glyphs from the first one up to it have rows, and else found by bisection.
    pub fn point(&self, glyph: GlyphId, index: u16) -> Option<Point>
        ensures { result ≡ listed_point self.now glyph.0 index }
    {
        match row_close(&self.rows, glyph.0 as u32) {
            Some(row) => point_at(&row.1, index),
            None => None,
        }
    }
}

/// The point at an index, if there is one.
fn point_at(points: &[Point], index: u16) -> Option<Point>
    ensures { result ≡ slice_get points.now index }
{
    points.get(index as usize).copied()
}
