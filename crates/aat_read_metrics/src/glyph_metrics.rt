//! The boxes of glyphs, and how glyphs stand in columns, as HarfBuzz has them for a font without variations.
ghost use Rattle.std.specs.Prelude.{◌≡◌, ◌≤◌, ◌+ℤ◌, ◌≤ℤ◌, pos, IfSome, FitsSigned, option_copied};
ghost use Rattle.std.specs.Int.{w16, int_max, int_min};
ghost use Rattle.aat_read_metrics.specs.GlyphMetrics.{HasShortEdges, apart, box_by, box_of, bytes_in, column_metrics, data_in, em_in, extents_in, glyph_box_in, glyph_header, height_by_box, height_by_top, height_of_header, height_without_origins, is_cut, metrics_at, middle, moved_box, row_advance, row_metrics, tops_in, vertical_advance_in, vertical_origin_in};

use crate::font_extents::{FontExtents, font_extents};
use crate::tables::{found_in, glyph_count_in, number_in, units_per_em_in};
use aat_bytes::Tag;
use aat_read_sfnt::tags::{GLYF, HEAD, HHEA, HMTX, LOCA, OS_2, VHEA, VMTX, VORG};
use aat_read_sfnt::{
    FontFile, GlyphData, GlyphHeader, Metrics, has_long_offsets, long_metric_count,
    vertical_origin_at,
};

/// The box of a glyph, in units of the font: its edges along x, and above the baseline along y.
#[derive(Clone, Copy)]
pub struct GlyphBox {
    pub left: i32,
    pub bottom: i32,
    pub right: i32,
    pub top: i32,
}

/// Where the origin of a glyph in a column lies, in units of the font, from its origin in a row: to the right, and up.
#[derive(Clone, Copy)]
pub struct Origin {
    pub x: i32,
    pub y: i32,
}

/// What the file has of a table, no bytes where it is missing.
fn bytes_in<'a>(file: &FontFile<'a>, tag: Tag) -> &'a [u8]
    ensures { result.now ≡ bytes_in file.now tag }
{
    match file.cut_table(tag) {
        Ok(bytes) => bytes,
        Err(_) => &[],
    }
}

/// The units of the em, from 16 to 16,384: 1,000 where the table `head` is missing or has a fault, as in HarfBuzz.
///
/// Apple's TrueType Reference Manual, "The 'head' table".
pub fn em_in(file: &FontFile<'_>) -> u16
    ensures { result ≡ em_in file.now }
{
    found_in(units_per_em_in(file)).unwrap_or(1000)
}

/// The metrics of a table whose number of long ones stands in another one.
#[tactic(auto, unfolding(crate::specs::GlyphMetrics::metrics_at))]
fn metrics_at<'a>(file: &FontFile<'a>, header: Tag, table: Tag) -> Metrics<'a>
    ensures { result ≡ metrics_at file.now header table }
{
    let long_count = match long_metric_count(bytes_in(file, header)) {
        Ok(count) => count,
        Err(_) => 0,
    };
    let glyph_count = number_in(&glyph_count_in(file));
    Metrics::new(bytes_in(file, table), long_count, glyph_count)
}

/// The metrics along rows: those of the table `hmtx`, of which `hhea` counts the long ones, none where it is missing or
/// has a fault.
///
/// Apple's TrueType Reference Manual, "The 'hmtx' table".
pub fn row_metrics<'a>(file: &FontFile<'a>) -> Metrics<'a>
    ensures { result ≡ row_metrics file.now }
{
    metrics_at(file, HHEA, HMTX)
}

/// The metrics along columns.
fn column_metrics<'a>(file: &FontFile<'a>) -> Metrics<'a>
    ensures { result ≡ column_metrics file.now }
{
    metrics_at(file, VHEA, VMTX)
}

/// The data of glyphs, if it has a known format.
#[tactic(auto, unfolding(crate::specs::GlyphMetrics::data_in))]
fn data_in<'a>(file: &FontFile<'a>) -> Option<GlyphData<'a>>
    ensures { result ≡ data_in file.now }
{
    match has_long_offsets(bytes_in(file, HEAD)) {
        Some(is_long) => {
            let glyph_count = number_in(&glyph_count_in(file));
            let (glyf, loca) = (bytes_in(file, GLYF), bytes_in(file, LOCA));
            Some(GlyphData::new(glyf, loca, is_long, glyph_count))
        }
        None => None,
    }
}

/// How far two edges are apart.
fn apart(a: i16, b: i16) -> i32
    ensures is { result ≡ apart a b }
    ensures some { pos 0 ≤ℤ result }
    ensures few { result ≤ℤ pos 65535 }
{
    if b < a {
        a as i32 - b as i32
    } else {
        b as i32 - a as i32
    }
}

/// The right edge of a box of a width that begins at the left one.
fn right_edge(left: i16, width: i32) -> i32
    requires some { pos 0 ≤ℤ width }
    requires few { width ≤ℤ pos 65535 }
    ensures { result ≡ left +ℤ width }
{
    left as i32 + width
}

/// The lower edge of the box of a header.
fn bottom_of(header: GlyphHeader) -> i32
    ensures is { result ≡ int_min header.y_min header.y_max }
    ensures short { FitsSigned w16 result }
{
    header.y_min.min(header.y_max) as i32
}

/// The upper edge of the box of a header.
fn top_of(header: GlyphHeader) -> i32
    ensures is { result ≡ int_max header.y_min header.y_max }
    ensures short { FitsSigned w16 result }
{
    header.y_min.max(header.y_max) as i32
}

/// The right edge of the box of a header, moved so that its left edge is the bearing.
fn right_of(header: GlyphHeader, bearing: i16) -> i32
    ensures { result ≡ bearing +ℤ apart header.x_min header.x_max }
{
    right_edge(bearing, apart(header.x_min, header.x_max))
}

/// The box that a header has, moved so that its left edge is the bearing.
fn moved_box(header: GlyphHeader, bearing: i16) -> GlyphBox
    ensures is { result ≡ moved_box header bearing }
    ensures short { HasShortEdges result }
{
    GlyphBox {
        left: bearing as i32,
        bottom: bottom_of(header),
        right: right_of(header, bearing),
        top: top_of(header),
    }
}

/// The box of a header: a glyph without contours has an empty one.
#[tactic(auto, unfolding(crate::specs::GlyphMetrics::box_of))]
fn box_of(header: GlyphHeader, bearing: i16) -> GlyphBox
    ensures is { result ≡ box_of header bearing }
    ensures short { HasShortEdges result }
{
    if header.contours == 0 {
        return GlyphBox {
            left: 0,
            bottom: 0,
            right: 0,
            top: 0,
        };
    }
    moved_box(header, bearing)
}

/// The header of a glyph, all numbers 0 where it has no data.
#[tactic(auto, unfolding(crate::specs::GlyphMetrics::glyph_header))]
fn glyph_header(tables: &GlyphData<'_>, glyph: u16) -> GlyphHeader
    ensures { result ≡ glyph_header tables.now glyph }
{
    match tables.data(glyph) {
        Some(bytes) => GlyphHeader::of_data(bytes),
        None => GlyphHeader::of_data(&[]),
    }
}

/// The box of a glyph by data and metrics, if it has data.
fn box_by(tables: &GlyphData<'_>, metrics: &Metrics<'_>, glyph: u16) -> Option<GlyphBox>
    ensures is { result ≡ box_by tables.now metrics.now glyph }
    ensures short { IfSome result HasShortEdges }
{
    if glyph as usize >= tables.count() {
        return None;
    }
    Some(box_of(glyph_header(tables, glyph), metrics.bearing(glyph)))
}

/// The box of a glyph, in units of the font, as its data has it by the tables `glyf` and `loca`: moved so that its left
/// edge is the left bearing of `hmtx`, as HarfBuzz moves it. A glyph without contours has an empty box, and so has one
/// whose data is not there. `None` where the font has no data of glyphs, as with outlines of `CFF`, and past the last
/// glyph of `maxp` or of `loca`.
///
/// Apple's TrueType Reference Manual, "The 'glyf' table".
#[tactic(auto, unfolding(crate::specs::GlyphMetrics::glyph_box_in))]
pub fn glyph_box_in(file: &FontFile<'_>, glyph: u16) -> Option<GlyphBox>
    ensures is { result ≡ glyph_box_in file.now glyph }
    ensures short { IfSome result HasShortEdges }
{
    match data_in(file) {
        Some(tables) => box_by(&tables, &row_metrics(file), glyph),
        None => None,
    }
}

/// How far the font reaches above and below the baseline.
#[tactic(auto, unfolding(crate::specs::GlyphMetrics::extents_in))]
fn extents_in(file: &FontFile<'_>) -> FontExtents
    ensures { result ≡ extents_in file.now }
{
    font_extents(bytes_in(file, OS_2), bytes_in(file, HHEA), em_in(file))
}

/// How far down the pen moves at a glyph in a column, in units of the font: its advance in `vmtx`, and without long
/// metrics there the way from the font's ascender to its descender. HarfBuzz's advance in y is 0 less this.
///
/// OpenType specification, "vmtx - Vertical Metrics Table".
#[tactic(auto, unfolding(crate::specs::GlyphMetrics::vertical_advance_in))]
pub fn vertical_advance_in(file: &FontFile<'_>, glyph: u16) -> u32
    ensures { result ≡ vertical_advance_in file.now glyph }
{
    match column_metrics(file).advance(glyph) {
        Some(advance) => advance as u32,
        None => {
            let extents = extents_in(file);
            extents.above as u32 + extents.below as u32
        }
    }
}

/// The advance along rows.
fn row_advance(file: &FontFile<'_>, glyph: u16) -> u16
    ensures { result ≡ row_advance file.now glyph }
{
    match row_metrics(file).advance(glyph) {
        Some(advance) => advance,
        None => em_in(file) / 2,
    }
}

/// How far above the baseline a box leaves half of the room above its upper edge.
fn middle(room: u32, bottom: i32, top: i32) -> i32
    requires room { room ≤ 131070 }
    requires bottom { FitsSigned w16 bottom }
    requires top { FitsSigned w16 top }
    ensures { result ≡ middle room bottom top }
{
    let edges = bottom + top;
    (room as i32 + edges) >> 1
}

/// How far an origin lies above the baseline by a box, or without one by the ascender of the font.
fn height_by_box(extents: FontExtents, glyph_box: Option<GlyphBox>) -> i32
    requires { IfSome glyph_box HasShortEdges }
    ensures { result ≡ height_by_box extents glyph_box }
{
    match glyph_box {
        Some(glyph_box) => {
            let room = extents.above as u32 + extents.below as u32;
            middle(room, glyph_box.bottom, glyph_box.top)
        }
        None => extents.above as i32,
    }
}

/// Whether a glyph with contours has not all their last points and the length of its instructions.
fn is_cut(header: GlyphHeader, size: usize) -> bool
    ensures { result ≡ is_cut header size }
{
    header.contours > 0 && size < 12 + 2 * header.contours.unsigned_abs() as usize
}

/// The sum of two numbers.
fn sum(a: i16, b: i16) -> i32
    ensures { result ≡ a +ℤ b }
{
    a as i32 + b as i32
}

/// How far the origin of a glyph lies above the baseline by its header, of data of so many bytes.
fn height_of_header(header: GlyphHeader, size: usize, bearing: i16, units: u16) -> i32
    ensures { result ≡ height_of_header header size bearing units }
{
    if is_cut(header, size) {
        return units as i32;
    }
    sum(header.y_max, bearing)
}

/// So for a glyph by data and metrics of columns.
fn height_by_top(tables: &GlyphData<'_>, metrics: &Metrics<'_>, units: u16, glyph: u16) -> i32
    ensures { result ≡ height_by_top tables.now metrics.now units glyph }
{
    match tables.data(glyph) {
        Some(bytes) => {
            let header = GlyphHeader::of_data(bytes);
            height_of_header(header, bytes.len(), metrics.bearing(glyph), units)
        }
        None => 0,
    }
}

/// The data of glyphs, if there are metrics of columns and data of the first glyph.
#[tactic(auto, unfolding(crate::specs::GlyphMetrics::tops_in))]
fn tops_in<'a>(file: &FontFile<'a>) -> Option<GlyphData<'a>>
    ensures { result ≡ tops_in file.now }
{
    match data_in(file) {
        Some(tables) => {
            if column_metrics(file).advance(0).is_none() || tables.count() == 0 {
                return None;
            }
            Some(tables)
        }
        None => None,
    }
}

/// How far an origin lies above the baseline in a font without the table `VORG`.
#[tactic(auto, unfolding(crate::specs::GlyphMetrics::height_without_origins))]
fn height_without_origins(file: &FontFile<'_>, glyph: u16) -> i32
    ensures { result ≡ height_without_origins file.now glyph }
{
    match tops_in(file) {
        Some(tables) => height_by_top(&tables, &column_metrics(file), em_in(file), glyph),
        None => height_by_box(extents_in(file), glyph_box_in(file, glyph)),
    }
}

/// Where the origin of a glyph in a column lies, in units of the font, seen from its origin in a row: at half the
/// advance along rows, and at the height of the table `VORG`; without it, and with `vmtx` and `loca`, at the top of the
/// glyph and its bearing in `vmtx`; else the box of the glyph is put in the middle between the font's ascender and
/// descender, and without a box the height is the ascender.
///
/// OpenType specification, "VORG - Vertical Origin Table" and "vmtx - Vertical Metrics Table".
#[tactic(auto, unfolding(crate::specs::GlyphMetrics::vertical_origin_in))]
pub fn vertical_origin_in(file: &FontFile<'_>, glyph: u16) -> Origin
    ensures { result ≡ vertical_origin_in file.now glyph }
{
    let y = match vertical_origin_at(bytes_in(file, VORG), glyph) {
        Some(height) => height as i32,
        None => height_without_origins(file, glyph),
    };
    let x = (row_advance(file, glyph) / 2) as i32;
    Origin { x, y }
}
