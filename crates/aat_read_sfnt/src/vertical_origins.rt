//! The vertical origins of a font with the table `VORG`.
ghost use Rattle.std.specs.Prelude.{◌≡◌, ◌+◌, ◌*◌, ◌<◌, ◌≤◌, IfSome, length};
ghost use Rattle.aat_bytes.specs.Bisection.{row_found};
ghost use Rattle.aat_bytes.specs.Numbers.{be16};
ghost use Rattle.aat_read_sfnt.specs.VerticalOrigins.{origin_glyph, vertical_origin_at};

use aat_bytes::be16;

/// The row that a bisection finds for a glyph. Of two rows in the middle it looks at the lower one, as HarfBuzz does.
fn row_of(vorg: &[u8], glyph: u16) -> Option<usize>
    requires { 8 + 4 * be16 vorg.now 6 ≤ length vorg.now }
    ensures is { result ≡ row_found (origin_glyph vorg.now) (be16 vorg.now 6) glyph }
    ensures below { IfSome result (λ row. row < be16 vorg.now 6) }
{
    let mut from = 0;
    let mut to = be16(vorg, 6) as usize;
    while from < to {
        let middle = (from + (to - 1)) / 2;
        let key = be16(vorg, 8 + 4 * middle);
        if glyph < key {
            to = middle;
        } else if key < glyph {
            from = middle + 1;
        } else {
            return Some(middle);
        }
    }
    None
}

/// How far the vertical origin of a glyph lies above the baseline, in units of the font, by the table `VORG`. `None`
/// where the table is not sound: a header of 8 bytes of version 1, and 4 bytes for each glyph that it names.
///
/// OpenType specification, "VORG - Vertical Origin Table".
pub fn vertical_origin_at(vorg: &[u8], glyph: u16) -> Option<i16>
    ensures { result ≡ vertical_origin_at vorg.now glyph }
{
    if vorg.len() < 8 || be16(vorg, 0) != 1 || vorg.len() < 8 + 4 * be16(vorg, 6) as usize {
        return None;
    }
    let place = match row_of(vorg, glyph) {
        Some(row) => 10 + 4 * row,
        None => 4,
    };
    Some(be16(vorg, place).cast_signed())
}
