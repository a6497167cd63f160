//! A line that is tracked.
ghost use Rattle.std.specs.Prelude.{◌≡◌, length, if◌then◌else◌};
ghost use Rattle.aat_glyph.specs.placement.TrackedLines.{begins, tracked, widened};

use crate::{Direction, GlyphPosition};

/// Adds a value, in font units, to the advance along the line of each drawn glyph that begins a cluster. A value above 0
/// makes a row longer, and a column, whose advances are below 0, shorter. Sums wrap at 32 bits, and nothing else of the
/// positions changes. HarfBuzz 12.3.2 does the same for each grapheme in place of each cluster. HarfBuzz 6.0.0 also moved
/// such a glyph by half of the value.
///
/// The line stands as its text is read, whatever its direction. `clusters` has the cluster of each glyph, or `None`
/// where the glyph is not drawn. A drawn glyph begins a cluster if the last one that is drawn before it has another, or
/// if there is none. `clusters` is as long as `positions`.
///
/// The offsets of attached glyphs are to be added up after this call, so that each keeps its place at the glyph that it
/// is attached to. It takes no memory and cannot be refused.
pub fn track(
    direction: Direction,
    value: i32,
    clusters: &[Option<u32>],
    positions: &mut [GlyphPosition],
)
    requires { length clusters.now ≡ length positions.old }
    ensures { positions.new ≡ tracked direction value clusters.now positions.old }
{
    let mut last = None;
    for i in 0..positions.len() {
        positions[i] = tracked_at(direction, value, last, clusters[i], positions[i]);
        last = clusters[i].or(last);
    }
}

/// Whether a glyph begins a cluster behind the last one that is drawn before it.
fn begins(last: Option<u32>, cluster: Option<u32>) -> bool
    ensures { result ≡ begins last cluster }
{
    match (last, cluster) {
        (_, None) => false,
        (None, Some(_)) => true,
        (Some(before), Some(here)) => here != before,
    }
}

/// The position of a glyph behind the last one that is drawn before it.
fn tracked_at(
    direction: Direction,
    value: i32,
    last: Option<u32>,
    cluster: Option<u32>,
    position: GlyphPosition,
) -> GlyphPosition
    ensures { result ≡ (if begins last cluster then widened direction value position else position) }
{
    if begins(last, cluster) {
        widened(direction, value, position)
    } else {
        position
    }
}

/// A position that is wider by a value along the line.
fn widened(direction: Direction, value: i32, mut position: GlyphPosition) -> GlyphPosition
    ensures { result ≡ widened direction value position }
{
    if direction.is_horizontal() {
        position.x_advance = position.x_advance.wrapping_add(value);
    } else {
        position.y_advance = position.y_advance.wrapping_add(value);
    }
    position
}
