//! Deleted glyphs: they take no room, or they go.
ghost use Rattle.std.specs.Prelude.{◌≡◌, ◌==◌, filter, length, not};
ghost use Rattle.aat_buffer.specs.Clusters.{ids, KeepsOrder};
ghost use Rattle.aat_buffer.specs.Removal.{HasNoneDeleted, deleted_glyph, is_deleted, removed};
ghost use Rattle.aat_kerning.specs.Zeroing.{zeroed, zeroed_position, zeroed_positions};

use aat_buffer::{DELETED_GLYPH, GlyphPosition, hb_buffer_t, hb_glyph_info_t};
use std::alloc::Allocator;

/// Leaves the position of a glyph no room where the glyph is deleted. Else nothing is written.
fn zero_position(glyph: &hb_glyph_info_t, position: &mut GlyphPosition)
    ensures { position.new ≡ zeroed_position glyph.now position.old }
{
    if glyph.glyph_id == DELETED_GLYPH {
        position.x_advance = 0;
        position.y_advance = 0;
        position.x_offset = 0;
        position.y_offset = 0;
    }
}

/// Leaves the positions of deleted glyphs no room: each glyph has its position at the same place.
fn zero_deleted(glyphs: &[hb_glyph_info_t], positions: &mut [GlyphPosition])
    requires { length positions.old ≡ length glyphs.now }
    ensures zeroed { positions.new ≡ zeroed_positions glyphs.now positions.old }
    ensures len { length positions.new ≡ length positions.old }
{
    for i in 0..positions.len() {
        zero_position(&glyphs[i], &mut positions[i]);
    }
}

/// Sets both advances and both offsets of each deleted glyph to 0. What it is attached to stays, and so does all
/// else. Where no positions stand (`has_positions` tells it), nothing changes.
///
/// It takes no memory and cannot be refused. In as many steps as the line is long.
pub fn hb_aat_layout_zero_width_deleted_glyphs<A: Allocator + Copy>(buffer: &mut hb_buffer_t<A>)
    ensures { buffer.new ≡ zeroed buffer.old }
{
    if !buffer.has_positions() {
        return;
    }
    let cursor = buffer.backtrack_len();
    buffer.sync();
    let (glyphs, positions) = buffer.positions_from_cursor_mut();
    zero_deleted(glyphs, positions);
    buffer.move_to(cursor);
}

/// Takes the deleted glyphs out, with their positions, and puts the cursor at the start. The others keep their
/// order, and the cluster of each glyph that goes is kept as `delete_glyphs_inplace` tells.
///
/// Clusters that never fall along the line never fall afterwards, and those that never rise never rise, at every
/// cluster level. Each cluster stood on the line before.
///
/// It takes no memory and cannot be refused. In as many steps as the line is long.
pub fn hb_aat_layout_remove_deleted_glyphs<A: Allocator + Copy>(buffer: &mut hb_buffer_t<A>)
    ensures removed { buffer.new ≡ removed is_deleted buffer.old }
    ensures none { HasNoneDeleted buffer.new.line }
    ensures others { ids buffer.new.line ≡ filter (λ g. not (g == deleted_glyph)) (ids buffer.old.line) }
    ensures order { KeepsOrder buffer.old.line buffer.new.line }
{
    buffer.delete_glyphs_inplace(|glyph| glyph.glyph_id == DELETED_GLYPH);
}
