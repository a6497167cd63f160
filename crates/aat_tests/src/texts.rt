//! The calls for characters, over a heap.

use aat_face::Face;
use aat_glyph::Direction;
use aat_shaped_text::{CharacterKind, ShapedGlyph};
use aat_showing::hide_ignorables;
use aat_text::{
    ClusterLevel, ClusterUnit, TextError, line_ends, missing_characters, prepare_text, text_of,
};
use linked_list_allocator::LocalHeap;

/// The file of a font: a directory of 44 bytes; `cmap` at 44, of one subtable of format 12, where U+0020 is the glyph 1,
/// U+0061 to U+0063 are those from 2 on, and U+0065 is 5; and `maxp` at 108, with eight glyphs.
pub(crate) const FILE: [u8; 114] = [
    0, 1, 0, 0, 0, 2, 0, 0, 0, 0, 0, 0, 0x63, 0x6D, 0x61, 0x70, 0, 0, 0, 0, 0, 0, 0, 44, 0, 0, 0,
    64, 0x6D, 0x61, 0x78, 0x70, 0, 0, 0, 0, 0, 0, 0, 108, 0, 0, 0, 6, 0, 0, 0, 1, 0, 0, 0, 4, 0, 0,
    0, 12, 0, 12, 0, 0, 0, 0, 0, 52, 0, 0, 0, 0, 0, 0, 0, 3, 0, 0, 0, 0x20, 0, 0, 0, 0x20, 0, 0, 0,
    1, 0, 0, 0, 0x61, 0, 0, 0, 0x63, 0, 0, 0, 2, 0, 0, 0, 0x65, 0, 0, 0, 0x65, 0, 0, 0, 5, 0, 0,
    0x50, 0, 0, 8,
];

/// A text of three lines. The font lacks six of its letters, and the two line feeds.
const TEXT: &str = "u v\nw x\ny z a b";

/// A call for characters.
#[derive(Clone, Copy)]
pub(crate) enum Text {
    Glyphs,
    Missing,
    LineEnds,
    Hidden,
    Prepared,
}

/// Whether what is left of two glyphs, of which the second is hidden, are two.
fn is_hidden(heap: &LocalHeap, face: &Face) -> Result<bool, TextError> {
    let glyphs = [(2, 0), (7, 1)].map(|(glyph_id, cluster)| ShapedGlyph {
        glyph_id,
        cluster,
        is_ignorable: cluster == 1,
        is_mark: false,
        kind: CharacterKind::Other,
        x_advance: 500,
        y_advance: 0,
        x_offset: 0,
        y_offset: 0,
        attached_to: None,
        may_break_before: false,
    });
    Ok(hide_ignorables(heap, Direction::LeftToRight, face.glyph_of(' '), &glyphs)?.len() == 2)
}

/// Whether a call answers as many as there are, over a heap.
pub(crate) fn is_answered(heap: &LocalHeap, face: &Face, text: Text) -> Result<bool, TextError> {
    let unit = ClusterUnit::Bytes;
    match text {
        Text::Glyphs => Ok(text_of(heap, face, unit, TEXT)?.len() == TEXT.len()),
        Text::Missing => Ok(missing_characters(heap, face, unit, TEXT)?.len() == 8),
        Text::LineEnds => Ok(line_ends(heap, unit, TEXT)?.len() == 7),
        Text::Hidden => is_hidden(heap, face),
        Text::Prepared => {
            let level = ClusterLevel::Graphemes;
            let prepared = prepare_text(heap, face, unit, level, None, None, TEXT)?;
            Ok(prepared.glyphs.len() == TEXT.len())
        }
    }
}
