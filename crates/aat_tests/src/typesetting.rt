//! Texts that are typeset, over a heap.

use aat_face::Face;
use aat_typesetter::{TextOptions, TypesetError, Typesetter};
use linked_list_allocator::LocalHeap;
use std::alloc::Global;

/// How a text is typeset.
#[derive(Clone, Copy)]
pub(crate) enum Setting {
    Line,
    Lines,
}

/// Whether a text of three letters and a space is typeset as the glyphs of these in one line.
fn is_line_set(typesetter: &mut Typesetter<&LocalHeap>) -> Result<bool, TypesetError> {
    typesetter.line("ab c", &TextOptions::new())?;
    let glyphs = typesetter.glyphs().iter();
    Ok(glyphs.map(|glyph| glyph.glyph_id).eq([2, 3, 1, 4]))
}

/// Whether a text of two lines is typeset in two of a width that holds each.
fn are_lines_set(typesetter: &mut Typesetter<&LocalHeap>) -> Result<bool, TypesetError> {
    let lines = typesetter.lines("ab\nc", 1 << 20, &TextOptions::new())?;
    Ok(lines.len() == 2)
}

/// Whether a text is typeset over a heap, with the features in the memory of the process.
pub(crate) fn is_set(
    alloc: Global,
    heap: &LocalHeap,
    face: &Face,
    setting: Setting,
) -> Result<bool, TypesetError> {
    let mut typesetter = Typesetter::new_in(alloc, heap, face);
    match setting {
        Setting::Line => is_line_set(&mut typesetter),
        Setting::Lines => are_lines_set(&mut typesetter),
    }
}
