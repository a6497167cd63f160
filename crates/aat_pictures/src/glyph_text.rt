//! How pictures tell which glyph it is.

use aat_read_metrics::GlyphNames;
use std::alloc::AllocError;

/// Adds what a glyph is told by to a text: its name, which stands for itself in XML, or its number where it has none.
///
/// Fails where the text gets no memory. A part may be added then.
pub(crate) fn write_glyph(
    text: &mut String,
    names: Option<&GlyphNames<'_>>,
    glyph: u16,
) -> Result<(), AllocError> {
    if let Some(names) = names
        && let Some(name) = names.name_of(glyph)
    {
        return text.push_str(name);
    }
    write!(text, "{glyph}")
}
