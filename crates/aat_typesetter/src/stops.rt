//! Where lines of a text may end, among its glyphs.
ghost use Rattle.std.specs.Prelude.{◌≡◌, ◌≤◌, IfOk, length, true};
ghost use Rattle.aat_shaped_text.specs.Breaks.{is_rising};
ghost use Rattle.aat_typesetter.specs.Stops.{count_before, hang_of, is_space, stop_behind, stops_at, stops_for};

use aat_lookup::GlyphId;
use aat_shaped_text::TextGlyph;
use aat_shaper::LineStop;
use aat_text::LineEnd;
use std::alloc::{AllocError, Allocator};

/// Whether a glyph is the space of the font, if it has one.
fn is_space(space: Option<GlyphId>, glyph: &TextGlyph) -> bool
    ensures { result ≡ is_space space glyph.now }
{
    match space {
        Some(space) => glyph.glyph_id == space.0,
        None => false,
    }
}

/// The cluster of the first of the spaces that end a text, if it ends with spaces.
fn hang_of(space: Option<GlyphId>, text: &[TextGlyph]) -> Option<u32>
    ensures { result ≡ hang_of space text.now }
{
    let mut hang = None;
    for count in 0..text.len() {
        let glyph = &text[text.len() - 1 - count];
        if !is_space(space, glyph) {
            return hang;
        }
        hang = Some(glyph.cluster);
    }
    hang
}

/// How many glyphs of a text, along which clusters never fall, are of clusters before one.
fn count_before(text: &[TextGlyph], cluster: u32) -> usize
    requires { is_rising text.now ≡ true }
    ensures value { result ≡ count_before cluster text.now }
    ensures within { result ≤ length text.now }
{
    text.partition_point(|glyph| glyph.cluster < cluster)
}

/// The stop behind so many glyphs of a text. The spaces before it hang over the end of its line.
fn stop_behind(
    space: Option<GlyphId>,
    text: &[TextGlyph],
    is_forced: bool,
    place: usize,
) -> LineStop
    requires { place ≤ length text.now }
    ensures { result ≡ stop_behind space text.now is_forced place }
{
    LineStop {
        place,
        hang: hang_of(space, &text[..place]),
        is_forced,
    }
}

/// Whether clusters never fall along a text.
fn is_rising(text: &[TextGlyph]) -> bool
    ensures { result ≡ is_rising text.now }
{
    for i in 1..text.len() {
        if text[i].cluster < text[i - 1].cluster {
            return false;
        }
    }
    true
}

/// The stops at these places of a text, along which clusters never fall: each place among the glyphs.
fn stops_at<A: Allocator>(
    alloc: A,
    space: Option<GlyphId>,
    text: &[TextGlyph],
    ends: &[LineEnd],
) -> Result<Vec<LineStop, A>, AllocError>
    requires { is_rising text.now ≡ true }
    ensures { IfOk result (λ stops. stops.items ≡ stops_at space text.now ends.now) }
{
    let mut stops = Vec::with_capacity(alloc, ends.len())?;
    for end in ends {
        let place = count_before(text, end.place);
        stops.push(stop_behind(space, text, end.is_forced, place))?;
    }
    Ok(stops)
}

/// The stops of a text whose lines may end at these places, and its end; where clusters fall along it that is the only
/// one.
pub(crate) fn stops_for<A: Allocator>(
    alloc: A,
    space: Option<GlyphId>,
    text: &[TextGlyph],
    ends: &[LineEnd],
) -> Result<Vec<LineStop, A>, AllocError>
    ensures { IfOk result (λ stops. stops.items ≡ stops_for space text.now ends.now) }
{
    let mut stops = if is_rising(text) {
        stops_at(alloc, space, text, ends)?
    } else {
        Vec::new(alloc)
    };
    stops.push(stop_behind(space, text, true, text.len()))?;
    Ok(stops)
}
