//! A line is compared with its two parts, at places where it may be broken.

use crate::line::Context;
use aat_text::text_script;
use aat_typesetter::{
    ClusterUnit, Feature, Script, ShapedGlyph, TextGlyph, TextOptions, TypesetError, Typesetter,
};
use anyhow::{Result, ensure};
use std::alloc::{AllocError, Global};

/// The most places of a line at which its parts are compared with it. The time of each grows with the line.
const MOST_PLACES: usize = 1_000;

/// What is typeset as a line, or as a part of one.
#[derive(Clone, Copy)]
pub(crate) enum Whole<'t> {
    /// A text.
    Text(&'t str),
    /// Glyphs along which clusters rise.
    Glyphs(&'t [TextGlyph]),
}

/// The bytes of a text before a place.
fn bytes_before(unit: ClusterUnit, text: &str, place: u32) -> usize {
    let place = place as usize;
    match unit {
        ClusterUnit::Bytes => place,
        ClusterUnit::Characters => text
            .char_indices()
            .nth(place)
            .map_or(text.len(), |(bytes, _)| bytes),
    }
}

impl<'t> Whole<'t> {
    /// What stands before a place, and what stands from there on.
    fn parts(self, unit: ClusterUnit, place: u32) -> (Whole<'t>, Whole<'t>) {
        match self {
            Whole::Text(text) => {
                let bytes = bytes_before(unit, text, place);
                let (before, behind) = text.split_at_checked(bytes).unwrap_or((text, ""));
                (Whole::Text(before), Whole::Text(behind))
            }
            Whole::Glyphs(glyphs) => {
                let count = glyphs.partition_point(|glyph| glyph.cluster < place);
                let (before, behind) = glyphs.split_at(count);
                (Whole::Glyphs(before), Whole::Glyphs(behind))
            }
        }
    }

    /// The script in which its parts are typeset, where one is told.
    fn script(self, told: Option<Script>) -> Option<Script> {
        match self {
            Whole::Text(text) => told.or(text_script(text)),
            Whole::Glyphs(_) => None,
        }
    }

    /// What the clusters of the part from a place on, typeset by itself, count from.
    fn start(self, place: u32) -> u32 {
        match self {
            Whole::Text(_) => place,
            Whole::Glyphs(_) => 0,
        }
    }

    /// Typesets it in one line.
    fn set(
        self,
        alloc: Global,
        typesetter: &mut Typesetter<'_>,
        options: &TextOptions<'_>,
    ) -> Result<(), TypesetError> {
        match self {
            Whole::Text(text) => typesetter.line(text, options),
            Whole::Glyphs(glyphs) => {
                typesetter.line_of_glyphs(Vec::from_slice(alloc, glyphs)?, options)
            }
        }
    }
}

/// The features of what stands from a place on, whose clusters count from there.
fn features_from(
    alloc: Global,
    features: &[Feature],
    start: u32,
) -> Result<Vec<Feature>, AllocError> {
    let mut behind = Vec::new(alloc);
    for feature in features.iter().filter(|feature| feature.end > start) {
        behind.push(Feature {
            start: feature.start.saturating_sub(start),
            end: match feature.end {
                u32::MAX => u32::MAX,
                end => end.saturating_sub(start),
            },
            ..*feature
        })?;
    }
    Ok(behind)
}

/// Whether a glyph of a part whose clusters count from a place is drawn as one of the line.
fn is_as_in_line(start: u32, part: &ShapedGlyph, line: &ShapedGlyph) -> bool {
    let advances = (part.x_advance, part.y_advance) == (line.x_advance, line.y_advance);
    let offsets = (part.x_offset, part.y_offset) == (line.x_offset, line.y_offset);
    let is_same = part.glyph_id == line.glyph_id && advances && offsets;
    is_same && part.cluster.checked_add(start) == Some(line.cluster)
}

/// Whether the glyphs of a part whose clusters count from a place are drawn as those of the line.
fn are_as_in_line(start: u32, part: &[ShapedGlyph], line: &[ShapedGlyph]) -> bool {
    part.len() == line.len()
        && part
            .iter()
            .zip(line)
            .all(|(part, line)| is_as_in_line(start, part, line))
}

/// A line that is cut in two.
#[derive(Clone, Copy)]
struct Cut<'g> {
    /// The place in its text at which it is cut.
    place: u32,
    /// The glyphs of what stands before the place.
    before: &'g [ShapedGlyph],
    /// The glyphs of what stands from the place on.
    behind: &'g [ShapedGlyph],
}

/// The line that is cut before a glyph: at the later one of the two clusters that meet there. Where clusters fall from
/// left to right, what is drawn behind it stands before it in the text.
fn cut_before(glyphs: &[ShapedGlyph], index: usize) -> Option<Cut<'_>> {
    let (left, right) = glyphs.split_at_checked(index)?;
    let (last, first) = (left.last()?.cluster, right.first()?.cluster);
    let (before, behind) = if last < first {
        (left, right)
    } else {
        (right, left)
    };
    Some(Cut {
        place: last.max(first),
        before,
        behind,
    })
}

/// Whether the two parts of a line that is cut, each typeset by itself, are drawn as its glyphs are.
fn holds(
    alloc: Global,
    context: &Context<'_, '_>,
    typesetter: &mut Typesetter<'_>,
    whole: Whole<'_>,
    cut: Cut<'_>,
) -> Result<bool, TypesetError> {
    let asked = context.request.options();
    let start = whole.start(cut.place);
    let features = features_from(alloc, asked.features, start)?;
    let options = TextOptions {
        script: whole.script(asked.script),
        ..asked
    };
    let (before, behind) = whole.parts(asked.unit, cut.place);
    before.set(alloc, typesetter, &options)?;
    if !are_as_in_line(0, typesetter.glyphs(), cut.before) {
        return Ok(false);
    }
    let options = TextOptions {
        features: &features,
        ..options
    };
    behind.set(alloc, typesetter, &options)?;
    Ok(are_as_in_line(start, typesetter.glyphs(), cut.behind))
}

/// Compares a line with its two parts, each typeset by a typesetter, as `verify` does.
fn verify_by(
    alloc: Global,
    context: &Context<'_, '_>,
    typesetter: &mut Typesetter<'_>,
    whole: Whole<'_>,
    glyphs: &[ShapedGlyph],
) -> Result<()> {
    let open = glyphs.iter().enumerate();
    let open = open.filter(|(_, glyph)| glyph.may_break_before);
    for (index, _) in open.take(MOST_PLACES) {
        if let Some(cut) = cut_before(glyphs, index) {
            ensure!(
                holds(alloc, context, typesetter, whole, cut)?,
                "the parts at {} are not drawn as the line is",
                cut.place
            );
        }
    }
    Ok(())
}

/// Compares a line with its two parts, each typeset by itself in the script of the line, wherever its glyphs tell that
/// it may be broken, but at most at the first 1,000 places. An error tells the first place at which they differ.
pub(crate) fn verify(
    alloc: Global,
    context: &Context<'_, '_>,
    whole: Whole<'_>,
    glyphs: &[ShapedGlyph],
) -> Result<()> {
    let mut typesetter = Typesetter::new(alloc, context.face);
    verify_by(alloc, context, &mut typesetter, whole, glyphs)
}
