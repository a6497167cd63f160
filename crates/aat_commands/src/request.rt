//! What a command line asks of `aat shape`.

use crate::looks::paint_of;
use aat_drawing::Paint;
use aat_typesetter::{
    ClusterLevel, ClusterUnit, Direction, Feature, FeatureListError, Script, TextOptions,
    parse_features, script_of_tag,
};
use aat_words::size_asked;
use anyhow::{Context, Result, anyhow, bail, ensure};
use clap::ArgMatches;
use std::alloc::Global;

/// The form in which lines are shown.
#[derive(Clone, Copy, PartialEq, Eq, Debug)]
pub(crate) enum Output {
    /// As `hb-shape` writes them.
    Glyphs,
    /// As JSON.
    Json,
    /// As a picture of outlines.
    Svg,
    /// As a picture of boxes.
    Boxes,
    /// What each subtable changed.
    Trace,
    /// What each subtable changed, as a picture.
    TracePicture,
}

impl Output {
    /// Whether all lines are shown as one picture.
    pub(crate) fn is_picture(self) -> bool {
        self == Output::Svg || self == Output::Boxes
    }

    /// Whether subtables are named.
    pub(crate) fn names_subtables(self) -> bool {
        self == Output::TracePicture || self.is_picture()
    }

    /// Whether it is told where the text may be broken, and by which subtable a glyph was changed.
    pub(crate) fn tells_of_glyphs(self) -> bool {
        self == Output::Json || self.is_picture()
    }

    /// Whether glyphs may be shown with their flags.
    fn has_flags(self) -> bool {
        self == Output::Glyphs || self == Output::Trace
    }
}

/// What is asked of a shaping.
#[derive(Drop)]
pub(crate) struct Request {
    /// The features, in their order.
    pub(crate) features: Vec<Feature>,
    /// The direction, where the command line has one.
    pub(crate) direction: Option<Direction>,
    /// The size, where the text is tracked: a point counts 65536.
    pub(crate) size: Option<u32>,
    /// The width of a line, in units of the font, where lines are broken.
    pub(crate) width: Option<u32>,
    /// What clusters count.
    pub(crate) unit: ClusterUnit,
    /// The script, where the command line has one.
    pub(crate) script: Option<Script>,
    /// What has a cluster of its own.
    pub(crate) level: ClusterLevel,
    /// The glyph of a character that the font has no glyph for.
    pub(crate) not_found: u16,
    /// The form in which lines are shown.
    pub(crate) output: Output,
    /// Whether flags of glyphs are shown.
    pub(crate) shows_flags: bool,
    /// Whether glyphs are written by their names.
    pub(crate) shows_names: bool,
    /// Whether the glyphs of characters that are not seen are left out.
    pub(crate) removes_ignorables: bool,
    /// Whether each line is compared with its parts.
    pub(crate) verifies: bool,
    /// How a picture looks.
    pub(crate) paint: Paint,
}

/// The direction of a word.
fn direction_of(word: &str) -> Option<Direction> {
    match word {
        "ltr" => Some(Direction::LeftToRight),
        "rtl" => Some(Direction::RightToLeft),
        "ttb" => Some(Direction::TopToBottom),
        "btt" => Some(Direction::BottomToTop),
        _ => None,
    }
}

/// The script of a tag of four letters.
fn script_of(tag: &str) -> Option<Script> {
    let letters = tag.as_bytes();
    if letters.len() != 4 {
        return None;
    }
    script_of_tag(u32::from_be_bytes([letters[0], letters[1], letters[2], letters[3]]))
}

/// The form of a word.
fn output_of(word: &str) -> Output {
    match word {
        "json" => Output::Json,
        "svg" => Output::Svg,
        "boxes" => Output::Boxes,
        _ => Output::Glyphs,
    }
}

/// The form of a word in which what each subtable changed is shown.
fn traced_output_of(word: &str) -> Result<Output> {
    match output_of(word) {
        Output::Glyphs => Ok(Output::Trace),
        Output::Svg => Ok(Output::TracePicture),
        _ => bail!("a trace is shown in the forms glyphs and svg"),
    }
}

/// The features of a list, parted by commas. An empty list has none.
fn features_of(alloc: Global, list: &str) -> Result<Vec<Feature>> {
    if list.is_empty() {
        return Ok(Vec::new(alloc));
    }
    match parse_features(alloc, list) {
        Err(FeatureListError::NoFeature(number, error)) => {
            let text = list.split(',').nth(number).unwrap_or(list);
            bail!("feature \"{text}\": {error}")
        }
        features => Ok(features?),
    }
}

impl Request {
    /// How a text is typeset.
    pub(crate) fn options(&self) -> TextOptions<'_> {
        TextOptions {
            direction: self.direction,
            features: &self.features,
            size: self.size,
            unit: self.unit,
            script: self.script,
            level: self.level,
            not_found: self.not_found,
        }
    }

    /// What the command line asks.
    pub(crate) fn of_matches(alloc: Global, matches: &ArgMatches<'_>) -> Result<Request> {
        let features = match matches.get_str("features") {
            Some(list) => features_of(alloc, list)?,
            None => Vec::new(alloc),
        };
        let direction = matches.get_str("direction").and_then(direction_of);
        let unit = match matches.get_str("clusters") {
            Some("bytes") => ClusterUnit::Bytes,
            _ => ClusterUnit::Characters,
        };
        let script = match matches.get_str("script") {
            Some(tag) => Some(script_of(tag).with_context(|| anyhow!("no script \"{tag}\""))?),
            None => None,
        };
        let level = match matches.get_str("level") {
            Some("1") => ClusterLevel::Characters,
            _ => ClusterLevel::Graphemes,
        };
        let word = matches.get_str("output").unwrap_or("glyphs");
        let output = if matches.get_flag("trace") {
            traced_output_of(word)?
        } else {
            output_of(word)
        };
        let shows_flags = matches.get_flag("flags");
        ensure!(
            !shows_flags || output.has_flags(),
            "flags are shown in the form glyphs alone"
        );
        let shows_names = matches.get_flag("names");
        ensure!(
            !shows_names || !output.is_picture(),
            "a picture of a text shows no names"
        );
        Ok(Request {
            features,
            direction,
            size: size_asked(matches, "size")?,
            width: matches.get_one::<u32>("width"),
            unit,
            script,
            level,
            not_found: matches.get_one::<u16>("not-found").unwrap_or(0),
            output,
            shows_flags,
            shows_names,
            removes_ignorables: matches.get_flag("ignorables"),
            verifies: matches.get_flag("verify"),
            paint: paint_of(alloc, matches)?,
        })
    }
}
