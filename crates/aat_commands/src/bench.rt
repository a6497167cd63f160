//! The command `aat bench`.

use crate::request::Request;
use aat_calls::{BenchFont, BenchText, TypesetsLine, measure};
use aat_typesetter::{TextOptions, Typesetter};
use aat_words::{Font, FontSource, Session, text_of_file};
use anyhow::{Context, Result};
use clap::ArgMatches;
use std::io::Write;

/// A typesetter with the options of a command line.
#[derive(Drop)]
struct OptionsTypesetter<'o, 'f> {
    typesetter: Typesetter<'f>,
    options: TextOptions<'o>,
}

impl TypesetsLine for OptionsTypesetter<'_, '_> {
    fn typeset(&mut self, characters: &str) -> Result<()> {
        Ok(self.typesetter.line(characters, &self.options)?)
    }
}

/// Tells what shaping a text in a font leaves, and how long it takes.
fn bench_in<W: Write>(
    rt: &HostRuntime,
    out: &mut W,
    font: &Font<'_>,
    request: &Request,
    text: &str,
    matches: &ArgMatches<'_>,
) -> Result<()> {
    let bench_font = BenchFont {
        bytes: font.bytes,
        index: font.source.index,
        face: font.face,
    };
    let bench_text = BenchText {
        characters: text,
        length: matches.get_one::<u32>("length"),
        direction: request.direction,
        script: request.script,
        unit: request.unit,
        level: request.level,
    };
    let features = request.features.as_slice();
    let rounds = matches.get_one::<u32>("rounds").unwrap_or(0);
    let mut typesetter = OptionsTypesetter {
        typesetter: Typesetter::new(rt.alloc(), font.face),
        options: request.options(),
    };
    measure(
        rt,
        out,
        bench_font,
        features,
        bench_text,
        &mut typesetter,
        rounds,
    )
}

/// Tells what shaping the text of a file leaves, and how long it takes.
pub fn bench<W: Write>(
    rt: &HostRuntime,
    out: &mut W,
    session: &mut Session<'_>,
    matches: &ArgMatches<'_>,
) -> Result<()> {
    let request = Request::of_matches(rt.alloc(), matches)?;
    let source = FontSource::of_matches(matches)?;
    let path = matches.get_str("file").context("a text is missing")?;
    let text = text_of_file(rt, session.speaker, path)?;
    let font = session.fonts.font(rt, &source)?;
    font.tell_faults(rt, session.speaker)?;
    bench_in(rt, out, font, &request, text.as_str(), matches)
}
