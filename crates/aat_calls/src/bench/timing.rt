//! The time that steps take.

use crate::bench::lines::{TextLine, prepared};
use crate::bench::step::{STEPS, Step};
use crate::bench::work::{
    BenchFont, LeftLine, PlacedLine, ReadyLine, Work, compile, kern, placed, ready, substitute,
};
use crate::bench::{OUTPUT, TypesetsLine};
use aat_bytes::ReadError;
use aat_face::Face;
use aat_layout::AatError;
use aat_shaper::Shaper;
use anyhow::{Context, Result, bail};
use std::alloc::Global;
use std::io::{self, Write};
use std::time::{Duration, Instant};

/// How many lines are made ready before the clock is read: few, so that a processor still has them at hand.
const LINES_AT_ONCE: usize = 32;

/// Reads the font from the bytes of its file, and lets it go.
fn read_and_drop(alloc: Global, font: BenchFont<'_, '_>) -> Result<()> {
    match Face::read(alloc, font.bytes, font.index) {
        Ok(face) => drop(face),
        Err(ReadError::Fault(fault)) => bail!("{fault}"),
        Err(ReadError::OutOfMemory) => bail!("out of memory"),
    }
    Ok(())
}

/// Makes the glyphs of all lines of their characters.
fn make_texts(alloc: Global, work: &Work<'_, '_, '_>) -> Result<()> {
    for line in &work.lines {
        drop(prepared(alloc, work.font.face, work.text, line.characters)?);
    }
    Ok(())
}

/// Compiles the features for each line.
fn compile_all(alloc: Global, work: &Work<'_, '_, '_>) -> Result<()> {
    for _line in &work.lines {
        drop(compile(alloc, &work.plan, work.font.face.font())?);
    }
    Ok(())
}

/// Shapes all lines.
fn shape_all(work: &Work<'_, '_, '_>, shaper: &mut Shaper<'_>) -> Result<()> {
    for line in &work.lines {
        shaper.shape(line.direction, &line.glyphs, &work.plan.user_features)?;
    }
    Ok(())
}

/// Typesets all lines.
fn typeset_all<T: TypesetsLine>(work: &Work<'_, '_, '_>, typesetter: &mut T) -> Result<()> {
    for line in &work.lines {
        typesetter.typeset(line.characters)?;
    }
    Ok(())
}

/// Lines before they are substituted.
fn ready_lines(
    alloc: Global,
    work: &Work<'_, '_, '_>,
    lines: &[TextLine<'_>],
) -> Result<Vec<ReadyLine>> {
    let mut made = Vec::with_capacity(alloc, lines.len())?;
    for line in lines {
        made.push(ready(alloc, work.font.face.font(), line)?)?;
    }
    Ok(made)
}

/// Lines before they are kerned.
fn placed_lines(
    alloc: Global,
    work: &Work<'_, '_, '_>,
    lines: &[TextLine<'_>],
) -> Result<Vec<PlacedLine>> {
    let font = work.font.face.font();
    let mut made = Vec::with_capacity(alloc, lines.len())?;
    for line in lines {
        let substituted = substitute(alloc, &work.plan, font, ready(alloc, font, line)?)?;
        made.push(placed(substituted)?)?;
    }
    Ok(made)
}

/// Substitutes lines, and keeps what is left.
fn substitute_lines(
    alloc: Global,
    work: &Work<'_, '_, '_>,
    lines: Vec<ReadyLine>,
    left: &mut Vec<LeftLine>,
) -> Result<(), AatError> {
    for line in lines {
        left.push(substitute(alloc, &work.plan, work.font.face.font(), line)?)?;
    }
    Ok(())
}

/// Kerns lines, and keeps what is left.
fn kern_lines(
    work: &Work<'_, '_, '_>,
    lines: Vec<PlacedLine>,
    left: &mut Vec<LeftLine>,
) -> Result<(), AatError> {
    for line in lines {
        left.push(kern(&work.plan, work.font.face.font(), line)?)?;
    }
    Ok(())
}

/// The time that substituting a few lines takes.
fn time_substitution_of(
    rt: &HostRuntime,
    work: &Work<'_, '_, '_>,
    lines: &[TextLine<'_>],
) -> Result<Duration> {
    let made = ready_lines(rt.alloc(), work, lines)?;
    let mut left = Vec::with_capacity(rt.alloc(), made.len())?;
    let start = Instant::now(rt)?;
    substitute_lines(rt.alloc(), work, made, &mut left)?;
    Ok(start.elapsed(rt)?)
}

/// The time that kerning a few lines takes.
fn time_kerning_of(
    rt: &HostRuntime,
    work: &Work<'_, '_, '_>,
    lines: &[TextLine<'_>],
) -> Result<Duration> {
    let made = placed_lines(rt.alloc(), work, lines)?;
    let mut left = Vec::with_capacity(rt.alloc(), made.len())?;
    let start = Instant::now(rt)?;
    kern_lines(work, made, &mut left)?;
    Ok(start.elapsed(rt)?)
}

/// The time that substituting all lines takes.
fn time_substitution(rt: &HostRuntime, work: &Work<'_, '_, '_>) -> Result<Duration> {
    let mut time = Duration::ZERO;
    for lines in work.lines.chunks(LINES_AT_ONCE) {
        time = time.saturating_add(time_substitution_of(rt, work, lines)?);
    }
    Ok(time)
}

/// The time that kerning all lines takes.
fn time_kerning(rt: &HostRuntime, work: &Work<'_, '_, '_>) -> Result<Duration> {
    let mut time = Duration::ZERO;
    for lines in work.lines.chunks(LINES_AT_ONCE) {
        time = time.saturating_add(time_kerning_of(rt, work, lines)?);
    }
    Ok(time)
}

/// The time of a round of a step.
fn round<T: TypesetsLine>(
    rt: &HostRuntime,
    work: &Work<'_, '_, '_>,
    shaper: &mut Shaper<'_>,
    typesetter: &mut T,
    step: Step,
) -> Result<Duration> {
    let start = Instant::now(rt)?;
    match step {
        Step::Reading => read_and_drop(rt.alloc(), work.font)?,
        Step::Text => make_texts(rt.alloc(), work)?,
        Step::Compiling => compile_all(rt.alloc(), work)?,
        Step::Substitution => return time_substitution(rt, work),
        Step::Kerning => return time_kerning(rt, work),
        Step::Shaping => shape_all(work, shaper)?,
        Step::Typesetting => typeset_all(work, typesetter)?,
    }
    Ok(start.elapsed(rt)?)
}

/// The times of so many rounds of a step, in nanoseconds, from the least one on.
fn times_of<T: TypesetsLine>(
    rt: &HostRuntime,
    work: &Work<'_, '_, '_>,
    shaper: &mut Shaper<'_>,
    typesetter: &mut T,
    step: Step,
    rounds: u32,
) -> Result<Vec<u128>> {
    let mut times = Vec::new(rt.alloc());
    for _round in 0..rounds {
        times.push(round(rt, work, shaper, typesetter, step)?.as_nanos())?;
    }
    times.sort_unstable();
    Ok(times)
}

/// Writes a time for each of so many things, in nanoseconds.
fn write_each<W: Write>(out: &mut W, nanoseconds: u128, count: usize) -> io::Result<()> {
    let hundredths = nanoseconds.saturating_mul(100) / (count as u128).max(1);
    let (whole, part) = (hundredths / 100, hundredths % 100);
    write!(out, "{whole:>7}.{part:02}")
}

/// Writes the least and the median time of a step.
fn write_times_of<W: Write>(
    out: &mut W,
    work: &Work<'_, '_, '_>,
    step: Step,
    times: &[u128],
) -> io::Result<()> {
    let (count, unit) = step.count(work);
    let least = times.first().copied().unwrap_or(0);
    let median = times.get(times.len() / 2).copied().unwrap_or(0);
    write!(out, "{:<12}", step.name())?;
    write_each(out, least, count)?;
    write_each(out, median, count)?;
    writeln!(out, "  {unit}")
}

/// Times the steps in so many rounds, at least one, and writes the least time of each and the median one, for each
/// byte, character or feature. The features are compiled by themselves only where there are any.
pub(crate) fn write_times<W: Write, T: TypesetsLine>(
    rt: &HostRuntime,
    out: &mut W,
    work: &Work<'_, '_, '_>,
    shaper: &mut Shaper<'_>,
    typesetter: &mut T,
    rounds: u32,
) -> Result<()> {
    writeln!(out, "nanoseconds    least    median  for each").context(OUTPUT)?;
    for step in STEPS {
        if step == Step::Compiling && work.plan.user_features.is_empty() {
            continue;
        }
        let times = times_of(rt, work, shaper, typesetter, step, rounds)?;
        write_times_of(out, work, step, &times).context(OUTPUT)?;
    }
    Ok(())
}
