//! What comes out of the steps, without times.

use crate::bench::OUTPUT;
use crate::bench::checksum::{EMPTY, with_drawn, with_line};
use crate::bench::lines::TextLine;
use crate::bench::step::{KERNING, SHAPING, SUBSTITUTION};
use crate::bench::work::{LeftLine, Work, kern, placed, ready, substitute};
use aat_layout::Turns;
use aat_shaper::Shaper;
use anyhow::{Context, Result, anyhow};
use std::alloc::Global;
use std::io::{self, Write};

/// What a step leaves of all lines.
#[derive(Clone, Copy)]
struct Outcome {
    /// How many glyphs.
    glyphs: usize,
    /// In how many turns of machines.
    turns: Turns,
    /// The checksum of the lines.
    checksum: u64,
}

/// Nothing.
const NOTHING: Outcome = Outcome {
    glyphs: 0,
    turns: 0,
    checksum: EMPTY,
};

impl Outcome {
    /// What is left with another line.
    fn with(self, line: &LeftLine) -> Outcome {
        Outcome {
            glyphs: self.glyphs.saturating_add(line.buffer.len()),
            turns: self.turns.saturating_add(line.turns),
            checksum: with_line(self.checksum, &line.buffer),
        }
    }

    /// What is left with another line that is drawn.
    fn with_shaped(self, shaper: &Shaper<'_>) -> Outcome {
        Outcome {
            glyphs: self.glyphs.saturating_add(shaper.glyphs().len()),
            turns: self.turns,
            checksum: with_drawn(self.checksum, shaper.glyphs()),
        }
    }
}

/// What the steps leave.
#[derive(Clone, Copy)]
struct Outcomes {
    substitution: Outcome,
    kerning: Outcome,
    shaping: Outcome,
}

/// What the steps leave with another line.
fn with_steps(
    alloc: Global,
    work: &Work<'_, '_, '_>,
    shaper: &mut Shaper<'_>,
    line: &TextLine<'_>,
    before: Outcomes,
) -> Result<Outcomes> {
    let font = work.font.face.font();
    let substituted = substitute(alloc, &work.plan, font, ready(alloc, font, line)?)?;
    let substitution = before.substitution.with(&substituted);
    let kerned = kern(&work.plan, font, placed(substituted)?)?;
    shaper.shape(line.direction, &line.glyphs, &work.plan.user_features)?;
    Ok(Outcomes {
        substitution,
        kerning: before.kerning.with(&kerned),
        shaping: before.shaping.with_shaped(shaper),
    })
}

/// What the steps leave of all lines.
fn outcomes_of(
    alloc: Global,
    work: &Work<'_, '_, '_>,
    shaper: &mut Shaper<'_>,
) -> Result<Outcomes> {
    let mut outcomes = Outcomes {
        substitution: NOTHING,
        kerning: NOTHING,
        shaping: NOTHING,
    };
    for (place, line) in work.lines.iter().enumerate() {
        let number = place.saturating_add(1);
        outcomes = with_steps(alloc, work, shaper, line, outcomes).with_context(|| anyhow!(
            "line {number}"
        ))?;
    }
    Ok(outcomes)
}

/// Writes what a step leaves, but for the turns.
fn write_outcome<W: Write>(out: &mut W, step: &str, outcome: Outcome) -> io::Result<()> {
    let (glyphs, checksum) = (outcome.glyphs, outcome.checksum);
    write!(out, "{step:<12} {glyphs:>9}  {checksum:016x}")
}

/// Writes what each step leaves.
fn write_table<W: Write>(out: &mut W, outcomes: &Outcomes) -> io::Result<()> {
    let (substitution, kerning) = (outcomes.substitution, outcomes.kerning);
    writeln!(out, "step            glyphs  checksum              turns")?;
    write_outcome(out, SUBSTITUTION, substitution)?;
    writeln!(out, " {:>10}", substitution.turns)?;
    write_outcome(out, KERNING, kerning)?;
    writeln!(out, " {:>10}", kerning.turns)?;
    write_outcome(out, SHAPING, outcomes.shaping)?;
    writeln!(out)
}

/// Writes how many lines and characters there are, and what each step leaves of them: how many glyphs and their
/// checksum, and of substitution and of kerning the turns.
pub(crate) fn write_outcomes<W: Write>(
    alloc: Global,
    out: &mut W,
    work: &Work<'_, '_, '_>,
    shaper: &mut Shaper<'_>,
) -> Result<()> {
    let outcomes = outcomes_of(alloc, work, shaper)?;
    let (lines, characters) = (work.lines.len(), work.characters());
    writeln!(out, "lines {lines}, characters {characters}").context(OUTPUT)?;
    write_table(out, &outcomes).context(OUTPUT)
}
