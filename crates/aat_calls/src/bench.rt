//! A text is shaped in a font, and the time of each step is taken.

mod checksum;
mod lines;
mod outcome;
mod step;
mod timing;
mod work;

use crate::bench::lines::lines_of;
use crate::bench::outcome::write_outcomes;
use crate::bench::timing::write_times;
pub use crate::bench::work::BenchFont;
use crate::bench::work::{KERNED, Work};
use aat_layout::buffer::Direction;
use aat_layout::font::{Feature, hb_ot_shape_plan_t};
use aat_shaper::Shaper;
use aat_text::{ClusterLevel, ClusterUnit, Script};
use anyhow::Result;
use std::io::Write;

/// What an error of a writer is told of.
const OUTPUT: &str = "the output";

/// A text that is measured. Each of its lines is shaped by itself.
#[derive(Clone, Copy)]
pub struct BenchText<'t> {
    /// Its characters.
    pub characters: &'t str,
    /// How many characters a line has, where the lines of the text are cut.
    pub length: Option<u32>,
    /// The direction of all lines; without one each runs as its script does.
    pub direction: Option<Direction>,
    /// The script of all lines; without one each has that of its characters.
    pub script: Option<Script>,
    /// What clusters count.
    pub unit: ClusterUnit,
    /// What has a cluster of its own.
    pub level: ClusterLevel,
}

/// A typesetter, whose time is taken too.
pub trait TypesetsLine {
    /// Typesets a line of a text.
    fn typeset(&mut self, characters: &str) -> Result<()>;
}

/// Shapes a text in a font, and writes what comes out of each step: how many glyphs in how many turns, and a checksum.
/// Then it times each step in so many rounds, where there are any, and writes the least time and the median one for each
/// byte of the font, character or feature.
///
/// An error is that of a step, of the output or of the clock. A part of the output may be written then.
pub fn measure<W: Write, T: TypesetsLine>(
    rt: &HostRuntime,
    out: &mut W,
    font: BenchFont<'_, '_>,
    features: &[Feature],
    text: BenchText<'_>,
    typesetter: &mut T,
    rounds: u32,
) -> Result<()> {
    let alloc = rt.alloc();
    let work = Work {
        font,
        text,
        lines: lines_of(alloc, font.face, text)?,
        plan: hb_ot_shape_plan_t {
            requested_kerning: true,
            kern_mask: KERNED,
            ..hb_ot_shape_plan_t::new(features.to_vec(alloc)?)
        },
    };
    let mut shaper = Shaper::new(alloc, font.face.font());
    write_outcomes(alloc, out, &work, &mut shaper)?;
    if rounds > 0 {
        write_times(rt, out, &work, &mut shaper, typesetter, rounds)?;
    }
    Ok(())
}
