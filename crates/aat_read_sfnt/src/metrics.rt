//! Metrics along rows and along columns.
ghost use Rattle.std.specs.Prelude.{◌≡◌, ◌*◌, ◌<◌, ◌≤◌, ℕ, length, slice_index_or, unwrap_or};
ghost use Rattle.aat_bytes.specs.Numbers.{be16};
ghost use Rattle.aat_read_sfnt.specs.Metrics.{advance_of, bearing_of, long_metric_count, metrics_of};

use crate::tags::HHEA;
use aat_bytes::{Fault, FaultKind, be16};
use std::marker::Model;

/// The number of long metrics that the table `hhea` names. The table `vhea` has the same form, and names those of
/// `vmtx`.
///
/// The fault is 1, `PastEnd`, if a field is not there, and 2, `UnknownFormat`, if the version is not 1.
/// Apple's TrueType Reference Manual, "The 'hhea' table".
#[tactic(auto, unfolding(crate::specs::Metrics::long_metric_count))]
pub fn long_metric_count(hhea: &[u8]) -> Result<u16, Fault>
    ensures { result ≡ long_metric_count hhea.now }
{
    if hhea.len() < 36 {
        return Err(Fault::new(HHEA, FaultKind::PastEnd, 0));
    }
    if be16(hhea, 0) != 1 {
        return Err(Fault::new(HHEA, FaultKind::UnknownFormat, 0));
    }
    Ok(be16(hhea, 34))
}

/// The metrics of a font along rows, or along columns. A contract sees them as the record `LongMetrics`.
///
/// Apple's TrueType Reference Manual, "The 'hmtx' table".
#[derive(Drop)]
pub struct Metrics<'a> {
    bytes: &'a [u8],
    long_count: usize,
    bearing_count: usize,
}

impl<'a> Model for Metrics<'a> {
    ghost use Rattle.std.specs.Prelude.{◌+◌, ◌*◌, ◌≤◌, length};
    ghost use Rattle.aat_read_sfnt.specs.Metrics.{LongMetrics};

    ghost Value = { LongMetrics };

    ghost view = { λ m. record {
      bytes = m.bytes.now;
      long_count = m.long_count;
      bearing_count = m.bearing_count;
    } };

    ghost invariant = { λ m. (4 * m.long_count ≤ length m.bytes.now)
        × (2 * (m.long_count + m.bearing_count) ≤ length m.bytes.now)
        × (m.bearing_count ≤ 65535 * m.long_count) };
}

impl<'a> Metrics<'a> {
    /// The metrics of the table `hmtx` or `vmtx`, with so many long ones as `hhea` or `vhea` names, of a font of so many
    /// glyphs. Where fewer are there than are named, those that are there count.
    pub fn new(bytes: &'a [u8], long_metric_count: u16, glyph_count: u16) -> Metrics<'a>
        ensures { result ≡ metrics_of bytes.now long_metric_count glyph_count }
    {
        let long_count = (long_metric_count as usize).min(bytes.len() / 4);
        let bearing_count = if long_count == 0 {
            0
        } else {
            (glyph_count as usize)
                .max(long_count)
                .min((bytes.len() / 2).saturating_sub(long_count))
        };
        Metrics {
            bytes,
            long_count,
            bearing_count,
        }
    }

    /// The advance of a glyph, in units of the font, or `None` where there is no long metric.
    ///
    /// It is that of the glyph's long metric, or of the last one. A glyph without a bearing has 0, as for HarfBuzz: one
    /// past the last glyph of the font, or whose bearing is not there.
    pub fn advance(&self, glyph: u16) -> Option<u16>
        ensures { result ≡ advance_of self.now glyph }
    {
        if self.bearing_count == 0 {
            return None;
        }
        let glyph = glyph as usize;
        if glyph >= self.bearing_count {
            return Some(0);
        }
        Some(be16(self.bytes, 4 * glyph.min(self.long_count - 1)))
    }

    /// Writes the advance of each glyph from 0 on over numbers, one for each. Without a long metric they stay.
    pub fn write_advances(&self, advances: &mut [u16])
        ensures long { length advances.new ≡ length advances.old }
        ensures each { (glyph : ℕ) → glyph < length advances.old → slice_index_or advances.new glyph 0
            ≡ unwrap_or (advance_of self.now glyph) (slice_index_or advances.old glyph 0) }
    {
        if self.bearing_count == 0 {
            return;
        }
        let count = advances.len();
        let bearings = self.bearing_count.min(count);
        let longs = self.long_count.min(bearings);
        let last = be16(self.bytes, 4 * (self.long_count - 1));
        write_long_advances(self.bytes, longs, advances);
        write_run(advances, longs, bearings, last);
        write_run(advances, bearings, count, 0);
    }

    /// The bearing of a glyph on its left, or in columns on its top, in units of the font: 0 where it has none.
    pub fn bearing(&self, glyph: u16) -> i16
        ensures { result ≡ bearing_of self.now glyph }
    {
        let glyph = glyph as usize;
        if glyph >= self.bearing_count {
            return 0;
        }
        let place = if glyph < self.long_count {
            4 * glyph + 2
        } else {
            2 * (self.long_count + glyph)
        };
        be16(self.bytes, place).cast_signed()
    }
}

/// Writes the advances of so many long metrics over the first numbers.
fn write_long_advances(bytes: &[u8], count: usize, advances: &mut [u16])
    requires metrics { 4 * count ≤ length bytes.now }
    requires inside { count ≤ length advances.old }
    ensures long { length advances.new ≡ length advances.old }
    ensures each { (k : ℕ) → k < count → slice_index_or advances.new k 0 ≡ be16 bytes.now (4 * k) }
{
    let (metrics, _) = bytes.as_chunks::<4>();
    for glyph in 0..count {
        advances[glyph] = be16(&metrics[glyph], 0);
    }
}

/// Writes an advance over the numbers from one up to another.
fn write_run(advances: &mut [u16], from: usize, to: usize, advance: u16)
    requires { to ≤ length advances.old }
    ensures long { length advances.new ≡ length advances.old }
    ensures before { (k : ℕ) → k < from → slice_index_or advances.new k 0 ≡ slice_index_or advances.old k 0 }
    ensures written { (k : ℕ) → from ≤ k → k < to → slice_index_or advances.new k 0 ≡ advance }
{
    for glyph in from..to {
        advances[glyph] = advance;
    }
}
