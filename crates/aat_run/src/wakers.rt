//! The glyphs that may wake a machine, where they are known before it runs.
ghost use Rattle.std.specs.Prelude.{◌≡◌, ◌+◌, ◌<◌, ◌≤◌, ◌^◌, ℕ, All, false, true, length, slice_index_or};
ghost use Rattle.std.specs.Int.{bit_at};
ghost use Rattle.aat_buffer.specs.Buffer.{Is16Bit, glyph_at, with_cursor};
ghost use Rattle.aat_buffer.specs.Clusters.{IsSmall};
ghost use Rattle.aat_font.specs.Wakers.{word_of, word_place};
ghost use Rattle.aat_run.specs.Budget.{rest};
ghost use Rattle.aat_run.specs.inside.Passing.{last_seen};

use crate::run_state::RunState;
use aat_buffer::{hb_buffer_t, hb_glyph_info_t};
use aat_font::{GlyphWords, word_at};
use aat_lookup::GlyphId;
use std::alloc::Allocator;

/// Which glyphs may wake a machine: those whose word has its bit. In state 0 it passes each other one.
#[derive(Clone, Copy)]
pub struct Wakers<'a> {
    /// The words of the glyphs.
    pub words: &'a GlyphWords,
    /// The bit of the machine, below 64.
    pub bit: u32,
}

impl Wakers<'_> {
    /// Whether a glyph may wake the machine.
    #[tactic(auto, using(std::proofs::lemmas::Nat::Bits::shr_and_one))]
    pub fn wakes(self, glyph: &hb_glyph_info_t) -> bool
        requires bit { self.bit < 64 }
        requires id { Is16Bit glyph.now }
        ensures asleep { result ≡ false → bit_at (word_of self.entry.words.now glyph.now.glyph_id) self.entry.bit ≡ 0 }
        ensures awake { result ≡ true → bit_at (word_of self.entry.words.now glyph.now.glyph_id) self.entry.bit ≡ 1 }
    {
        self.words.word(GlyphId(glyph.glyph_id as u16)) >> self.bit & 1 != 0
    }
}

/// Whether a glyph has a bit in a list.
#[tactic(auto, using(std::proofs::lemmas::Nat::Bits::shr_and_one))]
fn has_bit(listed: &[u64], bit: u32, glyph: &hb_glyph_info_t) -> bool
    requires bit { bit < 64 }
    requires id { Is16Bit glyph.now }
    ensures clear { result ≡ false → bit_at (slice_index_or listed.now (word_place glyph.now.glyph_id) 0) bit ≡ 0 }
    ensures set { result ≡ true → bit_at (slice_index_or listed.now (word_place glyph.now.glyph_id) 0) bit ≡ 1 }
{
    word_at(listed, GlyphId(glyph.glyph_id as u16)) >> bit & 1 != 0
}

/// How many glyphs stand before the first one that has a bit in a list.
fn clear_before(listed: &[u64], bit: u32, glyphs: &[hb_glyph_info_t]) -> usize
    requires bit { bit < 64 }
    requires ids { All Is16Bit glyphs.now }
    ensures few { result ≤ length glyphs.now }
    ensures clear { (i : ℕ) → i < result
        → bit_at (slice_index_or listed.now (word_place (glyph_at glyphs.now i).glyph_id) 0) bit ≡ 0 }
    ensures all { result < length glyphs.now
        → bit_at (slice_index_or listed.now (word_place (glyph_at glyphs.now result).glyph_id) 0) bit ≡ 1 }
{
    for (i, glyph) in glyphs.iter().enumerate() {
        if has_bit(listed, bit, glyph) {
            return i;
        }
    }
    glyphs.len()
}

/// How many glyphs stand before the first one that may wake the machine.
#[tactic(auto, using(std::proofs::lemmas::Nat::Bits::shr_and_one, std::proofs::lemmas::Nat::Bits::bit_at_or))]
fn asleep_before(wakers: Wakers, glyphs: &[hb_glyph_info_t]) -> usize
    requires bit { wakers.bit < 64 }
    requires ids { All Is16Bit glyphs.now }
    ensures few { result ≤ length glyphs.now }
    ensures asleep { (i : ℕ) → i < result
        → bit_at (word_of wakers.entry.words.now (glyph_at glyphs.now i).glyph_id) wakers.entry.bit ≡ 0 }
    ensures all { result < length glyphs.now
        → bit_at (word_of wakers.entry.words.now (glyph_at glyphs.now result).glyph_id) wakers.entry.bit ≡ 1 }
{
    if wakers.words.everywhere() >> wakers.bit & 1 != 0 {
        return 0;
    }
    clear_before(wakers.words.listed(), wakers.bit, glyphs)
}

/// Passes the glyphs from the cursor on up to the first one that may wake the machine, counts a turn for each, and answers
/// how many they are. It stands apart from the turns, so that both stay short.
#[inline(never)]
pub(crate) fn pass_asleep<A: Allocator + Copy>(
    wakers: Wakers,
    buffer: &mut hb_buffer_t<A>,
    run_state: &mut RunState,
) -> usize
    requires bit { wakers.bit < 64 }
    requires ids { IsSmall buffer.old }
    requires turns { run_state.old.turns + rest buffer.old < 2 ^ 64 }
    ensures within { buffer.old.cursor + result ≤ length buffer.old.line }
    ensures asleep { (i : ℕ) → i < result → bit_at (word_of wakers.entry.words.now
        (glyph_at buffer.old.line (buffer.old.cursor + i)).glyph_id) wakers.entry.bit ≡ 0 }
    ensures passed { buffer.new ≡ with_cursor buffer.old (buffer.old.cursor + result) }
    ensures counted { run_state.new ≡ record {
      state = run_state.old.state;
      last_cluster = last_seen buffer.old run_state.old.last_cluster result;
      turns = run_state.old.turns + result;
    } }
{
    let _length = buffer.len();
    let start = buffer.backtrack_len();
    let count = asleep_before(wakers, buffer.from_cursor());
    if count > 0 {
        let next = start + count;
        run_state.last_cluster = buffer.info(next - 1).cluster;
        run_state.turns += count as u64;
        buffer.move_to(next);
    }
    count
}
