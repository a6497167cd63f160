//! Which subtables the glyphs of a line wake.
ghost use Rattle.std.specs.Prelude.{◌≡◌, ◌<◌, ◌≤◌, ℕ, false, true, All, IfSome, Some, slice_get, slice_index_or, length};
ghost use Rattle.std.specs.Int.{bit_at};
ghost use Rattle.aat_buffer.specs.Buffer.{Is16Bit, glyph_at};
ghost use Rattle.aat_buffer.specs.Clusters.{IsSmall};
ghost use Rattle.aat_font.specs.Idle.{is_idle};
ghost use Rattle.aat_font.specs.Blocks.{blocks_of};
ghost use Rattle.aat_font.specs.Wakers.{WakeAt, word_of, word_place};
ghost use Rattle.aat_machine_tables.specs.declared.morx.Subtable.{Subtable};
ghost use Rattle.aat_kinds.specs.Idle.{SleepOthers};
ghost use Rattle.aat_morx.specs.LineWords.{AreBitsOf, HasBitsOf, IsAsleep, IsClearIn, KnowsNothing, TellsOf};

use aat_buffer::{hb_buffer_t, hb_glyph_info_t};
use aat_font::{GlyphWords, SubtableWords, word_at};
use aat_lookup::GlyphId;
use aat_run::Wakers;
use std::alloc::Allocator;

/// The number of subtables that have a bit in a word.
const WORD: usize = 64;

/// The bits of all glyphs of a line, as long as they are known, and those of an earlier line behind that.
#[derive(Clone, Copy)]
struct KnownBits {
    /// The bits.
    bits: u64,
    /// Whether the line is still the one whose bits these are.
    are_known: bool,
}

impl KnownBits {
    /// Whether a line has a glyph, and none of its glyphs has a bit in its word. Where its bits are not known, it answers
    /// `false` at once where a glyph of an earlier line has the bit, and else looks at the glyphs.
    fn are_clear<A: Allocator + Copy>(
        &mut self,
        words: &GlyphWords,
        bit: usize,
        buffer: &hb_buffer_t<A>,
    ) -> bool
        requires bit { bit < 64 }
        requires ids { IsSmall buffer.now }
        requires tells { AreBitsOf self.old words.now buffer.now.line }
        ensures tells { AreBitsOf self.new words.now buffer.now.line }
        ensures clear { result ≡ true → IsClearIn words.now bit buffer.now.line }
    {
        if self.has(bit) {
            return false;
        }
        self.learn(words, buffer);
        !self.has(bit)
    }

    /// Makes the bits of a line known, where they are not.
    fn learn<A: Allocator + Copy>(&mut self, words: &GlyphWords, buffer: &hb_buffer_t<A>)
        requires ids { IsSmall buffer.now }
        requires tells { AreBitsOf self.old words.now buffer.now.line }
        ensures { HasBitsOf words.now self.new.bits buffer.now.line }
    {
        if !self.are_known {
            self.bits = line_bits(words, buffer);
            self.are_known = true;
        }
    }

    /// Whether a bit is set.
    #[tactic(auto, using(std::proofs::lemmas::Nat::Bits::shr_and_one))]
    fn has(&self, bit: usize) -> bool
        requires { bit < 64 }
        ensures { result ≡ false → bit_at self.now.bits bit ≡ 0 }
    {
        self.bits >> bit & 1 != 0
    }
}

/// Which subtables the glyphs of a line may wake: the bits of all of its glyphs for a block of 64 subtables, and those of
/// the summary, which tell of each block.
///
/// A run begins with one that knows nothing of the line. It goes from chain to chain, and forgets what is known where a
/// subtable has run.
#[derive(Clone, Copy)]
pub struct LineWord {
    /// Which 64 subtables these are: their first one has this number times 64.
    block: usize,
    /// Their bits.
    word: KnownBits,
    /// The bits of the summary.
    summary: KnownBits,
}

impl LineWord {
    /// Nothing is known of a line, which is asked by these words (`Morx::wakers`). A bit of the summary that each glyph
    /// has counts as one of an earlier line, so that no line is looked at for it.
    pub fn unknown(words: &SubtableWords) -> LineWord
        ensures { KnowsNothing result }
    {
        LineWord {
            block: 0,
            word: KnownBits {
                bits: 0,
                are_known: false,
            },
            summary: KnownBits {
                bits: words.summary().everywhere(),
                are_known: false,
            },
        }
    }

    /// The bits are no longer known to be those of the line, which may have changed.
    pub fn forget(&mut self)
        ensures { KnowsNothing self.new }
    {
        self.word.are_known = false;
        self.summary.are_known = false;
    }

    /// Whether a glyph of a line may wake the subtable with a number, by the words of the subtables (`Morx::wakers`). One
    /// without a word is awake. The summary is asked first whether the whole block sleeps, and else the words of the
    /// block. For either it looks at the glyphs only where their bits are not known, and no glyph of an earlier line has
    /// the bit that is asked for. Such a bit counts as the line's own: to run the subtable costs little more than to look.
    ///
    /// Each glyph id has to be at most 0xFFFF, and what is known has to hold of the line. Where it answers that none may,
    /// the line has a glyph, and the subtable does nothing over each of its glyphs.
    pub fn wakes<A: Allocator + Copy>(
        &mut self,
        words: &SubtableWords,
        number: usize,
        buffer: &hb_buffer_t<A>,
    ) -> bool
        requires ids { IsSmall buffer.now }
        requires tells { TellsOf self.old words.now buffer.now.line }
        ensures tells { TellsOf self.new words.now buffer.now.line }
        ensures asleep { (s : Subtable) → WakeAt s (blocks_of words.now) number → result ≡ false
            → IsAsleep s buffer.now.line }
    {
        let block = number / WORD;
        match words.blocks().get(block) {
            Some(glyph_words) => {
                if self
                    .summary
                    .are_clear(words.summary(), block % WORD, buffer)
                {
                    return false;
                }
                self.turn_to(block);
                !self.word.are_clear(glyph_words, number % WORD, buffer)
            }
            None => true,
        }
    }

    /// Has the bits of a block, and knows none where it had those of another.
    fn turn_to(&mut self, block: usize)
        ensures block { self.new.block ≡ block }
        ensures summary { self.new.summary ≡ self.old.summary }
        ensures word { self.new.word.are_known ≡ true → (self.new.word ≡ self.old.word) × (self.old.block ≡ block) }
    {
        if self.block != block {
            self.block = block;
            self.word = KnownBits {
                bits: 0,
                are_known: false,
            };
        }
    }
}

/// The bits of all glyphs of a line. All bits where the line is empty, or its cursor is not at the front.
fn line_bits<A: Allocator + Copy>(words: &GlyphWords, buffer: &hb_buffer_t<A>) -> u64
    requires ids { IsSmall buffer.now }
    ensures { HasBitsOf words.now result buffer.now.line }
{
    if buffer.is_empty() || buffer.backtrack_len() > 0 {
        return u64::MAX;
    }
    words.everywhere() | bits_of(words.listed(), buffer.from_cursor())
}

/// The bits of a glyph in a list.
fn bits_of_glyph(listed: &[u64], glyph: &hb_glyph_info_t) -> u64
    requires { Is16Bit glyph.now }
    ensures { result ≡ slice_index_or listed.now (word_place glyph.now.glyph_id) 0 }
{
    word_at(listed, GlyphId(glyph.glyph_id as u16))
}

/// The bits of all of some glyphs in a list.
fn bits_of(listed: &[u64], glyphs: &[hb_glyph_info_t]) -> u64
    requires ids { All Is16Bit glyphs.now }
    ensures { (k i : ℕ) → i < length glyphs.now → bit_at result k ≡ 0
        → bit_at (slice_index_or listed.now (word_place (glyph_at glyphs.now i).glyph_id) 0) k ≡ 0 }
{
    let mut word = 0;
    for glyph in glyphs {
        word |= bits_of_glyph(listed, glyph);
    }
    word
}

/// Which glyphs may wake the subtable with a number, by the words of the subtables (`Morx::wakers`), where these tell.
pub fn wakers_at(words: &SubtableWords, number: usize) -> Option<Wakers<'_>>
    ensures { (s : Subtable) → WakeAt s (blocks_of words.now) number → IfSome result (SleepOthers (is_idle s.kind)) }
{
    match words.blocks().get(number / WORD) {
        Some(words) => Some(Wakers {
            words,
            bit: (number % WORD) as u32,
        }),
        None => None,
    }
}
