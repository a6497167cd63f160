//! Words of 64 bits that tell which of 64 subtables a glyph may wake.
//!
//! A subtable that no glyph of a line wakes does nothing over it, and is passed over. The words are made once, with the
//! table, and the subtables of all chains are numbered one behind the other. Where there is no memory for words, or
//! behind `MOST_CELLS`, there are none, and subtables run. A summary of the words spares a line a pass for each 64
//! subtables.
ghost use Rattle.std.specs.Prelude.{◌≡◌, ◌+◌, ◌%◌, ◌/◌, ◌<◌, ◌≤◌, ℕ, Some, None, IfOk, IsTrue, OnOk, true, is_none, length, slice_get, slice_index_or};
ghost use Rattle.std.specs.Int.{bit_at};
ghost use Rattle.aat_font.specs.Idle.{is_idle_class, is_idle_glyph};
ghost use Rattle.aat_lookup.specs.Keys.{value_in};
ghost use Rattle.aat_lookup.specs.Listings.{pairs_from};
ghost use Rattle.aat_lookup.specs.Segments.{pairs_of_segments};
ghost use Rattle.aat_font.specs.Wakers.{word_of, word_place, IsAwakeIn, AreWakers, AreChainWakers, IsSummedAt, IsSummaryOf, WakeAt};
ghost use Rattle.aat_font.specs.inside.MarkedWords.{AreAwake, ArePassed, KeepsBits, KeepsWakers, SameWords};
ghost use Rattle.aat_machine_tables.specs.Chains.{subtable_count};
ghost use Rattle.aat_machine_tables.specs.declared.morx.Subtable.{Subtable};

use crate::idle::{Resting, is_idle_at_end, is_idle_class};
use aat_lookup::{GlyphId, Listing, Lookup, LookupSegment};
use aat_machine_tables::entry_bits::class::{DELETED_GLYPH, OUT_OF_BOUNDS};
use aat_machine_tables::{Chain, ExtendedStateTable, Subtable, SubtableKind};
use std::alloc::{AllocError, Global};

/// By how many glyphs the words get more at least.
const STEP: usize = 256;

/// The number of subtables that have a bit in a word.
const WORD: usize = 64;

/// The number of places in a list of words: one for each glyph.
const PLACES: usize = 1 << 16;

/// The number of cells behind which no more words are begun. The glyphs of 64 subtables have at most 65,536, and so has
/// the summary, so that all have at most 2^20 cells of 8 bytes. It bounds the time that a hostile font takes too: a cell
/// is looked at once for each of its subtables.
const MOST_CELLS: usize = (1 << 20) - (2 << 16);

/// The glyph that a machine puts in the place of one that it deletes.
const DELETED: u16 = 0xFFFF;

/// For each glyph a word of 64 bits, one for each of 64 subtables, or in a summary of 64 blocks of them: where it is
/// clear these do nothing over the glyph.
#[derive(Drop)]
pub struct GlyphWords {
    /// The bits that each glyph has.
    everywhere: u64,
    /// The bits of each glyph besides, up to the last one that has any. Those of the deleted glyph come first, since they
    /// would else be the last of 65,536.
    words: Vec<u64>,
}

impl GlyphWords {
    /// The bits that each glyph has.
    pub fn everywhere(&self) -> u64
        ensures { result ≡ self.now.everywhere }
    {
        self.everywhere
    }

    /// The bits of glyph 0xFFFF besides, then those of glyph 0 and of each one behind it, up to the last one that has any,
    /// for who asks for many glyphs by `word_at`.
    pub fn listed(&self) -> &[u64]
        ensures { result.now ≡ self.now.words.items }
    {
        &self.words
    }

    /// The word of a glyph.
    pub fn word(&self, glyph: GlyphId) -> u64
        ensures { result ≡ word_of self.now glyph.0 }
    {
        self.everywhere | word_at(&self.words, glyph)
    }

    /// Makes the words reach a glyph. Fails where they get no memory.
    fn reach(&mut self, glyph: u16) -> Result<(), AllocError>
        ensures same { OnOk result (SameWords self.old self.new) }
        ensures reached { OnOk result (word_place glyph < length self.new.words.items) }
    {
        let place = glyph.wrapping_add(1) as usize;
        if place >= self.words.len() {
            self.words.resize((place / STEP + 1) * STEP, 0)?;
        }
        Ok(())
    }

    /// Sets a bit of a glyph. Fails where it gets no memory.
    fn mark(&mut self, glyph: u16, bit: u32) -> Result<(), AllocError>
        requires bit { bit < 64 }
        ensures kept { OnOk result (KeepsBits self.old self.new) }
        ensures set { OnOk result (bit_at (word_of self.new glyph) bit ≡ 1) }
    {
        self.reach(glyph)?;
        let place = glyph.wrapping_add(1) as usize;
        self.words[place] |= 1 << bit;
        Ok(())
    }

    /// Sets a bit of each glyph.
    fn mark_everywhere(&mut self, bit: u32)
        requires bit { bit < 64 }
        ensures kept { KeepsBits self.old self.new }
        ensures set { (g : ℕ) → bit_at (word_of self.new g) bit ≡ 1 }
    {
        self.everywhere |= 1 << bit;
    }

    /// Sets a bit of each glyph from one up to another, below the deleted one. Fails where it gets no memory.
    fn mark_below(&mut self, from: usize, to: usize, bit: u32) -> Result<(), AllocError>
        requires bit { bit < 64 }
        requires glyphs { to ≤ 65535 }
        ensures kept { OnOk result (KeepsBits self.old self.new) }
        ensures set { OnOk result ((g : ℕ) → from ≤ g → g < to → bit_at (word_of self.new g) bit ≡ 1) }
    {
        if from >= to {
            return Ok(());
        }
        self.reach((to - 1) as u16)?;
        mark_words(&mut self.words, from + 1, to + 1, bit);
        Ok(())
    }

    /// Sets a bit of each glyph from one up to another. Fails where it gets no memory.
    fn mark_glyphs(&mut self, from: usize, to: usize, bit: u32) -> Result<(), AllocError>
        requires bit { bit < 64 }
        requires glyphs { to ≤ 65536 }
        ensures kept { OnOk result (KeepsBits self.old self.new) }
        ensures set { OnOk result ((g : ℕ) → from ≤ g → g < to → bit_at (word_of self.new g) bit ≡ 1) }
    {
        if to <= DELETED as usize {
            return self.mark_below(from, to, bit);
        }
        self.mark(DELETED, bit)?;
        self.mark_below(from, DELETED as usize, bit)?;
        Ok(())
    }

    /// Sets a bit of each glyph of pairs. Fails where it gets no memory.
    fn mark_pairs(&mut self, pairs: &[(u16, u16)], bit: u32) -> Result<(), AllocError>
        requires bit { bit < 64 }
        ensures kept { OnOk result (KeepsBits self.old self.new) }
        ensures awake { OnOk result ((g : ℕ) → bit_at (word_of self.new g) bit ≡ 0
            → is_none (value_in pairs.now g) ≡ true) }
    {
        for pair in pairs {
            self.mark(pair.0, bit)?;
        }
        Ok(())
    }

    /// Sets a bit of each glyph of segments. Fails where it gets no memory.
    fn mark_segments(&mut self, segments: &[LookupSegment], bit: u32) -> Result<(), AllocError>
        requires bit { bit < 64 }
        ensures kept { OnOk result (KeepsBits self.old self.new) }
        ensures awake { OnOk result ((g : ℕ) → bit_at (word_of self.new g) bit ≡ 0
            → is_none (value_in (pairs_of_segments segments.now) g) ≡ true) }
    {
        for segment in segments {
            let end = segment.last_glyph as usize + 1;
            self.mark_glyphs(segment.first_glyph as usize, end, bit)?;
        }
        Ok(())
    }

    /// Sets a bit of each glyph that has a value of a lookup. Fails where it gets no memory.
    fn mark_values(&mut self, lookup: &Lookup, bit: u32) -> Result<(), AllocError>
        requires bit { bit < 64 }
        ensures kept { OnOk result (KeepsBits self.old self.new) }
        ensures awake { OnOk result ((g : ℕ) → bit_at (word_of self.new g) bit ≡ 0
            → is_none (value_in lookup.now g) ≡ true) }
    {
        match lookup.listing() {
            Listing::Pairs(pairs) => self.mark_pairs(pairs, bit),
            Listing::Segments(segments) => self.mark_segments(segments, bit),
            Listing::Values(lowest, values) => {
                let from = lowest as usize;
                self.mark_glyphs(from, from + values.len(), bit)?;
                Ok(())
            }
        }
    }

    /// Sets a bit of each glyph over which a machine may do something in state 0. Fails where it gets no memory.
    fn mark_machine<T: Resting>(
        &mut self,
        table: &ExtendedStateTable<T>,
        bit: u32,
    ) -> Result<(), AllocError>
        requires bit { bit < 64 }
        ensures kept { OnOk result (KeepsBits self.old self.new) }
        ensures awake { OnOk result ((g : ℕ) → bit_at (word_of self.new g) bit ≡ 0
            → is_idle_glyph T.rests table.now g ≡ true) }
    {
        if !is_idle_at_end(table) || !is_idle_class(table, OUT_OF_BOUNDS) {
            self.mark_everywhere(bit);
            return Ok(());
        }
        if !is_idle_class(table, DELETED_GLYPH) {
            self.mark(DELETED, bit)?;
        }
        self.mark_classes(table, bit)
    }

    /// Sets a bit of each glyph of pairs whose class may wake a machine. Fails where it gets no memory.
    fn mark_class_pairs<T: Resting>(
        &mut self,
        table: &ExtendedStateTable<T>,
        passed: u64,
        pairs: &[(u16, u16)],
        bit: u32,
    ) -> Result<(), AllocError>
        requires bit { bit < 64 }
        requires passed { ArePassed (is_idle_class T.rests table.now) passed }
        ensures kept { OnOk result (KeepsBits self.old self.new) }
        ensures awake { OnOk result (AreAwake (is_idle_class T.rests table.now) self.new bit pairs.now) }
    {
        for pair in pairs {
            if !is_passed(table, passed, pair.1) {
                self.mark(pair.0, bit)?;
            }
        }
        Ok(())
    }

    /// Sets a bit of each glyph of segments whose class may wake a machine. Fails where it gets no memory.
    fn mark_class_segments<T: Resting>(
        &mut self,
        table: &ExtendedStateTable<T>,
        passed: u64,
        segments: &[LookupSegment],
        bit: u32,
    ) -> Result<(), AllocError>
        requires bit { bit < 64 }
        requires passed { ArePassed (is_idle_class T.rests table.now) passed }
        ensures kept { OnOk result (KeepsBits self.old self.new) }
        ensures awake { OnOk result
            (AreAwake (is_idle_class T.rests table.now) self.new bit (pairs_of_segments segments.now)) }
    {
        for segment in segments {
            if !is_passed(table, passed, segment.value) {
                let end = segment.last_glyph as usize + 1;
                self.mark_glyphs(segment.first_glyph as usize, end, bit)?;
            }
        }
        Ok(())
    }

    /// Sets a bit of those of glyphs that follow one another whose class may wake a machine. Fails where it gets no
    /// memory.
    fn mark_class_values<T: Resting>(
        &mut self,
        table: &ExtendedStateTable<T>,
        passed: u64,
        lowest: u16,
        classes: &[u16],
        bit: u32,
    ) -> Result<(), AllocError>
        requires bit { bit < 64 }
        requires glyphs { lowest + length classes.now ≤ 65536 }
        requires passed { ArePassed (is_idle_class T.rests table.now) passed }
        ensures kept { OnOk result (KeepsBits self.old self.new) }
        ensures awake { OnOk result
            (AreAwake (is_idle_class T.rests table.now) self.new bit (pairs_from lowest classes.now)) }
    {
        for k in 0..classes.len() {
            if !is_passed(table, passed, classes[k]) {
                self.mark(lowest + k as u16, bit)?;
            }
        }
        Ok(())
    }

    /// Sets a bit of each glyph that has a class for which state 0 has no entry that passes it. Fails where it gets no
    /// memory.
    fn mark_classes<T: Resting>(
        &mut self,
        table: &ExtendedStateTable<T>,
        bit: u32,
    ) -> Result<(), AllocError>
        requires bit { bit < 64 }
        ensures kept { OnOk result (KeepsBits self.old self.new) }
        ensures awake { OnOk result (AreAwake (is_idle_class T.rests table.now) self.new bit table.now.classes) }
    {
        let passed = passed_classes(table);
        match table.classes().listing() {
            Listing::Pairs(pairs) => self.mark_class_pairs(table, passed, pairs, bit),
            Listing::Segments(segments) => self.mark_class_segments(table, passed, segments, bit),
            Listing::Values(lowest, classes) => {
                self.mark_class_values(table, passed, lowest, classes, bit)
            }
        }
    }

    /// Sets a bit of each glyph that may wake a subtable. Fails where it gets no memory.
    fn mark_subtable(&mut self, subtable: &Subtable, bit: u32) -> Result<(), AllocError>
        requires bit { bit < 64 }
        ensures kept { OnOk result (KeepsBits self.old self.new) }
        ensures awake { OnOk result (IsAwakeIn subtable.now self.new bit) }
    {
        match &subtable.kind {
            SubtableKind::Rearrangement(table) => self.mark_machine(table, bit),
            SubtableKind::Contextual(tables) => self.mark_machine(&tables.state, bit),
            SubtableKind::Ligature(tables) => self.mark_machine(&tables.state, bit),
            SubtableKind::NonContextual(lookup) => self.mark_values(lookup, bit),
            SubtableKind::Insertion(tables) => self.mark_machine(&tables.state, bit),
        }
    }

    /// Sets a bit of each glyph that has another word than 0 in a block. Fails where it gets no memory.
    fn sum_up(&mut self, block: &GlyphWords, bit: u32) -> Result<(), AllocError>
        requires bit { bit < 64 }
        ensures kept { OnOk result (KeepsBits self.old self.new) }
        ensures summed { OnOk result (IsSummedAt self.new bit block.now) }
    {
        if block.everywhere != 0 {
            self.mark_everywhere(bit);
            return Ok(());
        }
        for place in 0..block.words.len().min(PLACES) {
            if block.words[place] != 0 {
                self.mark((place as u16).wrapping_sub(1), bit)?;
            }
        }
        Ok(())
    }
}

/// Which subtables of chains a glyph may wake.
#[derive(Drop)]
pub struct SubtableWords {
    blocks: Vec<GlyphWords>,
    summary: GlyphWords,
    ghost summed: { IsSummaryOf summary blocks.items },
}

impl SubtableWords {
    /// The words, one for each block of 64 subtables.
    pub fn blocks(&self) -> &[GlyphWords]
        ensures { result.now ≡ self.now.blocks.items }
    {
        &self.blocks
    }

    /// The words that sum up the blocks, by a bit for each of them, of which the 65th has the bit of the first one again:
    /// where it is clear the glyph wakes no subtable of the block. Of fewer than two blocks, or where there is no memory,
    /// they have all bits, and tell nothing.
    pub fn summary(&self) -> &GlyphWords
        ensures { result.now ≡ self.now.summary }
    {
        &self.summary
    }
}

/// Sets a bit of each word from one up to another.
fn mark_words(words: &mut [u64], from: usize, to: usize, bit: u32)
    requires { bit < 64 }
    ensures long { length words.new ≡ length words.old }
    ensures kept { (i k : ℕ) → bit_at (slice_index_or words.old i 0) k ≤ bit_at (slice_index_or words.new i 0) k }
    ensures set { (i : ℕ) → from ≤ i → i < to → i < length words.old
        → bit_at (slice_index_or words.new i 0) bit ≡ 1 }
{
    // an end that is seen to be inside lets several words be marked at once
    for place in from..to.min(words.len()) {
        words[place] |= 1 << bit;
    }
}

/// Which of the first 64 classes a machine passes in state 0: a bit is set only where it does.
fn passed_classes<T: Resting>(table: &ExtendedStateTable<T>) -> u64
    ensures { ArePassed (is_idle_class T.rests table.now) result }
{
    let mut passed = 0;
    for class in 0..table.class_count().min(64) {
        if is_idle_class(table, class) {
            passed |= 1 << class;
        }
    }
    passed
}

/// Whether a machine is known to pass a class in state 0, where some bits tell which of the first 64 it passes.
#[tactic(auto, using(std::proofs::lemmas::Nat::Bits::shr_and_one))]
fn is_passed<T: Resting>(table: &ExtendedStateTable<T>, passed: u64, class: u16) -> bool
    requires { ArePassed (is_idle_class T.rests table.now) passed }
    ensures { IsTrue result → is_idle_class T.rests table.now class ≡ true }
{
    if class < 64 {
        passed >> class & 1 == 1
    } else {
        is_idle_class(table, class)
    }
}

/// The bits of a glyph in a list as that of `GlyphWords::listed`, none behind the last one.
pub fn word_at(words: &[u64], glyph: GlyphId) -> u64
    ensures { result ≡ slice_index_or words.now (word_place glyph.0) 0 }
{
    let place = glyph.0.wrapping_add(1) as usize;
    if place < words.len() { words[place] } else { 0 }
}

/// The number of cells of all words of a list.
fn cells_of(words: &[GlyphWords]) -> usize {
    let mut cells: usize = 0;
    for glyph_words in words {
        cells = cells.saturating_add(glyph_words.words.len());
    }
    cells
}

/// Begins the word of a subtable and of the 63 that come, where it is the first one of them, those before have theirs, and
/// there is room. Fails where it gets no memory.
fn begin_word(alloc: Global, words: &mut Vec<GlyphWords>, number: usize) -> Result<(), AllocError>
    ensures kept { OnOk result (KeepsWakers words.old.items words.new.items number) }
{
    if number % WORD != 0 || words.len() != number / WORD || cells_of(words) > MOST_CELLS {
        return Ok(());
    }
    words.push(GlyphWords {
        everywhere: 0,
        words: Vec::new(alloc),
    })?;
    Ok(())
}

/// Gives words the bits of the subtable with this number, where it has a word. Fails where they get no memory.
fn add_subtable(
    alloc: Global,
    words: &mut Vec<GlyphWords>,
    number: usize,
    subtable: &Subtable,
) -> Result<(), AllocError>
    ensures kept { OnOk result (KeepsWakers words.old.items words.new.items number) }
    ensures awake { OnOk result (WakeAt subtable.now words.new.items number) }
{
    begin_word(alloc, words, number)?;
    let block = number / WORD;
    if block >= words.len() {
        return Ok(());
    }
    words[block].mark_subtable(subtable, (number % WORD) as u32)
}

/// Gives words the bits of the subtables of a chain, whose first one has this number. Fails where they get no memory.
fn add_chain(
    alloc: Global,
    words: &mut Vec<GlyphWords>,
    first: usize,
    subtables: &[Subtable],
) -> Result<(), AllocError>
    requires few { first ≤ 65535 }
    ensures kept { OnOk result (KeepsWakers words.old.items words.new.items first) }
    ensures awake { OnOk result (AreWakers subtables.now words.new.items first) }
{
    for (i, subtable) in subtables.iter().enumerate() {
        add_subtable(alloc, words, first + i, subtable)?;
    }
    Ok(())
}

/// The words of the subtables of chains, as far as there is room for them. Fails where they get no memory.
fn words_of_chains(alloc: Global, chains: &[Chain]) -> Result<Vec<GlyphWords>, AllocError>
    requires few { subtable_count chains.now ≤ 65535 }
    ensures { IfOk result (λ words. AreChainWakers chains.now words.items) }
{
    let mut words = Vec::new(alloc);
    let mut first = 0;
    for chain in chains {
        add_chain(alloc, &mut words, first, &chain.subtables)?;
        first += chain.subtables.len();
    }
    Ok(words)
}

/// The summary of blocks. Fails where it gets no memory.
fn summary_of(alloc: Global, blocks: &[GlyphWords]) -> Result<GlyphWords, AllocError>
    ensures { IfOk result (λ summary. IsSummaryOf summary blocks.now) }
{
    let mut summary = GlyphWords {
        everywhere: 0,
        words: Vec::new(alloc),
    };
    for (i, block) in blocks.iter().enumerate() {
        summary.sum_up(block, (i % WORD) as u32)?;
    }
    Ok(summary)
}

/// The summary of blocks. One that tells nothing, of fewer than two blocks and where it gets no memory.
fn summary_where_memory(alloc: Global, blocks: &[GlyphWords]) -> GlyphWords
    ensures { IsSummaryOf result blocks.now }
{
    if blocks.len() > 1 {
        if let Ok(summary) = summary_of(alloc, blocks) {
            return summary;
        }
    }
    GlyphWords {
        everywhere: u64::MAX,
        words: Vec::new(alloc),
    }
}

/// The words of the subtables of chains, as far as there is room for them. None where they get no memory.
pub(crate) fn words_where_memory(alloc: Global, chains: &[Chain]) -> SubtableWords
    requires few { subtable_count chains.now ≤ 65535 }
    ensures { AreChainWakers chains.now result.blocks.items }
{
    let blocks = match words_of_chains(alloc, chains) {
        Ok(blocks) => blocks,
        Err(_) => Vec::new(alloc),
    };
    let summary = summary_where_memory(alloc, &blocks);
    SubtableWords { blocks, summary }
}
