//! Which right glyphs each left glyph may have, told by 64 bits beside the pairs.
ghost use Rattle.std.specs.Prelude.{◌≡◌, ◌+◌, ◌^◌, ◌%◌, ◌≤◌, IfOk, length};
ghost use Rattle.aat_lookup.specs.Keys.{IsRising};
ghost use Rattle.aat_kerning_tables.specs.Pairs.{key_of_pair};
ghost use Rattle.aat_kerning_tables.specs.inside.Lefts.{AreLeftStarts};
ghost use Rattle.aat_kerning_tables.specs.inside.Rights.{has_bit, may_have, TellKeys, TellRights};

use crate::lefts::pairs_from;
use crate::pairs::pair_key;
use aat_lookup::keys::Keyed;
use std::alloc::{AllocError, Allocator};

/// The number of bits of a word. It divides the number of right glyphs, so that the bit of a pair is that of its right
/// glyph.
const BITS: u32 = 64;

/// Whether a word has the bit of a key.
fn has_bit(word: u64, key: u32) -> bool
    ensures { result ≡ has_bit word key }
{
    (word >> (key % BITS)) & 1 == 1
}

/// The word with the bit of a key.
fn bit_of(key: u32) -> u64
    ensures { result ≡ 2 ^ (key % 64) }
{
    1 << (key % BITS)
}

/// The word with the bits of some pairs.
fn word_of(pairs: &[(u16, u16, i16)]) -> u64
    ensures { TellKeys result pairs.now }
{
    let mut word = 0;
    for pair in pairs {
        word |= bit_of(pair.key());
    }
    word
}

/// For each left glyph that has a start, the word with the bits of its pairs. Fails where the words get no memory.
pub(crate) fn rights_from<A: Allocator>(
    alloc: A,
    starts: &[usize],
    lowest: u16,
    pairs: &[(u16, u16, i16)],
) -> Result<Vec<u64, A>, AllocError>
    requires rising { IsRising key_of_pair pairs.now }
    requires starts { AreLeftStarts lowest starts.now pairs.now }
    requires small { lowest + length starts.now ≤ 65536 }
    ensures told { IfOk result (λ words. TellRights lowest words.items pairs.now) }
{
    let mut words = Vec::with_capacity(alloc, starts.len())?;
    for place in 0..starts.len() {
        let part = pairs_from(starts, lowest, pairs, lowest + place as u16);
        words.push(word_of(part))?;
    }
    Ok(words)
}

/// Whether a left glyph may have a pair with a right one, by the words of the left glyphs from the lowest on. No words
/// tell nothing, so that it may.
pub(crate) fn may_have(words: &[u64], lowest: u16, left: u16, right: u16) -> bool
    ensures { result ≡ may_have lowest words.now left right }
{
    if words.is_empty() {
        return true;
    }
    if left < lowest {
        return false;
    }
    let place = (left - lowest) as usize;
    place < words.len() && has_bit(words[place], pair_key(left, right))
}
