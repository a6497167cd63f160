//! Kerning values of pairs of glyphs.
ghost use Rattle.std.specs.Prelude.{◌≡◌, IfOk, IfErr, OnOk, None};
ghost use Rattle.aat_lookup.specs.Keys.{first_fall};
ghost use Rattle.aat_kerning_tables.specs.Pairs.{pair_key, key_of_pair, kerning_of};
ghost use Rattle.aat_lookup.specs.TableErrors.{RefusesRising};

use crate::lefts::Lefts;
use aat_lookup::keys::{first_fall, row_at};
use aat_lookup::{GlyphId, TableError};
use std::alloc::{Allocator, Global};
use std::marker::Model;

/// The kerning values of pairs of glyphs, in units of the font. A contract sees it as the list of the pairs, each with
/// its left glyph, its right glyph and its value.
///
/// Apple's TrueType Reference Manual, "The 'kern' table", format 0, and "The 'kerx' table", formats 0, 2 and 6.
#[derive(Drop)]
pub struct Pairs<A: Allocator = Global> {
    pairs: Vec<(u16, u16, i16), A>,
    lefts: Lefts<A>,
}

impl<A: Allocator> Model for Pairs<A> {
    ghost use Rattle.std.specs.Prelude.{List, ℕ, ℤ};
    ghost use Rattle.aat_lookup.specs.Keys.{IsRising};
    ghost use Rattle.aat_kerning_tables.specs.Pairs.{key_of_pair};
    ghost use Rattle.aat_kerning_tables.specs.inside.Lefts.{AreLeftStarts};
    ghost use Rattle.aat_kerning_tables.specs.inside.Rights.{TellRights};

    ghost Value = { List (ℕ × ℕ × ℤ) };

    ghost view = { λ m. m.pairs.items };

    ghost invariant = { λ m. IsRising key_of_pair m.pairs.items
        × AreLeftStarts m.lefts.lowest m.lefts.starts.items m.pairs.items
        × TellRights m.lefts.lowest m.lefts.rights.items m.pairs.items };
}

impl<A: Allocator + Copy> Pairs<A> {
    /// Makes the table of pairs of a left glyph, a right glyph and their value, which have to rise strictly by the left
    /// glyph, then by the right one.
    ///
    /// Refused as 1, `NotRising`, with the place of the first pair that is not above the one before it, and else as 5,
    /// `OutOfMemory`, where the copy or what stands beside it gets no memory.
    pub fn new(alloc: A, pairs: &[(u16, u16, i16)]) -> Result<Pairs<A>, TableError>
        ensures ok { IfOk result (λ table. table ≡ pairs.now) }
        ensures rising { OnOk result (first_fall key_of_pair pairs.now ≡ None) }
        ensures refused { IfErr result (RefusesRising (first_fall key_of_pair pairs.now)) }
    {
        if let Some(place) = first_fall(pairs) {
            return Err(TableError::NotRising(place));
        }
        Ok(Pairs {
            pairs: Vec::from_slice(alloc, pairs)?,
            lefts: Lefts::over(alloc, pairs)?,
        })
    }
}

impl<A: Allocator> Pairs<A> {
    /// The pairs of a left glyph, a right glyph and their value, strictly rising by left, then by right glyph.
    pub fn pairs(&self) -> &[(u16, u16, i16)]
        ensures { result.now ≡ self.now }
    {
        &self.pairs
    }

    /// The value of a left and a right glyph, if they have one, found by bisection among the pairs of the left glyph,
    /// or among all where the left glyphs do not lie close. Most glyphs that are no pair are told from a pair by one bit,
    /// without a search.
    pub fn glyphs_kerning(&self, left: GlyphId, right: GlyphId) -> Option<i16>
        ensures { result ≡ kerning_of self.now left.0 right.0 }
    {
        if !self.lefts.may_have(left.0, right.0) {
            return None;
        }
        let pairs = self.lefts.pairs_of(&self.pairs, left.0);
        row_at(pairs, pair_key(left.0, right.0)).map(|pair| pair.2)
    }
}

/// The number by which pairs rise.
pub(crate) fn pair_key(left: u16, right: u16) -> u32
    ensures { result ≡ pair_key left right }
{
    left as u32 * 65536 + right as u32
}
