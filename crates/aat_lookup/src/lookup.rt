//! Lookups: values of glyphs.
ghost use Rattle.std.specs.Prelude.{◌≡◌, ◌+◌, ◌≤◌, IfOk, IfErr, IfSome, OnOk, None, length, unwrap_or};
ghost use Rattle.aat_lookup.specs.EachGlyph.{pairs_of_each};
ghost use Rattle.aat_lookup.specs.Keys.{first, first_fall, value_in, IsRising};
ghost use Rattle.aat_lookup.specs.Listings.{pairs_from, pairs_of_listing, AreSmall};
ghost use Rattle.aat_lookup.specs.Moves.{AreMovesOf};
ghost use Rattle.aat_lookup.specs.Segments.{first_segment_fall, pairs_of_segments};
ghost use Rattle.aat_lookup.specs.TableErrors.{RefusesRising};

use crate::dense::Dense;
use crate::each_glyph::{pairs_of_each, value_of_each};
use crate::error::TableError;
use crate::glyph_id::GlyphId;
use crate::keys::first_fall;
use crate::listing::Listing;
use crate::moves::GlyphMoves;
use crate::segments::{LookupSegment, append_segments, first_segment_fall, value_in_segments};
use std::alloc::{AllocError, Allocator, Global};
use std::marker::Model;

/// A table that gives some glyphs a value. A contract sees it as the list of its pairs.
///
/// Apple's TrueType Reference Manual, "Font Tables", section on lookup tables.
#[derive(Drop)]
pub struct Lookup<A: Allocator = Global> {
    values: Values<A>,
}

/// How the values of a lookup are kept.
#[derive(Drop)]
pub(crate) enum Values<A: Allocator> {
    /// Pairs of a glyph and its value, and how they are found.
    Listed(Vec<(u16, u16), A>, Dense<A>),
    /// Glyphs that follow one another, each with what stands in its cell, and no pairs besides.
    InCells(Dense<A>),
    /// Segments, which are searched.
    Segments(Vec<LookupSegment, A>),
    /// A value of each glyph from 0 on.
    EachGlyph(Vec<u16, A>),
}

impl<A: Allocator> Model for Lookup<A> {
    ghost use Rattle.std.specs.Prelude.{List, ℕ};
    ghost use Rattle.aat_lookup.specs.inside.Ordered.{AreFound, pairs_of_values};

    ghost Value = { List (ℕ × ℕ) };

    ghost view = { λ m. pairs_of_values m.values };

    ghost invariant = { λ m. AreFound m.values };
}

impl<A: Allocator + Copy> Lookup<A> {
    /// Makes a lookup of pairs of a glyph and its value, which have to rise strictly by glyph.
    ///
    /// Refused as 1, `NotRising`, with the place of the first pair that is not above the one before
    /// it, and else as 5, `OutOfMemory`, where the copy or the cells beside it get no memory.
    pub fn new(alloc: A, pairs: &[(u16, u16)]) -> Result<Lookup<A>, TableError>
        ensures ok { IfOk result (λ lookup. lookup ≡ pairs.now) }
        ensures rising { OnOk result (first_fall first pairs.now ≡ None) }
        ensures refused { IfErr result (RefusesRising (first_fall first pairs.now)) }
    {
        if let Some(place) = first_fall(pairs) {
            return Err(TableError::NotRising(place));
        }
        Ok(Lookup::of_rising(alloc, pairs)?)
    }

    /// The lookup of pairs that rise strictly by glyph. Fails where the copy or the cells beside it get no memory.
    pub fn of_rising(alloc: A, pairs: &[(u16, u16)]) -> Result<Lookup<A>, AllocError>
        requires { IsRising first pairs.now }
        ensures { IfOk result (λ lookup. lookup ≡ pairs.now) }
    {
        Lookup::of_rising_list(alloc, Vec::from_slice(alloc, pairs)?)
    }

    /// The lookup of a list of pairs that rise strictly by glyph, which it keeps. Fails where the cells beside it get no
    /// memory. The list is then dropped.
    pub fn of_rising_list(alloc: A, pairs: Vec<(u16, u16), A>) -> Result<Lookup<A>, AllocError>
        requires { IsRising first pairs.items }
        ensures { IfOk result (λ lookup. lookup ≡ pairs.items) }
    {
        let dense = Dense::over(alloc, &pairs)?;
        Ok(Lookup {
            values: Values::Listed(pairs, dense),
        })
    }

    /// The lookup of the values of glyphs that follow one another, from the lowest on. The lowest glyph and the number
    /// of values are at most 65,536 together. It keeps their list, and no pairs beside it. Fails where the marks beside
    /// it get no memory. The list is then dropped.
    pub fn of_values_from(
        alloc: A,
        lowest: u16,
        values: Vec<u16, A>,
    ) -> Result<Lookup<A>, AllocError>
        requires { lowest + length values.items ≤ 65536 }
        ensures { IfOk result (λ lookup. lookup ≡ pairs_from lowest values.items) }
    {
        let dense = Dense::of_cells(alloc, lowest, values)?;
        Ok(Lookup {
            values: Values::InCells(dense),
        })
    }

    /// Makes a lookup of segments, which have to rise: each has a glyph, and begins behind the end of the one before it.
    /// It takes the memory of the segments, however many glyphs these have.
    ///
    /// Refused as 1, `NotRising`, with the place of the first segment whose last glyph is below its first one, or whose
    /// first glyph is not above the last one of the segment before it, and else as 5, `OutOfMemory`, where the copy
    /// gets no memory.
    pub fn from_segments(alloc: A, segments: &[LookupSegment]) -> Result<Lookup<A>, TableError>
        ensures ok { IfOk result (λ lookup. lookup ≡ pairs_of_segments segments.now) }
        ensures rising { OnOk result (first_segment_fall segments.now ≡ None) }
        ensures refused { IfErr result (RefusesRising (first_segment_fall segments.now)) }
    {
        if let Some(place) = first_segment_fall(segments) {
            return Err(TableError::NotRising(place));
        }
        Ok(Lookup {
            values: Values::Segments(Vec::from_slice(alloc, segments)?),
        })
    }
}

impl<A: Allocator> Lookup<A> {
    /// The lookup of a list of at most 65,536 values, one of each glyph from 0 on, which it keeps. It takes no more
    /// memory.
    pub fn of_values(values: Vec<u16, A>) -> Lookup<A>
        requires { length values.items ≤ 65536 }
        ensures { result ≡ pairs_of_each values.items }
    {
        Lookup {
            values: Values::EachGlyph(values),
        }
    }
}

impl<A: Allocator + Copy> Lookup<A> {
    /// The same values as classes: an array of pairs, or of values from a lowest glyph on, gives way to one of classes,
    /// with `missing` for glyphs without one. All other forms stay: pages, segments, values of each glyph from 0 on,
    /// pairs that lie apart, and an array that has classes already. Fails where the cells get no memory.
    pub fn with_class_array(self, alloc: A, missing: u16) -> Result<Lookup<A>, AllocError>
        ensures { IfOk result (λ lookup. lookup ≡ self) }
    {
        match self.values {
            Values::Listed(pairs, dense) => {
                let dense = dense.with_classes(alloc, &pairs, missing)?;
                Ok(Lookup {
                    values: Values::Listed(pairs, dense),
                })
            }
            Values::InCells(dense) => Ok(Lookup {
                values: Values::InCells(dense.as_classes(missing)),
            }),
            values => Ok(Lookup { values }),
        }
    }
}

impl<A: Allocator> Lookup<A> {
    /// The pairs of a glyph and its value, strictly rising by glyph, as a list of its own. Fails where it gets no
    /// memory.
    pub fn to_pairs<B: Allocator>(&self, alloc: B) -> Result<Vec<(u16, u16), B>, AllocError>
        ensures { IfOk result (λ pairs. pairs.items ≡ self.now) }
    {
        match &self.values {
            Values::Listed(pairs, _) => Vec::from_slice(alloc, pairs),
            Values::InCells(dense) => dense.to_pairs(alloc),
            Values::Segments(segments) => {
                let mut pairs = Vec::new(alloc);
                append_segments(segments, &mut pairs)?;
                Ok(pairs)
            }
            Values::EachGlyph(values) => pairs_of_each(alloc, values),
        }
    }

    /// The values in the form in which they are kept, for who asks for those of all glyphs.
    #[tactic(auto, using(crate::proofs::EachValues::each_listed))]
    pub fn listing(&self) -> Listing<'_>
        ensures pairs { pairs_of_listing result ≡ self.now }
        ensures small { AreSmall result }
    {
        match &self.values {
            Values::Listed(pairs, _) => Listing::Pairs(pairs),
            Values::InCells(dense) => dense.cells(),
            Values::Segments(segments) => Listing::Segments(segments),
            Values::EachGlyph(values) => Listing::Values(0, values),
        }
    }

    /// The value of a glyph, if it has one. Among pairs it is found in an array over the span of the glyphs where these
    /// lie close, else on pages of 256 glyphs where these hold enough of them, and else by bisection; among segments by
    /// bisection, and among values of glyphs that follow one another at its place. In a state table, or in pairs by
    /// classes, an array has classes alone: beside pairs these are searched here, and without pairs its cells are read.
    pub fn value(&self, glyph: GlyphId) -> Option<u16>
        ensures { result ≡ value_in self.now glyph.0 }
    {
        match &self.values {
            Values::EachGlyph(values) => value_of_each(values, glyph.0),
            _ => value_found(self, glyph),
        }
    }

    /// The value of a glyph, or the one that is given where it has none. It is found without a search where the values
    /// are in an array of classes that was made with that one.
    pub fn class(&self, glyph: GlyphId, missing: u16) -> u16
        ensures { result ≡ unwrap_or (value_in self.now glyph.0) missing }
    {
        match &self.values {
            // the number that the caller gives and not the array's own, which would have to be read
            Values::Listed(_, Dense::Classes(array)) | Values::InCells(Dense::Classes(array))
                if array.missing == missing => { array.class(glyph.0, missing) }
            _ => looked_up(self, missing, glyph),
        }
    }

    /// What each glyph becomes that gets its value here, for who asks for many glyphs: where an array has what they
    /// become, beside pairs or for values from a lowest glyph on, but not for classes, nor for values of each glyph
    /// from 0 on.
    pub fn moves(&self) -> Option<GlyphMoves<'_>>
        ensures { IfSome result (λ moves. AreMovesOf moves self.now) }
    {
        match &self.values {
            Values::Listed(_, dense) | Values::InCells(dense) => dense.moves(),
            Values::Segments(_) | Values::EachGlyph(_) => None,
        }
    }
}

/// The value that a lookup has for a glyph, if it has one. It stands apart, so that what is read at the glyph's own place,
/// as advances are, stays short.
#[inline(never)]
fn value_found<A: Allocator>(lookup: &Lookup<A>, glyph: GlyphId) -> Option<u16>
    ensures { result ≡ value_in lookup.now glyph.0 }
{
    match &lookup.values {
        Values::Listed(pairs, dense) => dense.value(pairs, glyph.0),
        Values::InCells(dense) => dense.cell(glyph.0),
        Values::Segments(segments) => value_in_segments(segments, glyph.0),
        Values::EachGlyph(values) => value_of_each(values, glyph.0),
    }
}

/// The class that a lookup has for a glyph, or the one that stands for a missing one. It stands apart, so that what is
/// found in an array stays short.
#[inline(never)]
fn looked_up<A: Allocator>(classes: &Lookup<A>, missing: u16, glyph: GlyphId) -> u16
    ensures { result ≡ unwrap_or (value_in classes.now glyph.0) missing }
{
    classes.value(glyph).unwrap_or(missing)
}
