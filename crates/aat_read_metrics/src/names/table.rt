//! The names of glyphs.
ghost use Rattle.std.specs.Prelude.{◌≡◌, ◌+◌, ◌*◌, ◌^◌, ◌≤◌, ◌<◌, IfOk, IfSome, IsTrue, length, option_copied, slice_get};
ghost use Rattle.aat_bytes.specs.Numbers.{be16};
ghost use Rattle.aat_read_metrics.specs.names.Names.{has_numbers, places_from, places_of, string_at, version_of};

use crate::names::macintosh::macintosh_name;
use crate::names::shown::shown;
use crate::names::tags::POST;
use aat_bytes::{be16, be32, slice, u8_at};
use aat_read_sfnt::FontFile;
use std::alloc::{AllocError, Global};
use std::marker::Model;

/// The version of a table, or 0 where its header of 32 bytes is not there.
fn version_of(post: &[u8]) -> u32
    ensures { result ≡ version_of post.now }
{
    if post.len() < 32 { 0 } else { be32(post, 0) }
}

/// Whether a table has a number for each glyph: one of version 2 has, where they are all there.
fn has_numbers(post: &[u8]) -> bool
    ensures numbers { result ≡ has_numbers post.now }
    ensures there { IsTrue result → 34 + 2 * be16 post.now 32 ≤ length post.now }
{
    version_of(post) == 0x0002_0000
        && post.len() >= 34
        && post.len() >= 34 + 2 * be16(post, 32) as usize
}

/// The places of up to so many strings, one behind the other from a place on.
fn places_from(alloc: Global, post: &[u8], start: u32, count: u32) -> Result<Vec<u32>, AllocError>
    requires { start + 256 * count < 2 ^ 32 }
    ensures { IfOk result (λ places. places.items ≡ places_from post.now start count) }
{
    let mut places = Vec::new(alloc);
    let mut place = start;
    for _done in 0..count {
        let Some(size) = u8_at(post, place as usize) else {
            break;
        };
        places.push(place)?;
        place += 1 + u32::from(size);
    }
    Ok(places)
}

/// The places of the strings of a table, as many as there are numbers of 16 bits from 258 on.
fn places_of(alloc: Global, post: &[u8]) -> Result<Vec<u32>, AllocError>
    ensures { IfOk result (λ places. places.items ≡ places_of post.now) }
{
    if has_numbers(post) {
        places_from(alloc, post, 34 + 2 * u32::from(be16(post, 32)), 65278)
    } else {
        Ok(Vec::new(alloc))
    }
}

/// The place of a string, by its number from 0 on.
fn place_at(places: &[u32], number: u16) -> Option<u32>
    ensures { result ≡ slice_get places.now number }
{
    places.get(number as usize).copied()
}

/// The string whose size stands at a place.
fn string_at(post: &[u8], place: u32) -> Option<&[u8]>
    ensures { option_copied result ≡ string_at post.now place }
{
    match u8_at(post, place as usize) {
        Some(size) => slice(post, place as usize + 1, size as usize),
        None => None,
    }
}

/// The names of the glyphs of a font. A contract sees them as the bytes of the table, none where it has no names.
///
/// Version 1 has the names of the standard Macintosh glyph order, for the glyphs of the same numbers. Version 2 has a
/// number for each glyph: one below 258 is that of a Macintosh name, and the others count the strings behind the
/// numbers. Another version has no names, and neither has a table whose header of 32 bytes, or whose numbers, are not
/// all there. Apple's TrueType Reference Manual, "The 'post' table".
#[derive(Drop)]
pub struct GlyphNames<'a> {
    post: &'a [u8],
    places: Vec<u32>,
}

impl<'a> Model for GlyphNames<'a> {
    ghost use Rattle.std.specs.Prelude.{ℕ, List, ◌≡◌};
    ghost use Rattle.aat_read_metrics.specs.names.Names.{places_of};

    ghost Value = { List ℕ };

    ghost view = { λ m. m.post.now };

    ghost invariant = { λ m. m.places.items ≡ places_of m.post.now };
}

impl<'a> GlyphNames<'a> {
    ghost use Rattle.std.specs.Prelude.{[]};
    ghost use Rattle.aat_read_metrics.specs.names.Names.{name_by, name_of, number_of, own_name, post_of};

    /// No names.
    pub fn none(alloc: Global) -> GlyphNames<'a>
        ensures { result ≡ [] }
    {
        GlyphNames {
            post: &[],
            places: Vec::new(alloc),
        }
    }

    /// The names of a table `post`. The places of its strings are kept, 4 bytes for each.
    ///
    /// An error is want of memory.
    pub fn of_post(alloc: Global, post: &'a [u8]) -> Result<GlyphNames<'a>, AllocError>
        ensures { IfOk result (λ names. names ≡ post.now) }
    {
        let places = places_of(alloc, post)?;
        Ok(GlyphNames { post, places })
    }

    /// The names of a font, none where it has no table `post`. One that reaches past the end of the file is cut there.
    ///
    /// An error is want of memory.
    pub fn of_file(alloc: Global, file: &FontFile<'a>) -> Result<GlyphNames<'a>, AllocError>
        ensures { IfOk result (λ names. names ≡ post_of file.now) }
    {
        match file.cut_table(POST) {
            Ok(post) => GlyphNames::of_post(alloc, post),
            Err(_) => Ok(GlyphNames::none(alloc)),
        }
    }

    /// The number of the name of a glyph.
    fn number_of(&self, glyph: u16) -> Option<u16>
        ensures { result ≡ number_of self.now glyph }
    {
        if version_of(self.post) == 0x0001_0000 {
            return Some(glyph);
        }
        if !has_numbers(self.post) || glyph >= be16(self.post, 32) {
            return None;
        }
        Some(be16(self.post, 34 + 2 * glyph as usize))
    }

    /// A string of the table, by its number from 0 on.
    fn own_name(&self, number: u16) -> Option<&'a [u8]>
        ensures { option_copied result ≡ own_name self.now number }
    {
        match place_at(&self.places, number) {
            Some(place) => string_at(self.post, place),
            None => None,
        }
    }

    /// The name by a number.
    fn name_by(&self, number: u16) -> Option<&'a [u8]>
        ensures { option_copied result ≡ name_by self.now number }
    {
        if number < 258 {
            macintosh_name(number)
        } else {
            self.own_name(number - 258)
        }
    }

    /// The name of a glyph. `None` where it has none, or where that is empty or has a byte that is not graphic ASCII or
    /// is one of `"`, `&`, `<`, `>` and `\`: a name stands in JSON and XML as it is.
    pub fn name_of(&self, glyph: u16) -> Option<&'a str>
        ensures { option_copied result ≡ name_of self.now glyph }
    {
        shown(self.name_by(self.number_of(glyph)?)?)
    }
}
