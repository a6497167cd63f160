//! The character map to bytes.
ghost use Rattle.std.specs.Prelude.{◌≡◌, ◌++◌, OnOk};
ghost use Rattle.std.specs.List.{flat_map};
ghost use Rattle.aat_write_sfnt.specs.CharacterMaps.{cmap_written, group_words};
ghost use Rattle.aat_write_machine.specs.Words.{long, word_bytes};
ghost use Rattle.aat_write_machine.specs.WriteErrors.{Writes};

use crate::longs::append_long;
use aat_lookup::keys::{Keyed, first_fall};
use aat_write_machine::{WriteError, append_words};
use std::alloc::{AllocError, Allocator};

/// A character and its glyph. Glyph 0 stands for none.
#[derive(Clone, Copy, PartialEq, Eq, Debug)]
pub struct Mapping {
    /// The character.
    pub character: char,
    /// The glyph.
    pub glyph: u16,
}

impl Keyed for Mapping {
    ghost use Rattle.aat_write_sfnt.specs.CharacterMaps.{character_of};

    ghost key_of = { character_of };

    fn key(&self) -> u32 {
        self.character as u32
    }
}

/// Appends the group of one character.
fn append_group<A: Allocator>(out: &mut Vec<u8, A>, mapping: Mapping) -> Result<(), AllocError>
    ensures { OnOk result (out.new.items ≡ out.old.items ++ word_bytes (group_words mapping)) }
{
    let character = mapping.character as u32;
    append_long(out, character)?;
    append_long(out, character)?;
    append_words(out, &[0, mapping.glyph])
}

/// Appends the groups of characters.
fn append_groups<A: Allocator>(out: &mut Vec<u8, A>, mappings: &[Mapping]) -> Result<(), AllocError>
    ensures { OnOk result (out.new.items ≡ out.old.items ++ word_bytes (flat_map group_words mappings.now)) }
{
    for mapping in mappings {
        append_group(out, *mapping)?;
    }
    Ok(())
}

/// Writes the glyphs of characters, which have to rise strictly, as a table with one subtable of format 12, for all of
/// Unicode. Each character has a group of its own.
///
/// Refused in this order: 1, `NotRising`, with the place of the first character that is not above the one before it; 2,
/// `TooMany`, more than 357,913,939 characters, whose length has more than 32 bits. `OutOfMemory` comes only where
/// neither holds.
///
/// The reader gives each character its glyph again, and none to the others. Apple's TrueType Reference Manual, "The
/// 'cmap' table", format 12.
pub fn write_cmap<A: Allocator>(alloc: A, mappings: &[Mapping]) -> Result<Vec<u8, A>, WriteError>
    ensures { Writes result (cmap_written mappings.now) }
{
    if let Some(place) = first_fall(mappings) {
        return Err(WriteError::NotRising(place));
    }
    if mappings.len() > 357_913_939 {
        return Err(WriteError::TooMany);
    }
    let count = mappings.len() as u32;
    let mut out = Vec::new(alloc);
    append_words(&mut out, &[0, 1, 3, 10, 0, 12, 12, 0])?;
    append_long(&mut out, 16 + 12 * count)?;
    append_words(&mut out, &[0, 0])?;
    append_long(&mut out, count)?;
    append_groups(&mut out, mappings)?;
    Ok(out)
}
