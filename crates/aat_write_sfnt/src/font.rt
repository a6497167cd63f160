//! A font file to bytes: its directory and its tables.
ghost use Rattle.std.specs.Prelude.{◌≡◌, ◌++◌, ◌+◌, ◌<◌, ◌≤◌, OnOk, length, nat_le, replicate};
ghost use Rattle.std.specs.List.{flat_map};
ghost use Rattle.aat_write_sfnt.specs.Fonts.{file_end, font_written, padded, padding, record_words, table_bytes};
ghost use Rattle.aat_write_sfnt.specs.Records.{records};
ghost use Rattle.aat_write_machine.specs.Words.{long, word_bytes};
ghost use Rattle.aat_write_machine.specs.WriteErrors.{Writes};

use crate::longs::append_long;
use aat_bytes::Tag;
use aat_lookup::keys::{Keyed, first_fall};
use aat_write_machine::{WriteError, append_words};
use std::alloc::{AllocError, Allocator};
use std::marker::Model;

/// A table of a font: its tag and its bytes. A contract sees it as the record `SfntTable`.
#[derive(Drop)]
pub struct FontTable<'a> {
    /// The tag.
    pub tag: Tag,
    /// The bytes.
    pub bytes: &'a [u8],
}

impl<'a> Model for FontTable<'a> {
    ghost use Rattle.aat_write_sfnt.specs.Fonts.{SfntTable};

    ghost Value = { SfntTable };

    ghost view = { λ m. record { tag = m.tag; content = m.bytes.now } };
}

impl<'a> Keyed for FontTable<'a> {
    ghost use Rattle.aat_write_sfnt.specs.Fonts.{tag_number};

    ghost key_of = { tag_number };

    fn key(&self) -> u32 {
        self.tag.0
    }
}

/// How many bytes have to follow so many, up to a multiple of 4.
fn padding(size: usize) -> usize
    ensures { result ≡ padding size }
{
    (4 - size % 4) % 4
}

/// How many bytes a table takes in a file.
fn padded_length(table: &FontTable) -> usize
    ensures { result ≡ length (padded table.now) }
{
    table.bytes.len() + padding(table.bytes.len())
}

/// Appends the record of a table that stands at a place of the file.
fn append_record<A: Allocator>(
    out: &mut Vec<u8, A>,
    place: u32,
    table: &FontTable,
) -> Result<(), AllocError>
    requires { length table.now.content < 4294967296 }
    ensures { OnOk result (out.new.items ≡ out.old.items ++ word_bytes (record_words place table.now)) }
{
    append_long(out, table.tag.0)?;
    append_words(out, &[0, 0])?;
    append_long(out, place)?;
    append_long(out, table.bytes.len() as u32)
}

/// Appends the records of tables, the first of which stands at a place of the file.
fn append_records<A: Allocator>(
    out: &mut Vec<u8, A>,
    start: u32,
    tables: &[FontTable],
) -> Result<(), AllocError>
    requires { start + length (table_bytes tables.now) < 4294967296 }
    ensures { OnOk result (out.new.items ≡ out.old.items ++ word_bytes (records padded record_words start tables.now)) }
{
    let mut place = start;
    for table in tables {
        append_record(out, place, table)?;
        place += padded_length(table) as u32;
    }
    Ok(())
}

/// Appends zeros.
fn append_zeros<A: Allocator>(out: &mut Vec<u8, A>, count: usize) -> Result<(), AllocError>
    ensures { OnOk result (out.new.items ≡ out.old.items ++ replicate count 0) }
{
    for _place in 0..count {
        out.push(0)?;
    }
    Ok(())
}

/// Appends the bytes of a table, and zeros up to a multiple of 4.
fn append_table<A: Allocator>(out: &mut Vec<u8, A>, table: &FontTable) -> Result<(), AllocError>
    ensures { OnOk result (out.new.items ≡ out.old.items ++ padded table.now) }
{
    out.extend_from_slice(table.bytes)?;
    append_zeros(out, padding(table.bytes.len()))
}

/// Appends the bytes of tables.
fn append_tables<A: Allocator>(out: &mut Vec<u8, A>, tables: &[FontTable]) -> Result<(), AllocError>
    ensures { OnOk result (out.new.items ≡ out.old.items ++ table_bytes tables.now) }
{
    for table in tables {
        append_table(out, table)?;
    }
    Ok(())
}

/// Whether a file has less than 2 ^ 32 bytes.
fn is_within(tables: &[FontTable]) -> bool
    requires { length tables.now ≤ 65535 }
    ensures { result ≡ nat_le (file_end tables.now) 4294967295 }
{
    let mut rest = 0xFFFF_FFFF - (12 + 16 * tables.len());
    for table in tables {
        let size = padded_length(table);
        if size > rest {
            return false;
        }
        rest -= size;
    }
    true
}

/// Writes tables, whose tags have to rise strictly, as a file of one font of version 1.0. The tables stand behind the
/// directory in their order, each at a multiple of 4, with zeros up to the next. Checksums, and the three numbers for a
/// search, are 0.
///
/// Refused in this order: 1, `NotRising`, with the place of the first table whose tag is not above that of the one
/// before it; 2, `TooMany`, more than 65,535 tables, or a file of 2 ^ 32 bytes or more. `OutOfMemory` comes only where
/// neither holds.
///
/// The reader finds each table again. Apple's TrueType Reference Manual, "The font directory".
pub fn write_font<A: Allocator>(alloc: A, tables: &[FontTable]) -> Result<Vec<u8, A>, WriteError>
    ensures { Writes result (font_written tables.now) }
{
    if let Some(place) = first_fall(tables) {
        return Err(WriteError::NotRising(place));
    }
    if tables.len() > 65535 || !is_within(tables) {
        return Err(WriteError::TooMany);
    }
    let mut out = Vec::new(alloc);
    append_words(&mut out, &[1, 0, tables.len() as u16, 0, 0, 0])?;
    append_records(&mut out, 12 + 16 * tables.len() as u32, tables)?;
    append_tables(&mut out, tables)?;
    Ok(out)
}
