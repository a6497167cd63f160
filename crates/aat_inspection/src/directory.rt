//! The tables of a font's directory.

use aat_bytes::{Tag, slice, tag_at, u16_at, u32_at};
use aat_read_sfnt::FontFile;
use aat_read_sfnt::tags::TTCF;
use std::io::{self, Write};

/// The number of bytes of a record.
const RECORD_SIZE: usize = 16;

/// A record of the directory: a table, and where it stands in the file.
///
/// Apple's TrueType Reference Manual, "The font directory".
#[derive(Drop)]
struct Record {
    tag: Tag,
    offset: u32,
    length: u32,
}

/// The record of 16 bytes.
fn record_of(bytes: &[u8]) -> Option<Record> {
    Some(Record {
        tag: tag_at(bytes, 0)?,
        offset: u32_at(bytes, 8)?,
        length: u32_at(bytes, 12)?,
    })
}

/// The place of the directory of the font at an index of a file, which may be a collection.
fn directory_place(file: &[u8], index: u32) -> Option<u32> {
    if tag_at(file, 0)? == TTCF {
        u32_at(file, 12 + 4 * index as usize)
    } else {
        Some(0)
    }
}

/// The bytes of the records of the font at an index of a file.
fn records_of(file: &[u8], index: u32) -> Option<&[u8]> {
    let place = directory_place(file, index)? as usize;
    let count = u16_at(file, place + 4)? as usize;
    slice(file, place + 12, RECORD_SIZE * count)
}

/// Writes a tag: its characters where all are printed ones of ASCII, and else its number.
fn write_tag<W: Write>(out: &mut W, tag: Tag) -> io::Result<()> {
    let bytes = tag.0.to_be_bytes();
    if bytes.iter().all(|byte| (b' '..=b'~').contains(byte)) {
        write!(out, "{tag}")
    } else {
        write!(out, "{:#010x}", tag.0)
    }
}

/// Writes a record, and by how many bytes the table reaches past the end of a file of so many bytes.
fn write_record<W: Write>(out: &mut W, record: &Record, file_size: usize) -> io::Result<()> {
    let (offset, length) = (record.offset, record.length);
    write!(out, "table ")?;
    write_tag(out, record.tag)?;
    writeln!(out, " offset {offset} length {length}")?;
    let end = offset as usize + length as usize;
    if end > file_size {
        let beyond = end - file_size;
        writeln!(out, "  reaches {beyond} bytes past the end of the file")?;
    }
    Ok(())
}

/// Writes the records that stand in bytes, in their order.
fn write_records<W: Write>(out: &mut W, records: &[u8], file_size: usize) -> io::Result<()> {
    for bytes in records.chunks_exact(RECORD_SIZE) {
        if let Some(record) = record_of(bytes) {
            write_record(out, &record, file_size)?;
        }
    }
    Ok(())
}

/// Writes the tables of the directory of the font at an index of a file, in their order, or the fault of the directory
/// that [`FontFile::read`] tells.
///
/// An error is that of the writer. A part of the text may be written then.
pub(crate) fn write_directory<W: Write>(out: &mut W, file: &[u8], index: u32) -> io::Result<()> {
    if let Err(fault) = FontFile::read(file, index) {
        return writeln!(out, "fault {fault}");
    }
    match records_of(file, index) {
        Some(records) => write_records(out, records, file.len()),
        None => Ok(()),
    }
}
