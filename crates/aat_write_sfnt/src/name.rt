//! English names to bytes.
ghost use Rattle.std.specs.Prelude.{◌≡◌, ◌++◌, ◌+◌, ◌<◌, ◌≤◌, OnOk, length, nat_le};
ghost use Rattle.std.specs.List.{flat_map};
ghost use Rattle.aat_write_sfnt.specs.NameTables.{name_record_words, name_records, name_written, text_bytes, text_of_name};
ghost use Rattle.aat_write_machine.specs.Words.{word_bytes};
ghost use Rattle.aat_write_machine.specs.WriteErrors.{Writes};

use aat_lookup::keys::{Keyed, first_fall};
use aat_write_machine::{WriteError, append_words};
use std::alloc::{AllocError, Allocator};
use std::marker::Model;

/// An English name: its number, and its text in UTF-16, big-endian. A contract sees it as the record `SfntName`.
#[derive(Drop)]
pub struct EnglishName<'a> {
    /// The number of the name, as the table `feat` has it of a feature or a setting.
    pub name: u16,
    /// The text.
    pub text: &'a [u8],
}

impl<'a> Model for EnglishName<'a> {
    ghost use Rattle.aat_write_sfnt.specs.NameTables.{SfntName};

    ghost Value = { SfntName };

    ghost view = { λ m. record { name = m.name; text = m.text.now } };
}

impl<'a> Keyed for EnglishName<'a> {
    ghost use Rattle.aat_write_sfnt.specs.NameTables.{number_of};

    ghost key_of = { number_of };

    fn key(&self) -> u32 {
        self.name as u32
    }
}

/// How many bytes the text of a name has.
fn text_length(name: &EnglishName) -> usize
    ensures { result ≡ length (text_of_name name.now) }
{
    name.text.len()
}

/// Whether the texts of names have at most 65,535 bytes.
fn are_short(names: &[EnglishName]) -> bool
    ensures { result ≡ nat_le (length (text_bytes names.now)) 65535 }
{
    let mut rest = 65535;
    for name in names {
        let size = text_length(name);
        if size > rest {
            return false;
        }
        rest -= size;
    }
    true
}

/// Appends the record of a name whose text stands at a place among the texts.
fn append_record<A: Allocator>(
    out: &mut Vec<u8, A>,
    place: u16,
    name: &EnglishName,
) -> Result<(), AllocError>
    requires { length (text_of_name name.now) ≤ 65535 }
    ensures { OnOk result (out.new.items ≡ out.old.items ++ word_bytes (name_record_words place name.now)) }
{
    append_words(
        out,
        &[3, 1, 0x409, name.name, name.text.len() as u16, place],
    )
}

/// Appends the records of names.
fn append_records<A: Allocator>(
    out: &mut Vec<u8, A>,
    names: &[EnglishName],
) -> Result<(), AllocError>
    requires { length (text_bytes names.now) ≤ 65535 }
    ensures { OnOk result (out.new.items ≡ out.old.items ++ word_bytes (name_records names.now)) }
{
    let mut place = 0;
    for name in names {
        append_record(out, place, name)?;
        place += text_length(name) as u16;
    }
    Ok(())
}

/// Appends the texts of names.
fn append_texts<A: Allocator>(out: &mut Vec<u8, A>, names: &[EnglishName]) -> Result<(), AllocError>
    ensures { OnOk result (out.new.items ≡ out.old.items ++ text_bytes names.now) }
{
    for name in names {
        out.extend_from_slice(name.text)?;
    }
    Ok(())
}

/// Writes English names of Windows, in Unicode, which have to rise strictly by number, as a table of version 0. The
/// texts stand behind the records in their order.
///
/// Refused in this order: 1, `NotRising`, with the place of the first name that is not above the one before it; 2,
/// `TooMany`, more than 5,460 names, or texts of more than 65,535 bytes, whose offsets have more than 16 bits.
/// `OutOfMemory` comes only where neither holds.
///
/// The reader finds each text again. Apple's TrueType Reference Manual, "The 'name' table".
pub fn write_name<A: Allocator>(alloc: A, names: &[EnglishName]) -> Result<Vec<u8, A>, WriteError>
    ensures { Writes result (name_written names.now) }
{
    if let Some(place) = first_fall(names) {
        return Err(WriteError::NotRising(place));
    }
    if names.len() > 5460 || !are_short(names) {
        return Err(WriteError::TooMany);
    }
    let count = names.len() as u16;
    let mut out = Vec::new(alloc);
    append_words(&mut out, &[0, count, 6 + 12 * count])?;
    append_records(&mut out, names)?;
    append_texts(&mut out, names)?;
    Ok(out)
}
