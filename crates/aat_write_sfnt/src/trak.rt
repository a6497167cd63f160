//! The tracking table to bytes.
ghost use Rattle.std.specs.Prelude.{◌≡◌, ◌++◌, ◌+◌, ◌<◌, false, None, OnOk, length, map, option_copied};
ghost use Rattle.std.specs.List.{flat_map};
ghost use Rattle.aat_glyph.specs.placement.Tracks.{track_at};
ghost use Rattle.aat_write_sfnt.specs.TrakBytes.{are_too_many, data_words, entries, entry_words, first_far, fixed_words, part_bytes, part_far, part_too_many, trak_written, value_word};
ghost use Rattle.aat_write_sfnt.specs.TrakWriteErrors.{Writes};
ghost use Rattle.aat_write_machine.specs.Words.{word_bytes};

pub(crate) mod error;
mod places;

use self::error::TrakWriteError;
use self::places::{
    LAST_PLACE, offset_of, part_far, part_size, part_too_many, place_of_sizes, place_of_values,
    size_count, track_count,
};
use aat_glyph::{Track, TrackData, Tracking};
use aat_write_machine::append_words;
use std::alloc::{AllocError, Allocator};

/// Appends a number of 32 bits in two's complement.
fn append_fixed<A: Allocator>(out: &mut Vec<u8, A>, number: i32) -> Result<(), AllocError>
    ensures { OnOk result (out.new.items ≡ out.old.items ++ word_bytes (fixed_words number)) }
{
    let bits = number.cast_unsigned();
    append_words(out, &[(bits / 65536) as u16, (bits % 65536) as u16])
}

/// The track at a place.
fn track_at<B: Allocator>(table: &TrackData<B>, k: u16) -> Track
    requires { k < length table.now.tracks }
    ensures { result ≡ track_at table.now.tracks k }
{
    table.tracks()[k as usize]
}

/// Appends the entry of a track whose values stand at a place.
fn append_entry<A: Allocator>(
    out: &mut Vec<u8, A>,
    track: Track,
    place: u16,
) -> Result<(), AllocError>
    ensures { OnOk result (out.new.items ≡ out.old.items ++ word_bytes (entry_words track place)) }
{
    append_fixed(out, track.value)?;
    append_words(out, &[track.name, place])
}

/// Appends the entries of the tracks of a direction.
fn append_entries<A: Allocator, B: Allocator>(
    out: &mut Vec<u8, A>,
    at: u16,
    table: &TrackData<B>,
) -> Result<(), AllocError>
    requires few { are_too_many table.now ≡ false }
    requires near { first_far at table.now ≡ None }
    ensures { OnOk result (out.new.items ≡ out.old.items ++ word_bytes (entries at table.now)) }
{
    for k in 0..track_count(table) {
        let place = place_of_values(at, table, k) as u16;
        append_entry(out, track_at(table, k), place)?;
    }
    Ok(())
}

/// Appends sizes.
fn append_sizes<A: Allocator>(out: &mut Vec<u8, A>, sizes: &[i32]) -> Result<(), AllocError>
    ensures { OnOk result (out.new.items ≡ out.old.items ++ word_bytes (flat_map fixed_words sizes.now)) }
{
    for size in sizes {
        append_fixed(out, *size)?;
    }
    Ok(())
}

/// Appends values.
fn append_values<A: Allocator>(out: &mut Vec<u8, A>, values: &[i16]) -> Result<(), AllocError>
    ensures { OnOk result (out.new.items ≡ out.old.items ++ word_bytes (map value_word values.now)) }
{
    for value in values {
        append_words(out, &[value.cast_unsigned()])?;
    }
    Ok(())
}

/// Appends the tracks of a direction, which stand at a place.
fn append_data<A: Allocator, B: Allocator>(
    out: &mut Vec<u8, A>,
    at: u16,
    table: &TrackData<B>,
) -> Result<(), AllocError>
    requires few { are_too_many table.now ≡ false }
    requires near { first_far at table.now ≡ None }
    ensures { OnOk result (out.new.items ≡ out.old.items ++ word_bytes (data_words at table.now)) }
{
    let place = place_of_sizes(at, table) as u32;
    let (high, low) = ((place / 65536) as u16, (place % 65536) as u16);
    append_words(out, &[track_count(table), size_count(table), high, low])?;
    append_entries(out, at, table)?;
    append_sizes(out, table.sizes())?;
    append_values(out, table.values())
}

/// Appends the tracks of a direction at a place, if there are any.
fn append_part<A: Allocator, B: Allocator>(
    out: &mut Vec<u8, A>,
    at: u16,
    part: Option<&TrackData<B>>,
) -> Result<(), AllocError>
    requires few { part_too_many (option_copied part) ≡ false }
    requires near { part_far at (option_copied part) ≡ None }
    ensures { OnOk result (out.new.items ≡ out.old.items ++ part_bytes at (option_copied part.entry)) }
{
    match part {
        Some(table) => append_data(out, at, table),
        None => Ok(()),
    }
}

/// Writes a tracking table of version 1.0: the tracks for rows behind the header, and those for columns behind them, of
/// each the entries of its tracks, its sizes, and its values track by track. The offset of tracks that are not there is
/// 0.
///
/// Refused in this order: 1, `TooMany`, more than 65,535 tracks or sizes for rows or for columns, which no `TrackData`
/// has; 2, `RowValues`, with the first track for rows whose values stand past place 65,535, since their offset has 16
/// bits; 3, `ColumnsTooFar`, where there are tracks for columns and they stand past it; 4, `ColumnValues`, with the first
/// track for columns whose values do. 5, `OutOfMemory`, comes only where none of them holds.
///
/// The reader gives the very table again. Apple's TrueType Reference Manual, "The 'trak' table".
pub fn write_trak<A: Allocator, B: Allocator>(
    alloc: A,
    tracking: &Tracking<B>,
) -> Result<Vec<u8, A>, TrakWriteError>
    ensures { Writes result (trak_written tracking.now) }
{
    let (rows, columns) = (tracking.horizontal(), tracking.vertical());
    if part_too_many(rows) || part_too_many(columns) {
        return Err(TrakWriteError::TooMany);
    }
    let rows_at = offset_of(12, rows) as u16;
    if let Some(track) = part_far(rows_at, rows) {
        return Err(TrakWriteError::RowValues(track));
    }
    let place = offset_of(12 + part_size(rows), columns);
    if place > LAST_PLACE {
        return Err(TrakWriteError::ColumnsTooFar);
    }
    let columns_at = place as u16;
    if let Some(track) = part_far(columns_at, columns) {
        return Err(TrakWriteError::ColumnValues(track));
    }
    let mut out = Vec::new(alloc);
    append_words(&mut out, &[1, 0, 0, rows_at, columns_at, 0])?;
    append_part(&mut out, rows_at, rows)?;
    append_part(&mut out, columns_at, columns)?;
    Ok(out)
}
