//! Tables that stand one behind the other.
ghost use Rattle.std.specs.Prelude.{◌≡◌, ◌+◌, ◌*◌, ◌++◌, ◌<◌, ◌≤◌, ◌^◌, length, false, IfOk, MatchResult, Ok, OnOk};
ghost use Rattle.aat_write_machine.specs.Contextual.{are_too_long, byte_lists, joined, lookups_written, starts_from, substitution_bytes};
ghost use Rattle.aat_write_machine.specs.Words.{long_bytes};
ghost use Rattle.aat_write_machine.specs.MorxWriteErrors.{RefusesWithin};

use crate::error::MorxWriteError;
use crate::lists::MOST;
use crate::lookup_bytes::lookup_bytes;
use crate::words::append_longs;
use aat_lookup::Lookup;
use std::alloc::{AllocError, Global};

/// The bytes of each lookup.
pub(crate) fn lookup_tables(
    alloc: Global,
    lookups: &[Lookup],
) -> Result<Vec<Vec<u8>>, MorxWriteError>
    ensures writes { let written = lookups_written lookups.now in
        MatchResult result (λ tables. written ≡ Ok (byte_lists tables.items)) (RefusesWithin written) }
    ensures count { IfOk result (λ tables. length tables.items ≡ length lookups.now) }
{
    let mut tables = Vec::new(alloc);
    for lookup in lookups {
        let table = lookup_bytes(alloc, lookup)?;
        tables.push(table)?;
    }
    Ok(tables)
}

/// Whether some tables have more bytes than their offsets have room for.
pub(crate) fn are_too_long(tables: &[Vec<u8>]) -> bool
    ensures { result ≡ are_too_long (byte_lists tables.now) }
{
    let mut total = 0;
    for table in tables {
        if table.len() > MOST - total {
            return true;
        }
        total += table.len();
    }
    false
}

/// Appends where each table starts, of which the first one does at a place.
fn append_starts(out: &mut Vec<u8>, first: u32, tables: &[Vec<u8>]) -> Result<(), AllocError>
    requires { first + length (joined (byte_lists tables.now)) < 2 ^ 32 }
    ensures { OnOk result (out.new.items ≡ out.old.items ++ long_bytes (starts_from first (byte_lists tables.now))) }
{
    let mut start = first;
    for table in tables {
        append_longs(out, &[start])?;
        start += table.len() as u32;
    }
    Ok(())
}

/// Appends tables.
fn append_tables(out: &mut Vec<u8>, tables: &[Vec<u8>]) -> Result<(), AllocError>
    ensures { OnOk result (out.new.items ≡ out.old.items ++ joined (byte_lists tables.now)) }
{
    for table in tables {
        out.extend_from_slice(table)?;
    }
    Ok(())
}

/// Appends a list of lookups: their offsets, and the lookups.
pub(crate) fn append_substitutions(out: &mut Vec<u8>, tables: &[Vec<u8>]) -> Result<(), AllocError>
    requires few { length tables.now ≤ 131072 }
    requires short { are_too_long (byte_lists tables.now) ≡ false }
    ensures { OnOk result (out.new.items ≡ out.old.items ++ substitution_bytes (byte_lists tables.now)) }
{
    append_starts(out, 4 * tables.len() as u32, tables)?;
    append_tables(out, tables)
}
