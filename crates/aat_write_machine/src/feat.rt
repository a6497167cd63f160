//! The feature name table to bytes.
ghost use Rattle.std.specs.Prelude.{◌≡◌, ◌++◌, ◌≤◌, OnOk};
ghost use Rattle.std.specs.List.{flat_map};
ghost use Rattle.aat_write_machine.specs.Features.{feat_written, feature_flags, feature_words};
ghost use Rattle.aat_write_machine.specs.Words.{word_bytes};
ghost use Rattle.aat_write_machine.specs.WriteErrors.{Writes};

use crate::words::append_words;
use crate::write_error::WriteError;
use aat_lookup::FeatureName;
use aat_lookup::keys::first_fall;
use std::alloc::{AllocError, Allocator};

/// The flags of a feature in its record: 0x8000 where its settings exclude one another.
pub fn feature_flags(exclusive: bool) -> u16
    ensures { result ≡ feature_flags exclusive }
{
    if exclusive { 0x8000 } else { 0 }
}

/// Appends the records of features, whose settings stand at an offset.
fn append_features<A: Allocator>(
    out: &mut Vec<u8, A>,
    end: u32,
    names: &[FeatureName],
) -> Result<(), AllocError>
    ensures { OnOk result (out.new.items ≡ out.old.items ++ word_bytes (flat_map (feature_words end) names.now)) }
{
    for name in names {
        let high = (end / 65536) as u16;
        let low = (end % 65536) as u16;
        let flags = feature_flags(name.exclusive);
        append_words(out, &[name.kind, name.settings, high, low, flags, 0])?;
    }
    Ok(())
}

/// Writes the names of features, which have to rise strictly by type, as a table of version 1.0. The names of features
/// are 0, and those of settings are missing.
///
/// Refused in this order: 1, `NotRising`, with the place of the first name that is not above the one before it; 2,
/// `TooMany`, more than 65,535 names. `OutOfMemory` comes only where neither holds.
///
/// The reader reads the names again. Apple's TrueType Reference Manual, "The 'feat' table".
pub fn write_feat<A: Allocator>(alloc: A, names: &[FeatureName]) -> Result<Vec<u8, A>, WriteError>
    ensures { Writes result (feat_written names.now) }
{
    if let Some(place) = first_fall(names) {
        return Err(WriteError::NotRising(place));
    }
    if names.len() > 65535 {
        return Err(WriteError::TooMany);
    }
    let mut out = Vec::new(alloc);
    append_words(&mut out, &[1, 0, names.len() as u16, 0, 0, 0])?;
    append_features(&mut out, 12 + 12 * names.len() as u32, names)?;
    Ok(out)
}
