//! Bytes of a font's file are taken for others, so that a broken copy of it needs no file of its own.

use anyhow::{Context, Result, anyhow};
use std::alloc::Global;

/// Puts bytes at a place of others, where they all lie within them.
fn put(bytes: &mut [u8], place: usize, new: &[u8]) -> Result<()> {
    let end = place.saturating_add(new.len());
    let old = bytes.get_mut(place..end);
    let old = old.context("the change reaches past the end of the file")?;
    for (byte, new) in old.iter_mut().zip(new) {
        *byte = *new;
    }
    Ok(())
}

/// Makes a change, which is written `PLACE=HEX`: the bytes from a place on, which is decimal, are taken for others.
fn change_place(alloc: Global, bytes: &mut [u8], change: &str) -> Result<()> {
    let (place, hex) = change.split_once('=').context("a change is PLACE=HEX")?;
    let place = place.parse::<usize>()?;
    let new = hex::decode(alloc, hex)?;
    put(bytes, place, &new)
}

/// Makes changes, which commas part.
///
/// An error names the change.
pub(crate) fn change_bytes(alloc: Global, bytes: &mut [u8], changes: &str) -> Result<()> {
    for change in changes.split(',') {
        change_place(alloc, bytes, change).with_context(|| anyhow!("change \"{change}\""))?;
    }
    Ok(())
}
