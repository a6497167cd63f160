//! The feature name table from bytes.
ghost use Rattle.std.specs.Prelude.{◌≡◌, ◌+◌, ◌*◌, ◌<◌, ◌≤◌, find, length, IfOk, IfSome};
ghost use Rattle.std.specs.List.{range_with_len};
ghost use Rattle.aat_bytes.specs.Bisection.{is_found, row_found};
ghost use Rattle.aat_read_lookup.specs.Features.{feat_of, feature_count, feature_name, feature_name_id, feature_names, feature_place, feature_record, has_number, kind_at, setting_name_id, setting_name_in};
ghost use Rattle.aat_read_lookup.specs.Lookups.{Gives};

use aat_bytes::tags::FEAT;
use aat_bytes::{Fault, FaultKind, ReadError, be16, be32, u16_at};
use aat_lookup::{Feat, FeatureName};
use std::alloc::{AllocError, Allocator};

/// The number of features.
#[tactic(auto, unfolding(crate::specs::Features::feature_count))]
fn feature_count(bytes: &[u8]) -> Result<u16, Fault>
    ensures is { result ≡ feature_count bytes.now }
    ensures inside { IfOk result (λ count. 12 + 12 * count ≤ length bytes.now) }
{
    if bytes.len() < 12 {
        return Err(Fault::new(FEAT, FaultKind::PastEnd, 0));
    }
    if be16(bytes, 0) != 1 {
        return Err(Fault::new(FEAT, FaultKind::UnknownFormat, 0));
    }
    let count = be16(bytes, 4);
    if bytes.len() < 12 + 12 * count as usize {
        let whole = (bytes.len() - 12) / 12;
        return Err(Fault::new(FEAT, FaultKind::PastEnd, 12 + 12 * whole));
    }
    Ok(count)
}

/// The place of the record of a feature.
fn feature_place(i: u16) -> usize
    ensures { result ≡ feature_place i }
{
    12 + 12 * i as usize
}

/// The type of a feature.
fn kind_at(bytes: &[u8], i: u16) -> u16
    requires { 24 + 12 * i ≤ length bytes.now }
    ensures { result ≡ kind_at bytes.now i }
{
    be16(bytes, feature_place(i))
}

/// What the record of a feature says.
fn feature_name(bytes: &[u8], i: u16) -> FeatureName
    requires { 24 + 12 * i ≤ length bytes.now }
    ensures { result ≡ feature_name bytes.now i }
{
    let place = feature_place(i);
    FeatureName::new(
        be16(bytes, place),
        be16(bytes, place + 2),
        be16(bytes, place + 8) >= 0x8000,
    )
}

/// Which of so many records a bisection for a type finds. Of two records in the middle it looks at the lower one, as
/// HarfBuzz does.
fn row_found(bytes: &[u8], count: u16, kind: u16) -> Option<u16>
    requires { 12 + 12 * count ≤ length bytes.now }
    ensures is { result ≡ row_found (kind_at bytes.now) count kind }
    ensures below { IfSome result (λ i. i < count) }
{
    let mut from = 0;
    let mut to = count as usize;
    while from < to {
        let middle = (from + (to - 1)) / 2;
        let found = kind_at(bytes, middle as u16);
        if kind < found {
            to = middle;
        } else if found < kind {
            from = middle + 1;
        } else {
            return Some(middle as u16);
        }
    }
    None
}

/// Whether a bisection for the type of a record finds that very record.
fn is_found(bytes: &[u8], count: u16, i: u16) -> bool
    requires inside { 12 + 12 * count ≤ length bytes.now }
    requires below { i < count }
    ensures { result ≡ is_found (kind_at bytes.now) count i }
{
    match row_found(bytes, count, kind_at(bytes, i)) {
        Some(found) => found == i,
        None => false,
    }
}

/// What those of so many records say that a bisection for their own types finds.
fn feature_names<A: Allocator>(
    alloc: A,
    bytes: &[u8],
    count: u16,
) -> Result<Vec<FeatureName, A>, AllocError>
    requires { 12 + 12 * count ≤ length bytes.now }
    ensures { IfOk result (λ names. names.items ≡ feature_names bytes.now count) }
{
    let mut names = Vec::new(alloc);
    for i in 0..count {
        if is_found(bytes, count, i) {
            names.push(feature_name(bytes, i))?;
        }
    }
    Ok(names)
}

/// Reads the feature name table. Its version is 1.0, of which the 1 is believed. What is known of a type is what the
/// record says that a bisection over all records finds for it, as HarfBuzz does: where types rise, these are all records.
/// Settings are not looked at: HarfBuzz drops a table whose settings are not all there.
///
/// The first fault in this order, of the table `feat`, with its place from the start of the table: 1, `PastEnd`, a
/// header of 12 bytes that is not there, at 0; 2, `UnknownFormat`, another version, at 0; 1, records of 12 bytes that
/// are not there, at the first of them. `OutOfMemory` comes only if the bytes have no fault.
///
/// Apple's TrueType Reference Manual, "The 'feat' table".
pub fn read_feat<A: Allocator + Copy>(alloc: A, bytes: &[u8]) -> Result<Feat<A>, ReadError>
    ensures { Gives result (feat_of bytes.now) }
{
    let count = feature_count(bytes)?;
    let names = feature_names(alloc, bytes, count)?;
    match Feat::new(alloc, &names) {
        Ok(feat) => Ok(feat),
        Err(_) => Err(ReadError::OutOfMemory),
    }
}

/// The record of a feature type that a bisection finds.
fn feature_record(bytes: &[u8], kind: u16) -> Option<u16>
    ensures is { result ≡ feature_record bytes.now kind }
    ensures inside { IfSome result (λ i. 24 + 12 * i ≤ length bytes.now) }
{
    match feature_count(bytes) {
        Ok(count) => row_found(bytes, count, kind),
        Err(_) => None,
    }
}

/// The name of a feature type, as a number in the table `name`, or `None` if the type is not listed, or if the header
/// or the records have a fault of `read_feat`. Of records that do not rise that counts which a bisection finds. It takes
/// no memory.
///
/// Apple's TrueType Reference Manual, "The 'feat' table".
pub fn feature_name_id(bytes: &[u8], kind: u16) -> Option<u16>
    ensures { result ≡ feature_name_id bytes.now kind }
{
    match feature_record(bytes, kind) {
        Some(i) => Some(be16(bytes, feature_place(i) + 10)),
        None => None,
    }
}

/// Whether a number of 16 bits stands at a place.
fn has_number(bytes: &[u8], place: usize, number: u16) -> bool
    ensures { result ≡ has_number bytes.now place number }
{
    match u16_at(bytes, place) {
        Some(found) => found == number,
        None => false,
    }
}

/// The first of so many settings at an offset that has a number.
fn setting_among(bytes: &[u8], offset: u32, count: u16, setting: u16) -> Option<u16>
    ensures { result ≡ find (λ j. has_number bytes.now (offset + 4 * j) setting) (range_with_len 0 count) }
{
    (0..count).find(|j| has_number(bytes, offset as usize + 4 * *j as usize, setting))
}

/// The name of a setting of the feature whose record has an index.
fn setting_name_in(bytes: &[u8], setting: u16, i: u16) -> Option<u16>
    requires { 24 + 12 * i ≤ length bytes.now }
    ensures { result ≡ setting_name_in bytes.now setting i }
{
    let place = feature_place(i);
    let offset = be32(bytes, place + 4);
    match setting_among(bytes, offset, be16(bytes, place + 2), setting) {
        Some(j) => u16_at(bytes, offset as usize + 4 * j as usize + 2),
        None => None,
    }
}

/// The name of a setting of a feature type, as a number in the table `name`, or `None` if the type or the setting is
/// not listed, if the setting reaches past the end of the table, or if the header or the records have a fault of
/// `read_feat`. Of records that do not rise that counts which a bisection finds, and of settings that share their number
/// the first. It takes no memory.
///
/// Apple's TrueType Reference Manual, "The 'feat' table".
pub fn setting_name_id(bytes: &[u8], kind: u16, setting: u16) -> Option<u16>
    ensures { result ≡ setting_name_id bytes.now kind setting }
{
    match feature_record(bytes, kind) {
        Some(i) => setting_name_in(bytes, setting, i),
        None => None,
    }
}
