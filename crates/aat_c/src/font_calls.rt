//! What C asks of a font.
ghost use Rattle.std.specs.Prelude.{◌≡◌, ◌≢◌, None, length};
ghost use Rattle.aat_records.specs.Failures.{number_of_outcome};
ghost use Rattle.aat_records.specs.Asked.{EndsReading, HoldsFile, TellsFeatureOf, asked, directory_fault, fault_told, glyph_in};
ghost use Rattle.aat_records.specs.AskedNames.{IsNamePut, feature_name_told, name_told, setting_name_told};
ghost use Rattle.aat_records.specs.Refused.{EndsName};
ghost use Rattle.aat_c.specs.Handles.{held_in, told_or};
ghost use Rattle.aat_face.specs.Faces.{face_of};
ghost use Rattle.aat_read_sfnt.specs.Directory.{directory_of};

use crate::handle::Handle;
use crate::shape_calls::finish;
use aat_records::{
    DONE, Failure, FaultRecord, fault_in, fault_of_file, glyph_in, has_feature_in, let_go,
    put_feature_name, put_name_of, put_setting_name, read_held,
};
use std::alloc::Global;

/// Has the handle hold the font at an index of a file, whose bytes stay as they are as long as it does. What it held
/// before goes. Where the call is refused, it holds nothing.
///
/// Refused as 3, `BadFont`, where the directory of the file has a fault (`aat_file_fault`), and as 2, `OutOfMemory`,
/// where memory is wanting.
#[unsafe(no_mangle)]
pub extern "C" fn aat_font_read(
    alloc: Global,
    font: &mut Handle,
    bytes: &'static [u8],
    index: u32,
) -> u32
    ensures ends { EndsReading (face_of bytes.now index) result }
    ensures read { result ≡ 0 → HoldsFile bytes.now index (held_in font.new) }
    ensures empty { result ≢ 0 → held_in font.new ≡ None }
{
    let_go(font.take(alloc));
    match read_held(alloc, bytes, index) {
        Ok(held) => {
            font.put(held);
            DONE
        }
        Err(failure) => failure.number(),
    }
}

/// Has the handle hold nothing. Nothing happens where it holds nothing.
#[unsafe(no_mangle)]
pub extern "C" fn aat_font_free(alloc: Global, font: &mut Handle)
    ensures empty { held_in font.new ≡ None }
{
    let_go(font.take(alloc));
}

/// The number of glyphs, 0 where there is no font.
#[unsafe(no_mangle)]
pub extern "C" fn aat_font_glyph_count(alloc: Global, font: &mut Handle) -> u32
    ensures count { result ≡ asked 0 (λ face. face.glyph_count) (held_in font.old) }
    ensures kept { held_in font.new ≡ held_in font.old }
{
    match font.take(alloc) {
        Some(held) => {
            let count = held.face.glyph_count();
            font.put(held);
            u32::from(count)
        }
        None => 0,
    }
}

/// The units of the em, 0 where there is no font.
#[unsafe(no_mangle)]
pub extern "C" fn aat_font_units_per_em(alloc: Global, font: &mut Handle) -> u32
    ensures units { result ≡ asked 0 (λ face. face.units_per_em) (held_in font.old) }
    ensures kept { held_in font.new ≡ held_in font.old }
{
    match font.take(alloc) {
        Some(held) => {
            let units = held.face.units_per_em();
            font.put(held);
            u32::from(units)
        }
        None => 0,
    }
}

/// The glyph of a character, 0 where there is none.
#[unsafe(no_mangle)]
pub extern "C" fn aat_font_glyph(alloc: Global, font: &mut Handle, character: u32) -> u32
    ensures glyph { result ≡ asked 0 (glyph_in character) (held_in font.old) }
    ensures kept { held_in font.new ≡ held_in font.old }
{
    match font.take(alloc) {
        Some(held) => {
            let glyph = glyph_in(&held.face, character);
            font.put(held);
            glyph
        }
        None => 0,
    }
}

/// Whether the font has a feature. It has none where there is no font.
#[unsafe(no_mangle)]
pub extern "C" fn aat_font_has_feature(alloc: Global, font: &mut Handle, tag: u32) -> bool
    ensures told { TellsFeatureOf (held_in font.old) tag result }
    ensures kept { held_in font.new ≡ held_in font.old }
{
    match font.take(alloc) {
        Some(held) => {
            let has = has_feature_in(alloc, &held.face, tag);
            font.put(held);
            has
        }
        None => false,
    }
}

/// The number of faults of the font's tables, 0 where there is no font.
#[unsafe(no_mangle)]
pub extern "C" fn aat_font_fault_count(alloc: Global, font: &mut Handle) -> usize
    ensures count { result ≡ asked 0 (λ face. length face.faults) (held_in font.old) }
    ensures kept { held_in font.new ≡ held_in font.old }
{
    match font.take(alloc) {
        Some(held) => {
            let count = held.face.faults().len();
            font.put(held);
            count
        }
        None => 0,
    }
}

/// Puts a fault where there is one, and answers the number of how a call ends.
fn put_fault(outcome: Result<FaultRecord, Failure>, fault: &mut FaultRecord) -> u32
    ensures number { result ≡ number_of_outcome outcome }
    ensures put { fault.new ≡ told_or fault.old outcome }
{
    match outcome {
        Ok(found) => {
            *fault = found;
            DONE
        }
        Err(failure) => failure.number(),
    }
}

/// Puts a fault of the font's tables, by its number from 0. Refused as 1, `NoFont`, where there is no font, and as 10,
/// `NotThere`, where there are not so many. `fault` stays then.
#[unsafe(no_mangle)]
pub extern "C" fn aat_font_fault(
    alloc: Global,
    font: &mut Handle,
    number: usize,
    fault: &mut FaultRecord,
) -> u32
    ensures number { result ≡ number_of_outcome (fault_told number (held_in font.old)) }
    ensures put { fault.new ≡ told_or fault.old (fault_told number (held_in font.old)) }
    ensures kept { held_in font.new ≡ held_in font.old }
{
    match font.take(alloc) {
        Some(held) => {
            let found = fault_in(&held.face, number);
            font.put(held);
            put_fault(found, fault)
        }
        None => Failure::NoFont.number(),
    }
}

/// Puts the fault of a file's directory, for which `aat_font_read` refuses it. Refused as 10, `NotThere`, where it has
/// none. `fault` stays then.
#[unsafe(no_mangle)]
pub extern "C" fn aat_file_fault(bytes: &[u8], index: u32, fault: &mut FaultRecord) -> u32
    ensures number { result ≡ number_of_outcome (directory_fault (directory_of bytes.now index)) }
    ensures put { fault.new ≡ told_or fault.old (directory_fault (directory_of bytes.now index)) }
{
    put_fault(fault_of_file(bytes, index), fault)
}

/// Puts the English text of a name into room, as UTF-8, and tells how many bytes it has. Refused as 1, `NoFont`, as 10,
/// `NotThere`, and as 2, `OutOfMemory`. The count is 0 then.
#[unsafe(no_mangle)]
pub extern "C" fn aat_font_name(
    alloc: Global,
    font: &mut Handle,
    name: u32,
    out: &mut [u8],
    count: &mut usize,
) -> u32
    ensures kept { held_in font.new ≡ held_in font.old }
    ensures ends { EndsName (held_in font.old) (name_told name (held_in font.old)) result }
    ensures put { result ≡ 0 → IsNamePut (name_told name (held_in font.old)) out.old out.new count.new }
    ensures none { result ≢ 0 → count.new ≡ 0 }
    ensures stays { result ≢ 0 → out.new ≡ out.old }
{
    match font.take(alloc) {
        Some(held) => {
            let outcome = put_name_of(alloc, &held.face, name, out);
            font.put(held);
            finish(outcome, count)
        }
        None => finish(Err(Failure::NoFont), count),
    }
}

/// Puts the English name of a feature type into room, as `aat_font_name` puts a name.
#[unsafe(no_mangle)]
pub extern "C" fn aat_font_feature_name(
    alloc: Global,
    font: &mut Handle,
    kind: u32,
    out: &mut [u8],
    count: &mut usize,
) -> u32
    ensures kept { held_in font.new ≡ held_in font.old }
    ensures ends { EndsName (held_in font.old) (feature_name_told kind (held_in font.old)) result }
    ensures put { result ≡ 0 → IsNamePut (feature_name_told kind (held_in font.old)) out.old out.new count.new }
    ensures none { result ≢ 0 → count.new ≡ 0 }
    ensures stays { result ≢ 0 → out.new ≡ out.old }
{
    match font.take(alloc) {
        Some(held) => {
            let outcome = put_feature_name(alloc, &held.face, kind, out);
            font.put(held);
            finish(outcome, count)
        }
        None => finish(Err(Failure::NoFont), count),
    }
}

/// Puts the English name of a setting of a feature type into room, as `aat_font_name` puts a name.
#[unsafe(no_mangle)]
pub extern "C" fn aat_font_setting_name(
    alloc: Global,
    font: &mut Handle,
    kind: u32,
    setting: u32,
    out: &mut [u8],
    count: &mut usize,
) -> u32
    ensures kept { held_in font.new ≡ held_in font.old }
    ensures ends { EndsName (held_in font.old) (setting_name_told kind setting (held_in font.old)) result }
    ensures put { result ≡ 0 → IsNamePut (setting_name_told kind setting (held_in font.old)) out.old out.new count.new }
    ensures none { result ≢ 0 → count.new ≡ 0 }
    ensures stays { result ≢ 0 → out.new ≡ out.old }
{
    match font.take(alloc) {
        Some(held) => {
            let outcome = put_setting_name(alloc, &held.face, kind, setting, out);
            font.put(held);
            finish(outcome, count)
        }
        None => finish(Err(Failure::NoFont), count),
    }
}
