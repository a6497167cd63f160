//! Texts in other encodings than UTF-8.
ghost use Rattle.std.specs.Prelude.{◌≡◌, false, true, map, IfErr, IfOk, OnOk, encode_utf8_all};
ghost use Rattle.std.specs.Char.Utf16.{has_unpaired_surrogate};
ghost use Rattle.std.specs.String.{string_bytes};
ghost use Rattle.aat_records.specs.Decoded.{RefusesUtf16, RefusesUtf32, begins, count_before, end_before, is_utf32, over_characters, places_in, short_place, unit_of, utf8_of_units};
ghost use Rattle.aat_records.specs.Places.{placed};

use crate::failure::Failure;
use crate::places::Places;
use crate::records::FeatureRecord;
use std::alloc::{AllocError, Global};

/// A text of units of 16 bits.
#[derive(Drop)]
pub struct Decoded {
    /// Its characters.
    pub text: String,
    /// The places of the units at which they begin.
    pub places: Places,
}

/// Whether a character begins at a unit: whether it is not the second one of a pair.
fn begins(unit: u16) -> bool
    ensures { result ≡ begins unit }
{
    !(0xDC00 <= unit && unit < 0xE000)
}

/// A place of 32 bits: the greatest one for those above.
fn short_place(place: usize) -> u32
    ensures { result ≡ short_place place }
{
    if place < 0xFFFF_FFFF {
        place as u32
    } else {
        0xFFFF_FFFF
    }
}

/// The places of the units at which characters begin.
#[tactic(auto, using(crate::proofs::UnitPlaces::one_place, crate::proofs::UnitPlaces::no_place, crate::proofs::UnitPlaces::all_placed))]
fn places_in(alloc: Global, units: &[u16]) -> Result<Vec<u32>, AllocError>
    ensures { IfOk result (λ places. places.items ≡ places_in units.now) }
{
    let mut places = Vec::new(alloc);
    for i in 0..units.len() {
        if begins(units[i]) {
            places.push(short_place(i))?;
        }
    }
    Ok(places)
}

impl Decoded {
    /// The text of these units. Refused as `BadText` where a surrogate has no partner, and as `OutOfMemory`.
    pub fn of(alloc: Global, units: &[u16]) -> Result<Decoded, Failure>
        ensures text { IfOk result (λ decoded. string_bytes decoded.text ≡ utf8_of_units units.now) }
        ensures places { IfOk result (λ decoded. placed decoded.places ≡ unit_of units.now) }
        ensures paired { OnOk result (has_unpaired_surrogate units.now ≡ false) }
        ensures refused { IfErr result (RefusesUtf16 units.now) }
    {
        match String::from_utf16(alloc, units)? {
            Ok(text) => {
                let places = Places::OfCharacters(places_in(alloc, units)?);
                Ok(Decoded { text, places })
            }
            Err(_) => Err(Failure::BadText),
        }
    }
}

/// How many characters begin before a unit.
#[tactic(auto, using(crate::proofs::UnitPlaces::few_begin))]
fn count_before(units: &[u16], unit: u32) -> u32
    ensures { result ≡ count_before units.now unit }
{
    units
        .iter()
        .take(unit as usize)
        .filter(|unit| begins(**unit))
        .count() as u32
}

/// The end of a range of characters, of one of units. The greatest one is no end.
fn end_before(units: &[u16], unit: u32) -> u32
    ensures { result ≡ end_before units.now unit }
{
    if unit == 0xFFFF_FFFF {
        unit
    } else {
        count_before(units, unit)
    }
}

/// A feature over units as one over characters.
fn over_characters(feature: &FeatureRecord, units: &[u16]) -> FeatureRecord
    ensures { result ≡ over_characters units.now feature.now }
{
    FeatureRecord {
        tag: feature.tag,
        value: feature.value,
        start: count_before(units, feature.start),
        end: end_before(units, feature.end),
    }
}

/// Features over units as features over characters.
pub fn features_over(
    alloc: Global,
    features: &[FeatureRecord],
    units: &[u16],
) -> Result<Vec<FeatureRecord>, AllocError>
    ensures { IfOk result (λ all. all.items ≡ map (over_characters units.now) features.now) }
{
    features
        .iter()
        .map(|feature| over_characters(feature, units))
        .collect(alloc)
}

/// The text of characters of 32 bits. Refused as `BadText` where a number is none of a character, and as `OutOfMemory`.
#[tactic(auto, using(crate::proofs::Encoded::one_more, crate::proofs::Encoded::one_more_is, crate::proofs::Encoded::one_is_not))]
pub fn text_of_characters(alloc: Global, characters: &[u32]) -> Result<String, Failure>
    ensures text { IfOk result (λ text. string_bytes text ≡ encode_utf8_all characters.now) }
    ensures all { OnOk result (is_utf32 characters.now ≡ true) }
    ensures refused { IfErr result (RefusesUtf32 characters.now) }
{
    let mut text = String::with_capacity(alloc, characters.len())?;
    for number in characters {
        match char::from_u32(*number) {
            Some(character) => text.push(character)?,
            None => return Err(Failure::BadText),
        }
    }
    Ok(text)
}
