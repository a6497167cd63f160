//! What C reads of texts, and the texts of numbers.
ghost use Rattle.std.specs.Prelude.{◌≡◌, length};
ghost use Rattle.std.specs.Str.{IsUtf8};
ghost use Rattle.aat_layout.specs.features.Reading.{feature_of};
ghost use Rattle.aat_records.specs.Failures.{number_of_outcome};
ghost use Rattle.aat_records.specs.Records.{filled};
ghost use Rattle.aat_records.specs.Texts.{text_of_fault, text_of_status};
ghost use Rattle.aat_c.specs.Handles.{feature_told, told_or};

use aat_layout::parse_feature;
use aat_records::{DONE, Failure, FeatureRecord, fault_text, put_bytes, status_text};

/// The version: its major number counts 65536, its minor one 256.
const VERSION: u32 = 0x0001_0000;

/// The version of the library: 65536 for its major number, 256 for its minor one.
#[unsafe(no_mangle)]
pub extern "C" fn aat_version() -> u32
    ensures { result ≡ 0x10000 }
{
    VERSION
}

/// Puts the feature that a text is. Refused as 4, `BadText`, where it is no UTF-8, and as 8, `BadFeature`, where it is
/// no feature. The feature then stays as it was.
#[unsafe(no_mangle)]
pub extern "C" fn aat_feature_from_string(text: &[u8], feature: &mut FeatureRecord) -> u32
    ensures number { IsUtf8 text.now → result ≡ number_of_outcome (feature_told (feature_of text.now)) }
    ensures put { IsUtf8 text.now → feature.new ≡ told_or feature.old (feature_told (feature_of text.now)) }
    ensures bad_text { ¬ (IsUtf8 text.now) → result ≡ 4 }
    ensures stays { ¬ (IsUtf8 text.now) → feature.new ≡ feature.old }
{
    let Ok(text) = std::str::from_utf8(text) else {
        return Failure::BadText.number();
    };
    match parse_feature(text) {
        Ok(found) => {
            *feature = FeatureRecord::of(found);
            DONE
        }
        Err(_) => Failure::BadFeature.number(),
    }
}

/// Puts what a number of a status says into room, in English, and answers how many bytes it has: 0 for a number that is
/// none of a status.
#[unsafe(no_mangle)]
pub extern "C" fn aat_status_text(status: u32, out: &mut [u8]) -> usize
    ensures put { out.new ≡ filled (text_of_status status) out.old }
    ensures size { result ≡ length (text_of_status status) }
{
    let text = status_text(status);
    put_bytes(text.as_bytes(), out);
    text.len()
}

/// Puts what a number of a kind of fault says into room, in English, and answers how many bytes it has: 0 for a number
/// that is none of a kind.
#[unsafe(no_mangle)]
pub extern "C" fn aat_fault_text(kind: u32, out: &mut [u8]) -> usize
    ensures put { out.new ≡ filled (text_of_fault kind) out.old }
    ensures size { result ≡ length (text_of_fault kind) }
{
    let text = fault_text(kind);
    put_bytes(text.as_bytes(), out);
    text.len()
}
