//! The features of a chain.
ghost use Rattle.std.specs.Prelude.{◌≡◌, ◌+◌, ◌*◌, ◌≤◌, length, IfOk, MatchResult, Ok, OnOk};
ghost use Rattle.aat_read_lookup.specs.Lookups.{Refuses};
ghost use Rattle.aat_read_extended.specs.morx.ChainFeatures.{feature_at, features_at, whole_features};

use aat_bytes::{Fault, FaultKind, ReadError, be16, be32};
use aat_machine_tables::ChainFeature;
use aat_read_machine::MORX;
use std::alloc::{AllocError, Global};

/// The record of a feature.
fn feature_at(bytes: &[u8], place: usize) -> ChainFeature
    requires { place + 12 ≤ length bytes.now }
    ensures { result ≡ feature_at bytes.now place }
{
    ChainFeature::new(
        be16(bytes, place),
        be16(bytes, place + 2),
        be32(bytes, place + 4),
        be32(bytes, place + 8),
    )
}

/// So many records of features.
fn features_at(
    alloc: Global,
    bytes: &[u8],
    place: usize,
    count: usize,
) -> Result<Vec<ChainFeature>, AllocError>
    requires { place + 12 * count ≤ length bytes.now }
    ensures { IfOk result (λ features. features.items ≡ features_at bytes.now place count) }
{
    (0..count)
        .map(|i| feature_at(bytes, place + 12 * i))
        .collect(alloc)
}

/// So many features whose records stand from a place on.
#[tactic(auto, unfolding(crate::specs::morx::ChainFeatures::whole_features))]
pub(crate) fn whole_features(
    alloc: Global,
    bytes: &[u8],
    place: usize,
    count: u32,
) -> Result<Vec<ChainFeature>, ReadError>
    requires { place ≤ length bytes.now }
    ensures gives { let read = whole_features bytes.now place count in
        MatchResult result (λ features. read ≡ Ok features.items) (Refuses read) }
    ensures inside { OnOk result (place + 12 * count ≤ length bytes.now) }
{
    if bytes.len() < place + 12 * count as usize {
        let whole = (bytes.len() - place) / 12;
        return Err(ReadError::Fault(Fault::new(MORX, FaultKind::PastEnd, place + 12 * whole)));
    }
    Ok(features_at(alloc, bytes, place, count as usize)?)
}
