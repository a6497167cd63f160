//! The first subtable of a font that is not settled.
ghost use Rattle.std.specs.Prelude.{IfOk, IfNone, IfSome};
ghost use Rattle.aat_font.specs.Face.{chains_in, tables_of};
ghost use Rattle.aat_cuts.specs.Fonts.{AreAllSettled, AreSettled, IsReasonAt, IsReasonIn};

use crate::find::find_unsettled;
use crate::unsettled::Unsettled;
use aat_font::hb_font_t;
use aat_machine_tables::{Chain, Subtable};
use std::alloc::{AllocError, Global};

/// A subtable of a font that is not settled.
#[derive(Clone, Copy, PartialEq, Eq, Debug)]
pub struct UnsettledSubtable {
    /// The place of its chain in the table.
    pub chain: usize,
    /// Its place in the chain.
    pub subtable: usize,
    /// Why it is not settled.
    pub reason: Unsettled,
}

/// The first subtable of a chain that is not settled, and why.
fn find_in_chain(
    alloc: Global,
    subtables: &[Subtable],
) -> Result<Option<(usize, Unsettled)>, AllocError>
    ensures none { IfOk result (λ found. IfNone found (AreSettled subtables.now)) }
    ensures some { IfOk result (λ found. IfSome found (λ place. IsReasonAt subtables.now place.0 place.1)) }
{
    for (place, subtable) in subtables.iter().enumerate() {
        let found = find_unsettled(alloc, &subtable.kind)?;
        if let Some(reason) = found {
            return Ok(Some((place, reason)));
        }
    }
    Ok(None)
}

/// The first subtable of chains that is not settled, and why.
fn find_in_chains(alloc: Global, chains: &[Chain]) -> Result<Option<UnsettledSubtable>, AllocError>
    ensures none { IfOk result (λ found. IfNone found (AreAllSettled chains.now)) }
    ensures some { IfOk result (λ found. IfSome found (IsReasonIn chains.now)) }
{
    for (place, chain) in chains.iter().enumerate() {
        let found = find_in_chain(alloc, &chain.subtables)?;
        if let Some((subtable, reason)) = found {
            return Ok(Some(UnsettledSubtable {
                chain: place,
                subtable,
                reason,
            }));
        }
    }
    Ok(None)
}

/// Finds the first subtable of a font's `morx` table that is not settled, by chains and then by subtables, and why it
/// is not; `None` says that each of them is settled. Fails where memory is wanting.
///
/// Apple's TrueType Reference Manual, "The 'morx' table".
pub fn find_unsettled_in_font(
    alloc: Global,
    face: &hb_font_t,
) -> Result<Option<UnsettledSubtable>, AllocError>
    ensures none { IfOk result (λ found. IfNone found (AreAllSettled (chains_in (tables_of face.now).morx))) }
    ensures some { IfOk result (λ found. IfSome found (IsReasonIn (chains_in (tables_of face.now).morx))) }
{
    let chains = face.chains();
    let found = find_in_chains(alloc, chains)?;
    Ok(found)
}
