//! What substitution asks of each chain of a font, range by range.
ghost use Rattle.std.specs.Prelude.{◌≡◌, ◌++◌, All, IfErr, IfOk, IsTrue, None, OnOk, length, map};
ghost use Rattle.std.specs.List.{list_all};
ghost use Rattle.aat_layout.specs.Adding.{first_too_large_among};
ghost use Rattle.aat_layout.specs.Compiled.{HaveFlags};
ghost use Rattle.aat_layout.specs.Face.{tables_of};
ghost use Rattle.aat_layout.specs.Ranges.{is_whole_list};
ghost use Rattle.aat_layout.specs.Switches.{meets};
ghost use Rattle.aat_inspection.specs.Inspected.{IsAsked, Lead, RefusesInspection, chains_of, requests_to, table_lines};
ghost use Rattle.aat_inspection.specs.inside.Lines.{line_over};

use aat_layout::buffer::hb_mask_t;
use aat_layout::font::{Chain, Feature, Subtable, hb_font_t};
use aat_layout::{AatError, hb_aat_map_builder_t, hb_aat_map_t, range_flags_t};
use std::alloc::Global;

/// What substitution asks of a chain over a range of clusters.
#[derive(PartialEq, Eq, Debug, Drop)]
pub struct InspectedRange {
    /// The place of the chain in the font's table.
    pub chain: usize,
    /// The first cluster of the range.
    pub first: u32,
    /// The last cluster of the range, which is in it.
    pub last: u32,
    /// The flags of the chain at each cluster of the range.
    pub flags: hb_mask_t,
    /// Whether each subtable of the chain, in their order, is on at each cluster of the range.
    pub on: Vec<bool>,
}

/// Lists what substitution asks of each chain of a font where these features are requested: for each range of clusters
/// the flags of the chain, and which of its subtables are on.
///
/// The flags and the subtables of a range are what
/// [`hb_aat_layout_substitute`](aat_layout::hb_aat_layout_substitute) asks at each of its clusters, with a plan of the
/// same features that applies the table's flags. The ranges are by chain and then by cluster; each begins behind the
/// one before, so that every cluster from 0 to `u32::MAX` is in exactly one range of each chain. Ranges are those that
/// requests are compiled to: one may end where a request starts or ends, though the flags stay there. A font without
/// the table has no ranges.
///
/// Refused as 1, `AaltValue`, for the first value of alternates that is no setting, and as 3, `OutOfMemory`, where
/// memory is wanting.
///
/// Apple's TrueType Reference Manual, "The 'morx' table", chain header and feature subtables.
pub fn inspect(
    alloc: Global,
    face: &hb_font_t,
    features: &[Feature],
) -> Result<Vec<InspectedRange>, AatError>
    ensures asked { IfOk result (λ ranges.
        All (IsAsked (requests_to face.now features.now) (chains_of face.now)) (table_lines ranges)) }
    ensures whole { IfOk result (λ ranges. Lead (0, 0) (length (chains_of face.now), 0) (table_lines ranges)) }
    ensures fits { OnOk result (first_too_large_among (tables_of face.now).feat features.now ≡ None) }
    ensures reason { IfErr result (RefusesInspection (tables_of face.now).feat features.now) }
{
    let map = map_of(alloc, face, features)?;
    let mut ranges = Vec::new(alloc);
    for (place, chain) in face.chains().iter().enumerate() {
        add_chain(alloc, place, chain, map.ranges(place), &mut ranges)?;
    }
    Ok(ranges)
}

/// The map that features make of a font.
fn map_of(alloc: Global, face: &hb_font_t, features: &[Feature]) -> Result<hb_aat_map_t, AatError>
    ensures flags { IfOk result (λ map. HaveFlags (requests_to face.now features.now) (chains_of face.now) map) }
    ensures whole { IfOk result (λ map. IsTrue (list_all is_whole_list map)) }
    ensures fits { OnOk result (first_too_large_among (tables_of face.now).feat features.now ≡ None) }
    ensures reason { IfErr result (RefusesInspection (tables_of face.now).feat features.now) }
{
    let mut builder = hb_aat_map_builder_t::with_features(alloc, face, features)?;
    let mut map = hb_aat_map_t::default(alloc);
    builder.compile(face, &mut map)?;
    Ok(map)
}

/// Adds each range of a chain, with its subtables.
fn add_chain(
    alloc: Global,
    place: usize,
    chain: &Chain,
    ranges: &[range_flags_t],
    inspected: &mut Vec<InspectedRange>,
) -> Result<(), AatError>
    ensures ok { OnOk result (table_lines inspected.new
        ≡ table_lines inspected.old ++ map (line_over place chain.now) ranges.now) }
    ensures err { IfErr result (λ e. e ≡ AatError.OutOfMemory) }
{
    for range in ranges {
        inspected.push(InspectedRange {
            chain: place,
            first: range.cluster_first,
            last: range.cluster_last,
            flags: range.flags,
            on: subtables_on(alloc, range.flags, &chain.subtables)?,
        })?;
    }
    Ok(())
}

/// Whether each subtable is on by these flags: where its own share a bit with them.
fn subtables_on(
    alloc: Global,
    flags: hb_mask_t,
    subtables: &[Subtable],
) -> Result<Vec<bool>, AatError>
    ensures ok { IfOk result (λ on. on.items ≡ map (λ s. meets flags s.feature_flags) subtables.now) }
    ensures err { IfErr result (λ e. e ≡ AatError.OutOfMemory) }
{
    let mut on = Vec::new(alloc);
    for subtable in subtables {
        on.push(flags & subtable.feature_flags != 0)?;
    }
    Ok(on)
}
