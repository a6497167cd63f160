//! The flags of each chain in the range of a builder.
ghost use Rattle.std.specs.Prelude.{◌≡◌, ◌<◌, ◌≤◌, length, IfOk, IfErr, OnOk, OnErr, is_none, [], All};
ghost use Rattle.std.specs.Prelude.{if◌then◌else◌, bit_and, bit_or};
ghost use Rattle.std.specs.List.{AllWithin};
ghost use Rattle.aat_map.specs.ChainFlags.{is_asked, after_feature};
ghost use Rattle.aat_map.specs.Live.{IsRisingByGroup, has_setting};
ghost use Rattle.aat_map.specs.Compiled.{compiled_range, compiled_ranges, compiled, compiled_for, flags_for, Follows};
ghost use Rattle.aat_map.specs.Map.{with_ranges};
ghost use Rattle.aat_font.specs.Face.{tables_of, chains_in};

use crate::builder::hb_aat_map_builder_t;
use crate::feature::feature_info_t;
use crate::map::hb_aat_map_t;
use aat_buffer::hb_mask_t;
use aat_font::{constants, hb_font_t};
use aat_machine_tables::{Chain, ChainFeature};
use aat_run::{AatError, range_flags_t};
use std::alloc::Allocator;

/// The feature type and the selector of the older small capitals.
pub(crate) const OLDER_SMALL_CAPS: (u16, u16) = (
    constants::HB_AAT_LAYOUT_FEATURE_TYPE_LETTER_CASE as u16,
    constants::HB_AAT_LAYOUT_FEATURE_SELECTOR_SMALL_CAPS as u16,
);

/// The feature type and the selector of small capitals for lower case letters.
pub(crate) const SMALL_CAPS: (u16, u16) = (
    constants::HB_AAT_LAYOUT_FEATURE_TYPE_LOWER_CASE as u16,
    constants::HB_AAT_LAYOUT_FEATURE_SELECTOR_LOWER_CASE_SMALL_CAPS as u16,
);

/// Adds the builder's range to the list of each chain of the font, with the flags that the settings
/// which are kept in it give the chain.
///
/// The map gets one list for each chain: lists past them go, and missing ones are empty. The range has
/// to follow each chain's last one, or begin at 0 where there is none. Answers `None` for a font
/// without the table, and the map then stays.
///
/// Refused as 3, `OutOfMemory`, where a list gets no memory, so never for a font without a chain. The map is then
/// empty.
///
/// Apple's TrueType Reference Manual, "The 'morx' table", feature subtables.
pub fn compile_flags<A: Allocator + Copy>(
    face: &hb_font_t,
    builder: &hb_aat_map_builder_t<A>,
    map: &mut hb_aat_map_t<A>,
) -> Result<Option<()>, AatError>
    requires { Follows (chains_in (tables_of face.now).morx) builder.now map.old }
    ensures known { IfOk result (λ answer. is_none answer ≡ is_none (tables_of face.now).morx) }
    ensures ok { OnOk result (map.new ≡ compiled_for (tables_of face.now).morx builder.now map.old) }
    ensures err { IfErr result (λ e. (e ≡ AatError.OutOfMemory)
        × (0 < length (chains_in (tables_of face.now).morx))) }
    ensures empty { OnErr result (map.new ≡ []) }
{
    let Some(morx) = &face.tables().morx else {
        return Ok(None);
    };
    let answer = compile_chains(morx.chains(), builder, map);
    map.empty_on_err(answer)?;
    Ok(Some(()))
}

/// Makes a list for each chain, and adds the builder's range to each.
fn compile_chains<A: Allocator + Copy>(
    chains: &[Chain],
    builder: &hb_aat_map_builder_t<A>,
    map: &mut hb_aat_map_t<A>,
) -> Result<(), AatError>
    requires { Follows chains.now builder.now map.old }
    ensures ok { OnOk result (map.new ≡ compiled chains.now builder.now map.old) }
    ensures err { IfErr result (λ e. (e ≡ AatError.OutOfMemory) × (0 < length chains.now)) }
{
    map.resize(chains.len())?;
    push_ranges(chains, builder, map)
}

/// Adds the builder's range to the list of each chain.
pub(crate) fn push_ranges<A: Allocator + Copy>(
    chains: &[Chain],
    builder: &hb_aat_map_builder_t<A>,
    map: &mut hb_aat_map_t<A>,
) -> Result<(), AatError>
    requires lists { length map.old ≡ length chains.now }
    requires follows { Follows chains.now builder.now map.old }
    ensures ok { OnOk result (map.new ≡ with_ranges (compiled_ranges builder.now chains.now) map.old) }
    ensures err { IfErr result (λ e. (e ≡ AatError.OutOfMemory) × (0 < length chains.now)) }
{
    for (i, chain) in chains.iter().enumerate() {
        map.push(i, compiled_range(builder, chain))?;
    }
    Ok(())
}

/// The range of a builder with the flags that its settings give a chain.
fn compiled_range<A: Allocator + Copy>(
    builder: &hb_aat_map_builder_t<A>,
    chain: &Chain,
) -> range_flags_t
    ensures range { result ≡ compiled_range builder.now chain.now }
    ensures ordered { result.cluster_first ≤ result.cluster_last }
{
    let (cluster_first, cluster_last) = builder.range();
    range_flags_t {
        flags: flags_of(builder.current_features(), chain),
        cluster_first,
        cluster_last,
    }
}

/// The flags that settings, which rise by group, give a chain: the default ones, changed by its features in their
/// order.
fn flags_of(settings: &[feature_info_t], chain: &Chain) -> hb_mask_t
    requires { IsRisingByGroup settings.now }
    ensures { result ≡ flags_for settings.now chain.now }
{
    let mut flags = chain.default_flags;
    for feature in &chain.features {
        flags = after_feature(settings, flags, feature);
    }
    flags
}

/// Flags after a chain feature.
fn after_feature(settings: &[feature_info_t], flags: hb_mask_t, feature: &ChainFeature) -> hb_mask_t
    requires { IsRisingByGroup settings.now }
    ensures { result ≡ after_feature (has_setting settings.now) flags feature.now }
{
    changed_by(is_asked(settings, feature), flags, feature)
}

/// Flags that a chain feature changes where it is asked for.
pub(crate) fn changed_by(is_asked: bool, flags: hb_mask_t, feature: &ChainFeature) -> hb_mask_t
    ensures { result ≡ (if is_asked
        then bit_or (bit_and flags feature.now.disable_flags) feature.now.enable_flags
        else flags) }
{
    if is_asked {
        (flags & feature.disable_flags) | feature.enable_flags
    } else {
        flags
    }
}

/// Whether a chain feature is asked for, or it is the older small capitals and the newer ones are.
///
/// The feature registry of Apple's TrueType Reference Manual, "The 'feat' table", has small capitals
/// first as a setting of letter case (3, 3), and later of lower case letters (37, 1). A font that was
/// made before has the older ones in its chains, while requests are for the newer ones.
fn is_asked(settings: &[feature_info_t], feature: &ChainFeature) -> bool
    requires { IsRisingByGroup settings.now }
    ensures { result ≡ is_asked (has_setting settings.now) feature.now }
{
    has_setting(settings, (feature.kind, feature.setting))
        || feature.kind == OLDER_SMALL_CAPS.0
            && feature.setting == OLDER_SMALL_CAPS.1
            && has_setting(settings, SMALL_CAPS)
}

/// Whether settings that rise by group have this kind and setting, which is looked for from where the kind begins.
fn has_setting(settings: &[feature_info_t], wanted: (u16, u16)) -> bool
    requires { IsRisingByGroup settings.now }
    ensures { result ≡ has_setting settings.now wanted.0 wanted.1 }
{
    has_in_front(&settings[count_below(settings, wanted.0)..], wanted)
}

/// How many settings are of a lower kind, by a bisection, since they rise by group.
pub(crate) fn count_below(settings: &[feature_info_t], kind: u16) -> usize
    requires { IsRisingByGroup settings.now }
    ensures within { result ≤ length settings.now }
    ensures lower { AllWithin (λ i. i.kind < kind) settings.now 0 result }
    ensures others { AllWithin (λ i. kind ≤ i.kind) settings.now result (length settings.now) }
{
    settings.partition_point(|i| i.kind < kind)
}

/// Whether settings, none of which is of a lower kind, have this kind and setting. Of a kind few are kept, so those in
/// front are asked one by one.
fn has_in_front(settings: &[feature_info_t], wanted: (u16, u16)) -> bool
    requires rising { IsRisingByGroup settings.now }
    requires from { All (λ i. wanted.0 ≤ i.kind) settings.now }
    ensures { result ≡ has_setting settings.now wanted.0 wanted.1 }
{
    for info in settings {
        if info.kind != wanted.0 {
            return false;
        }
        if info.setting == wanted.1 {
            return true;
        }
    }
    false
}
