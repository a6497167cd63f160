//! Which settings of features are on by default.

use aat_machine_tables::{Chain, ChainFeature};
use std::alloc::{AllocError, Global};
use std::collections::BTreeMap;
use std::io::{self, Write};

/// A setting of a feature: the feature type, and the selector within it.
type Setting = (u16, u16);

/// Whether a setting leaves the flags of a chain as they are where nothing is asked for.
fn keeps_flags(default_flags: u32, feature: &ChainFeature) -> bool {
    (default_flags & feature.disable_flags) | feature.enable_flags == default_flags
}

/// Notes of each setting of a chain whether it leaves the default flags as they are, in this chain and in those before.
fn note_settings(settings: &mut BTreeMap<Setting, bool>, chain: &Chain) -> Result<(), AllocError> {
    for feature in &chain.features {
        let setting = (feature.kind, feature.setting);
        let is_on = settings.entry(setting)?.or_insert(true);
        *is_on = *is_on && keeps_flags(chain.default_flags, feature);
    }
    Ok(())
}

/// The settings of chains, each with whether it is on by default.
fn settings_of(alloc: Global, chains: &[Chain]) -> Result<BTreeMap<Setting, bool>, AllocError> {
    let mut settings = BTreeMap::new(alloc);
    for chain in chains {
        note_settings(&mut settings, chain)?;
    }
    Ok(settings)
}

/// Writes which settings that chains list are on by default, rising by type and then by number: those that change the
/// default flags of no chain.
///
/// An error is that of the writer, or `OutOfMemory`. A part of the text may be written then.
pub(crate) fn write_defaults<W: Write>(
    alloc: Global,
    out: &mut W,
    chains: &[Chain],
) -> io::Result<()> {
    for ((kind, selector), is_on) in &settings_of(alloc, chains)? {
        let state = if *is_on { "on" } else { "off" };
        writeln!(
            out,
            "feature {kind} setting {selector} is {state} by default"
        )?;
    }
    Ok(())
}
