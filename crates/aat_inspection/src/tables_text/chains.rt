//! The chains of `morx`.
use crate::chains::kind_name;
use crate::tables_text::Names;
use crate::tables_text::kinds::write_kind;
use aat_font::hb_font_t;
use aat_machine_tables::{ChainFeature, Subtable};
use bitflags::Flags;
use std::alloc::Global;
use std::io::{self, Write};

/// Writes the features of a chain: type and setting, the flags that are set, and those that stay.
fn write_features<W: Write>(out: &mut W, features: &[ChainFeature]) -> io::Result<()> {
    for feature in features {
        let (kind, setting) = (feature.kind, feature.setting);
        let (on, off) = (feature.enable_flags, feature.disable_flags);
        writeln!(
            out,
            "chain feature {kind} setting {setting} on {on:#010x} off {off:#010x}"
        )?;
    }
    Ok(())
}

/// Writes the subtables of a chain.
fn write_subtables<W: Write>(
    alloc: Global,
    out: &mut W,
    names: Names<'_, '_>,
    subtables: &[Subtable],
) -> io::Result<()> {
    for subtable in subtables {
        let kind = kind_name(&subtable.kind);
        let coverage = subtable.coverage.bits();
        let flags = subtable.feature_flags;
        writeln!(
            out,
            "subtable {kind} coverage {coverage:#04x} flags {flags:#010x}"
        )?;
        write_kind(alloc, out, names, &subtable.kind)?;
    }
    Ok(())
}

/// Writes the chains of `morx` in their order.
pub(crate) fn write_chains<W: Write>(
    alloc: Global,
    out: &mut W,
    names: Names<'_, '_>,
    font: &hb_font_t,
) -> io::Result<()> {
    for chain in font.chains() {
        let flags = chain.default_flags;
        writeln!(out, "chain flags {flags:#010x}")?;
        write_features(out, &chain.features)?;
        write_subtables(alloc, out, names, &chain.subtables)?;
    }
    Ok(())
}
