//! The printed table of an inspector, on a font of two chains.
use aat_inspection::{Table, inspect};
use aat_layout::font::{
    Chain, ChainFeature, Coverage, FaceTables, Feat, Feature, FeatureName, Lookup, Morx, Subtable,
    SubtableKind, hb_font_t, hb_tag_t,
};
use aat_shape::described::drop_font;
use std::alloc::Global;
use std::process::Abort;
use std::test::Fail;

/// A chain with these default flags, in which common ligatures set the bit 2, and subtables with these flags.
fn chain_of(alloc: Global, default_flags: u32, flags: &[u32]) -> Result<Chain, Fail> {
    let mut subtables = Vec::new(alloc);
    for feature_flags in flags {
        let kind = SubtableKind::NonContextual(Lookup::new(alloc, &[(5, 9)])?);
        subtables.push(Subtable::new(kind, Coverage::ALL_DIRECTIONS, *feature_flags))?;
    }
    let feature = ChainFeature::new(1, 2, 2, u32::MAX);
    Ok(Chain::new(default_flags, vec![in alloc; feature]?, subtables))
}

/// A table of two chains.
fn morx_of(alloc: Global) -> Result<Morx, Fail> {
    let mut chains = Vec::new(alloc);
    for (default_flags, flags) in [(1, &[1][..]), (0, &[4, 2, 6])] {
        chains.push(chain_of(alloc, default_flags, flags)?)?;
    }
    Ok(Morx::new(chains)?)
}

/// A font of that table.
fn font_of(alloc: Global) -> Result<hb_font_t, Fail> {
    let feat = Feat::new(alloc, &[FeatureName::new(1, 4, false)])?;
    let morx = morx_of(alloc)?;
    let tables = FaceTables::default().with_feat(feat).with_morx(morx);
    Ok(hb_font_t::from_tables(tables))
}

/// What is printed of ligatures over two clusters.
fn shown_in(alloc: Global, font: &hb_font_t) -> Result<String, Fail> {
    let ligatures = Feature::new(hb_tag_t::from_bytes(b"liga"), 1, 3..5);
    let ranges = inspect(alloc, font, &[ligatures])?;
    Ok(format!(in alloc; "{}", Table(&ranges))?)
}

/// Ligatures are on over two clusters, and each chain has all clusters.
const TEXT: &str = "\
chain       first        last       flags  on
    0           0           2  0x00000001  0
    0           3           4  0x00000003  0
    0           5         end  0x00000001  0
    1           0           2  0x00000000
    1           3           4  0x00000002  1  2
    1           5         end  0x00000000";

#[test]
fn ranges_have_their_text(rt: HostRuntime) -> Result<(), Fail> {
    let font = font_of(rt.alloc())?;
    let shown = shown_in(rt.alloc(), &font);
    drop_font(font);
    let shown = shown?;
    assert!(rt; shown.as_str() == TEXT, "{shown}");
    Ok(())
}
