//! What subtables are called.

use aat_inspection::kind_name;
use aat_layout::font::{Subtable, hb_font_t};
use std::alloc::{AllocError, Global};

/// The kind of a subtable of a chain.
pub fn kind_at(font: &hb_font_t, chain: usize, subtable: usize) -> &'static str {
    let chain = font.chains().get(chain);
    let subtable = chain.and_then(|chain| chain.subtables.get(subtable));
    subtable.map_or("unknown", |subtable| kind_name(&subtable.kind))
}

/// Adds the names of the subtables of a chain.
fn add_names(
    alloc: Global,
    names: &mut Vec<String>,
    chain: usize,
    subtables: &[Subtable],
) -> Result<(), AllocError> {
    for (number, subtable) in subtables.iter().enumerate() {
        let kind = kind_name(&subtable.kind);
        names.push(format!(in alloc; "chain {chain} subtable {number}: {kind}")?)?;
    }
    Ok(())
}

/// The names of all subtables of `morx`, in the order of the chains.
pub fn subtable_names(alloc: Global, font: &hb_font_t) -> Result<Vec<String>, AllocError> {
    let mut names = Vec::new(alloc);
    for (number, chain) in font.chains().iter().enumerate() {
        add_names(alloc, &mut names, number, &chain.subtables)?;
    }
    Ok(names)
}
