//! A finding and its place.

use crate::fact::Fact;
use aat_bytes::Tag;
use aat_font::{Feature, hb_font_t};
use aat_machine_tables::{Chain, Subtable};
use std::alloc::AllocError;

/// Where in a font something is found. What it has no part in is `None`.
#[derive(Clone, Copy)]
pub struct Place {
    /// The table.
    pub table: Tag,
    /// The place of the chain in the table `morx`, from 0 on.
    pub chain: Option<usize>,
    /// The place of the subtable in its chain, or in the table `kerx` or `kern`, from 0 on.
    pub subtable: Option<usize>,
    /// The state of the machine.
    pub state: Option<u16>,
    /// The class of the machine.
    pub class: Option<u16>,
    /// The glyph.
    pub glyph: Option<u16>,
    /// The feature type.
    pub feature: Option<u16>,
}

impl Place {
    /// A table as a whole.
    pub fn of_table(table: Tag) -> Place {
        Place {
            table,
            chain: None,
            subtable: None,
            state: None,
            class: None,
            glyph: None,
            feature: None,
        }
    }

    /// The chain and the subtable of `morx` where it is, if it is in one.
    pub(crate) fn subtable_in<'f>(&self, font: &'f hb_font_t) -> Option<(&'f Chain, &'f Subtable)> {
        let chain = font.chains().get(self.chain?)?;
        let subtable = chain.subtables.get(self.subtable?)?;
        Some((chain, subtable))
    }
}

/// A line of glyphs that shows a finding, where no glyph before it changes, and the machine is on. One that is cut was
/// shaped: its glyphs or clusters are not those of its two parts, each shaped by itself with all of the font.
#[derive(Drop)]
pub struct GlyphLine {
    /// The glyphs, in the order of the line.
    pub glyphs: Vec<u16>,
    /// Whether the subtable is for text in columns alone.
    pub is_vertical: bool,
    /// A feature that switches the subtable on, where it is off by default and one does.
    pub feature: Option<Feature>,
    /// How many of its glyphs stand in its first part, where it is shown beside its two parts.
    pub cut: Option<usize>,
}

/// What is found in a font.
#[derive(Drop)]
pub struct Finding {
    /// What is found.
    pub fact: Fact,
    /// Where.
    pub place: Place,
    /// The line that shows it, where it has one.
    pub line: Option<GlyphLine>,
}

/// Puts what is found at a place, and no line shows, behind the other findings.
pub(crate) fn push_fact(
    found: &mut Vec<Finding>,
    place: Place,
    fact: Fact,
) -> Result<(), AllocError> {
    found.push(Finding {
        fact,
        place,
        line: None,
    })?;
    Ok(())
}

/// Adds what is found at a place, if it is.
pub(crate) fn add_fact(
    place: Place,
    fact: Option<Fact>,
    found: &mut Vec<Finding>,
) -> Result<(), AllocError> {
    match fact {
        Some(fact) => push_fact(found, place, fact),
        None => Ok(()),
    }
}
