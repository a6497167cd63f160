//! Fonts that are described as data, for tests and worked rows: the descriptions, and the making of the fonts.

mod build;
mod data;
mod kerning;
mod kinds;

pub use build::{drop_font, font_of};
pub use data::{
    ChainData, FontData, KernData, KerxData, KindData, LigatureData, MachineData, NO_TABLES, Pair,
    Rule, SubtableData, Value,
};
pub use kinds::machine_of;
