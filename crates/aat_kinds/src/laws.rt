//! The laws of the kinds as theorems. These calls do nothing: what is proved is their contracts.

ghost use Rattle.aat_kinds.specs.Lawful.{ActsKeepOrder, ActsKeepSmall, ContextsAreLawful, GlyphsAreKept, LaterComponentsAreDeleted};

/// The four contexts meet the laws that a run of the rewriting machine asks for.
#[tactic(auto, using(crate::proofs::LawsHold::contexts_are_lawful))]
pub fn contexts_are_lawful()
    ensures { ContextsAreLawful }
{}

/// At levels that merge clusters, clusters that never fall along the line never fall behind an act, and those that
/// never rise never rise. Each cluster behind an act stood on the line before it.
#[tactic(auto, using(crate::proofs::OrderOfKinds::acts_keep_order))]
pub fn acts_keep_order()
    ensures { ActsKeepOrder }
{}

/// Each glyph id stays at most 0xFFFF behind an act, where the values of lookups, the ligatures and the glyphs that go
/// in are at most 0xFFFF.
#[tactic(auto, using(crate::proofs::LawsHold::acts_keep_small))]
pub fn acts_keep_small()
    ensures { ActsKeepSmall }
{}

/// Rearrangement permutes the glyph ids; contextual, ligature and noncontextual subtables keep the number of glyphs.
#[tactic(auto, using(crate::proofs::OrderOfKinds::glyphs_are_kept))]
pub fn glyphs_are_kept()
    ensures { GlyphsAreKept }
{}

/// Right behind a store, each component behind it that was held until then is the deleted glyph. A later ligature of
/// the same act may be written over one.
pub fn later_components_are_deleted()
    ensures { LaterComponentsAreDeleted }
{}
