//! Worked examples of findings as theorems. These calls do nothing: what is proved is their contracts.
ghost use Rattle.aat_findings.specs.Examples.{CyclesStay, DeletedGoesIn, EntriesStay, FeaturesAreTold, GlyphsAreDeleted, GlyphsArePast, LastEnds, LigaturesAreMade, LinesGrow, LinesLead, SettingsClash, ValuesAreRead};

/// The definitions of findings compute to the examples.
#[tactic(auto, unfolding(crate::specs::Growth::leads_to))]
pub fn examples()
    ensures lines { LinesLead }
    ensures stays { EntriesStay }
    ensures settings { SettingsClash }
    ensures features { FeaturesAreTold }
    ensures glyphs { GlyphsArePast }
    ensures deleted { GlyphsAreDeleted }
    ensures growth { LinesGrow }
    ensures inserted { DeletedGoesIn }
    ensures values { ValuesAreRead }
    ensures made { LigaturesAreMade }
    ensures last { LastEnds }
{}

/// From a state of a cycle of entries that stay no glyph is left.
pub fn cycles_stay()
    ensures { CyclesStay }
{}
