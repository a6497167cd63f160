//! Worked examples of names of glyphs as theorems. This call does nothing: what is proved is its contract.
ghost use Rattle.aat_read_metrics.specs.names.Examples.{OthersHaveNone, Version1HasMacintoshNames, Version2CountsStrings};

/// The definition of the name of a glyph computes to the examples.
#[tactic(auto, unfolding(aat_bytes::specs::Numbers::slice))]
pub fn examples()
    ensures macintosh { Version1HasMacintoshNames }
    ensures strings { Version2CountsStrings }
    ensures none { OthersHaveNone }
{}
