//! The worked rows of requests, and the order of the table of features, as theorems. These calls do nothing: what is
//! proved is their contracts.
ghost use Rattle.aat_map.specs.Examples.{Row3a, Row3b, Row4, Row5, Row7a, Row7b, Row7c, Row7d};
ghost use Rattle.aat_map.specs.Examples.{OlderSmallCapitals, SmallCapitalsOfOlderType};
ghost use Rattle.aat_map.specs.Mappings.{MappingsRise};

/// Ranges follow requests: rows 3, 4 and 5.
pub fn range_rows()
    ensures row_3a { Row3a }
    ensures row_3b { Row3b }
    ensures row_4 { Row4 }
    ensures row_5 { Row5 }
{}

/// Alternates: row 7.
pub fn alternate_rows()
    ensures row_7a { Row7a }
    ensures row_7b { Row7b }
    ensures row_7c { Row7c }
    ensures row_7d { Row7d }
{}

/// The table of features rises strictly by tag.
#[tactic(auto, using(crate::proofs::MappingsRise::mappings_rise))]
pub fn mappings_rise()
    ensures { MappingsRise }
{}

/// Small capitals, older and newer.
pub fn small_capital_rows()
    ensures older_feature { OlderSmallCapitals }
    ensures older_type { SmallCapitalsOfOlderType }
{}
